use cstar_base::{Memory, Word};
use field_alloc::place;
use paris_code::{
    Field, Instr, Konst, Operand, Owner, Program, Reduction, ShapeBits, Unit, Virtual,
};
use std::alloc::Global;

fn of_entry(number: u32) -> Field {
    Field {
        set: 0,
        offset: number,
        len: 32,
    }
}

// a value that is folded into a register
fn use_entry(code: &mut Vec<Instr>, number: u32, value: u32) -> Result<(), Memory> {
    let value = Konst::Imm(value);
    let dest = of_entry(number);
    code.push(Instr::MoveConstant { dest, value })?;
    code.push(Instr::Global {
        combiner: Reduction::SAdd,
        dest: number,
        source: of_entry(number),
    })?;
    Ok(())
}

// one unit and one set, with two fields of which each is used once, one behind the other
fn two_fields(alloc: Global) -> Result<Program, Memory> {
    let entry = Virtual {
        set: 0,
        len: 32,
        owner: Owner::Own,
    };
    let fields = Vec::from_array(alloc, [entry, entry])?;
    let mut code = Vec::new(alloc);
    use_entry(&mut code, 0, 1)?;
    use_entry(&mut code, 1, 2)?;
    code.push(Instr::FrontHalt)?;
    let mut units = Vec::new(alloc);
    units.push(Unit {
        name: Word::of(Vec::from_array(alloc, *b"main")?),
        regs: 2,
        homes: Vec::new(alloc),
        fields,
        code,
    })?;
    let mut shapes = Vec::new(alloc);
    shapes.push(ShapeBits {
        extents: Vec::from_array(alloc, [8])?,
        bits: 32,
    })?;
    Ok(Program {
        shapes,
        slots: 2,
        depth: 0,
        units,
        finals: Vec::new(alloc),
    })
}

// The offset of each field that the program names.
fn offsets(alloc: Global, p: &Program) -> Result<Vec<u32>, Memory> {
    let mut offsets = Vec::new(alloc);
    for unit in &p.units {
        for instr in &unit.code {
            for operand in instr.row().operands() {
                if let Operand::Bits(field, _) = operand {
                    offsets.push(field.offset)?;
                }
            }
        }
    }
    Ok(offsets)
}

#[test]
fn fields_that_do_not_live_together_share_their_bits(rt: HostRuntime) {
    let Ok(program) = two_fields(rt.alloc()) else {
        panic!(rt; "memory");
    };
    let Ok(placed) = place(rt.alloc(), program) else {
        panic!(rt; "memory");
    };
    let Ok(offsets) = offsets(rt.alloc(), &placed) else {
        panic!(rt; "memory");
    };
    assert_eq!(rt; offsets.as_slice(), [0; 4].as_slice());
}
