//! One list of code for all units.

ghost use Rattle.std.specs.Prelude.{◌≡◌, [], ◌∷◌, ◌++◌, map, length, OnOk, IfOk};
ghost use Rattle.cstar_link.specs.Linked.{moved_by, IsLinked};

use crate::sets::fitted;
use crate::target::moved;
use cstar_base::Memory;
use paris_code::{Entry, Image, Instr, Program, Unit};
use std::alloc::Global;

/// The image of a placed program: its units' code in one list, with each jump target moved by where
/// its unit begins. Each set has the bits up to the end of its furthest field, if those are fewer.
pub fn link(alloc: Global, p: Program) -> Result<Image, Memory>
    ensures { IfOk result (λ image. IsLinked p image) }
{
    let Program {
        shapes,
        slots,
        depth,
        units,
        finals,
    } = p;
    let mut entries = Vec::new(alloc);
    let mut code = Vec::new(alloc);
    for unit in units {
        join(unit, &mut entries, &mut code)?;
    }
    let shapes = fitted(alloc, shapes, code.as_slice(), finals.as_slice())?;
    Ok(Image {
        shapes,
        slots,
        depth,
        units: entries,
        finals,
        code,
    })
}

/// One more unit behind the code of the others.
fn join(unit: Unit, entries: &mut Vec<Entry>, code: &mut Vec<Instr>) -> Result<(), Memory>
    ensures code { OnOk result (code.new.items ≡ code.old.items ++ map (moved_by (length code.old.items)) unit.code.items) }
    ensures entries { OnOk result (entries.new.items ≡ entries.old.items ++ record { name = unit.name; start = length code.old.items } ∷ []) }
{
    let Ok(start) = u32::try_from(code.len()) else {
        return Err(Memory);
    };
    let Unit {
        name,
        code: instructions,
        ..
    } = unit;
    entries.push(Entry { name, start })?;
    append(instructions, start, code)
}

/// The unit's instructions behind the others.
fn append(instructions: Vec<Instr>, start: u32, code: &mut Vec<Instr>) -> Result<(), Memory>
    ensures { OnOk result (code.new.items ≡ code.old.items ++ map (moved_by start) instructions.items) }
{
    for instr in instructions {
        let instr = moved(instr, start)?;
        code.push(instr)?;
    }
    Ok(())
}
