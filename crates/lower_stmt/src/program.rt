//! A program from a typed program: one unit for each instance.

ghost use Rattle.std.specs.Prelude.{◌≡◌, ◌<◌, ◌+◌, ◌-◌, ◌^◌, ◌++◌, length, map, IfOk, OnOk};
ghost use Rattle.cstar_tree.specs.IsTyped.{IsTyped};
ghost use Rattle.lower_base.specs.Drafts.{IsMade, Makes, draft};
ghost use Rattle.lower_base.specs.Layouts.{layout, entries_of};
ghost use Rattle.lower_stmt.specs.Lowered.{IsLowered, IsLoweredWith};
ghost use Rattle.lower_stmt.specs.Programs.{HasEveryUnit, begun, blank, body_frame, constants_put, elements_begun, element_finals, final_name_of, finals_of, instructions_in, outcome_of, own_field_of, own_fields_of, own_result_of, space, spaces_of, start_value_of, start_values_of, unit_of, units_of, variable_finals};

use crate::constants::words_in;
use crate::length::Saved;
use crate::statement::{Body, Frame, Outcome, end};
use cstar_base::{Memory, Word};
use cstar_tree::typed::{Instance, Typed, VarInfo, Variable};
use itoa::Buffer;
use lower_base::View;
use lower_base::emit::{count, entry, plus, put};
use lower_base::names::entries_of;
use paris_code::{Field, Final, Instr, Konst, Owner, Program, ShapeBits, Unit};
use std::alloc::Global;

/// The program over virtual fields that `specs/Programs` describes: a unit for each instance, `main`
/// first, whose registers begin behind those of the unit before it; for each shape a set, of as many
/// bits as the typed program needs there; and as finals the parallel variables of the file.
///
/// `Memory` comes where memory ends, where a count, the place that a jump leads to, or the number of
/// a register or a field would be 2^32 or more, and where all units have as many instructions together.
/// There is code for each instance, as typing makes it.
pub fn lower(alloc: Global, t: &Typed) -> Result<Program, Memory>
    requires typed { IsTyped t.now }
    requires units { HasEveryUnit t.now }
    ensures lowered { IfOk result (λ program. IsLowered t.now program) }
    ensures each_instance { IfOk result (λ program. length program.units.items ≡ length t.now.instances.items) }
    ensures numbered { IfOk result (λ program. instructions_in (map draft program.units.items) < 2 ^ 32) }
    ensures each_shape { IfOk result (λ program. length program.shapes.items ≡ length t.now.shapes.items) }
{
    let words = words_of(alloc, t)?;
    lower_with(alloc, t, words)
}

/// The numbers that the program needs in registers, each once: those that its code, with no constant
/// in a register yet, puts there.
fn words_of(alloc: Global, t: &Typed) -> Result<Vec<u32>, Memory>
    requires typed { IsTyped t.now }
    requires units { HasEveryUnit t.now }
{
    let program = lower_with(alloc, t, Vec::new(alloc))?;
    let view = View::of(alloc, t, Vec::new(alloc))?;
    words_in(alloc, &program, view.first_free()?)
}

/// The program with these constants in registers.
#[tactic(auto, unfolding(crate::specs::Programs::units_of))]
fn lower_with(alloc: Global, t: &Typed, words: Vec<u32>) -> Result<Program, Memory>
    requires typed { IsTyped t.now }
    requires units { HasEveryUnit t.now }
    ensures lowered { IfOk result (λ program. IsLoweredWith t.now words.items program) }
    ensures each_instance { IfOk result (λ program. length program.units.items ≡ length t.now.instances.items) }
    ensures numbered { IfOk result (λ program. instructions_in (map draft program.units.items) < 2 ^ 32) }
    ensures each_shape { IfOk result (λ program. length program.shapes.items ≡ length t.now.shapes.items) }
{
    let mut view = View::of(alloc, t, words)?;
    let mut units: Vec<Unit> = Vec::new(alloc);
    let mut slots = view.first_free()?;
    let mut instructions = 0;
    for (number, instance) in t.instances.iter().enumerate() {
        view.enter(number)?;
        let unit = lower_unit(&view, instance, number == 0, slots)?;
        slots = unit.regs;
        instructions = plus(instructions, count(unit.code.len())?)?;
        units.push(unit)?;
    }
    Ok(Program {
        shapes: shapes(alloc, t)?,
        slots,
        depth: count(t.instances.len().saturating_sub(1))?,
        units,
        finals: finals(alloc, t)?,
    })
}

/// The unit of an instance, whose registers begin at `regs`.
#[tactic(auto, unfolding(lower_base::specs::Drafts::IsMade, crate::specs::Programs::unit_of, lower_base::specs::Drafts::then_make))]
fn lower_unit(view: &View, instance: &Instance, is_main: bool, regs: u32) -> Result<Unit, Memory>
    requires made { IsMade (unit_of view.now.typed.now (layout view.now.names) is_main regs instance.now) }
    ensures draft { IfOk result (λ unit. unit_of view.now.typed.now (layout view.now.names) is_main regs instance.now ≡ Makes tt (draft unit)) }
{
    let mut unit = blank(view.alloc, &instance.name, regs)?;
    own_fields(instance.params.as_slice(), &mut unit)?;
    own_result(&instance.result, &mut unit)?;
    begin(view, is_main, &mut unit)?;
    let mut body = Body {
        unit,
        contexts: Vec::new(view.alloc),
        declared: 0,
    };
    body.whole(view, &instance.body, body_frame(is_main, instance))?;
    end(is_main, &instance.body, &mut body.unit)?;
    Ok(body.unit)
}

/// Where the body of an instance stands: in no loop, and no context is saved.
#[tactic(auto, unfolding(crate::specs::Programs::body_frame))]
fn body_frame(is_main: bool, instance: &Instance) -> Frame
    ensures { result ≡ body_frame is_main instance.now }
{
    Frame {
        is_main,
        outcome: outcome(&instance.result),
        after: 0,
        next: 0,
        saved: Saved {
            in_loop: 0,
            in_all: 0,
        },
    }
}

/// A unit that has nothing yet but its name.
#[tactic(auto, unfolding(crate::specs::Programs::blank, lower_base::specs::Drafts::draft))]
fn blank(alloc: Global, name: &Word, regs: u32) -> Result<Unit, Memory>
    ensures draft { IfOk result (λ unit. draft unit ≡ blank name.now regs) }
{
    Ok(Unit {
        name: name.copied(alloc)?,
        regs,
        homes: Vec::new(alloc),
        fields: Vec::new(alloc),
        code: Vec::new(alloc),
    })
}

/// The entries of parallel parameters.
#[tactic(auto, using(std::proofs::lemmas::List::drop_more), unfolding(crate::specs::Programs::own_fields_of, lower_base::specs::Drafts::then_make))]
fn own_fields(params: &[VarInfo], u: &mut Unit) -> Result<(), Memory>
    ensures draft { OnOk result (own_fields_of params.now (draft u.old) ≡ Makes tt (draft u.new)) }
{
    for param in params {
        own_field(param, u)?;
    }
    Ok(())
}

/// The entry of a parallel result.
#[tactic(auto, unfolding(crate::specs::Programs::own_result_of))]
fn own_result(info: &Option<VarInfo>, u: &mut Unit) -> Result<(), Memory>
    ensures draft { OnOk result (own_result_of info.now (draft u.old) ≡ Makes tt (draft u.new)) }
{
    match info {
        Some(info) => own_field(info, u),
        None => Ok(()),
    }
}

/// The entry of a parallel parameter or result.
#[tactic(auto, unfolding(crate::specs::Programs::own_field_of, lower_base::specs::Drafts::then_make))]
fn own_field(info: &VarInfo, u: &mut Unit) -> Result<(), Memory>
    ensures draft { OnOk result (own_field_of info.now (draft u.old) ≡ Makes tt (draft u.new)) }
{
    match info.shape {
        Some(shape) => {
            entry(u, shape, info.elem.bits, Owner::Own)?;
            Ok(())
        }
        None => Ok(()),
    }
}

/// What a function with such a result gives back.
#[tactic(auto, unfolding(crate::specs::Programs::outcome_of))]
fn outcome(info: &Option<VarInfo>) -> Outcome
    ensures { result ≡ outcome_of info.now }
{
    match info {
        None => Outcome::Nothing,
        Some(info) => match info.shape {
            None => Outcome::Scalar,
            Some(_) => Outcome::Parallel,
        },
    }
}

/// `main` begins with the constants, and with the values of the file's variables. At the start every
/// position is active.
#[tactic(auto, unfolding(lower_base::specs::Drafts::IsMade, crate::specs::Programs::begun))]
fn begin(view: &View, is_main: bool, u: &mut Unit) -> Result<(), Memory>
    requires made { IsMade (begun view.now.typed.now (layout view.now.names) is_main (draft u.old)) }
    ensures draft { OnOk result (begun view.now.typed.now (layout view.now.names) is_main (draft u.old) ≡ Makes tt (draft u.new)) }
{
    if is_main {
        put_constants(view, u)?;
        start_values(view, u)
    } else {
        Ok(())
    }
}

/// The constants become those of their registers.
#[tactic(auto, unfolding(crate::specs::Programs::constants_put, lower_base::specs::Layouts::layout))]
fn put_constants(view: &View, u: &mut Unit) -> Result<(), Memory>
    ensures draft { OnOk result (constants_put (layout view.now.names).constants (layout view.now.names).end (draft u.old) ≡ draft u.new) }
{
    let mut dest = view.names.end;
    for word in view.names.constants.as_slice() {
        put(u, Instr::FrontConst { dest, value: *word })?;
        dest = plus(dest, 1)?;
    }
    Ok(())
}

/// The variables of the file that do not begin as zero.
#[tactic(auto, using(std::proofs::lemmas::List::drop_more), unfolding(lower_base::specs::Drafts::IsMade, crate::specs::Programs::start_values_of, lower_base::specs::Drafts::then_make))]
fn start_values(view: &View, u: &mut Unit) -> Result<(), Memory>
    requires made { IsMade (start_values_of view.now.typed.now (layout view.now.names) view.now.typed.now.vars.items 0 (draft u.old)) }
    ensures draft { OnOk result (start_values_of view.now.typed.now (layout view.now.names) view.now.typed.now.vars.items 0 (draft u.old) ≡ Makes tt (draft u.new)) }
{
    let mut number = 0;
    for info in view.typed.vars.as_slice() {
        start_value(view, info, number, u)?;
        number = plus(number, 1)?;
    }
    Ok(())
}

/// A variable of the file becomes what it begins as, unless that is zero.
#[tactic(auto, unfolding(lower_base::specs::Drafts::IsMade, crate::specs::Programs::start_value_of, crate::specs::Programs::scalar_begun))]
fn start_value(view: &View, info: &VarInfo, number: u32, u: &mut Unit) -> Result<(), Memory>
    requires made { IsMade (start_value_of view.now.typed.now (layout view.now.names) info.now number (draft u.old)) }
    ensures draft { OnOk result (start_value_of view.now.typed.now (layout view.now.names) info.now number (draft u.old) ≡ Makes tt (draft u.new)) }
{
    if info.start == 0 {
        return Ok(());
    }
    if info.shape.is_some() {
        return begin_elements(view, number, info.start, entries_of(info), u);
    }
    let dest = view.register(Variable::File(number))?;
    put(
        u,
        Instr::FrontConst {
            dest,
            value: info.start,
        },
    )?;
    put(
        u,
        Instr::FrontConvert {
            dest,
            source: dest,
            kind: info.elem,
        },
    )
}

/// The elements of a variable of the file take a value.
#[tactic(auto, using(crate::proofs::BegunElements::begun_step), unfolding(lower_base::specs::Drafts::IsMade, crate::specs::Programs::elements_begun))]
fn begin_elements(
    view: &View,
    number: u32,
    value: u32,
    elements: u32,
    u: &mut Unit,
) -> Result<(), Memory>
    requires made { IsMade (elements_begun view.now.typed.now (layout view.now.names) number value elements 0 (draft u.old)) }
    ensures draft { OnOk result (elements_begun view.now.typed.now (layout view.now.names) number value elements 0 (draft u.old) ≡ Makes tt (draft u.new)) }
{
    for element in 0..elements {
        let dest = view.field(Variable::File(number), element, u)?;
        put(
            u,
            Instr::MoveConstant {
                dest,
                value: Konst::Imm(value),
            },
        )?;
    }
    Ok(())
}

/// The sets: the extents of each shape, and its room in bits.
#[tactic(auto, using(std::proofs::lemmas::List::drop_more), unfolding(crate::specs::Programs::spaces_of, crate::specs::Programs::space))]
fn shapes(alloc: Global, t: &Typed) -> Result<Vec<ShapeBits>, Memory>
    requires { length t.now.need.items ≡ length t.now.shapes.items }
    ensures spaces { IfOk result (λ shapes. map space shapes.items ≡ spaces_of t.now.shapes.items t.now.need.items) }
    ensures count { IfOk result (λ shapes. length shapes.items ≡ length t.now.shapes.items) }
{
    let mut shapes = Vec::new(alloc);
    for (number, shape) in t.shapes.iter().enumerate() {
        let extents = Vec::from_slice(alloc, shape.extents.as_slice())?;
        let bits = t.need[number];
        shapes.push(ShapeBits { extents, bits })?;
    }
    Ok(shapes)
}

/// The parallel variables of the file, an array as its elements, with their numbers.
#[tactic(auto, using(std::proofs::lemmas::List::drop_more), unfolding(crate::specs::Programs::finals_of))]
fn finals(alloc: Global, t: &Typed) -> Result<Vec<Final>, Memory>
    ensures { IfOk result (λ finals. finals.items ≡ finals_of t.now.vars.items 0) }
{
    let mut finals = Vec::new(alloc);
    for info in t.vars.as_slice() {
        add_finals(alloc, info, &mut finals)?;
    }
    Ok(finals)
}

/// The elements of a variable, where it is parallel.
#[tactic(auto, unfolding(crate::specs::Programs::variable_finals, lower_base::specs::Layouts::entries_of))]
fn add_finals(alloc: Global, info: &VarInfo, finals: &mut Vec<Final>) -> Result<(), Memory>
    ensures items { OnOk result (finals.new.items ≡ finals.old.items ++ variable_finals info.now (length finals.old.items)) }
    ensures count { OnOk result (length finals.new.items ≡ length finals.old.items + entries_of info.now) }
{
    match info.shape {
        None => Ok(()),
        Some(set) => add_elements(alloc, info, set, finals),
    }
}

/// The elements of a parallel variable.
#[tactic(auto, unfolding(crate::specs::Programs::element_finals))]
fn add_elements(
    alloc: Global,
    info: &VarInfo,
    set: u16,
    finals: &mut Vec<Final>,
) -> Result<(), Memory>
    ensures items { OnOk result (finals.new.items ≡ finals.old.items ++ element_finals info.now set (entries_of info.now) 0 (length finals.old.items)) }
    ensures count { OnOk result (length finals.new.items ≡ length finals.old.items + entries_of info.now) }
{
    for element in 0..entries_of(info) {
        let name = final_name(alloc, info, element)?;
        let field = Field {
            set,
            offset: count(finals.len())?,
            len: info.elem.bits,
        };
        finals.push(Final {
            name,
            elem: info.elem,
            field,
        })?;
    }
    Ok(())
}

/// The name of a variable, and for an element of an array its number in square brackets.
#[tactic(auto, unfolding(crate::specs::Programs::final_name_of))]
fn final_name(alloc: Global, info: &VarInfo, element: u32) -> Result<Word, Memory>
    ensures { IfOk result (λ name. name ≡ final_name_of info.now element) }
{
    if info.array.is_none() {
        return info.name.copied(alloc);
    }
    let mut bytes = Vec::from_slice(alloc, info.name.bytes())?;
    bytes.push(b'[')?;
    let mut digits = Buffer::new();
    bytes.extend_from_slice(digits.format(element).as_bytes())?;
    bytes.push(b']')?;
    Ok(Word::of(bytes))
}
