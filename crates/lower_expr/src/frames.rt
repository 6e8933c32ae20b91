//! The code of a call: the called instance's result and parallel parameters become zero, the
//! parameters take the arguments, a turn is spent, and the result is copied back.

ghost use Rattle.std.specs.Prelude.{◌≡◌, IfOk, OnOk};
ghost use Rattle.lower_base.specs.declared.emit.Out.TheVariants as O;
ghost use Rattle.lower_base.specs.Drafts.{IsMade, Makes, draft, out_of};
ghost use Rattle.lower_base.specs.Layouts.{layout};
ghost use Rattle.lower_expr.specs.Frames.{turn_and_call, zeroed_entry, register_given, field_given, result_given, finished, argument_passed, passed, called};

use crate::steps::{set, set_field};
use cstar_base::Memory;
use cstar_tree::typed::{Instance, VarInfo};
use lower_base::emit::{entry, plus, put};
use lower_base::{Operand, Out, View};
use paris_code::{Field, Instr, Owner, Unit};

/// Calls an instance with these arguments, and answers where its result is.
#[tactic(auto, unfolding(lower_base::specs::Drafts::IsMade, crate::specs::Frames::called, lower_base::specs::Layouts::layout, lower_base::specs::Drafts::from))]
pub fn enter(
    view: &View,
    number: u32,
    arguments: &[Out],
    dest: Operand,
    u: &mut Unit,
) -> Result<Out, Memory>
    requires made { IsMade (called view.now.typed.now (layout view.now.names) number arguments.now (out_of dest) (draft u.old)) }
    ensures draft { IfOk result (λ out. called view.now.typed.now (layout view.now.names) number arguments.now (out_of dest) (draft u.old) ≡ Makes out (draft u.new)) }
{
    let (Some(callee), Some(base)) = (
        view.typed.instances.get(number as usize),
        view.names.bases.get(number as usize),
    ) else {
        unreachable!()
    };
    pass_all(
        number,
        callee,
        callee.params.as_slice(),
        arguments,
        *base,
        dest,
        u,
    )
}

/// Each parameter takes its argument, and then the instance is called.
#[tactic(auto, unfolding(lower_base::specs::Drafts::IsMade, crate::specs::Frames::passed, lower_base::specs::Drafts::then_make))]
fn pass_all(
    unit: u32,
    callee: &Instance,
    params: &[VarInfo],
    arguments: &[Out],
    base: u32,
    dest: Operand,
    u: &mut Unit,
) -> Result<Out, Memory>
    requires made { IsMade (passed unit callee.now.result params.now arguments.now base 0 (out_of dest) (draft u.old)) }
    ensures draft { IfOk result (λ out. passed unit callee.now.result params.now arguments.now base 0 (out_of dest) (draft u.old) ≡ Makes out (draft u.new)) }
{
    let mut register = base;
    let mut index = 0u32;
    let mut next = 0usize;
    for param in params {
        let Some(argument) = arguments.get(next) else {
            return finish(callee, unit, register, index, dest, u);
        };
        index = pass(unit, param, register, index, *argument, u)?;
        register = plus(register, 1)?;
        next = next.saturating_add(1);
    }
    finish(callee, unit, register, index, dest, u)
}

/// A parameter takes its argument; answers the number of the next parallel one.
#[tactic(auto, unfolding(lower_base::specs::Drafts::IsMade, lower_base::specs::Drafts::IsSomewhere, crate::specs::Frames::argument_passed, crate::specs::Steps::put_value, crate::specs::Steps::put_in_field, lower_base::specs::Drafts::in_register, lower_base::specs::Drafts::then_make))]
fn pass(
    unit: u32,
    param: &VarInfo,
    register: u32,
    index: u32,
    argument: Out,
    u: &mut Unit,
) -> Result<u32, Memory>
    requires made { IsMade (argument_passed unit param.now register index argument (draft u.old)) }
    ensures draft { IfOk result (λ next. argument_passed unit param.now register index argument (draft u.old) ≡ Makes next (draft u.new)) }
{
    match param.shape {
        None => {
            set(Operand::Register(register), argument.operand(), u)?;
            Ok(index)
        }
        Some(shape) => {
            let place = zeroed(unit, shape, param.elem.bits, index, u)?;
            set_field(place, argument.operand(), u)?;
            plus(index, 1)
        }
    }
}

/// An entry for a field of the called unit, which becomes zero everywhere.
#[tactic(auto, unfolding(crate::specs::Frames::zeroed_entry, lower_base::specs::Drafts::then_make))]
fn zeroed(unit: u32, set: u16, bits: u8, index: u32, u: &mut Unit) -> Result<Field, Memory>
    ensures draft { IfOk result (λ f. zeroed_entry unit set bits index (draft u.old) ≡ Makes f (draft u.new)) }
{
    let place = entry(u, set, bits, Owner::Of { unit, index })?;
    put(u, Instr::MoveZeroAlways { dest: place })?;
    Ok(place)
}

/// The result becomes zero, a turn is spent, and the instance is called.
#[tactic(auto, unfolding(lower_base::specs::Drafts::IsMade, crate::specs::Frames::finished, crate::specs::Frames::result_given))]
fn finish(
    callee: &Instance,
    unit: u32,
    register: u32,
    index: u32,
    dest: Operand,
    u: &mut Unit,
) -> Result<Out, Memory>
    requires made { IsMade (finished unit callee.now.result register index (out_of dest) (draft u.old)) }
    ensures draft { IfOk result (λ out. finished unit callee.now.result register index (out_of dest) (draft u.old) ≡ Makes out (draft u.new)) }
{
    match &callee.result {
        None => {
            spend_and_call(unit, u)?;
            Ok(Out::Nothing)
        }
        Some(info) => match info.shape {
            None => give_register(unit, register, dest, u),
            Some(shape) => give_field(unit, info, shape, index, dest, u),
        },
    }
}

/// The call, whose result is in a register.
#[tactic(auto, unfolding(lower_base::specs::Drafts::IsMade, lower_base::specs::Drafts::InRegister, crate::specs::Frames::register_given, lower_base::specs::Drafts::in_register))]
fn give_register(unit: u32, source: u32, dest: Operand, u: &mut Unit) -> Result<Out, Memory>
    requires made { IsMade (register_given unit source (out_of dest) (draft u.old)) }
    ensures draft { IfOk result (λ out. register_given unit source (out_of dest) (draft u.old) ≡ Makes out (draft u.new)) }
{
    let register = dest.register();
    put(
        u,
        Instr::FrontConst {
            dest: source,
            value: 0,
        },
    )?;
    spend_and_call(unit, u)?;
    put(
        u,
        Instr::FrontMove {
            dest: register,
            source,
        },
    )?;
    Ok(dest.out())
}

/// The call, whose result is in an entry of the called unit.
#[tactic(auto, unfolding(lower_base::specs::Drafts::IsMade, lower_base::specs::Drafts::InField, crate::specs::Frames::field_given, lower_base::specs::Drafts::then_make, lower_base::specs::Drafts::in_field))]
fn give_field(
    unit: u32,
    info: &VarInfo,
    set: u16,
    index: u32,
    dest: Operand,
    u: &mut Unit,
) -> Result<Out, Memory>
    requires made { IsMade (field_given unit info.now set index (out_of dest) (draft u.old)) }
    ensures draft { IfOk result (λ out. field_given unit info.now set index (out_of dest) (draft u.old) ≡ Makes out (draft u.new)) }
{
    let source = zeroed(unit, set, info.elem.bits, index, u)?;
    let field = dest.field();
    spend_and_call(unit, u)?;
    put(
        u,
        Instr::Move {
            signed: info.elem.signed,
            dest: field,
            source,
        },
    )?;
    Ok(dest.out())
}

/// A turn, and the call.
#[tactic(auto, unfolding(crate::specs::Frames::turn_and_call))]
fn spend_and_call(unit: u32, u: &mut Unit) -> Result<(), Memory>
    ensures draft { OnOk result (turn_and_call unit (draft u.old) ≡ draft u.new) }
{
    put(u, Instr::FrontTurn)?;
    put(u, Instr::FrontCall { unit })
}
