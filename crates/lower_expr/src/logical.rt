//! The jumps and the narrowed contexts of `&&`, `||` and `?:`.

ghost use Rattle.std.specs.Prelude.{◌≡◌, IfOk, OnOk};
ghost use Rattle.lower_base.specs.Drafts.{IsMade, Makes, draft, out_of};
ghost use Rattle.lower_expr.specs.Values.{jump_if_decided, jumped, narrowed_by, decided, limited, logical_ended, turned_over};

use cstar_base::Memory;
use lower_base::emit::{here, plus, put};
use lower_base::{Operand, Out};
use paris_code::{Field, Instr, Unit};

/// Jumps where the left operand of `&&` is zero, or that of `||` is not.
#[tactic(auto, unfolding(crate::specs::Values::jump_if_decided))]
fn jump_if_decided(is_or: bool, test: u32, target: u32, u: &mut Unit) -> Result<(), Memory>
    ensures draft { OnOk result (jump_if_decided is_or test target (draft u.old) ≡ draft u.new) }
{
    if is_or {
        put(u, Instr::FrontJumpNonzero { test, target })
    } else {
        put(u, Instr::FrontJumpZero { test, target })
    }
}

/// Narrows the context to where the test flag of the left operand of `&&` is 1, or that of `||` is 0.
#[tactic(auto, unfolding(crate::specs::Values::narrowed_by))]
pub fn narrow(is_or: bool, set: u16, u: &mut Unit) -> Result<(), Memory>
    ensures draft { OnOk result (narrowed_by is_or set (draft u.old) ≡ draft u.new) }
{
    if is_or {
        put(u, Instr::LogandcContextWithTest { set })
    } else {
        put(u, Instr::LogandContextWithTest { set })
    }
}

/// Jumps over `n` instructions and `own` where the first operand decides, and answers the place
/// behind them.
#[tactic(auto, unfolding(lower_base::specs::Drafts::IsMade, lower_base::specs::Drafts::InRegister, crate::specs::Values::decided, lower_base::specs::Drafts::in_register))]
pub fn decide(is_or: bool, v: Operand, n: u32, own: u32, u: &mut Unit) -> Result<u32, Memory>
    requires made { IsMade (decided is_or (out_of v) n own (draft u.old)) }
    ensures draft { IfOk result (λ end. decided is_or (out_of v) n own (draft u.old) ≡ Makes end (draft u.new)) }
{
    let test = v.register();
    let end = plus(plus(here(u)?, n)?, own)?;
    jump_if_decided(is_or, test, end, u)?;
    Ok(end)
}

/// Saves the context and narrows it to where a condition holds.
#[tactic(auto, unfolding(lower_base::specs::Drafts::IsMade, lower_base::specs::Drafts::InField, crate::specs::Values::limited, lower_base::specs::Drafts::in_field))]
pub fn limit(saved: Field, v: Operand, u: &mut Unit) -> Result<Field, Memory>
    requires made { IsMade (limited saved (out_of v) (draft u.old)) }
    ensures draft { IfOk result (λ f. limited saved (out_of v) (draft u.old) ≡ Makes f (draft u.new)) }
{
    let source = v.field();
    put(u, Instr::StoreContext { dest: saved })?;
    put(u, Instr::NeZero { source })?;
    narrow(false, source.set, u)?;
    Ok(source)
}

/// The right operand decides the result of `&&` or `||` of scalars.
#[tactic(auto, unfolding(lower_base::specs::Drafts::IsMade, lower_base::specs::Drafts::InRegister, crate::specs::Values::logical_ended, lower_base::specs::Drafts::in_register))]
pub fn end_logical(
    is_or: bool,
    dest: u32,
    w: Operand,
    end: u32,
    u: &mut Unit,
) -> Result<Out, Memory>
    requires made { IsMade (logical_ended is_or dest (out_of w) end (draft u.old)) }
    ensures draft { IfOk result (λ out. logical_ended is_or dest (out_of w) end (draft u.old) ≡ Makes out (draft u.new)) }
{
    jump_if_decided(is_or, w.register(), end, u)?;
    let value = u32::from(!is_or);
    put(u, Instr::FrontConst { dest, value })?;
    Ok(Out::Scalar(dest))
}

/// Jumps over the two instructions that end `&&` or `||` where a scalar right operand decides.
#[tactic(auto, unfolding(lower_base::specs::Drafts::IsMade, lower_base::specs::Drafts::InRegister, crate::specs::Values::jumped, lower_base::specs::Drafts::in_register))]
pub fn jump_to_end(is_or: bool, w: Operand, u: &mut Unit) -> Result<(), Memory>
    requires made { IsMade (jumped is_or (out_of w) (draft u.old)) }
    ensures draft { OnOk result (jumped is_or (out_of w) (draft u.old) ≡ Makes tt (draft u.new)) }
{
    let test = w.register();
    let end = plus(here(u)?, 2)?;
    jump_if_decided(is_or, test, end, u)
}

/// Restores the context and narrows it to where the condition is zero.
#[tactic(auto, unfolding(crate::specs::Values::turned_over))]
pub fn turn_over(saved: Field, condition: Field, u: &mut Unit) -> Result<(), Memory>
    ensures draft { OnOk result (turned_over saved condition (draft u.old) ≡ draft u.new) }
{
    put(u, Instr::LoadContext { source: saved })?;
    put(u, Instr::NeZero { source: condition })?;
    narrow(true, condition.set, u)
}
