//! `&&` and `||` of parallel operands of which the right one ignores the context.

ghost use Rattle.std.specs.Prelude.{◌≡◌, ◌==◌, IfOk, OnOk};
ghost use Rattle.lower_base.specs.declared.emit.Out.TheVariants as O;
ghost use Rattle.lower_base.specs.Drafts.{Makes, a_flag, draft, then_make, with_instr};
ghost use Rattle.lower_expr.specs.Joined.{cleared, is_flag, joined, joins, operation_of};
ghost use Rattle.paris_code.specs.declared.instr.Instr.TheVariants as I;

use crate::kinds::test_bits;
use crate::operands::ignores_context;
use crate::steps::stays_scalar;
use cstar_base::Memory;
use cstar_tree::typed::TExpr;
use lower_base::emit::{first_bits, flag, put};
use paris_code::{Field, Instr, Konst, Operation, Unit};

/// Whether the right operand may be evaluated wherever the left one is.
#[tactic(auto, unfolding(crate::specs::Joined::joins))]
pub fn joins(left: &TExpr, right: &TExpr) -> bool
    ensures { result ≡ joins left.now right.now }
{
    !stays_scalar(left) && !stays_scalar(right) && ignores_context(right)
}

/// Whether the value has one bit.
pub fn is_flag(e: &TExpr) -> bool
    ensures { result ≡ is_flag e.now }
{
    test_bits(e) == 1
}

/// The test flag in a fresh field.
#[tactic(auto, unfolding(lower_base::specs::Drafts::then_make))]
pub fn keep_test(set: u16, u: &mut Unit) -> Result<Field, Memory>
    ensures draft { IfOk result (λ f. then_make (a_flag set (draft u.old)) (λ dest after. Makes dest (with_instr (I.StoreTest dest) after)) ≡ Makes f (draft u.new)) }
{
    let dest = flag(u, set)?;
    put(u, Instr::StoreTest { dest })?;
    Ok(dest)
}

/// Two fields of one bit become the value of a field, by `||` or else `&&`.
#[tactic(auto, unfolding(crate::specs::Joined::joined, crate::specs::Joined::operation_of))]
pub fn join(is_or: bool, dest: Field, left: Field, right: Field, u: &mut Unit) -> Result<(), Memory>
    ensures draft { OnOk result (joined is_or dest left right (draft u.old) ≡ Makes (O.Field dest) (draft u.new)) }
{
    clear(dest, u)?;
    let op = if is_or {
        Operation::Logior
    } else {
        Operation::Logand
    };
    put(
        u,
        Instr::Operate {
            op,
            dest: first_bits(1, dest),
            left,
            right,
        },
    )
}

/// A field of more than one bit becomes 0.
#[tactic(auto, unfolding(crate::specs::Joined::cleared))]
fn clear(dest: Field, u: &mut Unit) -> Result<(), Memory>
    ensures draft { OnOk result (cleared dest (draft u.old) ≡ draft u.new) }
{
    if dest.len == 1 {
        return Ok(());
    }
    put(
        u,
        Instr::MoveConstant {
            dest,
            value: Konst::Imm(0),
        },
    )
}
