//! How many instructions an expression compiles to whose value goes to a variable, decides where a
//! context is narrowed, or is not used.

ghost use Rattle.std.specs.Prelude.{◌≡◌, ◌+◌, true, is_none, IfOk};
ghost use Rattle.cstar_tree.specs.Typed.{type_of};
ghost use Rattle.lower_base.specs.Layouts.{layout};
ghost use Rattle.lower_expr.specs.Effects.{assigned_length, assignment_length, computed_length, converted_to_length, effect_length_of, length_unchanged, logical_to_length, operated_length, own_bits, put_length, settled_length, stepped_length};
ghost use Rattle.lower_expr.specs.Lengths.{used_length_of};

use crate::effects::{assigned_own, fits_field, keeps_bits, stepped_own};
use crate::joined::joins;
use crate::length::{joined_length, length, test_length, used_length};
use crate::operands::{Own, is_plus};
use crate::operator_lengths::{operate_length, right_length, test_put_length};
use crate::steps::{has_word, stays_scalar};
use cstar_base::{Elem, Memory, Op};
use cstar_tree::syntax::AssignOp;
use cstar_tree::typed::TExpr;
use lower_base::View;
use lower_base::emit::plus;
use lower_base::operators::assign_op;

/// The instructions of an expression whose value is not used: what `effect` appends.
#[tactic(auto, unfolding(crate::specs::Effects::effect_length_of, crate::specs::Effects::assignment_length, crate::specs::Effects::step_effect_length))]
pub fn effect_length(view: &View, e: &TExpr) -> Result<u32, Memory>
    ensures { IfOk result (λ n. n ≡ effect_length_of view.now.typed.now (layout view.now.names) e.now) }
{
    match e {
        TExpr::Brackets { inner, .. } => effect_length(view, inner),
        TExpr::Assign {
            ty,
            op,
            target,
            value,
            ..
        } => {
            match assigned_own(*op, target, value) {
                Some(own) => assigned_length(view, own, *op, target, value),
                None => length(view, ty.elem.bits, e),
            }
        }
        TExpr::Step { ty, target, .. } => {
            let Some(own) = stepped_own(target) else {
                return length(view, ty.elem.bits, e);
            };
            stepped_length(view, own.shape.is_none(), target.ty().elem)
        }
        _ => length(view, e.ty().elem.bits, e),
    }
}

/// An assignment that writes its variable itself.
fn assigned_length(
    view: &View,
    own: Own,
    op: AssignOp,
    target: &TExpr,
    value: &TExpr,
) -> Result<u32, Memory>
    ensures { IfOk result (λ n. n ≡ assigned_length view.now.typed.now (layout view.now.names) (is_none own.shape) op (type_of target.now).elem value.now) }
{
    let (scalar, elem) = (own.shape.is_none(), target.ty().elem);
    match assign_op(op) {
        None => put_length(view, scalar, own_bits(scalar, elem), value),
        Some(op) => operated_length(view, scalar, elem, op, value),
    }
}

/// How many bits a variable takes.
#[tactic(auto, unfolding(crate::specs::Effects::own_bits))]
pub fn own_bits(scalar: bool, elem: Elem) -> u8
    ensures { result ≡ own_bits scalar elem }
{
    if scalar { 32 } else { elem.bits }
}

/// A step that writes its variable itself.
fn stepped_length(view: &View, scalar: bool, elem: Elem) -> Result<u32, Memory>
    ensures { IfOk result (λ n. n ≡ stepped_length (layout view.now.names) scalar elem) }
{
    if scalar {
        plus(plus(view.word_length(1)?, 1)?, settled_length(elem))
    } else {
        Ok(1)
    }
}

/// The instruction that converts what was written into a variable of a narrow type.
#[tactic(auto, unfolding(crate::specs::Effects::settled_length))]
fn settled_length(elem: Elem) -> u32
    ensures { result ≡ settled_length elem }
{
    if elem.bits == 32 { 0 } else { 1 }
}

/// An operator on a variable and a value.
#[tactic(auto, unfolding(crate::specs::Effects::operated_length))]
fn operated_length(
    view: &View,
    scalar: bool,
    elem: Elem,
    op: Op,
    value: &TExpr,
) -> Result<u32, Memory>
    ensures { IfOk result (λ n. n ≡ operated_length view.now.typed.now (layout view.now.names) scalar elem op value.now) }
{
    if scalar {
        let n = used_length(view, 32, true, value)?;
        plus(plus(n, operate_length(32, op, true))?, settled_length(elem))
    } else {
        let n = used_length(view, elem.bits, true, value)?;
        right_length(elem.bits, n, op, value)
    }
}

/// A value that becomes that of a register, or so many bits of it that of a field: what `put_to`
/// appends.
#[tactic(auto, unfolding(crate::specs::Effects::put_length))]
pub fn put_length(view: &View, scalar: bool, bits: u8, e: &TExpr) -> Result<u32, Memory>
    ensures { IfOk result (λ n. n ≡ put_length view.now.typed.now (layout view.now.names) scalar bits e.now) }
{
    if has_word(scalar, e) {
        Ok(1)
    } else {
        computed_length(view, scalar, bits, e)
    }
}

/// A value that is no constant.
#[tactic(auto, unfolding(crate::specs::Effects::computed_length))]
fn computed_length(view: &View, scalar: bool, bits: u8, e: &TExpr) -> Result<u32, Memory>
    ensures { IfOk result (λ n. n ≡ computed_length view.now.typed.now (layout view.now.names) scalar bits e.now) }
{
    match e {
        TExpr::Brackets { inner, .. } => computed_length(view, scalar, bits, inner),
        TExpr::Convert { ty, operand } => {
            if goes_unchanged(scalar, bits, ty.elem, operand) {
                computed_length(view, scalar, bits, operand)
            } else {
                converted_length(view, scalar, bits, e, ty.elem, operand)
            }
        }
        TExpr::Unary { op, operand, .. } => {
            if is_plus(*op) {
                computed_length(view, scalar, bits, operand)
            } else {
                length(view, bits, e)
            }
        }
        TExpr::Binary { op, right, .. } => {
            if scalar || fits_field(bits, *op, right) {
                length(view, bits, e)
            } else {
                moved_length(view, bits, e)
            }
        }
        TExpr::LogicalOr { left, right, .. } | TExpr::LogicalAnd { left, right, .. } => {
            logical_to_length(view, scalar, bits, e, left, right)
        }
        TExpr::Scan { .. } => {
            if bits == 32 {
                length(view, bits, e)
            } else {
                moved_length(view, bits, e)
            }
        }
        TExpr::Element { .. }
        | TExpr::LeftIndex { .. }
        | TExpr::Reduce { .. }
        | TExpr::Call { .. } => length(view, bits, e),
        TExpr::Choice { test, .. } => {
            plus(
                length(view, bits, e)?,
                if stays_scalar(test) { 0 } else { 1 },
            )
        }
        TExpr::Pcoord { .. } | TExpr::Variable { .. } | TExpr::GetChar { .. } => Ok(1),
        _ => moved_length(view, bits, e),
    }
}

/// `&&` or `||`, the value `e`.
#[tactic(auto, unfolding(crate::specs::Effects::logical_to_length))]
fn logical_to_length(
    view: &View,
    scalar: bool,
    bits: u8,
    e: &TExpr,
    left: &TExpr,
    right: &TExpr,
) -> Result<u32, Memory>
    ensures { IfOk result (λ n. n ≡ logical_to_length view.now.typed.now (layout view.now.names) scalar bits e.now left.now right.now) }
{
    if !scalar && joins(left, right) {
        joined_length(view, bits, left, right)
    } else {
        moved_length(view, bits, e)
    }
}

/// A value that is moved.
fn moved_length(view: &View, bits: u8, e: &TExpr) -> Result<u32, Memory>
    ensures { IfOk result (λ n. n ≡ used_length_of view.now.typed.now (layout view.now.names) bits true e.now + 1) }
{
    plus(used_length(view, bits, true, e)?, 1)
}

/// Whether so many bits of a converted value are those of the value itself.
#[tactic(auto, unfolding(crate::specs::Effects::length_unchanged))]
fn goes_unchanged(scalar: bool, bits: u8, elem: Elem, inner: &TExpr) -> bool
    ensures { result ≡ length_unchanged scalar bits elem inner.now }
{
    if scalar {
        elem.bits == 32
    } else {
        keeps_bits(bits, elem, inner)
    }
}

/// A value `e`, which is `inner` converted to a type.
#[tactic(auto, unfolding(crate::specs::Effects::converted_to_length))]
fn converted_length(
    view: &View,
    scalar: bool,
    bits: u8,
    e: &TExpr,
    elem: Elem,
    inner: &TExpr,
) -> Result<u32, Memory>
    ensures { IfOk result (λ n. n ≡ converted_to_length view.now.typed.now (layout view.now.names) scalar bits e.now elem inner.now) }
{
    if scalar {
        moved_length(view, 32, inner)
    } else if stays_scalar(inner) {
        moved_length(view, bits, e)
    } else if elem.bits == 1 {
        plus(test_length(view, inner)?, test_put_length(bits))
    } else {
        moved_length(view, elem.bits, inner)
    }
}
