//! How many instructions operators, conversions and `?:` have beside the code of their operands.

ghost use Rattle.std.specs.Prelude.{◌≡◌, ◌≤◌, IfOk};
ghost use Rattle.lower_base.specs.Layouts.{layout};
ghost use Rattle.lower_expr.specs.Lengths.{compared_length, test_put_length, conversion_length, unary_length, operate_length, spread_length, right_length, binary_length, spare_length, choice_length, reduce_length, negative_length};

use crate::steps::{constant_word, immediate, stays_scalar};
use cstar_base::{Elem, Memory, Op};
use cstar_tree::syntax::ReduceOp;
use cstar_tree::typed::{TExpr, UnaryOp};
use lower_base::View;
use lower_base::emit::plus;
use lower_base::kinds::fold_length;
use lower_base::operators::{divides, is_relation, reduce_op};

/// An expression of this length, with its value in a field.
#[tactic(auto, unfolding(crate::specs::Lengths::spread_length))]
pub fn spread_by(n: u32, e: &TExpr) -> Result<u32, Memory>
    ensures { IfOk result (λ sum. sum ≡ spread_length n e.now) }
{
    match constant_word(e) {
        Some(_) => Ok(1),
        None => plus(n, if stays_scalar(e) { 1 } else { 0 }),
    }
}

/// A binary operator and its operands, by their lengths.
#[tactic(auto, unfolding(crate::specs::Lengths::binary_length))]
pub fn binary_length(
    scalar: bool,
    bits: u8,
    op: Op,
    a: u32,
    left: &TExpr,
    b: u32,
    right: &TExpr,
) -> Result<u32, Memory>
    ensures { IfOk result (λ n. n ≡ binary_length scalar bits op a left.now b right.now) }
{
    if scalar {
        plus(plus(a, b)?, operate_length(bits, op, true))
    } else {
        plus(spread_by(a, left)?, right_length(bits, b, op, right)?)
    }
}

/// A right operand of a parallel operation, and the operation.
#[tactic(auto, unfolding(crate::specs::Lengths::right_length))]
pub fn right_length(bits: u8, n: u32, op: Op, e: &TExpr) -> Result<u32, Memory>
    ensures { IfOk result (λ sum. sum ≡ right_length bits n op e.now) }
{
    match immediate(op, e) {
        Some(_) => {
            if is_relation(op) {
                plus(2, test_put_length(bits))
            } else {
                Ok(1)
            }
        }
        None => {
            let operated = operate_length(bits, op, false);
            let own = plus(operated, spare_length(op, stays_scalar(e)))?;
            plus(n, own)
        }
    }
}

/// The spreading of a word that the operation does not take.
#[tactic(auto, unfolding(crate::specs::Lengths::spare_length))]
pub fn spare_length(op: Op, scalar: bool) -> u32
    ensures { result ≡ spare_length op scalar }
{
    if scalar && (is_relation(op) || divides(op)) {
        1
    } else {
        0
    }
}

/// A conversion in place.
#[tactic(auto, unfolding(crate::specs::Lengths::conversion_length))]
pub fn conversion(scalar: bool, elem: Elem) -> u32
    ensures { result ≡ conversion_length scalar elem }
{
    if elem.bits == 32 {
        0
    } else if scalar {
        1
    } else if elem.bits == 1 {
        3
    } else {
        2
    }
}

/// The test flag as a value of so many bits.
#[tactic(auto, unfolding(crate::specs::Lengths::test_put_length))]
pub fn test_put_length(bits: u8) -> u32
    ensures value { result ≡ test_put_length bits }
    ensures few { result ≤ 2 }
{
    if bits == 1 { 1 } else { 2 }
}

#[tactic(auto, unfolding(crate::specs::Lengths::unary_length))]
pub fn unary_length(view: &View, bits: u8, op: UnaryOp, scalar: bool) -> Result<u32, Memory>
    ensures { IfOk result (λ n. n ≡ unary_length (layout view.now.names) bits op scalar) }
{
    match op {
        UnaryOp::Plus => Ok(0),
        UnaryOp::Minus | UnaryOp::Complement => Ok(1),
        UnaryOp::Not => {
            if scalar {
                plus(view.word_length(0)?, 1)
            } else {
                plus(1, test_put_length(bits))
            }
        }
    }
}

/// A unary reduction beside its operand: the fold, and its negative behind `-=`.
#[tactic(auto, unfolding(crate::specs::Lengths::reduce_length))]
pub fn reduce_length(op: ReduceOp, operand: &TExpr) -> Result<u32, Memory>
    ensures { IfOk result (λ n. n ≡ reduce_length op operand.now) }
{
    plus(fold_length(reduce_op(op), operand), negative_length(op))
}

#[tactic(auto, unfolding(crate::specs::Lengths::negative_length))]
fn negative_length(op: ReduceOp) -> u32
    ensures { result ≡ negative_length op }
{
    match op {
        ReduceOp::Sub => 1,
        _ => 0,
    }
}

/// A binary operator with a result of so many bits, with the check of its divisor.
#[tactic(auto, unfolding(crate::specs::Lengths::operate_length))]
pub fn operate_length(bits: u8, op: Op, scalar: bool) -> u32
    ensures { result ≡ operate_length bits op scalar }
{
    if divides(op) {
        2
    } else if scalar {
        1
    } else if is_relation(op) {
        1 + test_put_length(bits)
    } else {
        1
    }
}

/// `?:` beside its operands.
#[tactic(auto, unfolding(crate::specs::Lengths::choice_length))]
pub fn choice_length(scalar: bool) -> u32
    ensures { result ≡ choice_length scalar }
{
    if scalar { 2 } else { 7 }
}

/// The right operand of a relation, and the comparison.
#[tactic(auto, unfolding(crate::specs::Lengths::compared_length))]
pub fn compared_length(n: u32, op: Op, e: &TExpr) -> Result<u32, Memory>
    ensures { IfOk result (λ sum. sum ≡ compared_length n op e.now) }
{
    match immediate(op, e) {
        Some(_) => Ok(2),
        None => plus(n, plus(spare_length(op, stays_scalar(e)), 1)?),
    }
}
