//! What the source means, and what the compiler has to know of it: the values of constant
//! expressions.
#![tactic(auto)]

pub mod laws;

ghost use Rattle.std.specs.Prelude.{◌≡◌, ◌<◌, ◌^◌, true, IfSome};
ghost use Rattle.cstar_base.specs.Operators.{operate};
ghost use Rattle.cstar_tree.specs.Typed.{type_of};
ghost use Rattle.source_meaning.specs.Constants.{fits, is_constant, value_of, constant_of, IsConstantOf};
ghost use Rattle.source_meaning.specs.Values.{cast_type, cast_through, unary_of};

use cstar_base::{Elem, Op, numbers};
use cstar_tree::typed::{TExpr, UnaryOp, ValueType};

/// The value of a constant expression, as the residue that its type holds. None exactly where the
/// expression is not constant or its value is a fault. It is constant if it is scalar and has
/// nothing but numbers, casts, what is asked of shapes, and operators without effects; all its
/// parts count for that, and only the chosen ones for its value.
#[tactic(auto, unfolding(crate::specs::Constants::IsConstantOf, crate::specs::Constants::constant_of))]
pub fn constant(e: &TExpr) -> Option<u32>
    ensures value { IsConstantOf e.now result }
    ensures word { result ≡ constant_of e.now }
    ensures bound { IfSome result (λ v. v < 2 ^ (type_of e.now).elem.bits) }
{
    if is_constant(e) { value(e) } else { None }
}

/// Is the number one of the type?
fn fits(ty: ValueType, word: u32) -> bool
    ensures { result ≡ fits ty word }
{
    numbers::wrap(ty.elem, i64::from(word)) == word
}

/// Is the expression constant?
#[tactic(auto, unfolding(crate::specs::Constants::is_constant, crate::specs::Values::cast_type))]
fn is_constant(e: &TExpr) -> bool
    ensures { result ≡ is_constant e.now }
{
    let ty = e.ty();
    if ty.shape.is_some() {
        return false;
    }
    match e {
        TExpr::Number { value, .. }
        | TExpr::PositionsOf { value, .. }
        | TExpr::RankOf { value, .. }
        | TExpr::DimOf { value, .. } => fits(ty, *value),
        TExpr::Brackets { inner, .. } => {
            ty.elem.bits == inner.ty().elem.bits && is_constant(inner)
        }
        TExpr::Casts { elems, operand, .. } => {
            ty.elem.bits == cast_type(elems, operand.ty().elem).bits && is_constant(operand)
        }
        TExpr::Convert { operand, .. } => is_constant(operand),
        TExpr::Unary { operand, .. } => ty.elem.bits == 32 && is_constant(operand),
        TExpr::Binary { left, right, .. }
        | TExpr::LogicalOr { left, right, .. }
        | TExpr::LogicalAnd { left, right, .. } => {
            ty.elem.bits == 32 && is_constant(left) && is_constant(right)
        }
        TExpr::Choice {
            test,
            then,
            otherwise,
            ..
        } => {
            ty.elem.bits == then.ty().elem.bits
                && ty.elem.bits == otherwise.ty().elem.bits
                && is_constant(test)
                && is_constant(then)
                && is_constant(otherwise)
        }
        _ => false,
    }
}

/// The value of a constant expression. None where it is a fault.
#[tactic(auto, unfolding(crate::specs::Constants::value_of, crate::specs::Constants::is_constant, crate::specs::Values::cast_type))]
fn value(e: &TExpr) -> Option<u32>
    requires { is_constant e.now ≡ true }
    ensures value { result ≡ value_of e.now }
    ensures bound { IfSome result (λ v. v < 2 ^ (type_of e.now).elem.bits) }
{
    match e {
        TExpr::Number { value, .. } => Some(*value),
        TExpr::PositionsOf { value, .. } => Some(*value),
        TExpr::RankOf { value, .. } => Some(*value),
        TExpr::DimOf { value, .. } => Some(*value),
        TExpr::Brackets { inner, .. } => value(inner),
        TExpr::Casts { elems, operand, .. } => {
            let word = value(operand)?;
            Some(cast(elems, operand.ty().elem, word))
        }
        TExpr::Convert { ty, operand } => {
            let word = value(operand)?;
            Some(numbers::convert(ty.elem, operand.ty().elem, word))
        }
        TExpr::Unary { op, operand, .. } => {
            let word = value(operand)?;
            Some(unary(*op, word))
        }
        TExpr::Binary {
            op,
            left,
            right,
            ..
        } => {
            let a = value(left)?;
            let b = value(right)?;
            operated(*op, !left.ty().elem.signed, a, b)
        }
        TExpr::LogicalOr { left, right, .. } => {
            if value(left)? != 0 {
                return Some(1);
            }
            let word = value(right)?;
            Some(u32::from(word != 0))
        }
        TExpr::LogicalAnd { left, right, .. } => {
            if value(left)? == 0 {
                return Some(0);
            }
            let word = value(right)?;
            Some(u32::from(word != 0))
        }
        TExpr::Choice {
            test,
            then,
            otherwise,
            ..
        } => {
            if value(test)? != 0 {
                value(then)
            } else {
                value(otherwise)
            }
        }
        _ => None,
    }
}

/// A binary operator on words. None for a division by 0.
fn operated(op: Op, unsigned: bool, a: u32, b: u32) -> Option<u32>
    ensures value { result ≡ operate op unsigned a b }
    ensures bound { IfSome result (λ v. v < 2 ^ 32) }
{
    match numbers::op(op, unsigned, a, b) {
        Some(word) => Some(word),
        None => None,
    }
}

/// The type of a value behind a chain of casts.
#[tactic(auto, unfolding(crate::specs::Values::cast_type))]
fn cast_type(elems: &[Elem], from: Elem) -> Elem
    ensures { result ≡ cast_type elems.now from }
{
    match elems {
        [] => from,
        [to, ..] => *to,
    }
}

/// The value after a chain of casts, from the last one to the first.
fn cast(elems: &[Elem], from: Elem, word: u32) -> u32
    requires { word < 2 ^ from.bits }
    ensures value { result ≡ cast_through elems.now from word }
    ensures bound { result < 2 ^ (cast_type elems.now from).bits }
{
    let mut word = word;
    let mut from = from;
    for elem in elems.iter().rev() {
        word = numbers::convert(*elem, from, word);
        from = *elem;
    }
    word
}

/// An operator before a word.
#[tactic(auto, unfolding(crate::specs::Values::unary_of))]
fn unary(op: UnaryOp, word: u32) -> u32
    ensures { result ≡ unary_of op word }
{
    match op {
        UnaryOp::Plus => word,
        UnaryOp::Minus => 0u32.wrapping_sub(word),
        UnaryOp::Complement => !word,
        UnaryOp::Not => u32::from(word == 0),
    }
}
