//! Operators on typed operands.

ghost use Rattle.cstar_tree.specs.Conversions.{IsFitted, int};
ghost use Rattle.cstar_tree.specs.ExpressionTypes as Types;
ghost use Rattle.cstar_tree.specs.Operations as X;
ghost use Rattle.cstar_tree.specs.declared.syntax.Cast.{Cast};
ghost use Rattle.std.specs.Prelude.{◌≡◌, IfOk, map};
ghost use Rattle.typed_nodes.specs.Operators.{IsBinary, IsCastChain, IsChoice, IsNumeric, IsReduction, IsUnary};

use crate::conversions::{common, converted, either, fitted, promoted, spread};
use cstar_base::{Elem, Memory, Op, Place};
use cstar_tree::syntax::{BinaryOp, Cast, ReduceOp};
use cstar_tree::typed::{TExpr, UnaryOp, ValueType};
use std::alloc::Global;

/// Does the operator compare its operands?
fn compares(op: Op) -> bool
    ensures { result ≡ X.compares op }
{
    matches!(op, Op::Eq | Op::Ne | Op::Lt | Op::Le | Op::Gt | Op::Ge)
}

/// Does the operator shift its left operand?
fn shifts(op: Op) -> bool
    ensures { result ≡ X.shifts op }
{
    matches!(op, Op::Shl | Op::Shr)
}

/// The type that an operator on numbers wants of its left operand: the common type of both, but for
/// that of a shift its own promoted type.
#[tactic(auto, unfolding(cstar_tree::specs::Operations::left_elem))]
fn left_elem(op: Op, left: Elem, right: Elem) -> Elem
    ensures { result ≡ X.left_elem op left right }
{
    if shifts(op) {
        promoted(left)
    } else {
        common(left, right)
    }
}

/// The type that it wants of its right operand.
#[tactic(auto, unfolding(cstar_tree::specs::Operations::right_elem))]
fn right_elem(op: Op, left: Elem, right: Elem) -> Elem
    ensures { result ≡ X.right_elem op left right }
{
    if shifts(op) {
        promoted(right)
    } else {
        common(left, right)
    }
}

/// The type of its result.
#[tactic(auto, unfolding(cstar_tree::specs::Operations::result_elem))]
fn result_elem(op: Op, left: Elem, right: Elem) -> Elem
    ensures { result ≡ X.result_elem op left right }
{
    if compares(op) {
        Elem::INT
    } else {
        left_elem(op, left, right)
    }
}

/// An operator on numbers.
fn numeric(
    alloc: Global,
    place: Place,
    op: Op,
    left: Box<TExpr>,
    right: Box<TExpr>,
) -> Result<TExpr, Memory>
    ensures { IfOk result (IsNumeric place op left.value right.value) }
{
    let a = left.ty();
    let b = right.ty();
    let shape = either(a.shape, b.shape);
    let elem = result_elem(op, a.elem, b.elem);
    let left = operand(alloc, left, left_elem(op, a.elem, b.elem), shape)?;
    let right = operand(alloc, right, right_elem(op, a.elem, b.elem), shape)?;
    Ok(TExpr::Binary {
        ty: ValueType { elem, shape },
        place,
        op,
        left,
        right,
    })
}

fn operand(
    alloc: Global,
    e: Box<TExpr>,
    elem: Elem,
    shape: Option<u16>,
) -> Result<Box<TExpr>, Memory>
    ensures { IfOk result (λ r. IsFitted e.value (record { elem = elem; shape = shape }) r.value) }
{
    fitted(alloc, e, ValueType { elem, shape })
}

/// The type of a truth value of a shape.
fn truth(shape: Option<u16>) -> ValueType
    ensures { result ≡ record { elem = int; shape = shape } }
{
    ValueType {
        elem: Elem::INT,
        shape,
    }
}

/// A binary operator at its place. With a parallel left operand of `||` or `&&` the right one is
/// parallel too.
pub fn binary(
    alloc: Global,
    place: Place,
    op: BinaryOp,
    left: Box<TExpr>,
    right: Box<TExpr>,
) -> Result<TExpr, Memory>
    ensures { IfOk result (λ t. IsBinary place left right.value t op) }
{
    match op {
        BinaryOp::Number(op) => numeric(alloc, place, op, left, right),
        BinaryOp::LogicalOr => {
            let right = spread(alloc, right, left.ty().shape)?;
            let ty = truth(right.ty().shape);
            Ok(TExpr::LogicalOr { ty, left, right })
        }
        BinaryOp::LogicalAnd => {
            let right = spread(alloc, right, left.ty().shape)?;
            let ty = truth(right.ty().shape);
            Ok(TExpr::LogicalAnd { ty, left, right })
        }
    }
}

/// `?:`, whose second and third operand get the type of the whole.
pub fn choice(
    alloc: Global,
    test: Box<TExpr>,
    then: Box<TExpr>,
    otherwise: Box<TExpr>,
) -> Result<TExpr, Memory>
    ensures { IfOk result (IsChoice test then.value otherwise.value) }
{
    let a = then.ty();
    let b = otherwise.ty();
    let ty = ValueType {
        elem: common(a.elem, b.elem),
        shape: either(test.ty().shape, either(a.shape, b.shape)),
    };
    let then = fitted(alloc, then, ty)?;
    let otherwise = fitted(alloc, otherwise, ty)?;
    Ok(TExpr::Choice {
        ty,
        test,
        then,
        otherwise,
    })
}

/// An operator before its operand, which is promoted, but under `!`.
pub fn unary(alloc: Global, op: UnaryOp, operand: Box<TExpr>) -> Result<TExpr, Memory>
    ensures { IfOk result (IsUnary op operand) }
{
    match op {
        UnaryOp::Not => {
            let ty = truth(operand.ty().shape);
            Ok(TExpr::Unary { ty, op, operand })
        }
        UnaryOp::Plus | UnaryOp::Minus | UnaryOp::Complement => {
            let elem = promoted(operand.ty().elem);
            let operand = converted(alloc, operand, elem)?;
            let ty = operand.ty();
            Ok(TExpr::Unary { ty, op, operand })
        }
    }
}

/// A reduction of a parallel operand.
pub fn reduction(alloc: Global, op: ReduceOp, operand: Box<TExpr>) -> Result<TExpr, Memory>
    ensures { IfOk result (IsReduction op operand.value) }
{
    let elem = promoted(operand.ty().elem);
    let operand = converted(alloc, operand, elem)?;
    Ok(TExpr::Reduce {
        ty: ValueType { elem, shape: None },
        op,
        operand,
    })
}

/// The type that casts give an operand of a type, the outermost first.
fn cast_elem(casts: &[Cast], operand: Elem) -> Elem
    ensures { result ≡ Types.cast_elem casts.now operand }
{
    match casts.first() {
        Some(outermost) => outermost.elem,
        None => operand,
    }
}

fn elems(alloc: Global, casts: &[Cast]) -> Result<Vec<Elem>, Memory>
    ensures { IfOk result (λ v. v.items ≡ map (λ (c : Cast). c.elem) casts.now) }
{
    let elems = casts.iter().map(|cast| cast.elem).collect(alloc)?;
    Ok(elems)
}

/// A chain of casts to scalar types, the outermost first, over a scalar operand.
pub fn cast_chain(alloc: Global, casts: &[Cast], operand: Box<TExpr>) -> Result<TExpr, Memory>
    ensures { IfOk result (IsCastChain casts.now operand) }
{
    let elem = cast_elem(casts, operand.ty().elem);
    let elems = elems(alloc, casts)?;
    Ok(TExpr::Casts {
        ty: ValueType { elem, shape: None },
        elems,
        operand,
    })
}
