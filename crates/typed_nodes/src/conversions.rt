//! Conversions and promotions as nodes of the typed tree.

ghost use Rattle.cstar_tree.specs.Conversions as C;
ghost use Rattle.cstar_tree.specs.Conversions.{IsConverted, IsFitted, IsSpread};
ghost use Rattle.std.specs.Prelude.{◌≡◌, IfOk};

use cstar_base::{Elem, Memory};
use cstar_tree::typed::{TExpr, ValueType};
use std::alloc::Global;

/// `int`, as a scalar.
pub const INT: ValueType = ValueType {
    elem: Elem::INT,
    shape: None,
};

/// The type in which a value of the type is an operand: `int` for all that are narrower.
#[tactic(auto, unfolding(cstar_tree::specs::Conversions::promoted))]
pub fn promoted(elem: Elem) -> Elem
    ensures { result ≡ C.promoted elem }
{
    if elem.bits < 32 { Elem::INT } else { elem }
}

/// The common type of two operands: unsigned if either promoted one is.
#[tactic(auto, unfolding(cstar_tree::specs::Conversions::promoted, cstar_tree::specs::Conversions::common))]
pub fn common(a: Elem, b: Elem) -> Elem
    ensures { result ≡ C.common a b }
{
    if promoted(a).signed {
        promoted(b)
    } else {
        promoted(a)
    }
}

/// The shape of what two operands make: parallel if either is.
pub fn either(a: Option<u16>, b: Option<u16>) -> Option<u16>
    ensures { result ≡ C.either a b }
{
    match a {
        Some(shape) => Some(shape),
        None => b,
    }
}

/// The expression, converted to the element type.
#[tactic(auto, using(crate::proofs::Nodes::conversions))]
pub fn converted(alloc: Global, e: Box<TExpr>, elem: Elem) -> Result<Box<TExpr>, Memory>
    ensures { IfOk result (λ r. IsConverted e.value elem r.value) }
{
    let from = e.ty();
    if from.elem == elem {
        return Ok(e);
    }
    let ty = ValueType {
        elem,
        shape: from.shape,
    };
    Ok(Box::new(alloc, TExpr::Convert { ty, operand: e })?)
}

/// The expression, at every position of the shape if it is scalar and the shape is given.
#[tactic(auto, using(crate::proofs::Nodes::conversions))]
pub fn spread(alloc: Global, e: Box<TExpr>, shape: Option<u16>) -> Result<Box<TExpr>, Memory>
    ensures { IfOk result (λ r. IsSpread e.value shape r.value) }
{
    let from = e.ty();
    if shape.is_none() || from.shape.is_some() {
        return Ok(e);
    }
    let ty = ValueType {
        elem: from.elem,
        shape,
    };
    Ok(Box::new(alloc, TExpr::Promote { ty, operand: e })?)
}

/// The expression, converted to the type's elements and at every position of its shape.
#[tactic(auto, using(crate::proofs::Nodes::conversions))]
pub fn fitted(alloc: Global, e: Box<TExpr>, ty: ValueType) -> Result<Box<TExpr>, Memory>
    ensures { IfOk result (λ r. IsFitted e.value ty r.value) }
{
    let converted = converted(alloc, e, ty.elem)?;
    spread(alloc, converted, ty.shape)
}
