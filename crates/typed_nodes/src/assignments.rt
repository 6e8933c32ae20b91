//! Assignments, `++` and `--`.

ghost use Rattle.cstar_tree.specs.Operations as X;
ghost use Rattle.cstar_tree.specs.Typed.{type_of};
ghost use Rattle.cstar_tree.specs.declared.typed.TExpr as Nodes;
ghost use Rattle.std.specs.Option.{option_map};
ghost use Rattle.std.specs.Prelude.{◌≡◌, IfOk};
ghost use Rattle.typed_nodes.specs.Operators.{IsAssignment};
ghost use Rattle.typed_nodes.specs.Targets.{meant};

use crate::conversions::{common, fitted, promoted};
use cstar_base::{Elem, Memory, Place};
use cstar_tree::syntax::{AssignOp, StepOp};
use cstar_tree::typed::{StepOrder, TExpr, ValueType};
use std::alloc::Global;

/// What can be stored in: a variable or an element, or the targets of a send, whose left index
/// stands at the place.
#[derive(Clone, Copy)]
pub enum Target {
    Variable,
    Send(Place),
}

/// What the expression is as a target, maybe in brackets. None if it is none.
#[tactic(auto, unfolding(cstar_tree::specs::Operations::target_of))]
pub fn target_of(e: &TExpr) -> Option<Target>
    ensures { option_map meant result ≡ X.target_of e.now }
{
    match e {
        TExpr::Brackets { inner, .. } => target_of(inner),
        TExpr::Variable { .. } | TExpr::Element { .. } => Some(Target::Variable),
        TExpr::LeftIndex { ty, place, .. } => Some(match ty.shape {
            Some(_) => Target::Send(*place),
            None => Target::Variable,
        }),
        _ => None,
    }
}

/// Does the assignment fold a parallel value into a scalar target?
pub fn folds(op: AssignOp) -> bool
    ensures { result ≡ X.folds op }
{
    matches!(
        op,
        AssignOp::Add
            | AssignOp::Sub
            | AssignOp::And
            | AssignOp::Xor
            | AssignOp::Or
            | AssignOp::Min
            | AssignOp::Max
    )
}

/// The element type that the value of an assignment is brought to.
#[tactic(auto, unfolding(cstar_tree::specs::Operations::assigned_elem))]
fn value_elem(op: AssignOp, target: Elem, value: Elem) -> Elem
    ensures { result ≡ X.assigned_elem op target value }
{
    match op {
        AssignOp::Set => target,
        AssignOp::Shl | AssignOp::Shr => promoted(value),
        _ => common(target, value),
    }
}

/// An assignment at its operator. The value is brought to the type at which it is stored or
/// combined, and to the shape of the target.
pub fn assignment(
    alloc: Global,
    place: Place,
    op: AssignOp,
    target: Box<TExpr>,
    value: Box<TExpr>,
) -> Result<TExpr, Memory>
    ensures { IfOk result (IsAssignment place op target value.value) }
{
    let ty = target.ty();
    let wanted = ValueType {
        elem: value_elem(op, ty.elem, value.ty().elem),
        shape: ty.shape,
    };
    let value = fitted(alloc, value, wanted)?;
    Ok(TExpr::Assign {
        ty,
        place,
        op,
        target,
        value,
    })
}

/// `++` or `--` on its target.
pub fn step(op: StepOp, order: StepOrder, target: Box<TExpr>) -> TExpr
    ensures { result ≡ Nodes.Step (type_of target.value) op order target }
{
    TExpr::Step {
        ty: target.ty(),
        op,
        order,
        target,
    }
}
