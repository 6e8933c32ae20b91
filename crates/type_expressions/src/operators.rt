//! Operators, assignments, casts and brackets on typed operands, with their faults.

ghost use Rattle.cstar_tree.specs.ExpressionFaults.{last_place};
ghost use Rattle.cstar_tree.specs.ExpressionTypes.{IsPlaceOf, IsStorable, Types};
ghost use Rattle.cstar_tree.specs.Headers.{Program};
ghost use Rattle.cstar_tree.specs.Scopes.{Here, part};
ghost use Rattle.cstar_tree.specs.Operations as X;
ghost use Rattle.cstar_tree.specs.Syntax.{place_of};
ghost use Rattle.cstar_tree.specs.Typed.{type_of};
ghost use Rattle.cstar_base.specs.declared.operators.Place.{Place};
ghost use Rattle.cstar_tree.specs.declared.syntax.AssignOp.{AssignOp};
ghost use Rattle.cstar_tree.specs.declared.syntax.Cast.{Cast};
ghost use Rattle.cstar_tree.specs.declared.syntax.Expr as E;
ghost use Rattle.cstar_tree.specs.declared.syntax.Expr.{Expr};
ghost use Rattle.cstar_tree.specs.declared.syntax.PrefixOp.TheVariants as P;
ghost use Rattle.std.specs.Prelude.{◌≡◌, false, true, Box, Vec, IfOk, MatchResult};
ghost use Rattle.std.specs.declared.alloc.Global.{Global};
ghost use Rattle.type_expressions.specs.Answers.{AreBrackets, CanSend, IsAnswer, IsAnswerOrMemory, IsFault, IsSending, IsSite, WithOperand, step_of, storable, written_as};

use crate::found::{TypedExpr, Typing};
use cstar_base::{Fault, Place};
use cstar_tree::syntax::{AssignOp, Cast, PrefixOp, ReduceOp, StepOp};
use cstar_tree::typed::{StepOrder, TExpr, UnaryOp};
use std::alloc::Global;
use type_scopes::faults::{Untyped, fault};
use type_scopes::sites::Site;
use typed_nodes::assignments::{Target, assignment, folds, step, target_of};
use typed_nodes::operators::{cast_chain, reduction, unary};

/// The target of an assignment. A parallel left index under an operator that cannot send is a fault
/// of its own.
pub fn sending(op: AssignOp, target: Box<TExpr>) -> Result<Box<TExpr>, Untyped>
    ensures { IsSending op target result }
{
    if sends(op) {
        Ok(target)
    } else {
        no_send(target)
    }
}

/// Can the operator send?
fn sends(op: AssignOp) -> bool
    ensures { result ≡ X.sends op }
{
    op == AssignOp::Set || folds(op)
}

/// The target of an operator that cannot send.
fn no_send(target: Box<TExpr>) -> Result<Box<TExpr>, Untyped>
    ensures { (op : AssignOp) → X.sends op ≡ false → IsSending op target result }
{
    match target_of(&target) {
        Some(Target::Send(place)) => Err(fault(Fault::SendOperator, place)),
        _ => Ok(target),
    }
}

/// An assignment at its operator.
pub fn assign(
    alloc: Global,
    site: Site,
    place: Place,
    op: AssignOp,
    target: Box<TExpr>,
    value: Box<TExpr>,
) -> Result<TExpr, Untyped>
    ensures { CanSend op target.value → (program : Program) (here : Here) (t v : Box Expr Global) → IsSite site here → Types program (part here) t.value target.value true → Types program (part here) v.value value.value true → IsAnswerOrMemory program here (E.Assign place op t v) result }
{
    is_assignable(site, place, op, &target, &value)?;
    Ok(assignment(alloc, place, op, target, value)?)
}

/// Can the value be stored in the target, at the assignment's place?
fn is_assignable(
    site: Site,
    place: Place,
    op: AssignOp,
    target: &TExpr,
    value: &TExpr,
) -> Result<(), Untyped>
    ensures { (program : Program) (here : Here) (t v : Box Expr Global) → CanSend op target.now → IsSite site here → Types program (part here) t.value target.now true → Types program (part here) v.value value.now true → MatchResult result (λ _. IsPlaceOf here op target.now × IsStorable op (type_of target.now).shape (type_of value.now).shape) (IsFault program here (E.Assign place op t v)) }
{
    is_place(site, place, target)?;
    if stores(op, target.ty().shape, value.ty().shape) {
        Ok(())
    } else {
        Err(fault(Fault::ScalarWanted, place))
    }
}

/// Is the target of the assignment at the place one there?
fn is_place(site: Site, place: Place, target: &TExpr) -> Result<(), Untyped>
    ensures { (program : Program) (here : Here) (op : AssignOp) (t v : Box Expr Global) (x : TExpr) → CanSend op target.now → IsSite site here → Types program (part here) t.value target.now true → Types program (part here) v.value x true → MatchResult result (λ _. IsPlaceOf here op target.now) (IsFault program here (E.Assign place op t v)) }
{
    match target_of(target) {
        None => Err(fault(Fault::NotAPlace, place)),
        Some(Target::Variable) => Ok(()),
        Some(Target::Send(_)) => {
            if site.whole {
                Ok(())
            } else {
                Err(fault(Fault::SendValue, place))
            }
        }
    }
}

/// Can a value of a shape be stored in a target of a shape? A parallel one goes into a scalar target
/// only by a fold.
fn stores(op: AssignOp, target: Option<u16>, value: Option<u16>) -> bool
    ensures { result ≡ storable op target value }
{
    match (target, value) {
        (None, Some(_)) => folds(op),
        _ => true,
    }
}

/// `++` or `--` at its operator.
pub fn stepped(
    place: Place,
    op: StepOp,
    order: StepOrder,
    target: Box<TExpr>,
) -> Result<TExpr, Untyped>
    ensures { (program : Program) (here : Here) (operand : Box Expr Global) → Types program (part here) operand.value target.value true → IsAnswer program here (step_of order place op operand) result }
{
    match target_of(&target) {
        None => Err(fault(Fault::NotAPlace, place)),
        Some(Target::Send(place)) => Err(fault(Fault::SendOperator, place)),
        Some(Target::Variable) => Ok(step(op, order, target)),
    }
}

/// An operator before its operand.
pub fn prefix(
    alloc: Global,
    place: Place,
    op: PrefixOp,
    operand: Box<TExpr>,
) -> Result<TExpr, Untyped>
    ensures { WithOperand operand.value (E.Prefix place op) result }
{
    match op {
        PrefixOp::Plus => signed(alloc, UnaryOp::Plus, operand),
        PrefixOp::Minus => signed(alloc, UnaryOp::Minus, operand),
        PrefixOp::Complement => signed(alloc, UnaryOp::Complement, operand),
        PrefixOp::Not => signed(alloc, UnaryOp::Not, operand),
        PrefixOp::Step(op) => stepped(place, op, StepOrder::Prefix, operand),
        PrefixOp::Reduce(op) => reduced(alloc, place, op, operand),
    }
}

/// An operator on a value alone, wherever it stands.
fn signed(alloc: Global, op: UnaryOp, operand: Box<TExpr>) -> Result<TExpr, Untyped>
    ensures { (place : Place) → WithOperand operand.value (E.Prefix place (written_as op)) result }
{
    Ok(unary(alloc, op, operand)?)
}

/// A reduction, whose operand has to be parallel.
fn reduced(alloc: Global, place: Place, op: ReduceOp, operand: Box<TExpr>) -> Result<TExpr, Untyped>
    ensures { WithOperand operand.value (E.Prefix place (P.Reduce op)) result }
{
    match operand.ty().shape {
        None => Err(fault(Fault::ParallelWanted, place)),
        Some(_) => Ok(reduction(alloc, op, operand)?),
    }
}

/// A chain of casts to scalar types over an operand at the place. A parallel operand is a fault of
/// the innermost one.
pub fn casts(
    alloc: Global,
    casts: &[Cast],
    place: Place,
    operand: Box<TExpr>,
) -> Result<TExpr, Untyped>
    ensures { (program : Program) (here : Here) (chain : Vec Cast Global) (e : Box Expr Global) → chain.items ≡ casts.now → place_of e.value ≡ place → Types program (part here) e.value operand.value true → IsAnswerOrMemory program here (E.Casts chain e) result }
{
    match operand.ty().shape {
        Some(_) => Err(fault(Fault::ScalarWanted, innermost(casts, place))),
        None => Ok(cast_chain(alloc, casts, operand)?),
    }
}

/// The place of the innermost of the casts, or else the given one.
fn innermost(casts: &[Cast], otherwise: Place) -> Place
    ensures { result ≡ last_place casts.now otherwise }
{
    let mut place = otherwise;
    for cast in casts {
        place = cast.place;
    }
    place
}

/// A pair of brackets, which has a value if what stands in it has one.
pub fn bracketed(alloc: Global, inner: Option<TypedExpr>) -> Typing
    ensures { IfOk result (AreBrackets inner) }
{
    let Some(TypedExpr { expr, has_value }) = inner else {
        return Ok(None);
    };
    let ty = expr.ty();
    let expr = TExpr::Brackets { ty, inner: expr };
    Ok(Some(TypedExpr {
        expr: Box::new(alloc, expr)?,
        has_value,
    }))
}
