//! The walk over an expression. It types the parts and hands them to the function of their kind.
//! The functions of the walk are small, since each level of an expression takes stack for them.

ghost use Rattle.cstar_base.specs.declared.operators.Place.{Place};
ghost use Rattle.cstar_tree.specs.declared.syntax.Expr as E;
ghost use Rattle.std.specs.Prelude.{◌≡◌, ◌⊎◌, ◌&&◌, true, false, is_some, IfErr, IfOk, IfSome, OnOk, Some, Box, Vec};
ghost use Rattle.std.specs.declared.alloc.Global.{Global};
ghost use Rattle.cstar_tree.specs.ExpressionFaults.{FaultAt};
ghost use Rattle.cstar_tree.specs.ExpressionTypes.{Types};
ghost use Rattle.cstar_tree.specs.Headers.{Program};
ghost use Rattle.cstar_tree.specs.Scopes.{Here, find};
ghost use Rattle.cstar_tree.specs.declared.syntax.Expr.{Expr};
ghost use Rattle.cstar_tree.specs.declared.syntax.Name.{Name};
ghost use Rattle.cstar_tree.specs.declared.typed.TExpr.{TExpr};
ghost use Rattle.type_scopes.specs.FileBindings.{names_at};
ghost use Rattle.type_scopes.specs.declared.locals.Locals.{Locals};
ghost use Rattle.type_scopes.specs.declared.sites.Site.{Site};
ghost use Rattle.type_expressions.specs.Names.{IsVariableMeant};
ghost use Rattle.type_expressions.specs.Answers.{IsAssigned, OnBoth, OnThree};
ghost use Rattle.type_expressions.specs.Instances.{Grows};
ghost use Rattle.type_expressions.specs.Meetings.{Meets, list_calls, operand_calls, own_calls, source_calls};
ghost use Rattle.cstar_tree.specs.Calls.{calls_in};
ghost use Rattle.type_expressions.specs.Recorded.{Finds, FindsFrom, FindsFromList, FindsValue, HasList, HasNoValue, HasOperands, IfUntyped, IsLeaf, IsOperator, Rests, TellsAt, has_source};
ghost use Rattle.type_expressions.specs.Walks.{AreListed, AreMore, AreParts, IsAround, IsOperand, IsPart, IsSourceValue, IsTyped, IsTypedFrom, IsTypedFromList, IsValue, dot_at};

use crate::along::{goes_along, with_axis};
use crate::calls::{call, printf};
use crate::found::{Found, TypedExpr, Typing, outcome};
use crate::intrinsics::{parallel_cast, positions_of, rank_of};
use crate::operators::{assign, bracketed, casts, prefix, sending, stepped};
use crate::references::{array, dot, element, is_of_current, left_index, name, plain_variable};
use cstar_base::{Elem, Fault, Memory, Place};
use cstar_tree::syntax::{AssignOp, BinaryOp, Expr, Name, TypeName};
use cstar_tree::typed::{StepOrder, TExpr, ValueType, Variable};
use std::alloc::Global;
use type_scopes::faults::{Faults, Untyped, fault};
use type_scopes::file::File;
use type_scopes::locals::Locals;
use type_scopes::names::VariableType;
use type_scopes::sites::Site;
use typed_nodes::conversions::INT;
use typed_nodes::operators::{binary, choice};

/// Types an expression that needs a value.
#[cycle(expression)]
pub fn typed_value(
    found: &mut Found,
    file: &File<'_>,
    locals: &Locals,
    site: Site,
    e: &Expr,
) -> Result<Option<Box<TExpr>>, Memory>
    ensures typed { IfOk result (IsValue found.new.instances file.now locals.now site e.now) }
    ensures met { OnOk result (Grows file.now found.old.instances found.new.instances) }
    ensures calls { OnOk result (Meets found.old.instances found.new.instances file.now locals.now site (λ here. calls_in here e.now)) }
    ensures faults { IfOk result (λ r. FindsValue found.new.instances file.now locals.now site e.now (is_some r) found.old.faults.least found.new.faults.least) }
{
    let typed = typed_expr(found, file, locals, site.part(), e)?;
    found.faults.settle(valued(e.place(), typed))
}

/// Types the axis of an intrinsic.
#[cycle(expression)]
fn axis_value(
    found: &mut Found,
    file: &File<'_>,
    locals: &Locals,
    site: Site,
    axis: &Expr,
) -> Result<Option<Box<TExpr>>, Memory>
    ensures typed { IfOk result (IsValue found.new.instances file.now locals.now site axis.now) }
    ensures met { OnOk result (Grows file.now found.old.instances found.new.instances) }
    ensures calls { OnOk result (Meets found.old.instances found.new.instances file.now locals.now site (λ here. calls_in here axis.now)) }
    ensures faults { IfOk result (λ r. FindsValue found.new.instances file.now locals.now site axis.now (is_some r) found.old.faults.least found.new.faults.least) }
{
    let earlier = found.set_aside();
    let typed = typed_value(found, file, locals, site, axis)?;
    found.expect_constant(site, axis.place(), typed.is_some(), earlier);
    Ok(typed)
}

/// Types an expression that is to be constant.
pub fn typed_constant(
    found: &mut Found,
    file: &File<'_>,
    locals: &Locals,
    site: Site,
    e: &Expr,
) -> Typing
    ensures typed { IfOk result (IsTyped found.new.instances file.now locals.now (record site { whole = false }) e.now) }
    ensures met { OnOk result (Grows file.now found.old.instances found.new.instances) }
    ensures calls { OnOk result (Meets found.old.instances found.new.instances file.now locals.now site (λ here. calls_in here e.now)) }
    ensures faults { IfOk result (λ r. Finds found.new.instances file.now locals.now (record site { whole = false }) e.now (is_some r) found.old.faults.least found.new.faults.least) }
{
    let earlier = found.set_aside();
    let typed = typed_expr(found, file, locals, site.part(), e)?;
    found.expect_constant(site, e.place(), typed.is_some(), earlier);
    Ok(typed)
}

/// The expression, which needs a value. If it has none, that is a fault at the place.
fn valued(place: Place, typed: Option<TypedExpr>) -> Result<Box<TExpr>, Untyped>
    ensures typed { IfOk result (λ x. typed ≡ Some (record { expr = x; has_value = true })) }
    ensures refused { IfErr result (HasNoValue place typed) }
{
    let Some(TypedExpr { expr, has_value }) = typed else {
        return Err(Untyped::Faulty);
    };
    if has_value {
        Ok(expr)
    } else {
        Err(fault(Fault::WrongKind, place))
    }
}

/// Types an expression.
#[cycle(expression)]
pub fn typed_expr(
    found: &mut Found,
    file: &File<'_>,
    locals: &Locals,
    site: Site,
    e: &Expr,
) -> Typing
    ensures typed { IfOk result (IsTyped found.new.instances file.now locals.now site e.now) }
    ensures met { OnOk result (Grows file.now found.old.instances found.new.instances) }
    ensures calls { OnOk result (Meets found.old.instances found.new.instances file.now locals.now site (λ here. calls_in here e.now)) }
    ensures faults { IfOk result (λ r. Finds found.new.instances file.now locals.now site e.now (is_some r) found.old.faults.least found.new.faults.least) }
{
    found.count(nodes(file, locals, site, e));
    match e {
        Expr::Brackets { inner, .. } => {
            let inner = typed_expr(found, file, locals, site, inner)?;
            bracketed(file.alloc, inner)
        }
        Expr::Assign { .. } | Expr::Choice { .. } | Expr::Binary { .. } => {
            operands(found, file, locals, site, e)
        }
        Expr::Prefix { operand: part, .. }
        | Expr::Casts { operand: part, .. }
        | Expr::ParallelCast { operand: part, .. }
        | Expr::Postfix { operand: part, .. }
        | Expr::Element { index: part, .. } => {
            let part = typed_value(found, file, locals, site, part)?;
            with_operand(&mut found.faults, file, locals, site, e, part)
        }
        Expr::Call { .. } | Expr::Printf { .. } | Expr::LeftIndex { .. } => {
            let parts = list(found, file, locals, site, e)?;
            with_list(found, file, locals, site, e, parts)
        }
        Expr::Pcoord { axis, .. }
        | Expr::DimOf { axis, .. }
        | Expr::Scan { axis, .. }
        | Expr::Enumerate { axis, .. } => {
            let source = source_value(found, file, locals, site, e)?;
            let axis = axis_value(found, file, locals, site, axis)?;
            let along = goes_along(&mut found.faults, file, locals, site, e, axis)?;
            match along {
                Some(along) => with_axis(&mut found.faults, file, site, e, along, source),
                None => Ok(None),
            }
        }
        Expr::Name(_)
        | Expr::Number { .. }
        | Expr::Dot(_)
        | Expr::PositionsOf { .. }
        | Expr::RankOf { .. }
        | Expr::GetChar(_) => outcome(&mut found.faults, file.alloc, leaf(file, locals, site, e)),
    }
}

/// Types the source of a scan, which stands before its axis. No other expression has one.
#[cycle(expression)]
fn source_value(
    found: &mut Found,
    file: &File<'_>,
    locals: &Locals,
    site: Site,
    e: &Expr,
) -> Result<Option<Box<TExpr>>, Memory>
    ensures typed { IfOk result (IsSourceValue found.new.instances file.now locals.now site e.now) }
    ensures met { OnOk result (Grows file.now found.old.instances found.new.instances) }
    ensures calls { OnOk result (Meets found.old.instances found.new.instances file.now locals.now site (λ here. source_calls here e.now)) }
    ensures faults { IfOk result (λ r. Finds found.new.instances file.now locals.now site e.now (has_source e.now r) found.old.faults.least found.new.faults.least) }
{
    match e {
        Expr::Scan { source, .. } => typed_value(found, file, locals, site, source),
        _ => Ok(None),
    }
}

/// How many nodes the expression counts without its parts: each cast of a chain is one, and an
/// element of an array counts as often as the array has elements.
fn nodes(file: &File<'_>, locals: &Locals, site: Site, e: &Expr) -> u64 {
    match e {
        Expr::Casts { casts, .. } => casts.len() as u64,
        Expr::Element { name, .. } => match file.type_of(locals, site, name) {
            Some(ty) => u64::from(ty.array.unwrap_or(1)),
            None => 1,
        },
        _ => 1,
    }
}

/// Types an expression with two or three operands.
#[cycle(expression)]
fn operands(found: &mut Found, file: &File<'_>, locals: &Locals, site: Site, e: &Expr) -> Typing
    ensures typed { IfOk result (IsTyped found.new.instances file.now locals.now site e.now) }
    ensures met { OnOk result (Grows file.now found.old.instances found.new.instances) }
    ensures calls { OnOk result (Meets found.old.instances found.new.instances file.now locals.now site (λ here. operand_calls here e.now)) }
    ensures faults { HasOperands e.now → IfOk result (λ r. Finds found.new.instances file.now locals.now site e.now (is_some r) found.old.faults.least found.new.faults.least) }
{
    match e {
        Expr::Assign {
            place,
            op,
            target,
            value,
        } => {
            let target = typed_value(found, file, locals, site, target)?;
            let value = typed_value(found, file, locals, site, value)?;
            assigned(
                &mut found.faults,
                file.alloc,
                site,
                *place,
                *op,
                target,
                value,
            )
        }
        Expr::Choice {
            test,
            then,
            otherwise,
            ..
        } => {
            let test = typed_value(found, file, locals, site, test)?;
            let then = typed_value(found, file, locals, site, then)?;
            let otherwise = typed_value(found, file, locals, site, otherwise)?;
            chosen(&mut found.faults, file.alloc, test, then, otherwise)
        }
        Expr::Binary {
            place,
            op,
            left,
            right,
        } => {
            let left = typed_value(found, file, locals, site, left)?;
            let right = typed_value(found, file, locals, site, right)?;
            combined(&mut found.faults, file.alloc, *place, *op, left, right)
        }
        _ => Ok(None),
    }
}

/// `?:` of its typed operands.
fn chosen(
    faults: &mut Faults,
    alloc: Global,
    test: Option<Box<TExpr>>,
    then: Option<Box<TExpr>>,
    otherwise: Option<Box<TExpr>>,
) -> Typing
    ensures typed { (place : Place) → IfOk result (OnThree test then otherwise (E.Choice place)) }
    ensures faults { OnOk result (faults.new.least ≡ faults.old.least) }
{
    let (Some(test), Some(then), Some(otherwise)) = (test, then, otherwise) else {
        return Ok(None);
    };
    let expr = choice(alloc, test, then, otherwise)?;
    outcome(faults, alloc, Ok(expr))
}

/// A binary operator on its typed operands.
fn combined(
    faults: &mut Faults,
    alloc: Global,
    place: Place,
    op: BinaryOp,
    left: Option<Box<TExpr>>,
    right: Option<Box<TExpr>>,
) -> Typing
    ensures typed { IfOk result (OnBoth left right (E.Binary place op)) }
    ensures faults { OnOk result (faults.new.least ≡ faults.old.least) }
{
    let (Some(left), Some(right)) = (left, right) else {
        return Ok(None);
    };
    let expr = binary(alloc, place, op, left, right)?;
    outcome(faults, alloc, Ok(expr))
}

/// An assignment of its typed sides. What the target alone breaks stands whatever the value is.
fn assigned(
    faults: &mut Faults,
    alloc: Global,
    site: Site,
    place: Place,
    op: AssignOp,
    target: Option<Box<TExpr>>,
    value: Option<Box<TExpr>>,
) -> Typing
    ensures { IfOk result (IsAssigned site place op target value faults.old.least faults.new.least) }
{
    let Some(target) = target else {
        return Ok(None);
    };
    let target = faults.settle(sending(op, target))?;
    let (Some(target), Some(value)) = (target, value) else {
        return Ok(None);
    };
    outcome(faults, alloc, assign(alloc, site, place, op, target, value))
}

/// An expression with one typed operand, or an element of an array with its typed index. What its
/// names break stands whatever the operand is.
fn with_operand(
    faults: &mut Faults,
    file: &File<'_>,
    locals: &Locals,
    site: Site,
    e: &Expr,
    operand: Option<Box<TExpr>>,
) -> Typing
    ensures typed { IfOk result (IsTypedFrom (λ program here x. IsOperand program here e.now x) operand file.now locals.now site e.now) }
    ensures faults { IfOk result (λ r. FindsFrom (λ program here x. IsOperand program here e.now x) operand file.now locals.now site e.now (is_some r) faults.old.least faults.new.least) }
{
    match e {
        Expr::ParallelCast {
            place,
            type_name,
            ..
        } => cast_to(faults, file, locals, site, *place, type_name, operand),
        Expr::Element { name, bracket, .. } => {
            element_of(faults, file, locals, site, name, *bracket, operand)
        }
        _ => {
            let Some(operand) = operand else {
                return Ok(None);
            };
            outcome(faults, file.alloc, on_operand(file.alloc, e, operand))
        }
    }
}

fn on_operand(alloc: Global, e: &Expr, operand: Box<TExpr>) -> Result<TExpr, Untyped>
    ensures typed { IfOk result (λ t. (program : Program) (here : Here) → IsOperand program here e.now operand → Types program here e.now t true) }
    ensures refused { (program : Program) (here : Here) → IsOperator e.now → IsOperand program here e.now operand → IfUntyped (FaultAt program here e.now) ⊥ result }
{
    match e {
        Expr::Prefix { place, op, .. } => prefix(alloc, *place, *op, operand),
        Expr::Casts {
            casts: chain,
            operand: inner,
        } => { casts(alloc, chain.as_slice(), inner.place(), operand) }
        Expr::Postfix { place, op, .. } => { stepped(*place, *op, StepOrder::Postfix, operand) }
        _ => Err(Untyped::Faulty),
    }
}

fn cast_to(
    faults: &mut Faults,
    file: &File<'_>,
    locals: &Locals,
    site: Site,
    place: Place,
    written: &TypeName,
    operand: Option<Box<TExpr>>,
) -> Typing
    ensures typed { (e : Box Expr Global) → IfOk result (IsTypedFrom (λ program here x. IsPart program here e.value x) operand file.now locals.now site (E.ParallelCast place written.now e)) }
    ensures faults { (e : Box Expr Global) → IfOk result (λ r. FindsFrom (λ program here x. IsPart program here e.value x) operand file.now locals.now site (E.ParallelCast place written.now e) (is_some r) faults.old.least faults.new.least) }
{
    let ty = faults.settle(file.value_type(locals, site, written))?;
    let (Some(ty), Some(operand)) = (ty, operand) else {
        return Ok(None);
    };
    outcome(
        faults,
        file.alloc,
        parallel_cast(file.alloc, site, place, ty, operand),
    )
}

fn element_of(
    faults: &mut Faults,
    file: &File<'_>,
    locals: &Locals,
    site: Site,
    name: &Name,
    bracket: Place,
    index: Option<Box<TExpr>>,
) -> Typing
    ensures typed { (e : Box Expr Global) → IfOk result (IsTypedFrom (λ program here x. IsPart program here e.value x) index file.now locals.now site (E.Element name.now bracket e)) }
    ensures faults { (e : Box Expr Global) → IfOk result (λ r. FindsFrom (λ program here x. IsPart program here e.value x) index file.now locals.now site (E.Element name.now bracket e) (is_some r) faults.old.least faults.new.least) }
{
    let array = faults.settle(array(file, locals, site, name))?;
    let (Some(array), Some(index)) = (array, index) else {
        return Ok(None);
    };
    outcome(
        faults,
        file.alloc,
        element(site, name.place, bracket, array, index),
    )
}

/// Types a list of parts: the arguments of a call, or the indexes of a left index, in which a `.`
/// has a meaning if the variable is of the current shape.
#[cycle(expression)]
fn list(
    found: &mut Found,
    file: &File<'_>,
    locals: &Locals,
    site: Site,
    e: &Expr,
) -> Result<Option<Vec<Box<TExpr>>>, Memory>
    ensures typed { IfOk result (AreListed found.new.instances file.now locals.now site e.now) }
    ensures met { OnOk result (Grows file.now found.old.instances found.new.instances) }
    ensures calls { OnOk result (Meets found.old.instances found.new.instances file.now locals.now site (λ here. list_calls here e.now)) }
    ensures faults { HasList e.now → IfOk result (λ r. Finds found.new.instances file.now locals.now site e.now (is_some r) found.old.faults.least found.new.faults.least) }
{
    let (parts, indexed) = match e {
        Expr::Call { arguments, .. } | Expr::Printf { arguments, .. } => (arguments, None),
        Expr::LeftIndex { indexes, name, .. } => {
            (indexes, Some(is_of_current(file, locals, site, name)))
        }
        _ => return Ok(None),
    };
    let mut typed = Some(Vec::new(file.alloc));
    let mut axis = 0u32;
    for part in parts {
        let dot = dot_at(indexed, site.dot, axis);
        let part = typed_value(found, file, locals, Site { dot, ..site }, part)?;
        typed = with_part(typed, part)?;
        axis = axis.saturating_add(1);
    }
    Ok(typed)
}

/// The axis that a `.` stands for in the part of this number, if it stands for one: of a left index,
/// that axis, where the variable is of the current shape, and else what it stands for around the list.
fn dot_at(indexed: Option<bool>, around: Option<u32>, axis: u32) -> Option<u32>
    ensures { result ≡ dot_at indexed around axis }
{
    match indexed {
        Some(true) => Some(axis),
        Some(false) => None,
        None => around,
    }
}

/// The parts with one part more, where each has become a tree.
fn with_part(
    parts: Option<Vec<Box<TExpr>>>,
    part: Option<Box<TExpr>>,
) -> Result<Option<Vec<Box<TExpr>>>, Memory>
    ensures more { IfOk result (AreMore parts part) }
    ensures wanting { IfOk result (λ r. is_some r ≡ (is_some parts && is_some part)) }
{
    let (Some(mut parts), Some(part)) = (parts, part) else {
        return Ok(None);
    };
    parts.push(part)?;
    Ok(Some(parts))
}

/// A call, a left index or `printf` with its typed parts. What its name breaks stands whatever the
/// parts are.
fn with_list(
    found: &mut Found,
    file: &File<'_>,
    locals: &Locals,
    site: Site,
    e: &Expr,
    parts: Option<Vec<Box<TExpr>>>,
) -> Typing
    ensures typed { IfOk result (IsTypedFromList found.new.instances parts file.now locals.now site e.now) }
    ensures met { OnOk result (Grows file.now found.old.instances found.new.instances) }
    ensures calls { OnOk result (Meets found.old.instances found.new.instances file.now locals.now site (λ here. own_calls here e.now)) }
    ensures faults { IfOk result (λ r. FindsFromList found.new.instances parts file.now locals.now site e.now (is_some r) found.old.faults.least found.new.faults.least) }
{
    match e {
        Expr::Call { name, .. } => call(found, file, locals, site, name, parts),
        Expr::LeftIndex { place, name, .. } => {
            let variable = found
                .faults
                .settle(plain_variable(file, locals, site, name))?;
            indexed(&mut found.faults, file, *place, variable, parts)
        }
        Expr::Printf { place, text, .. } => match parts {
            Some(parts) => found.faults.settle(printf(file.alloc, *place, text, parts)),
            None => Ok(None),
        },
        _ => Ok(None),
    }
}

/// A left index of the variable, where its name and its parts have no fault.
fn indexed(
    faults: &mut Faults,
    file: &File<'_>,
    place: Place,
    variable: Option<(Variable, VariableType)>,
    parts: Option<Vec<Box<TExpr>>>,
) -> Typing
    ensures typed { (locals : Locals) (site : Site) (n : Name) (indexes : Vec Expr Global) → IfSome variable (IsVariableMeant false (find (names_at file.now locals site.known) n.word)) → IfOk result (IsTypedFrom (λ program here xs. AreParts program here (E.LeftIndex place indexes n) xs) parts file.now locals site (E.LeftIndex place indexes n)) }
    ensures faults { (locals : Locals) (site : Site) (n : Name) (indexes : Vec Expr Global) → IfSome variable (IsVariableMeant false (find (names_at file.now locals site.known) n.word)) → IfOk result (λ r. (program : Program) (here : Here) → IsAround file.now locals site here → IfSome parts (AreParts program here (E.LeftIndex place indexes n)) → TellsAt program here (E.LeftIndex place indexes n) ((is_some variable ≡ false) ⊎ (is_some parts ≡ false)) (is_some r) faults.old.least faults.new.least) }
{
    let (Some(variable), Some(parts)) = (variable, parts) else {
        return Ok(None);
    };
    outcome(faults, file.alloc, left_index(file, place, variable, parts))
}

/// Types an expression without parts.
fn leaf(file: &File<'_>, locals: &Locals, site: Site, e: &Expr) -> Result<TExpr, Untyped>
    ensures typed { IfOk result (λ t. (program : Program) (here : Here) → IsAround file.now locals.now site here → Types program here e.now t true) }
    ensures refused { (program : Program) (here : Here) → IsLeaf e.now → IsAround file.now locals.now site here → IfUntyped (FaultAt program here e.now) (Rests program here e.now) result }
{
    match e {
        Expr::Name(written) => name(file, locals, site, written),
        Expr::Number {
            value,
            unsigned,
            ..
        } => Ok(number(*value, *unsigned)),
        Expr::Dot(place) => dot(site, *place),
        Expr::PositionsOf { shape, .. } => {
            Ok(positions_of(file, file.shape(locals, site, shape)?))
        }
        Expr::RankOf { shape, .. } => Ok(rank_of(file, file.shape(locals, site, shape)?)),
        Expr::GetChar(_) => Ok(TExpr::GetChar { ty: INT }),
        _ => Err(Untyped::Faulty),
    }
}

/// An integer constant.
fn number(value: u32, unsigned: bool) -> TExpr
    ensures { (program : Program) (here : Here) (place : Place) → Types program here (E.Number place value unsigned) result true }
{
    if unsigned {
        let ty = ValueType {
            elem: Elem::UNSIGNED,
            shape: None,
        };
        return TExpr::Number { ty, value };
    }
    TExpr::Number { ty: INT, value }
}
