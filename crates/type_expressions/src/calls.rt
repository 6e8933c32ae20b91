//! Calls of functions, and `printf`.

ghost use Rattle.cstar_tree.specs.Calls.{call_of};
ghost use Rattle.cstar_tree.specs.Conversions.{AreFitted, ArePromoted};
ghost use Rattle.cstar_tree.specs.ExpressionTypes.{Types, TypesEach};
ghost use Rattle.cstar_base.specs.declared.operators.Place.{Place};
ghost use Rattle.cstar_tree.specs.Headers.{Program, unknown};
ghost use Rattle.cstar_tree.specs.Scopes.{Here, meaning, part};
ghost use Rattle.cstar_tree.specs.declared.syntax.Expr as E;
ghost use Rattle.cstar_tree.specs.declared.syntax.Expr.{Expr};
ghost use Rattle.std.specs.Prelude.{◌≡◌, ◌↔◌, ℕ, List, IfErr, IfOk, IfSome, IsSome, IsTrue, MatchResult, OnOk, None, Option, Some, Bool, Vec, false, is_some, length, map};
ghost use Rattle.std.specs.List.{list_all, list_any, slice_get};
ghost use Rattle.std.specs.Option.{option_flatten};
ghost use Rattle.std.specs.declared.alloc.Global.{Global};
ghost use Rattle.type_scopes.specs.declared.faults.Untyped.TheVariants as U;
ghost use Rattle.cstar_tree.specs.declared.typed.ValueType.{ValueType};
ghost use Rattle.type_scopes.specs.Headers.{IsOfGroup, returned};
ghost use Rattle.type_scopes.specs.declared.file.File.{File};
ghost use Rattle.type_expressions.specs.Calls.{HasTypes, IsCallTo, IsGiven, IsReached, TakesParallel, is_unfit};
ghost use Rattle.type_expressions.specs.Instances.{Grows, instance_of, kept_header, met};
ghost use Rattle.type_expressions.specs.Meetings.{Meets, behind_call};
ghost use Rattle.type_expressions.specs.Recorded.{FindsFromList, IsRefusedCall, RecordsReached};
ghost use Rattle.type_expressions.specs.Walks.{IsTypedFromList};
ghost use Rattle.type_expressions.specs.Answers.{IsFaultOrMemory, is_parallel, trees};

use crate::found::{Found, TypedExpr, Typing};
use cstar_base::{Fault, Memory, Place, Word};
use cstar_tree::syntax::Name;
use cstar_tree::typed::{TExpr, ValueType};
use std::alloc::Global;
use type_scopes::faults::{Untyped, fault};
use type_scopes::file::File;
use type_scopes::headers::{Header, Reached};
use type_scopes::locals::Locals;
use type_scopes::sites::{Returns, Site};
use typed_nodes::conversions::{INT, converted, fitted, promoted};
use typed_nodes::format::cut;

/// Does a scalar parameter get a parallel argument?
fn has_parallel_argument(header: &Header, arguments: &[Box<TExpr>]) -> bool
    ensures { IsTrue result ↔ TakesParallel header.now.parameters.items (trees arguments.now) }
{
    for (ty, argument) in header.parameters.iter().zip(arguments) {
        if is_unfit(*ty, argument) {
            return true;
        }
    }
    false
}

/// Is the argument parallel where its parameter is scalar?
fn is_unfit(ty: Option<ValueType>, argument: &TExpr) -> bool
    ensures { result ≡ is_unfit ty argument.now }
{
    match ty {
        Some(ty) => ty.shape.is_none() && argument.ty().shape.is_some(),
        None => false,
    }
}

/// The arguments at the types of their parameters.
fn fit_arguments(
    alloc: Global,
    parameters: &[Option<ValueType>],
    arguments: Vec<Box<TExpr>>,
) -> Result<Vec<TExpr>, Untyped>
    ensures { (types : List ValueType) → parameters.now ≡ map (λ ty. Some ty) types → length arguments.items ≡ length types → (TakesParallel parameters.now (trees arguments.items) → ⊥) → MatchResult result (λ fit. AreFitted types (trees arguments.items) fit.items) (λ u. u ≡ U.Memory) }
{
    let mut fit = Vec::new(alloc);
    for argument in arguments {
        let Some(ty) = parameter_type(parameters, fit.len()) else {
            return Err(Untyped::Faulty);
        };
        fit.push(Box::into_inner(fitted(alloc, argument, ty)?))?;
    }
    Ok(fit)
}

/// The type of the parameter of the number, where it has one.
fn parameter_type(parameters: &[Option<ValueType>], number: usize) -> Option<ValueType>
    ensures { result ≡ option_flatten (slice_get parameters.now number) }
{
    *parameters.get(number)?
}

/// The arguments as they are.
fn unboxed(alloc: Global, arguments: Vec<Box<TExpr>>) -> Result<Vec<TExpr>, Memory>
    ensures { IfOk result (λ values. values.items ≡ trees arguments.items) }
{
    let mut values = Vec::new(alloc);
    for argument in arguments {
        values.push(Box::into_inner(argument))?;
    }
    Ok(values)
}

/// Has each parameter a type?
fn has_types(header: &Header) -> bool
    ensures { result ≡ list_all is_some header.now.parameters.items }
{
    header.parameters.iter().all(|ty| ty.is_some())
}

/// What a call gives, and whether it has a value. At file scope a result whose type has a fault is
/// taken for an `int`, since the call is no constant anyway.
fn given(returns: Returns, is_inside: bool) -> Option<(ValueType, bool)>
    ensures given { IfSome result (λ r. IsGiven is_inside (returned returns) r.0 r.1) }
    ensures unknown { result ≡ None → returned returns ≡ unknown }
{
    match returns {
        Returns::Nothing => Some((INT, false)),
        Returns::Value(ty) => Some((ty, true)),
        Returns::Unknown => { if is_inside { None } else { Some((INT, true)) } }
    }
}

/// A call of the instance with its arguments at the types of the header, if all its parameters have
/// one.
fn call_node(
    alloc: Global,
    header: &Header,
    instance: Option<u32>,
    arguments: Vec<Box<TExpr>>,
) -> Result<TypedExpr, Untyped>
    ensures typed { length header.now.parameters.items ≡ length arguments.items → (TakesParallel header.now.parameters.items (trees arguments.items) → ⊥) → IfOk result (λ t. IsCallTo header.now (trees arguments.items) instance t.expr.value t.has_value) }
    ensures refused { (file : File) (around : Option ℕ) (f : ℕ) (place : Place) → length header.now.parameters.items ≡ length arguments.items → (TakesParallel header.now.parameters.items (trees arguments.items) → ⊥) → IfErr result (IsRefusedCall file around f header.now place (trees arguments.items)) }
{
    if !has_types(header) {
        return Err(Untyped::Faulty);
    }
    let Some((ty, has_value)) = given(header.returns, instance.is_some()) else {
        return Err(Untyped::Faulty);
    };
    let expr = call_tree(alloc, header, ty, instance, arguments)?;
    Ok(TypedExpr {
        expr: Box::new(alloc, expr)?,
        has_value,
    })
}

/// A call that gives the type. One at file scope reaches no instance and is never evaluated, and its
/// arguments stay as they are.
fn call_tree(
    alloc: Global,
    header: &Header,
    ty: ValueType,
    instance: Option<u32>,
    arguments: Vec<Box<TExpr>>,
) -> Result<TExpr, Untyped>
    ensures typed { (has_value : Bool) → HasTypes header.now.parameters.items → IsGiven (is_some instance) (returned header.now.returns) ty has_value → length header.now.parameters.items ≡ length arguments.items → (TakesParallel header.now.parameters.items (trees arguments.items) → ⊥) → IfOk result (λ t. IsCallTo header.now (trees arguments.items) instance t has_value) }
    ensures refused { HasTypes header.now.parameters.items → length header.now.parameters.items ≡ length arguments.items → (TakesParallel header.now.parameters.items (trees arguments.items) → ⊥) → IfErr result (λ u. u ≡ U.Memory) }
{
    match instance {
        Some(instance) => Ok(TExpr::Call {
            ty,
            instance,
            arguments: fit_arguments(alloc, header.parameters.as_slice(), arguments)?,
        }),
        None => Ok(TExpr::Call {
            ty,
            instance: 0,
            arguments: unboxed(alloc, arguments)?,
        }),
    }
}

/// Does the call at the place fit the header?
fn call_fits(
    file: &File<'_>,
    site: Site,
    place: Place,
    function: u32,
    header: &Header,
    arguments: &[Box<TExpr>],
) -> Result<(), Untyped>
    ensures shape { IfOk result (λ _. header.now.other_shape ≡ false) }
    ensures arguments { IfOk result (λ _. (TakesParallel header.now.parameters.items (trees arguments.now) → ⊥) × (length header.now.parameters.items ≡ length arguments.now)) }
    ensures recursion { IfOk result (λ _. IsOfGroup file.now site.function function → ⊥) }
    ensures refused { IfErr result (IsRefusedCall file.now site.function function header.now place (trees arguments.now)) }
{
    if header.other_shape {
        Err(fault(Fault::OtherShape, place))
    } else if has_parallel_argument(header, arguments) {
        Err(fault(Fault::ScalarWanted, place))
    } else if header.parameters.len() != arguments.len() {
        Err(fault(Fault::Arguments, place))
    } else if file.is_recursive(site, function) {
        Err(fault(Fault::Recursion, place))
    } else {
        Ok(())
    }
}

/// A call with its typed arguments. It reaches its function whatever faults they have.
pub fn call(
    found: &mut Found,
    file: &File<'_>,
    locals: &Locals,
    site: Site,
    name: &Name,
    arguments: Option<Vec<Box<TExpr>>>,
) -> Typing
    ensures typed { (given : Vec Expr Global) → IfOk result (IsTypedFromList found.new.instances arguments file.now locals.now site (E.Call name.now given)) }
    ensures met { OnOk result (Grows file.now found.old.instances found.new.instances) }
    ensures calls { OnOk result (Meets found.old.instances found.new.instances file.now locals.now site (λ here. call_of here (meaning here name.now.word))) }
    ensures faults { (given : Vec Expr Global) → IfOk result (λ r. FindsFromList found.new.instances arguments file.now locals.now site (E.Call name.now given) (is_some r) found.old.faults.least found.new.faults.least) }
{
    let Some(function) = found.faults.settle(file.called(locals, site, name))? else {
        return Ok(None);
    };
    let reached = Reached {
        function,
        current: site.current,
    };
    let instance = reach(found, file, site, reached)?;
    let Some(arguments) = arguments else {
        return Ok(None);
    };
    let Some(header) = found.instances.header(reached) else {
        return Ok(None);
    };
    let typed = fitting_call(
        file, site, name.place, function, header, instance, arguments,
    );
    found.faults.settle(typed)
}

/// The number of the instance that a call reaches, if it stands in a function. Its header is kept
/// from here on.
fn reach(
    found: &mut Found,
    file: &File<'_>,
    site: Site,
    reached: Reached,
) -> Result<Option<u32>, Memory>
    ensures number { IfOk result (IsReached (met found.new.instances) site.function (instance_of reached)) }
    ensures met { OnOk result (Grows file.now found.old.instances found.new.instances) }
    ensures calls { OnOk result (met found.new.instances ≡ behind_call site.function (instance_of reached) (met found.old.instances)) }
    ensures kept { OnOk result (IsSome (kept_header found.new.instances reached)) }
    ensures faults { OnOk result (RecordsReached site.function (kept_header found.new.instances reached) found.old.faults.least found.new.faults.least) }
{
    match site.function {
        Some(_) => Ok(Some(found.reach(file, reached)?)),
        None => {
            found.instances.prepare(file, reached)?;
            Ok(None)
        }
    }
}

fn fitting_call(
    file: &File<'_>,
    site: Site,
    place: Place,
    function: u32,
    header: &Header,
    instance: Option<u32>,
    arguments: Vec<Box<TExpr>>,
) -> Result<TypedExpr, Untyped>
    ensures shape { IfOk result (λ _. header.now.other_shape ≡ false) }
    ensures recursion { IfOk result (λ _. IsOfGroup file.now site.function function → ⊥) }
    ensures typed { IfOk result (λ t. IsCallTo header.now (trees arguments.items) instance t.expr.value t.has_value) }
    ensures refused { IfErr result (IsRefusedCall file.now site.function function header.now place (trees arguments.items)) }
{
    call_fits(file, site, place, function, header, arguments.as_slice())?;
    call_node(file.alloc, header, instance, arguments)
}

/// `printf` at its place, with its typed arguments.
pub fn printf(
    alloc: Global,
    place: Place,
    text: &Word,
    arguments: Vec<Box<TExpr>>,
) -> Result<TypedExpr, Untyped>
    ensures { (program : Program) (here : Here) (given : Vec Expr Global) → TypesEach program (part here) given.items (trees arguments.items) → MatchResult result (λ t. Types program here (E.Printf place text.now given) t.expr.value t.has_value) (IsFaultOrMemory program here (E.Printf place text.now given)) }
{
    if has_parallel(arguments.as_slice()) {
        return Err(fault(Fault::ScalarWanted, place));
    }
    let Some(cut) = cut(alloc, text.bytes())? else {
        return Err(fault(Fault::Format, place));
    };
    if cut.conversions != arguments.len() {
        return Err(fault(Fault::Format, place));
    }
    let expr = TExpr::Printf {
        ty: INT,
        pieces: cut.pieces,
        arguments: promoted_arguments(alloc, arguments)?,
    };
    Ok(TypedExpr {
        expr: Box::new(alloc, expr)?,
        has_value: false,
    })
}

/// Is any of the values parallel?
fn has_parallel(values: &[Box<TExpr>]) -> bool
    ensures { result ≡ list_any is_parallel values.now }
{
    values.iter().any(|value| value.ty().shape.is_some())
}

fn promoted_arguments(alloc: Global, arguments: Vec<Box<TExpr>>) -> Result<Vec<TExpr>, Memory>
    ensures { IfOk result (λ values. ArePromoted (trees arguments.items) values.items) }
{
    let mut values = Vec::new(alloc);
    for argument in arguments {
        let elem = promoted(argument.ty().elem);
        values.push(Box::into_inner(converted(alloc, argument, elem)?))?;
    }
    Ok(values)
}
