//! Declarations of variables.

ghost use Rattle.cstar_base.specs.declared.faults.Fault.TheVariants as Faults;
ghost use Rattle.cstar_tree.specs.StatementTypes.{variable_info};
ghost use Rattle.std.specs.Int.{w64};
ghost use Rattle.std.specs.Prelude.{◌≡◌, [], ◌∷◌, true, FitsSigned, IfOk, IfSome, MatchResult, None, OnOk, Some};
ghost use Rattle.cstar_tree.specs.Typed.{type_of};
ghost use Rattle.type_scopes.specs.Answers.{told_by};
ghost use Rattle.type_scopes.specs.Bindings.{bindings, type_meant, variable_type};
ghost use Rattle.type_statements.specs.Declarators.{FitsArray, IsConstantNumber, IsInitial, IsInitialised, IsLength, IsVariable, type_with};
ghost use Rattle.type_statements.specs.Meetings.{MeetsDeclared, MeetsLocal};
ghost use Rattle.type_statements.specs.Places.{IsGrown};
ghost use Rattle.type_expressions.specs.Instances.{Grows};
ghost use Rattle.type_expressions.specs.Meetings.{Meets};
ghost use Rattle.cstar_tree.specs.Calls.{calls_in_each};
ghost use Rattle.cstar_tree.specs.SyntaxParts.{initial_values};
ghost use Rattle.cstar_tree.specs.TypedParts.{optional};
ghost use Rattle.type_statements.specs.Walks.{AreDeclared, AreMore, IsLocal};

use crate::branches::scalar_test;
use crate::scopes::Scopes;
use cstar_base::{Fault, Memory, Place, Word, numbers};
use cstar_tree::syntax::{Declaration, Declarator, Expr};
use cstar_tree::typed::{LocalVar, TExpr, ValueType, VarInfo};
use source_meaning::constant;
use std::alloc::Global;
use type_expressions::{Found, TypedExpr, typed_constant, typed_value};
use type_scopes::faults::{Untyped, fault};
use type_scopes::file::File;
use type_scopes::locals::Locals;
use type_scopes::names::VariableType;
use type_scopes::sites::Site;
use typed_nodes::conversions::fitted;

/// The length of an array as it is declared.
#[derive(Clone, Copy)]
pub enum Length {
    /// The variable is no array.
    Absent,
    Faulty,
    Of(i64),
}

/// An initialiser with the place of its `=`.
#[derive(Drop)]
pub struct Initial {
    pub place: Place,
    pub value: Option<Box<TExpr>>,
}

impl Length {
    /// The type of a variable of the type that is written with this length. None where either has
    /// a fault.
    pub fn variable(self, ty: Option<ValueType>) -> Option<VariableType>
        ensures { type_meant result ≡ type_with self ty }
    {
        let ty = ty?;
        let array = match self {
            Length::Absent => None,
            Length::Of(length) => Some(u32::try_from(length).ok()?),
            Length::Faulty => return None,
        };
        Some(VariableType {
            elem: ty.elem,
            shape: ty.shape,
            array,
        })
    }
}

/// The declarations at the head of a block. None where one has a fault.
pub fn declarations(
    found: &mut Found,
    file: &File<'_>,
    scopes: &mut Scopes,
    site: Site,
    scope: usize,
    declarations: &[Declaration],
) -> Result<Option<Vec<LocalVar>>, Memory>
    ensures grown { OnOk result (IsGrown (bindings scopes.old.locals) (bindings scopes.new.locals)) }
    ensures typed { IfOk result (λ r. IfSome r (λ locals. AreDeclared found.new.instances file.now scopes.old scopes.new site scope declarations.now locals.items)) }
    ensures met { OnOk result (Grows file.now found.old.instances found.new.instances) }
    ensures calls { IfOk result (λ r. IfSome r (λ _. MeetsDeclared found.old.instances found.new.instances file.now scopes.old site scope declarations.now)) }
{
    let mut locals = Vec::new(file.alloc);
    let mut complete = true;
    for written in declarations {
        let typed = declaration(found, file, scopes, site, scope, written, &mut locals)?;
        complete = complete && typed;
    }
    Ok(if complete { Some(locals) } else { None })
}

/// The variables of a declaration, behind those that were declared before. Answers whether none has
/// a fault.
fn declaration(
    found: &mut Found,
    file: &File<'_>,
    scopes: &mut Scopes,
    site: Site,
    scope: usize,
    written: &Declaration,
    locals: &mut Vec<LocalVar>,
) -> Result<bool, Memory>
    ensures grown { OnOk result (IsGrown (bindings scopes.old.locals) (bindings scopes.new.locals)) }
    ensures typed { IfOk result (λ typed. typed ≡ true → AreMore found.new.instances file.now scopes.old scopes.new site scope written.now locals.old.items locals.new.items) }
    ensures met { OnOk result (Grows file.now found.old.instances found.new.instances) }
    ensures calls { IfOk result (λ typed. typed ≡ true → MeetsDeclared found.old.instances found.new.instances file.now scopes.old site scope (written.now ∷ [])) }
{
    let ty = file.value_type(&scopes.locals, site, &written.type_name);
    let ty = found.faults.settle(ty)?;
    let mut complete = ty.is_some();
    for declarator in &written.variables {
        match local(found, file, scopes, site, scope, ty, declarator)? {
            Some(local) => locals.push(local)?,
            None => complete = false,
        }
    }
    Ok(complete)
}

/// A variable of a block. Its name is known behind its length.
fn local(
    found: &mut Found,
    file: &File<'_>,
    scopes: &mut Scopes,
    site: Site,
    scope: usize,
    ty: Option<ValueType>,
    declarator: &Declarator,
) -> Result<Option<LocalVar>, Memory>
    ensures grown { OnOk result (IsGrown (bindings scopes.old.locals) (bindings scopes.new.locals)) }
    ensures typed { IfOk result (λ r. IfSome r (IsLocal found.new.instances file.now scopes.old scopes.new site scope ty declarator.now)) }
    ensures met { OnOk result (Grows file.now found.old.instances found.new.instances) }
    ensures calls { IfOk result (λ r. IfSome r (λ _. MeetsLocal found.old.instances found.new.instances file.now scopes.old site scope ty declarator.now)) }
{
    found.count(1);
    let length = array_length(found, file, &scopes.locals, site, &declarator.length)?;
    let fits = found.faults.settle(array_fits(ty, length, declarator))?;
    let ty = length.variable(ty);
    let new = scopes.declare(file.alloc, scope, &declarator.name, ty)?;
    if !new {
        found
            .faults
            .stands(Fault::Redeclared, declarator.name.place);
    }
    let initial = typed_initial(found, file, &scopes.locals, site, declarator)?;
    let (Some(ty), Some(()), true) = (ty, fits, new) else {
        return Ok(None);
    };
    let variable = local_variable(file.alloc, site, ty, declarator, initial);
    found.faults.settle(variable)
}

/// The variable with its initialiser, where it has one.
fn local_variable(
    alloc: Global,
    site: Site,
    ty: VariableType,
    declarator: &Declarator,
    initial: Option<Initial>,
) -> Result<LocalVar, Untyped>
    ensures { IfOk result (IsVariable site ty declarator.now initial) }
{
    let info = typed_info(alloc, &declarator.name.word, ty, 0)?;
    let initial = match initial {
        None => None,
        Some(initial) => {
            let value = initialised(alloc, site, declarator.name.place, ty, initial)?;
            Some(Box::into_inner(value))
        }
    };
    Ok(LocalVar { info, initial })
}

/// The initialiser of a variable of a block at the place, brought to its type.
fn initialised(
    alloc: Global,
    site: Site,
    place: Place,
    ty: VariableType,
    initial: Initial,
) -> Result<Box<TExpr>, Untyped>
    ensures { IfOk result (λ f. IsInitialised site ty initial f.value) }
{
    let Initial {
        place: equals,
        value,
    } = initial;
    let Some(value) = value else {
        return Err(Untyped::Faulty);
    };
    site.holds(place, ty.shape)?;
    scalar_if(equals, ty.shape, &value)?;
    Ok(fitted(alloc, value, ty.value())?)
}

/// A variable of no shape takes a scalar value only. Another one is a fault at the place.
fn scalar_if(place: Place, wanted: Option<u16>, value: &TExpr) -> Result<(), Untyped>
    ensures { MatchResult result (λ _. wanted ≡ None → (type_of value.now).shape ≡ None) (λ u. told_by u ≡ Some (Faults.ScalarWanted, place)) }
{
    match wanted {
        Some(_) => Ok(()),
        None => scalar_test(place, value),
    }
}

/// The initialiser of a variable, if it has one.
pub fn typed_initial(
    found: &mut Found,
    file: &File<'_>,
    locals: &Locals,
    site: Site,
    declarator: &Declarator,
) -> Result<Option<Initial>, Memory>
    ensures typed { IfOk result (IsInitial found.new.instances file.now locals.now site declarator.now.initial) }
    ensures met { OnOk result (Grows file.now found.old.instances found.new.instances) }
    ensures calls { OnOk result (Meets found.old.instances found.new.instances file.now locals.now site (λ here. calls_in_each here (initial_values declarator.now.initial))) }
{
    let Some(initial) = &declarator.initial else {
        return Ok(None);
    };
    let value = typed_value(found, file, locals, site, &initial.value)?;
    Ok(Some(Initial {
        place: initial.place,
        value,
    }))
}

/// The length of an array, where the variable is one.
pub fn array_length(
    found: &mut Found,
    file: &File<'_>,
    locals: &Locals,
    site: Site,
    length: &Option<Expr>,
) -> Result<Length, Memory>
    ensures typed { IfOk result (IsLength found.new.instances file.now locals.now site length.now) }
    ensures met { OnOk result (Grows file.now found.old.instances found.new.instances) }
    ensures calls { OnOk result (Meets found.old.instances found.new.instances file.now locals.now site (λ here. calls_in_each here (optional length.now))) }
{
    let Some(length) = length else {
        return Ok(Length::Absent);
    };
    let typed = typed_constant(found, file, locals, site, length)?;
    let number = constant_number(length.place(), typed);
    Ok(match found.faults.settle(number)? {
        Some(length) => Length::Of(length),
        None => Length::Faulty,
    })
}

/// The number of a constant expression at the place.
pub fn constant_number(place: Place, typed: Option<TypedExpr>) -> Result<i64, Untyped>
    ensures number { IsConstantNumber place typed result }
    ensures fits { IfOk result (FitsSigned w64) }
{
    let Some(TypedExpr { expr, has_value }) = typed else {
        return Err(Untyped::Faulty);
    };
    let word = if has_value { constant(&expr) } else { None };
    match word {
        Some(word) => Ok(numbers::value(expr.ty().elem, word)),
        None => Err(fault(Fault::Constant, place)),
    }
}

/// Is the array parallel, without an initialiser, and of a length from 1 to 64? What is no array
/// fits.
pub fn array_fits(
    ty: Option<ValueType>,
    length: Length,
    declarator: &Declarator,
) -> Result<(), Untyped>
    ensures { MatchResult result (λ _. FitsArray ty length declarator.now.initial) (λ u. (FitsArray ty length declarator.now.initial → ⊥) × (told_by u ≡ Some (Faults.ArrayDecl, declarator.now.name.place))) }
{
    let outside = match length {
        Length::Absent => return Ok(()),
        Length::Faulty => false,
        Length::Of(length) => length < 1 || 64 < length,
    };
    let scalar = match ty {
        Some(ty) => ty.shape.is_none(),
        None => false,
    };
    if scalar || outside || declarator.initial.is_some() {
        return Err(fault(Fault::ArrayDecl, declarator.name.place));
    }
    Ok(())
}

/// A variable as the typed program has it.
pub fn typed_info(
    alloc: Global,
    name: &Word,
    ty: VariableType,
    start: u32,
) -> Result<VarInfo, Memory>
    ensures { IfOk result (λ i. i ≡ variable_info name.now (variable_type ty) start) }
{
    Ok(VarInfo {
        name: name.copied(alloc)?,
        elem: ty.elem,
        shape: ty.shape,
        array: ty.array,
        start,
    })
}
