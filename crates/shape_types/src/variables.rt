//! The variables of a file.

ghost use Rattle.std.specs.List.{All};
ghost use Rattle.std.specs.Prelude.{◌≡◌, [], ◌∷◌, true, IfOk, IfSome, OnOk, Some};
ghost use Rattle.cstar_tree.specs.FileScopes.{Known, behind_item, behind_variable, file_known, functions_named};
ghost use Rattle.cstar_tree.specs.declared.syntax.Item.TheVariants as I;
ghost use Rattle.cstar_tree.specs.declared.typed.ValueType as Types;
ghost use Rattle.shape_types.specs.FileWalk.{AreFirst, AreVariables, HasItsType, IsOfSome, IsStartOf, IsTypedDeclaration, Knows, StartsAs, place_in};
ghost use Rattle.shape_types.specs.Plain.{IsPlainDeclarator};
ghost use Rattle.type_expressions.specs.Walks.{IsPlain};
ghost use Rattle.type_scopes.specs.declared.file.File as Files;

use crate::declarations::{Declared, is_new};
use cstar_base::{Elem, Fault, Memory};
use cstar_tree::syntax::{Declaration, Declarator};
use cstar_tree::typed::ValueType;
use source_meaning::constant;
use std::alloc::Global;
use type_expressions::Found;
use type_scopes::faults::{Untyped, fault};
use type_scopes::file::File;
use type_scopes::locals::Locals;
use type_scopes::names::VariableType;
use type_scopes::sites::Site;
use type_statements::{Initial, array_fits, array_length, typed_info, typed_initial};
use typed_nodes::conversions::converted;

/// The type that a declaration writes: that of its elements, and the whole of it where it has no
/// fault.
#[derive(Clone, Copy)]
struct Written {
    elem: Elem,
    ty: Option<ValueType>,
}

/// The variables of a declaration of the file.
pub fn variables(
    found: &mut Found,
    file: &mut File<'_>,
    declared: &mut Declared,
    declaration: &Declaration,
) -> Result<(), Memory>
    ensures typed { (start : Files.File) (k : Known) → Knows start k file.old declared.old.known → All IsPlainDeclarator declaration.now.variables.items → AreFirst (behind_item (functions_named start.tree.now) k (I.Variables declaration.now)).names (file_known start.tree.now).names → OnOk result (declared.new.is_whole ≡ true → IsTypedDeclaration start k declaration.now declared.old.vars.items declared.new.vars.items) }
    ensures knows { (start : Files.File) (k : Known) → Knows start k file.old declared.old.known → All IsPlainDeclarator declaration.now.variables.items → AreFirst (behind_item (functions_named start.tree.now) k (I.Variables declaration.now)).names (file_known start.tree.now).names → OnOk result (declared.new.is_whole ≡ true → Knows start (behind_item (functions_named start.tree.now) k (I.Variables declaration.now)) file.new declared.new.known) }
    ensures whole { OnOk result (declared.new.is_whole ≡ true → declared.old.is_whole ≡ true) }
    ensures shapes { file.new.shapes ≡ file.old.shapes }
    ensures functions { file.new.functions ≡ file.old.functions }
    ensures names { file.new.names ≡ file.old.names }
    ensures tree { file.new.tree ≡ file.old.tree }
{
    found.count(1);
    let none = Locals::new(file.alloc);
    let ty = file.value_type(&none, Site::file(declared.known), &declaration.type_name);
    let ty = found.faults.settle(ty)?;
    declared.require(ty.is_some());
    let written = Written {
        elem: declaration.type_name.elem,
        ty,
    };
    for declarator in declaration.variables.as_slice() {
        variable(found, file, declared, written, declarator)?;
    }
    Ok(())
}

/// A variable of the file. Its name is known behind its length.
fn variable(
    found: &mut Found,
    file: &mut File<'_>,
    declared: &mut Declared,
    written: Written,
    declarator: &Declarator,
) -> Result<(), Memory>
    ensures typed { (start : Files.File) (k : Known) (of : Types.ValueType) → Knows start k file.old declared.old.known → IsPlainDeclarator declarator.now → AreFirst (behind_variable (functions_named start.tree.now) (Some of) k declarator.now).names (file_known start.tree.now).names → written.ty ≡ Some of → IsOfSome k.shapes of → OnOk result (declared.new.is_whole ≡ true → AreVariables start k of (declarator.now ∷ []) declared.old.vars.items declared.new.vars.items) }
    ensures knows { (start : Files.File) (k : Known) (of : Types.ValueType) → Knows start k file.old declared.old.known → IsPlainDeclarator declarator.now → AreFirst (behind_variable (functions_named start.tree.now) (Some of) k declarator.now).names (file_known start.tree.now).names → written.ty ≡ Some of → IsOfSome k.shapes of → OnOk result (declared.new.is_whole ≡ true → Knows start (behind_variable (functions_named start.tree.now) (Some of) k declarator.now) file.new declared.new.known) }
    ensures whole { OnOk result (declared.new.is_whole ≡ true → declared.old.is_whole ≡ true) }
    ensures shapes { file.new.shapes ≡ file.old.shapes }
    ensures functions { file.new.functions ≡ file.old.functions }
    ensures names { file.new.names ≡ file.old.names }
    ensures tree { file.new.tree ≡ file.old.tree }
{
    found.count(1);
    let new = is_new(file, declared.known, &declarator.name);
    let ty = variable_type(found, file, declared, written.ty, declarator)?;
    if new {
        file.types.push(ty)?;
    }
    declared.declare(new);
    let initial = constant_initial(found, file, declared, declarator)?;
    let scalar = VariableType {
        elem: written.elem,
        shape: None,
        array: None,
    };
    let ty = ty.unwrap_or(scalar);
    let start = found
        .faults
        .settle(start(file.alloc, ty.elem, declarator, initial))?;
    declared.require(start.is_some());
    if new {
        let info = typed_info(file.alloc, &declarator.name.word, ty, start.unwrap_or(0))?;
        declared.vars.push(info)?;
    }
    Ok(())
}

/// The type of a variable with its length, which is to fit.
fn variable_type(
    found: &mut Found,
    file: &File<'_>,
    declared: &mut Declared,
    ty: Option<ValueType>,
    declarator: &Declarator,
) -> Result<Option<VariableType>, Memory>
    ensures typed { (start : Files.File) (k : Known) (of : Types.ValueType) → Knows start k file.now declared.old.known → IfSome declarator.now.length IsPlain → ty ≡ Some of → IfOk result (λ found. declared.new.is_whole ≡ true → HasItsType (place_in start k) of declarator.now found) }
    ensures whole { OnOk result (declared.new.is_whole ≡ true → declared.old.is_whole ≡ true) }
    ensures known { OnOk result (declared.new.known ≡ declared.old.known) }
    ensures vars { OnOk result (declared.new.vars ≡ declared.old.vars) }
{
    declared.begin_constant(found, file.alloc);
    let none = Locals::new(file.alloc);
    let site = Site::file(declared.known);
    let length = array_length(found, file, &none, site, &declarator.length)?;
    let fits = found.faults.settle(array_fits(ty, length, declarator))?;
    let ty = length.variable(ty);
    declared.require(fits.is_some());
    declared.require(ty.is_some());
    Ok(ty)
}

/// The initialiser of a variable of the file. It is to be constant.
fn constant_initial(
    found: &mut Found,
    file: &File<'_>,
    declared: &Declared,
    declarator: &Declarator,
) -> Result<Option<Initial>, Memory>
    ensures { (start : Files.File) (k : Known) → Knows start k file.now declared.now.known → IfSome declarator.now.initial (λ i. IsPlain i.value) → declared.now.is_whole ≡ true → IfOk result (StartsAs (place_in start k) declarator.now.initial) }
{
    let Some(written) = &declarator.initial else {
        return Ok(None);
    };
    declared.begin_constant(found, file.alloc);
    let none = Locals::new(file.alloc);
    let site = Site::file(declared.known);
    let earlier = found.set_aside();
    let initial = typed_initial(found, file, &none, site, declarator)?;
    let is_typed = initial
        .as_ref()
        .is_some_and(|initial| initial.value.is_some());
    found.expect_constant(site, written.value.place(), is_typed, earlier);
    Ok(initial)
}

/// The value that a variable with these elements has at the start.
fn start(
    alloc: Global,
    elem: Elem,
    declarator: &Declarator,
    initial: Option<Initial>,
) -> Result<u32, Untyped>
    ensures { IfOk result (IsStartOf elem initial declarator.now.initial) }
{
    let Some(written) = &declarator.initial else {
        return Ok(0);
    };
    let Some(initial) = initial else {
        return Err(Untyped::Faulty);
    };
    let Some(value) = initial.value else {
        return Err(Untyped::Faulty);
    };
    let value = converted(alloc, value, elem)?;
    match constant(&value) {
        Some(word) => Ok(word),
        None => Err(fault(Fault::Constant, written.value.place())),
    }
}
