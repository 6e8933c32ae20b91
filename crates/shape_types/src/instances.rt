//! The instances that `main` reaches.

ghost use Rattle.cstar_tree.specs.Headers.{behind_parameters, parameter_types, plain_type};
ghost use Rattle.cstar_tree.specs.Instances.{main_of};
ghost use Rattle.cstar_tree.specs.ProgramTypes.{TypesParameters, TypesResult, plain_info};
ghost use Rattle.cstar_tree.specs.Scopes.{Here};
ghost use Rattle.cstar_tree.specs.declared.syntax.Tree as Text;
ghost use Rattle.shape_types.specs.Plain.{IsPlainTree};
ghost use Rattle.shape_types.specs.Reached.{IsTypedInstance, IsTypedProgram, IsWholeFile, site_of};
ghost use Rattle.std.specs.Option.{option_flatten};
ghost use Rattle.std.specs.Prelude.{◌≡◌, ◌<◌, ◌+◌, ◌&&◌, [], ℕ, IfOk, IfSome, None, OnOk, Some, false, length, slice_get, true};
ghost use Rattle.type_expressions.specs.Instances.{AreHeaders, Grows, instance_of, met};
ghost use Rattle.type_scopes.specs.Bindings.{bindings, type_meant};
ghost use Rattle.type_scopes.specs.Headers.{returned};

use cstar_base::Memory;
use cstar_tree::syntax::{Name, Parameter};
use cstar_tree::typed::{Instance, ValueType, VarInfo, Variable};
use std::alloc::Global;
use type_expressions::Found;
use type_scopes::file::{File, FunctionInfo};
use type_scopes::headers::{Header, Reached};
use type_scopes::names::VariableType;
use type_scopes::sites::{Returns, Site};
use type_statements::{Scopes, block_in, typed_info};

/// The most nodes that the trees of a program can have.
pub const NODES: u64 = 1 << 20;

/// The instances of a program that were typed, and whether these are all of them, from a `main` on that
/// may be one.
#[derive(Drop)]
pub struct Program {
    pub instances: Vec<Instance>,
    pub is_whole: bool,
}

impl Program {
    /// That of a file without `main`: no instances, and no program.
    pub fn none(alloc: Global) -> Program
        ensures instances { result.instances.items ≡ [] }
        ensures whole { result.is_whole ≡ false }
    {
        Program {
            instances: Vec::new(alloc),
            is_whole: false,
        }
    }

    /// The program stays whole only if its `main` may be one.
    pub fn require(&mut self, is_main: bool)
        ensures whole { self.new.is_whole ≡ (self.old.is_whole && is_main) }
        ensures instances { self.new.instances ≡ self.old.instances }
    {
        self.is_whole = self.is_whole && is_main;
    }
}

/// Types the instances that `main` reaches, in the order in which they are met. Where the program
/// has too many nodes the walk goes on, since an earlier fault may stand, and keeps no tree. It
/// ends where no instance can have an earlier fault than the least so far.
pub fn reached_instances(found: &mut Found, file: &File<'_>, main: u32) -> Result<Program, Memory>
    ensures typed { (tree : Text.Tree) → IsWholeFile tree file.now → IsPlainTree tree → main_of tree ≡ Some main → met found.old.instances ≡ [] → AreHeaders file.now found.old.instances → IfOk result (IsTypedProgram tree) }
{
    found.reach(
        file,
        Reached {
            function: main,
            current: None,
        },
    )?;
    let mut instances = Vec::new(file.alloc);
    let shapes = file.shapes.len().saturating_add(1);
    let most = file.functions.len().saturating_mul(shapes);
    for number in 0..most {
        if is_decided(found, file) {
            break;
        }
        let Some(reached) = found.instances.instance(number) else {
            break;
        };
        let instance = typed_instance(found, file, reached)?;
        if let Some(instance) = instance
            && found.nodes <= NODES
        {
            instances.push(instance)?;
        }
    }
    let is_whole = found.instances.instance(instances.len()).is_none();
    Ok(Program {
        instances,
        is_whole,
    })
}

/// Does a fault stand before all functions of the file?
fn is_decided(found: &Found, file: &File<'_>) -> bool {
    match (found.faults.least, file.function(0)) {
        (Some(least), Some((_, function))) => least.place < function.place,
        _ => false,
    }
}

/// Is the current shape, where there is one, a shape of the file?
fn has_its_shape(file: &File<'_>, current: Option<u16>) -> bool
    ensures { result ≡ true → (shape : ℕ) → current ≡ Some shape → shape < length file.now.shapes.items }
{
    match current {
        Some(shape) => usize::from(shape) < file.shapes.len(),
        None => true,
    }
}

/// Types the function under the current shape.
fn typed_instance(
    found: &mut Found,
    file: &File<'_>,
    reached: Reached,
) -> Result<Option<Instance>, Memory>
    ensures met { OnOk result (Grows file.now found.old.instances found.new.instances) }
    ensures typed { (tree : Text.Tree) → IsWholeFile tree file.now → IsPlainTree tree → AreHeaders file.now found.old.instances → IfOk result (λ i. IfSome i (IsTypedInstance tree found.old.instances found.new.instances (instance_of reached))) }
{
    let Some((info, function)) = file.function(reached.function) else {
        return Ok(None);
    };
    if !has_its_shape(file, reached.current) {
        return Ok(None);
    }
    found.count(1);
    let mut scopes = Scopes::new(file.alloc);
    let Some(header) = found.instances.header(reached) else {
        return Ok(None);
    };
    let returns = header.returns;
    let params = parameters(file.alloc, &mut scopes, header, &function.parameters)?;
    found.count(function.parameters.len() as u64);
    let site = body_site(info, reached, returns);
    let body = block_in(found, file, &mut scopes, site, 0, &function.body)?;
    let result = result_info(file.alloc, &function.name, returns)?;
    let (Some(params), Some(result), Some(body)) = (params, result, body) else {
        return Ok(None);
    };
    Ok(Some(Instance {
        name: function.name.word.copied(file.alloc)?,
        current: reached.current,
        params,
        result,
        body: Box::into_inner(body),
    }))
}

/// Where the body of an instance stands.
fn body_site(info: FunctionInfo, reached: Reached, returns: Returns) -> Site
    ensures { result ≡ site_of info reached returns }
{
    Site {
        current: reached.current,
        function: Some(reached.function),
        returns,
        ..Site::file(info.known)
    }
}

/// The result of an instance as the typed program has it: none if it returns nothing. The outer
/// None stands for one whose type has a fault.
fn result_info(
    alloc: Global,
    name: &Name,
    returns: Returns,
) -> Result<Option<Option<VarInfo>>, Memory>
    ensures { IfOk result (λ r. IfSome r (TypesResult name.now.word (returned returns))) }
{
    Ok(match returns {
        Returns::Nothing => Some(None),
        Returns::Value(ty) => Some(Some(value_info(alloc, name, ty)?)),
        Returns::Unknown => None,
    })
}

/// A parameter or a result as the typed program has it.
fn value_info(alloc: Global, name: &Name, ty: ValueType) -> Result<VarInfo, Memory>
    ensures { IfOk result (λ i. i ≡ plain_info name.now.word ty) }
{
    typed_info(alloc, &name.word, plain(ty), 0)
}

/// The type of a variable that is no array.
fn plain(ty: ValueType) -> VariableType
    ensures { result ≡ record { elem = ty.elem; shape = ty.shape; array = None } }
{
    VariableType {
        elem: ty.elem,
        shape: ty.shape,
        array: None,
    }
}

/// Declares the parameters of the instance. None where a type has a fault, or a name comes twice, which
/// is a fault of the header.
fn parameters(
    alloc: Global,
    scopes: &mut Scopes,
    header: &Header,
    parameters: &[Parameter],
) -> Result<Option<Vec<VarInfo>>, Memory>
    ensures count { OnOk result (scopes.new.count ≡ scopes.old.count) }
    ensures names { (here : Here) → here.names.inner ≡ bindings scopes.old.locals → header.now.parameters.items ≡ parameter_types here 0 parameters.now → OnOk result ((behind_parameters here 0 parameters.now).names.inner ≡ bindings scopes.new.locals) }
    ensures typed { (here : Here) → here.names.inner ≡ bindings scopes.old.locals → header.now.parameters.items ≡ parameter_types here 0 parameters.now → IfOk result (λ r. IfSome r (λ infos. TypesParameters here 0 parameters.now infos.items)) }
    ensures once { (here : Here) → here.names.inner ≡ bindings scopes.old.locals → header.now.parameters.items ≡ parameter_types here 0 parameters.now → IfOk result (λ r. IfSome r (λ infos. length (behind_parameters here 0 parameters.now).names.inner ≡ length here.names.inner + length parameters.now)) }
{
    let mut infos = Vec::new(alloc);
    let mut complete = true;
    let types = header.parameters.as_slice();
    for (number, parameter) in parameters.iter().enumerate() {
        let ty = type_at(types, number);
        let variable = Variable::Param(parameter_number(number)?);
        let word = &parameter.name.word;
        let new = scopes
            .locals
            .declare(alloc, 0, word, variable, plain_if(ty))?;
        complete = new && complete;
        match ty {
            Some(ty) => infos.push(value_info(alloc, &parameter.name, ty)?)?,
            None => complete = false,
        }
    }
    Ok(if complete { Some(infos) } else { None })
}

/// The type of the parameter of the number, where it has no fault.
fn type_at(types: &[Option<ValueType>], number: usize) -> Option<ValueType>
    ensures { result ≡ option_flatten (slice_get types.now number) }
{
    *types.get(number)?
}

/// The number of a parameter as the typed tree has it.
fn parameter_number(number: usize) -> Result<u32, Memory>
    ensures { IfOk result (λ parameter. parameter ≡ number) }
{
    u32::try_from(number).map_err(|_error| Memory)
}

/// The type of a variable that is no array, where it has no fault.
fn plain_if(ty: Option<ValueType>) -> Option<VariableType>
    ensures { type_meant result ≡ plain_type ty }
{
    match ty {
        Some(ty) => Some(plain(ty)),
        None => None,
    }
}
