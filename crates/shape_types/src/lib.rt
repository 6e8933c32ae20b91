//! Typing: what every name means, the type of every expression, and the first fault of a file.
#![tactic(auto)]

ghost use Rattle.cstar_tree.specs.FileFaults.{IsAccepted};
ghost use Rattle.cstar_tree.specs.FileScopes.{file_known, functions_named, nothing_known};
ghost use Rattle.cstar_tree.specs.Instances.{program_of};
ghost use Rattle.cstar_tree.specs.IsTyped.{IsTyped};
ghost use Rattle.cstar_tree.specs.Nodes.{tree_nodes};
ghost use Rattle.cstar_tree.specs.ProgramTypes.{TypesFile, TypesInstances, TypesItems};
ghost use Rattle.cstar_tree.specs.Room.{HasRoom};
ghost use Rattle.cstar_tree.specs.declared.syntax.Tree as Text;
ghost use Rattle.faultless_files.specs.Files.{IsWellNamed};
ghost use Rattle.file_names.specs.Numbers.{HasFewNames};
ghost use Rattle.shape_types.specs.FileKnowledge.{IsNumberedFile};
ghost use Rattle.shape_types.specs.Groups.{in_groups};
ghost use Rattle.shape_types.specs.Plain.{IsPlainTree};
ghost use Rattle.shape_types.specs.TypeFaults.{IsListedFault};
ghost use Rattle.shape_types.specs.TypedFiles.{AreTyped, HaveOwnNames, IsTypedFile};
ghost use Rattle.std.specs.Prelude.{◌≡◌, [], ◌<◌, ◌≤◌, ◌^◌, IfErr, IfOk, IsNone, OnOk, length, slice_get, unwrap_or};

mod declarations;
mod few_shapes;
mod instances;
mod variables;

use crate::declarations::{Declared, SHAPES, file_scope};
use crate::few_shapes::has_few_shapes;
use crate::instances::{NODES, Program, reached_instances};
use call_groups::function_groups;
use cstar_base::{Fault, Memory, Place};
use cstar_tree::syntax::Tree;
use cstar_tree::typed::{Instance, ShapeInfo, Typed};
use file_names::{collect, main_function, may_be_main};
use shape_room::{has_room, needs};
use std::alloc::Global;
use type_expressions::Found;
use type_scopes::faults::Faults;
use type_scopes::file::{File, FunctionInfo};
use type_scopes::standing::Standing;

/// Why a file has no types: the least of its faults by place and then number, or want of memory.
#[derive(Drop)]
pub enum TypeFault {
    Fault { number: u8, place: Place },
    Memory,
}

impl From<Memory> for TypeFault {
    fn from(_memory: Memory) -> TypeFault {
        TypeFault::Memory
    }
}

/// The answer to a fault that stands.
fn answered(fault: Standing) -> TypeFault
    ensures { IsListedFault result }
{
    TypeFault::Fault {
        number: fault.fault.number(),
        place: fault.place,
    }
}

/// Types a file. The fault is the least of all that stand.
pub fn check(alloc: Global, tree: &Tree) -> Result<Typed, TypeFault>
    ensures fault { IfErr result IsListedFault }
    ensures typed { IfOk result IsTyped }
    ensures exact { length (file_known tree.now).names < 2 ^ 32 → IsPlainTree tree.now → IfOk result (TypesFile tree.now) }
    ensures new { length (file_known tree.now).names < 2 ^ 32 → IsPlainTree tree.now → IfOk result (λ typed. HaveOwnNames tree.now typed.shapes.items typed.vars.items) }
    ensures room { IfOk result (λ typed. HasRoom typed.shapes.items typed.need.items) }
    ensures accepted { length (file_known tree.now).names < 2 ^ 32 → IsPlainTree tree.now → tree_nodes tree.now ≤ 2 ^ 20 → IfOk result (IsAccepted tree.now) }
{
    let typed = types(alloc, tree)?;
    if has_room(typed.shapes.as_slice(), typed.need.as_slice()) {
        Ok(typed)
    } else {
        Err(answered(Standing {
            fault: Fault::Space,
            place: tree.end,
        }))
    }
}

/// Types a file, whatever room its shapes want. The fault is the least of all that stand, want of
/// room aside.
pub fn types(alloc: Global, tree: &Tree) -> Result<Typed, TypeFault>
    ensures fault { IfErr result IsListedFault }
    ensures typed { IfOk result IsTyped }
    ensures exact { length (file_known tree.now).names < 2 ^ 32 → IsPlainTree tree.now → IfOk result (IsTypedFile tree.now) }
    ensures named { length (file_known tree.now).names < 2 ^ 32 → IsPlainTree tree.now → IfOk result (λ typed. IsWellNamed tree.now) }
{
    let mut found = Found::new(alloc);
    let mut file = File::new(alloc, tree);
    let typing = match type_file(&mut found, &mut file) {
        Ok(typing) => typing,
        Err(_memory) => return Err(TypeFault::Memory),
    };
    let (declared, program) = typing;
    let File { shapes, .. } = file;
    let mut faults = found.faults;
    let nodes = found.nodes;
    bounds(&mut faults, tree, nodes, program.instances.as_slice());
    shape_bound(&mut faults, tree, declared.extra_shape, shapes.as_slice());
    if let Some(fault) = faults.least {
        return Err(answered(fault));
    }
    // Where something was not typed and no fault stands, typing gives up: no file is known where
    // that happens, but it is not proved that there is none. A file with more shapes than 16 bits
    // number has a fault.
    if !has_few_shapes(tree) || !declared.is_whole || !program.is_whole {
        return Err(TypeFault::Memory);
    }
    with_needs(alloc, shapes, declared, program)
}

/// The typed program with the room that it needs.
fn with_needs(
    alloc: Global,
    shapes: Vec<ShapeInfo>,
    declared: Declared,
    program: Program,
) -> Result<Typed, TypeFault>
    requires few_shapes { length shapes.items ≤ 64 }
    requires main { 0 < length program.instances.items }
    ensures fault { IfErr result IsListedFault }
    ensures typed { IfOk result IsTyped }
    ensures exact { (tree : Text.Tree) → TypesItems (functions_named tree) nothing_known tree.items.items shapes.items declared.vars.items → HaveOwnNames tree shapes.items declared.vars.items → TypesInstances (program_of tree) (file_known tree).shapes (program_of tree).instances program.instances.items → IfOk result (IsTypedFile tree) }
{
    let Declared { vars, .. } = declared;
    let Program { instances, .. } = program;
    let need = match needs(
        alloc,
        shapes.as_slice(),
        vars.as_slice(),
        instances.as_slice(),
    ) {
        Ok(need) => need,
        Err(_memory) => return Err(TypeFault::Memory),
    };
    Ok(Typed {
        shapes,
        vars,
        instances,
        need,
    })
}

/// Types the declarations of the file and the instances that `main` reaches.
fn type_file(found: &mut Found, file: &mut File<'_>) -> Result<(Declared, Program), Memory>
    requires functions { file.old.functions.items ≡ [] }
    requires shapes { file.old.shapes.items ≡ [] }
    requires types { file.old.types.items ≡ [] }
    ensures typed { HasFewNames (file_known file.old.tree.now) → IsPlainTree file.old.tree.now → IfOk result (AreTyped file.old.tree.now file.new.shapes.items) }
{
    number_names(&mut found.faults, file)?;
    let declared = file_scope(found, file)?;
    let program = match main_function(file) {
        Some(main) => {
            let is_main = may_be_main(&mut found.faults, file, main);
            let mut program = reached_instances(found, file, main)?;
            program.require(is_main);
            program
        }
        None => Program::none(file.alloc),
    };
    Ok((declared, program))
}

/// Numbers the names of the file, and finds the groups of its functions.
fn number_names(faults: &mut Faults, file: &mut File<'_>) -> Result<(), Memory>
    requires functions { file.old.functions.items ≡ [] }
    requires shapes { file.old.shapes.items ≡ [] }
    requires types { file.old.types.items ≡ [] }
    ensures numbered { HasFewNames (file_known file.old.tree.now) → OnOk result (IsNumberedFile file.new) }
    ensures tree { file.new.tree ≡ file.old.tree }
{
    collect(faults, file)?;
    let groups = function_groups(file)?;
    file.functions = in_groups(file.alloc, file.functions.as_slice(), groups.as_slice())?;
    Ok(())
}

/// The functions in these groups.
fn in_groups(
    alloc: Global,
    functions: &[FunctionInfo],
    groups: &[usize],
) -> Result<Vec<FunctionInfo>, Memory>
    ensures { IfOk result (λ all. all.items ≡ in_groups functions.now groups.now) }
{
    let mut all = Vec::new(alloc);
    for (number, info) in functions.iter().enumerate() {
        let group = group_at(groups, number, info.group);
        all.push(FunctionInfo { group, ..*info })?;
    }
    Ok(all)
}

/// The group of the number, or the own one where there is none.
fn group_at(groups: &[usize], number: usize, own: usize) -> usize
    ensures { result ≡ unwrap_or (slice_get groups.now number) own }
{
    match groups.get(number) {
        Some(group) => *group,
        None => own,
    }
}

/// Records the faults of the file as a whole. A `main` that is there and is not typed has a fault
/// of its own, which stands before the end.
fn bounds(faults: &mut Faults, tree: &Tree, nodes: u64, instances: &[Instance])
    ensures { IsNone faults.new.least → 0 < length instances.now }
{
    if nodes > NODES {
        faults.stands(Fault::Size, tree.end);
    } else if instances.is_empty() {
        faults.stands(Fault::NoMain, tree.end);
    }
}

/// More than 64 shapes are a fault at the name of the 65th, the extra one.
fn shape_bound(faults: &mut Faults, tree: &Tree, extra: Option<Place>, shapes: &[ShapeInfo])
    ensures few_shapes { IsNone faults.new.least → length shapes.now ≤ 64 }
    ensures kept { IsNone faults.new.least → IsNone faults.old.least }
{
    if SHAPES < shapes.len() {
        faults.stands(Fault::Size, extra.unwrap_or(tree.end));
    }
}
