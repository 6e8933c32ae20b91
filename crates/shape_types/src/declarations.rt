//! The declarations of the file: its shapes and its variables.

ghost use Rattle.std.specs.List.{All};
ghost use Rattle.std.specs.Int.{from_bool};
ghost use Rattle.std.specs.Prelude.{◌≡◌, ◌<◌, ◌≤◌, ◌+◌, ◌-◌, ◌^◌, ◌&&◌, [], length, min, pos, true, IfOk, OnOk, Some, None};
ghost use Rattle.cstar_tree.specs.Constants.{constant_number, product};
ghost use Rattle.cstar_tree.specs.FileScopes.{Known, behind_shapes, file_known, functions_named};
ghost use Rattle.cstar_tree.specs.Scopes.{find};
ghost use Rattle.file_names.specs.Numbers.{HasFewNames};
ghost use Rattle.shape_types.specs.FileKnowledge.{IsDeclaredFile, IsNumberedFile};
ghost use Rattle.shape_types.specs.FileWalk.{AreDefined, AreFirst, IsDefined, Knows, place_in};
ghost use Rattle.shape_types.specs.Plain.{IsPlainTree};
ghost use Rattle.type_expressions.specs.Instances.{met};
ghost use Rattle.type_expressions.specs.Walks.{IsPlain};
ghost use Rattle.type_scopes.specs.declared.file.File as Files;

use crate::variables::variables;
use cstar_base::{Fault, Memory, Place};
use cstar_tree::syntax::{Expr, Item, Name, ShapeDefinition};
use cstar_tree::typed::{ShapeInfo, VarInfo};
use shape_room::positions;
use std::alloc::Global;
use type_expressions::{Found, Instances, typed_constant};
use type_scopes::file::File;
use type_scopes::locals::Locals;
use type_scopes::sites::Site;
use type_statements::constant_number;

/// The most shapes that a file can have.
pub const SHAPES: usize = 64;

/// The most positions that a shape can have.
const POSITIONS: u64 = 1 << 20;

/// What the declarations of the file come to: its variables, and the place of the name of the first
/// shape that is one too many. They are whole where each one has its type, so that no fault was met.
#[derive(Drop)]
pub struct Declared {
    pub vars: Vec<VarInfo>,
    pub extra_shape: Option<Place>,
    pub is_whole: bool,
    /// How many names of the file are known.
    pub known: usize,
}

impl Declared {
    /// No declarations.
    fn none(alloc: Global) -> Declared
        ensures vars { result.vars.items ≡ [] }
        ensures whole { result.is_whole ≡ true }
        ensures known { result.known ≡ 0 }
    {
        Declared {
            vars: Vec::new(alloc),
            extra_shape: None,
            is_whole: true,
            known: 0,
        }
    }

    /// A name is declared, for the first time or once more, which is a fault that was recorded when
    /// the names were numbered.
    pub fn declare(&mut self, new: bool)
        ensures whole { self.new.is_whole ≡ (self.old.is_whole && new) }
        ensures known { self.new.known ≡ min (self.old.known + from_bool new) (2 ^ 64 - 1) }
        ensures vars { self.new.vars ≡ self.old.vars }
    {
        self.is_whole = self.is_whole && new;
        self.known = self.known.saturating_add(usize::from(new));
    }

    /// The declarations stay whole only if this part of them is.
    pub fn require(&mut self, is_whole: bool)
        ensures whole { self.new.is_whole ≡ (self.old.is_whole && is_whole) }
        ensures known { self.new.known ≡ self.old.known }
        ensures vars { self.new.vars ≡ self.old.vars }
    {
        self.is_whole = self.is_whole && is_whole;
    }

    /// A shape is kept behind so many others. The place of the first that is one too many is told.
    fn keep_shape(&mut self, before: usize, place: Place)
        ensures whole { self.new.is_whole ≡ true → self.old.is_whole ≡ true }
        ensures known { self.new.known ≡ self.old.known }
        ensures vars { self.new.vars ≡ self.old.vars }
    {
        if before == SHAPES {
            self.extra_shape = Some(place);
        }
        self.is_whole = before < SHAPES && self.is_whole;
    }

    /// A header that is kept tells what the file knew when it was typed, so while the declarations
    /// are whole each constant expression of the file begins with none. That drops nothing, since
    /// one that calls a function is not constant; behind a fault what is kept stays, so that no
    /// header is typed once for each call.
    pub fn begin_constant(&self, found: &mut Found, alloc: Global)
        ensures { self.now.is_whole ≡ true → found.new.instances.headers.entries ≡ [] }
    {
        if self.is_whole {
            found.instances = Instances::new(alloc);
        }
    }
}

/// Types the declarations of the file in text order. No instance is met there, and no header is kept
/// behind it.
pub fn file_scope(found: &mut Found, file: &mut File<'_>) -> Result<Declared, Memory>
    ensures typed { HasFewNames (file_known file.old.tree.now) → IsNumberedFile file.old → IsPlainTree file.old.tree.now → IfOk result (λ d. d.is_whole ≡ true → IsDeclaredFile file.old.tree.now file.new d.vars.items) }
    ensures functions { file.new.functions ≡ file.old.functions }
    ensures names { file.new.names ≡ file.old.names }
    ensures tree { file.new.tree ≡ file.old.tree }
    ensures met { OnOk result (met found.new.instances ≡ []) }
    ensures headers { OnOk result (found.new.instances.headers.entries ≡ []) }
{
    let tree = file.tree;
    let mut declared = Declared::none(file.alloc);
    for item in tree.items.as_slice() {
        match item {
            Item::Shapes { shapes, .. } => {
                shape_definitions(found, file, &mut declared, shapes.as_slice())?;
            }
            Item::Variables(declaration) => variables(found, file, &mut declared, declaration)?,
            Item::Function(function) => {
                let new = is_new(file, declared.known, &function.name);
                declared.declare(new);
            }
        }
    }
    found.instances = Instances::new(file.alloc);
    Ok(declared)
}

/// Is the declaration of the name behind so many known names the first one?
pub fn is_new(file: &File<'_>, known: usize, name: &Name) -> bool
    ensures { (start : Files.File) (k : Known) → Knows start k file.now known → result ≡ true → find k.names name.now.word ≡ None }
{
    match file.names.find(&name.word) {
        Some((number, _)) => number == known,
        None => false,
    }
}

/// The shapes of an item.
fn shape_definitions(
    found: &mut Found,
    file: &mut File<'_>,
    declared: &mut Declared,
    definitions: &[ShapeDefinition],
) -> Result<(), Memory>
    ensures typed { (start : Files.File) (k : Known) → Knows start k file.old declared.old.known → All (λ d. All IsPlain d.extents.items) definitions.now → AreFirst (behind_shapes (functions_named start.tree.now) k definitions.now).names (file_known start.tree.now).names → OnOk result (declared.new.is_whole ≡ true → AreDefined start k definitions.now file.old.shapes.items file.new declared.new.known) }
    ensures whole { OnOk result (declared.new.is_whole ≡ true → declared.old.is_whole ≡ true) }
    ensures vars { OnOk result (declared.new.vars ≡ declared.old.vars) }
    ensures functions { file.new.functions ≡ file.old.functions }
    ensures names { file.new.names ≡ file.old.names }
    ensures tree { file.new.tree ≡ file.old.tree }
{
    found.count(1);
    for definition in definitions {
        let new = is_new(file, declared.known, &definition.name);
        let info = shape_definition(found, file, declared, definition)?;
        declared.declare(new);
        if new {
            declared.keep_shape(file.shapes.len(), definition.name.place);
            file.shapes.push(info)?;
        }
    }
    Ok(())
}

/// A shape of the file.
fn shape_definition(
    found: &mut Found,
    file: &File<'_>,
    declared: &mut Declared,
    definition: &ShapeDefinition,
) -> Result<ShapeInfo, Memory>
    ensures typed { (start : Files.File) (k : Known) → Knows start k file.now declared.old.known → All IsPlain definition.now.extents.items → IfOk result (λ info. declared.new.is_whole ≡ true → IsDefined (place_in start k) definition.now info) }
    ensures whole { OnOk result (declared.new.is_whole ≡ true → declared.old.is_whole ≡ true) }
    ensures known { OnOk result (declared.new.known ≡ declared.old.known) }
    ensures vars { OnOk result (declared.new.vars ≡ declared.old.vars) }
{
    found.count(1);
    let mut extents = Vec::new(file.alloc);
    let mut fits = true;
    for extent in definition.extents.as_slice() {
        let size = extent_of(found, file, declared, extent)?;
        fits = size > 0 && fits;
        extents.push(size)?;
    }
    let info = ShapeInfo {
        name: definition.name.word.copied(file.alloc)?,
        extents,
    };
    let fits = fits && is_small(&info);
    if !fits {
        found.faults.stands(Fault::Extent, definition.name.place);
    }
    declared.require(fits);
    Ok(info)
}

/// Has the shape at most 4 axes and 2^20 positions?
fn is_small(info: &ShapeInfo) -> bool
    ensures { result ≡ true → (length info.now.extents.items ≤ 4) × (product info.now.extents.items ≤ 2 ^ 20) }
{
    info.extents.len() <= 4 && positions(info) <= POSITIONS
}

/// The size of an axis: the number of its extent, 0 where that is none, and 1 where it has a fault.
fn extent_of(
    found: &mut Found,
    file: &File<'_>,
    declared: &mut Declared,
    extent: &Expr,
) -> Result<u32, Memory>
    ensures typed { (start : Files.File) (k : Known) → Knows start k file.now declared.old.known → IsPlain extent.now → IfOk result (λ size. declared.new.is_whole ≡ true → 0 < size → constant_number (place_in start k) extent.now ≡ Some (pos size)) }
    ensures small { IfOk result (λ size. size < 2 ^ 32) }
    ensures whole { OnOk result (declared.new.is_whole ≡ true → declared.old.is_whole ≡ true) }
    ensures known { OnOk result (declared.new.known ≡ declared.old.known) }
    ensures vars { OnOk result (declared.new.vars ≡ declared.old.vars) }
{
    declared.begin_constant(found, file.alloc);
    let none = Locals::new(file.alloc);
    let typed = typed_constant(found, file, &none, Site::file(declared.known), extent)?;
    let number = constant_number(extent.place(), typed);
    let number = found.faults.settle(number)?;
    declared.require(number.is_some());
    Ok(size_of(number.unwrap_or(1)))
}

/// The number as the size of an axis, and 0 where it is none.
fn size_of(number: i64) -> u32
    ensures { 0 < result → number ≡ pos result }
{
    u32::try_from(number).unwrap_or(0)
}
