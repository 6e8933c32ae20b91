//! References to variables: names, elements of arrays, left indexes and `.`.

ghost use Rattle.cstar_tree.specs.Conversions as C;
ghost use Rattle.cstar_tree.specs.Conversions.{AreSpread};
ghost use Rattle.cstar_tree.specs.ExpressionTypes.{IsVariable, Types, TypesIndexes};
ghost use Rattle.cstar_tree.specs.Headers.{Program};
ghost use Rattle.cstar_tree.specs.Scopes.{Here, find, part, stands_under};
ghost use Rattle.cstar_tree.specs.declared.syntax.Expr as E;
ghost use Rattle.cstar_tree.specs.declared.syntax.Expr.{Expr};
ghost use Rattle.cstar_tree.specs.declared.syntax.Name.{Name};
ghost use Rattle.std.specs.Prelude.{◌≡◌, ℕ, false, true, Box, IfOk, MatchResult, Vec};
ghost use Rattle.std.specs.declared.alloc.Global.{Global};
ghost use Rattle.type_expressions.specs.Along.{HasExtents, is_rank};
ghost use Rattle.type_expressions.specs.Answers.{AtSite, HasShapes, IsAnswer, IsAnswerOrMemory, IsSite, trees};
ghost use Rattle.type_expressions.specs.Names.{HasNames, IsVariableMeant, IsNamed, TellsOther};
ghost use Rattle.type_scopes.specs.Bindings.{variable_type};
ghost use Rattle.type_scopes.specs.FileBindings.{names_at};

use cstar_base::{Elem, Fault, Memory, Place};
use cstar_tree::syntax::Name;
use cstar_tree::typed::{TExpr, ValueType, Variable};
use std::alloc::Global;
use type_scopes::faults::{Untyped, fault};
use type_scopes::file::File;
use type_scopes::locals::Locals;
use type_scopes::names::VariableType;
use type_scopes::sites::Site;
use typed_nodes::conversions::spread;

/// A name that stands for a whole variable.
pub fn name(file: &File<'_>, locals: &Locals, site: Site, name: &Name) -> Result<TExpr, Untyped>
    ensures { (program : Program) (here : Here) → HasNames (names_at file.now locals.now site.known) here → IsSite site here → IsNamed program here name.now result }
{
    let (variable, ty) = plain_variable(file, locals, site, name)?;
    site.holds(name.place, ty.shape)?;
    Ok(TExpr::Variable {
        ty: ty.value(),
        variable,
    })
}

/// The variable that is named, which is no array.
pub fn plain_variable(
    file: &File<'_>,
    locals: &Locals,
    site: Site,
    name: &Name,
) -> Result<(Variable, VariableType), Untyped>
    ensures { MatchResult result (IsVariableMeant false (find (names_at file.now locals.now site.known) name.now.word)) (TellsOther false (find (names_at file.now locals.now site.known) name.now.word) name.now.place) }
{
    let (variable, ty) = file.variable(locals, site, name)?;
    if ty.array.is_some() {
        return Err(fault(Fault::ArrayUse, name.place));
    }
    Ok((variable, ty))
}

/// The array that is named.
pub fn array(
    file: &File<'_>,
    locals: &Locals,
    site: Site,
    name: &Name,
) -> Result<(Variable, VariableType), Untyped>
    ensures { MatchResult result (IsVariableMeant true (find (names_at file.now locals.now site.known) name.now.word)) (TellsOther true (find (names_at file.now locals.now site.known) name.now.word) name.now.place) }
{
    let (variable, ty) = file.variable(locals, site, name)?;
    if ty.array.is_none() {
        return Err(fault(Fault::ArrayUse, name.place));
    }
    Ok((variable, ty))
}

/// An element of the array, whose name stands at the place and its `[` at the bracket. With a
/// scalar index it is a whole parallel variable.
pub fn element(
    site: Site,
    place: Place,
    bracket: Place,
    array: (Variable, VariableType),
    index: Box<TExpr>,
) -> Result<TExpr, Untyped>
    ensures { (program : Program) (here : Here) (n : Name) (length : ℕ) (i : Box Expr Global) → IsSite site here → n.place ≡ place → IsVariable here n array.0 (variable_type array.1) → array.1.array ≡ Some length → Types program (part here) i.value index.value true → IsAnswer program here (E.Element n bracket i) result }
{
    if index.ty().shape.is_some() {
        return Err(fault(Fault::ScalarWanted, bracket));
    }
    let (variable, ty) = array;
    site.holds(place, ty.shape)?;
    Ok(TExpr::Element {
        ty: ty.value(),
        place: bracket,
        array: variable,
        index,
    })
}

/// `.`, at its place.
pub fn dot(site: Site, place: Place) -> Result<TExpr, Untyped>
    ensures { AtSite site (E.Dot place) result }
{
    let Some(axis) = site.dot else {
        return Err(fault(Fault::Dot, place));
    };
    Ok(TExpr::Dot {
        ty: ValueType {
            elem: Elem::INT,
            shape: site.current,
        },
        axis,
    })
}

/// Does the name stand for a variable of the current shape, so that a `.` in its left index has a
/// meaning?
pub fn is_of_current(file: &File<'_>, locals: &Locals, site: Site, name: &Name) -> bool
    ensures { result ≡ stands_under site.current (find (names_at file.now locals.now site.known) name.now.word) }
{
    match file.type_of(locals, site, name) {
        Some(ty) => ty.shape.is_some() && ty.shape == site.current,
        None => false,
    }
}

/// A left index of the variable at its first `[`, with its typed indexes. It has the shape of the
/// parallel ones.
pub fn left_index(
    file: &File<'_>,
    place: Place,
    variable: (Variable, VariableType),
    indexes: Vec<Box<TExpr>>,
) -> Result<TExpr, Untyped>
    ensures { (program : Program) (here : Here) (n : Name) (given : Vec Expr Global) → HasShapes file.now.shapes.items here → HasExtents here variable.1.shape → IsVariable here n variable.0 (variable_type variable.1) → variable.1.array ≡ None → TypesIndexes program here n 0 given.items (trees indexes.items) → IsAnswerOrMemory program here (E.LeftIndex place given n) result }
{
    let (variable, ty) = variable;
    let Some(of) = ty.shape else {
        return Err(fault(Fault::IndexCount, place));
    };
    if !is_rank(file.rank(of), indexes.len()) {
        return Err(fault(Fault::IndexCount, place));
    }
    let shape = shape_among(indexes.as_slice());
    let indexes = spread_each(file.alloc, indexes, shape)?;
    Ok(TExpr::LeftIndex {
        ty: ValueType {
            elem: ty.elem,
            shape,
        },
        place,
        indexes,
        variable,
        of,
    })
}

/// Is the count that of the axes of a shape?
fn is_rank(rank: Option<u32>, count: usize) -> bool
    ensures { result ≡ is_rank rank count }
{
    match rank {
        Some(rank) => rank as usize == count,
        None => false,
    }
}

/// The shape of the first parallel value.
fn shape_among(values: &[Box<TExpr>]) -> Option<u16>
    ensures { result ≡ C.shape_among (trees values.now) }
{
    for value in values {
        if let Some(shape) = value.ty().shape {
            return Some(shape);
        }
    }
    None
}

/// The values, each at every position of the shape, if one is given.
fn spread_each(
    alloc: Global,
    values: Vec<Box<TExpr>>,
    shape: Option<u16>,
) -> Result<Vec<TExpr>, Memory>
    ensures { IfOk result (λ spread. AreSpread shape (trees values.items) spread.items) }
{
    let mut at_positions = Vec::new(alloc);
    for value in values {
        at_positions.push(Box::into_inner(spread(alloc, value, shape)?))?;
    }
    Ok(at_positions)
}
