//! What is asked of shapes, and the scans.

ghost use Rattle.cstar_tree.specs.ExpressionTypes.{Types};
ghost use Rattle.cstar_tree.specs.Headers.{Program};
ghost use Rattle.cstar_tree.specs.Scopes.{Here, extents_of, part, shape_of, written_type};
ghost use Rattle.cstar_tree.specs.Constants.{axis_of, product};
ghost use Rattle.cstar_tree.specs.declared.syntax.ShapeRef.{ShapeRef};
ghost use Rattle.cstar_base.specs.declared.operators.Place.{Place};
ghost use Rattle.cstar_tree.specs.declared.syntax.Expr as E;
ghost use Rattle.cstar_tree.specs.declared.syntax.Expr.{Expr};
ghost use Rattle.cstar_tree.specs.declared.syntax.TypeName.{TypeName};
ghost use Rattle.cstar_tree.specs.declared.syntax.Name.{Name};
ghost use Rattle.cstar_tree.specs.ExpressionFaults.{HoldsBits, IsReady};
ghost use Rattle.cstar_tree.specs.Syntax.{place_of};
ghost use Rattle.std.specs.Prelude.{◌≡◌, ◌↔◌, ◌<◌, ◌^◌, ℕ, true, Box, IsTrue, List, MatchResult, Option, Some, length, slice_get};
ghost use Rattle.type_expressions.specs.declared.intrinsics.Axis.TheVariants as A;
ghost use Rattle.std.specs.declared.alloc.Global.{Global};
ghost use Rattle.type_expressions.specs.Along.{AreBits, AreBitsNamed, GoesBy, IsAlong, IsAxisOf, axis_in, extent_along, goes_with, number_of_constant, positions_in};
ghost use Rattle.type_expressions.specs.Names.{HasNames};
ghost use Rattle.type_scopes.specs.Bindings.{variable_type};
ghost use Rattle.type_scopes.specs.FileBindings.{names_at};
ghost use Rattle.type_expressions.specs.Answers.{HasShapes, IsAnswer, IsAnswerOrMemory, IsFault, IsSite};

use cstar_base::{Combiner, Direction, Elem, Fault, Inclusion, Place, SegmentMode, numbers};
use cstar_tree::syntax::Name;
use cstar_tree::typed::{TExpr, ValueType, Variable};
use shape_room::positions;
use source_meaning::constant;
use std::alloc::Global;
use type_scopes::faults::{Untyped, fault};
use type_scopes::file::File;
use type_scopes::locals::Locals;
use type_scopes::names::VariableType;
use type_scopes::sites::Site;
use typed_nodes::conversions::{INT, converted, promoted, spread};

/// An axis. It is unknown where it is constant and the shape is not known.
#[derive(Clone, Copy)]
pub enum Axis {
    Unknown,
    Number(u32),
}

/// How a scan or an enumerate goes along its lines.
#[derive(Clone, Copy)]
pub struct Walk {
    pub mode: SegmentMode,
    pub direction: Direction,
    pub inclusion: Inclusion,
}

/// An axis of a shape with so many axes, from its typed expression at the place.
pub fn axis_of(place: Place, axis: &TExpr, rank: Option<u32>) -> Result<Axis, Untyped>
    ensures { IsAxisOf (number_of_constant axis.now) rank place result }
{
    let Some(word) = constant(axis) else {
        return Err(fault(Fault::Constant, place));
    };
    let number = numbers::value(axis.ty().elem, word);
    let Some(rank) = rank else {
        return Ok(Axis::Unknown);
    };
    match axis_in(rank, number) {
        Some(axis) => Ok(Axis::Number(axis)),
        None => Err(fault(Fault::Axis, place)),
    }
}

/// The number as an axis of so many.
fn axis_in(rank: u32, number: i64) -> Option<u32>
    ensures { result ≡ axis_in rank number }
{
    match u32::try_from(number) {
        Ok(axis) if axis < rank => Some(axis),
        _ => None,
    }
}

/// `pcoord` at its place.
pub fn pcoord(site: Site, place: Place, axis: Axis) -> Result<TExpr, Untyped>
    ensures { (program : Program) (here : Here) (along : Box Expr Global) → IsSite site here → IsAlong program here along.value axis → IsAnswer program here (E.Pcoord place along) result }
{
    let shape = site.shape(place)?;
    let axis = known_axis(axis)?;
    Ok(TExpr::Pcoord {
        ty: ValueType {
            elem: Elem::INT,
            shape: Some(shape),
        },
        axis,
    })
}

/// `positionsof` of the shape.
pub fn positions_of(file: &File<'_>, shape: u16) -> TExpr
    ensures { (program : Program) (here : Here) (place : Place) (written : ShapeRef) (extents : List ℕ) → HasShapes file.now.shapes.items here → shape_of here written ≡ Some shape → extents_of here shape ≡ Some extents → product extents < 2 ^ 32 → Types program here (E.PositionsOf place written) result true }
{
    TExpr::PositionsOf {
        ty: INT,
        shape,
        value: position_count(file, shape),
    }
}

/// How many positions the shape has, as far as a `u32` counts them, or 0 where there is none.
fn position_count(file: &File<'_>, shape: u16) -> u32
    ensures { result ≡ positions_in (slice_get file.now.shapes.items shape) }
{
    match file.shapes.get(usize::from(shape)) {
        Some(info) => u32::try_from(positions(info)).unwrap_or(u32::MAX),
        None => 0,
    }
}

/// `rankof` of the shape.
pub fn rank_of(file: &File<'_>, shape: u16) -> TExpr
    ensures { (program : Program) (here : Here) (place : Place) (written : ShapeRef) (extents : List ℕ) → HasShapes file.now.shapes.items here → shape_of here written ≡ Some shape → extents_of here shape ≡ Some extents → length extents < 2 ^ 32 → Types program here (E.RankOf place written) result true }
{
    TExpr::RankOf {
        ty: INT,
        shape,
        value: file.rank(shape).unwrap_or(0),
    }
}

/// `dimof` of the shape along the axis.
pub fn dim_of(file: &File<'_>, shape: u16, axis: Axis) -> Result<TExpr, Untyped>
    ensures { (program : Program) (here : Here) (place : Place) (written : ShapeRef) (along : Box Expr Global) (extents : List ℕ) (number : ℕ) → HasShapes file.now.shapes.items here → shape_of here written ≡ Some shape → extents_of here shape ≡ Some extents → axis_of here extents along.value ≡ Some number → axis ≡ A.Number number → IsAnswer program here (E.DimOf place written along) result }
{
    let axis = known_axis(axis)?;
    Ok(TExpr::DimOf {
        ty: INT,
        shape,
        axis,
        value: extent_along(file, shape, axis),
    })
}

/// The extent of the shape along the axis, or 0 where there is none.
fn extent_along(file: &File<'_>, shape: u16, axis: u32) -> u32
    ensures { result ≡ extent_along (slice_get file.now.shapes.items shape) axis }
{
    match file.shapes.get(usize::from(shape)) {
        Some(info) => info.extents.get(axis as usize).copied().unwrap_or(0),
        None => 0,
    }
}

/// A cast to the type, which may be parallel, at its place.
pub fn parallel_cast(
    alloc: Global,
    site: Site,
    place: Place,
    ty: ValueType,
    operand: Box<TExpr>,
) -> Result<TExpr, Untyped>
    ensures { (program : Program) (here : Here) (written : TypeName) (e : Box Expr Global) → IsSite site here → written_type here written ≡ Some ty → Types program (part here) e.value operand.value true → IsAnswerOrMemory program here (E.ParallelCast place written e) result }
{
    site.holds(place, ty.shape)?;
    let operand = spread(alloc, operand, ty.shape)?;
    Ok(TExpr::ParallelCast { ty, operand })
}

/// The variable of the segment bits, if one is named: it is parallel, of type `bool` and of the
/// current shape.
pub fn segment_bit(
    file: &File<'_>,
    locals: &Locals,
    site: Site,
    bit: &Option<Name>,
) -> Result<Option<Variable>, Untyped>
    ensures { (program : Program) (here : Here) → HasNames (names_at file.now locals.now site.known) here → IsSite site here → AreBitsNamed program here bit.now result }
{
    let Some(name) = bit else {
        return Ok(None);
    };
    let (variable, ty) = file.variable(locals, site, name)?;
    if !holds_bits(ty) {
        return Err(fault(Fault::WrongKind, name.place));
    }
    if ty.shape != site.current {
        return Err(fault(Fault::OtherShape, name.place));
    }
    Ok(Some(variable))
}

/// Can a variable of the type be segment bits of some shape?
fn holds_bits(ty: VariableType) -> bool
    ensures { IsTrue result ↔ ((s : ℕ) × HoldsBits (variable_type ty) s) }
{
    match (ty.array, ty.shape) {
        (None, Some(_)) => ty.elem.bits == 1,
        _ => false,
    }
}

/// The axis of what stands at the place, whose mode goes with the segment bit.
fn fitting_axis(
    place: Place,
    axis: Axis,
    mode: SegmentMode,
    bit: Option<Variable>,
) -> Result<u32, Untyped>
    ensures { (program : Program) (here : Here) (e along : Expr) (written : Option Name) (shape : ℕ) → IsReady program here e mode written → place_of e ≡ place → here.current ≡ Some shape → IsAlong program here along axis → AreBits here written bit → MatchResult result (GoesBy here along mode written bit shape) (IsFault program here e) }
{
    if goes_with(mode, bit) {
        known_axis(axis)
    } else {
        Err(fault(Fault::Arguments, place))
    }
}

/// Does the mode go with the segment bits? Without segments there are none.
fn goes_with(mode: SegmentMode, bit: Option<Variable>) -> bool
    ensures { result ≡ goes_with mode bit }
{
    match mode {
        SegmentMode::NoSegments => bit.is_none(),
        _ => bit.is_some(),
    }
}

fn known_axis(axis: Axis) -> Result<u32, Untyped>
    ensures { MatchResult result (λ number. axis ≡ A.Number number) (λ u. axis ≡ A.Unknown) }
{
    match axis {
        Axis::Number(axis) => Ok(axis),
        Axis::Unknown => Err(Untyped::Faulty),
    }
}

/// `scan` at its place.
pub fn scan(
    alloc: Global,
    site: Site,
    place: Place,
    source: Box<TExpr>,
    axis: Axis,
    combiner: Combiner,
    walk: Walk,
    bit: Option<Variable>,
) -> Result<TExpr, Untyped>
    ensures { (program : Program) (here : Here) (scanned along : Box Expr Global) (written : Option Name) → IsSite site here → IsAlong program here along.value axis → AreBits here written bit → Types program (part here) scanned.value source.value true → IsAnswerOrMemory program here (E.Scan place scanned along combiner walk.direction walk.mode written walk.inclusion) result }
{
    let shape = site.shape(place)?;
    if source.ty().shape.is_none() {
        return Err(fault(Fault::ParallelWanted, place));
    }
    let axis = fitting_axis(place, axis, walk.mode, bit)?;
    let elem = promoted(source.ty().elem);
    let source = converted(alloc, source, elem)?;
    Ok(TExpr::Scan {
        ty: ValueType {
            elem,
            shape: Some(shape),
        },
        source,
        axis,
        combiner,
        direction: walk.direction,
        mode: walk.mode,
        bit,
        inclusion: walk.inclusion,
    })
}

/// `enumerate` at its place.
pub fn enumerate(
    site: Site,
    place: Place,
    axis: Axis,
    walk: Walk,
    bit: Option<Variable>,
) -> Result<TExpr, Untyped>
    ensures { (program : Program) (here : Here) (along : Box Expr Global) (written : Option Name) → IsSite site here → IsAlong program here along.value axis → AreBits here written bit → IsAnswer program here (E.Enumerate place along walk.direction walk.inclusion walk.mode written) result }
{
    let shape = site.shape(place)?;
    let axis = fitting_axis(place, axis, walk.mode, bit)?;
    Ok(TExpr::Enumerate {
        ty: ValueType {
            elem: Elem::INT,
            shape: Some(shape),
        },
        axis,
        direction: walk.direction,
        inclusion: walk.inclusion,
        mode: walk.mode,
        bit,
    })
}
