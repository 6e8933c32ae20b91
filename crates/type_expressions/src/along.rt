//! Intrinsics along an axis: what they go along, and what they become.

ghost use Rattle.std.specs.Prelude.{◌≡◌, ◌&&◌, false, true, is_some, IfOk, IfSome, Err, Ok, Some, Box};
ghost use Rattle.std.specs.declared.alloc.Global.{Global};
ghost use Rattle.cstar_tree.specs.ExpressionFaults.{FaultAt};
ghost use Rattle.cstar_tree.specs.ExpressionTypes.{Types};
ghost use Rattle.cstar_tree.specs.Headers.{Program};
ghost use Rattle.cstar_tree.specs.Scopes.{Here};
ghost use Rattle.cstar_tree.specs.declared.typed.TExpr.{TExpr};
ghost use Rattle.type_scopes.specs.declared.faults.Untyped.TheVariants as U;
ghost use Rattle.type_scopes.specs.declared.locals.Locals.{Locals};
ghost use Rattle.type_expressions.specs.Along.{IsAxisOf, number_of_constant};
ghost use Rattle.type_expressions.specs.Recorded.{IfUntyped, IsAxisSettled, TellsAt, has_source};
ghost use Rattle.type_expressions.specs.Walks.{AreFoundAlong, HasItsSource, IsAround, IsAxisTyped, IsFoundAlong, IsPlain, IsSource, IsTypedAlong, rank_under};

use crate::found::{Typing, outcome};
use crate::intrinsics::{Axis, Walk, axis_of, dim_of, enumerate, pcoord, scan, segment_bit};
use cstar_base::{Memory, Place};
use cstar_tree::syntax::Expr;
use cstar_tree::typed::{TExpr, Variable};
use type_scopes::faults::{Faults, Untyped};
use type_scopes::file::File;
use type_scopes::locals::Locals;
use type_scopes::sites::Site;

/// What an intrinsic goes along: its axis, the shape that it names, and its segment bit.
#[derive(Clone, Copy)]
pub struct Along {
    axis: Axis,
    shape: Option<u16>,
    bit: Option<Variable>,
}

/// What an intrinsic goes along, from its typed axis. What its shape, its axis and its segment bit
/// break stands, whatever the others are.
pub fn goes_along(
    faults: &mut Faults,
    file: &File<'_>,
    locals: &Locals,
    site: Site,
    e: &Expr,
    axis: Option<Box<TExpr>>,
) -> Result<Option<Along>, Memory>
    ensures along { IfOk result (AreFoundAlong file.now locals.now site e.now axis) }
    ensures faults { IfOk result (λ r. (program : Program) (here : Here) → IsAround file.now locals.now site here → IsPlain e.now → IfSome axis (IsAxisTyped program here e.now) → TellsAt program here e.now (is_some axis ≡ false) (is_some r) faults.old.least faults.new.least) }
{
    match e {
        Expr::DimOf {
            shape,
            axis: written,
            ..
        } => {
            let shape = faults.settle(file.shape(locals, site, shape))?;
            let rank = rank_of_shape(file, shape);
            let axis = settled_axis(faults, written.place(), axis, rank)?;
            Ok(match shape {
                Some(_) => known_along(axis, Some(None), shape),
                None => None,
            })
        }
        Expr::Scan {
            axis: written,
            bit,
            ..
        }
        | Expr::Enumerate {
            axis: written,
            bit,
            ..
        } => {
            let rank = rank_of_shape(file, site.current);
            let axis = settled_axis(faults, written.place(), axis, rank)?;
            let bit = faults.settle(segment_bit(file, locals, site, bit))?;
            Ok(known_along(axis, bit, None))
        }
        Expr::Pcoord { axis: written, .. } => {
            let rank = rank_of_shape(file, site.current);
            let axis = settled_axis(faults, written.place(), axis, rank)?;
            Ok(known_along(axis, Some(None), None))
        }
        _ => Ok(None),
    }
}

fn known_along(
    axis: Option<Axis>,
    bit: Option<Option<Variable>>,
    shape: Option<u16>,
) -> Option<Along>
    ensures along { IfSome result (λ a. (axis ≡ Some a.axis) × (bit ≡ Some a.bit) × (a.shape ≡ shape)) }
    ensures known { is_some result ≡ (is_some axis && is_some bit) }
{
    Some(Along {
        axis: axis?,
        shape,
        bit: bit?,
    })
}

/// An intrinsic along its axis, with the typed source of a scan.
pub fn with_axis(
    faults: &mut Faults,
    file: &File<'_>,
    site: Site,
    e: &Expr,
    along: Along,
    source: Option<Box<TExpr>>,
) -> Typing
    ensures typed { (locals : Locals) → IfOk result (IsTypedAlong file.now locals site e.now along source) }
    ensures faults { (locals : Locals) → IfOk result (λ r. (program : Program) (here : Here) → IsAround file.now locals site here → IsFoundAlong program here e.now along → (has_source e.now source ≡ true → IsSource program here e.now source) → TellsAt program here e.now (has_source e.now source ≡ false) (is_some r) faults.old.least faults.new.least) }
{
    outcome(faults, file.alloc, intrinsic(file, site, e, along, source))
}

/// The same as a tree, or why it has none.
fn intrinsic(
    file: &File<'_>,
    site: Site,
    e: &Expr,
    along: Along,
    source: Option<Box<TExpr>>,
) -> Result<TExpr, Untyped>
    ensures source { IfOk result (λ t. HasItsSource e.now source) }
    ensures typed { (locals : Locals) → IfOk result (λ t. (program : Program) (here : Here) → IsAround file.now locals site here → IsFoundAlong program here e.now along → IsSource program here e.now source → Types program here e.now t true) }
    ensures refused { (locals : Locals) (program : Program) (here : Here) → IsAround file.now locals site here → IsFoundAlong program here e.now along → IsSource program here e.now source → IfUntyped (FaultAt program here e.now) ⊥ result }
    ensures without { has_source e.now source ≡ false → result ≡ Err U.Faulty }
{
    let Along { axis, shape, bit } = along;
    match e {
        Expr::DimOf { .. } => match shape {
            Some(shape) => dim_of(file, shape, axis),
            None => Err(Untyped::Faulty),
        },
        Expr::Pcoord { place, .. } => pcoord(site, *place, axis),
        Expr::Enumerate {
            place,
            direction,
            inclusion,
            mode,
            ..
        } => {
            let walk = Walk {
                mode: *mode,
                direction: *direction,
                inclusion: *inclusion,
            };
            enumerate(site, *place, axis, walk, bit)
        },
        Expr::Scan {
            place,
            combiner,
            direction,
            mode,
            inclusion,
            ..
        } => {
            let Some(source) = source else {
                return Err(Untyped::Faulty);
            };
            let walk = Walk {
                mode: *mode,
                direction: *direction,
                inclusion: *inclusion,
            };
            scan(file.alloc, site, *place, source, axis, *combiner, walk, bit)
        }
        _ => Err(Untyped::Faulty),
    }
}

/// The axis at the place, where its expression has no fault.
fn settled_axis(
    faults: &mut Faults,
    place: Place,
    axis: Option<Box<TExpr>>,
    rank: Option<u32>,
) -> Result<Option<Axis>, Memory>
    ensures axis { IfOk result (λ r. IfSome r (λ a. (x : Box TExpr Global) × (axis ≡ Some x) × IsAxisOf (number_of_constant x.value) rank place (Ok a))) }
    ensures faults { IfOk result (λ r. IsAxisSettled axis rank place r faults.old.least faults.new.least) }
{
    match axis {
        Some(axis) => faults.settle(axis_of(place, &axis, rank)),
        None => Ok(None),
    }
}

/// The rank of the shape, if there is one.
fn rank_of_shape(file: &File<'_>, shape: Option<u16>) -> Option<u32>
    ensures { result ≡ rank_under file.now.shapes.items shape }
{
    file.rank(shape?)
}
