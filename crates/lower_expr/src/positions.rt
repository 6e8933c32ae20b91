//! Left indexes that are constants within their extents, so that their position is known.

ghost use Rattle.std.specs.Prelude.{◌≡◌, IfOk};
ghost use Rattle.lower_expr.specs.Positions.{known_position, position_from, position_in, with_coordinate, with_index};

use crate::steps::register_word;
use cstar_base::Memory;
use cstar_tree::typed::TExpr;
use lower_base::View;
use lower_base::emit::plus;

/// The position of a scalar left index, where each of its indexes is a constant within its extent.
/// `Memory` where it would be 2^32 or more.
#[tactic(auto, unfolding(crate::specs::Positions::known_position))]
pub fn known_position(view: &View, e: &TExpr) -> Result<Option<u32>, Memory>
    ensures { IfOk result (λ p. p ≡ known_position view.now.typed.now e.now) }
{
    let TExpr::LeftIndex {
        ty,
        indexes,
        of,
        ..
    } = e
    else {
        return Ok(None);
    };
    if ty.shape.is_some() {
        return Ok(None);
    }
    position_in(view, *of, indexes.as_slice())
}

/// The position with these coordinates in a shape.
#[tactic(auto, unfolding(crate::specs::Positions::position_in))]
fn position_in(view: &View, of: u16, indexes: &[TExpr]) -> Result<Option<u32>, Memory>
    ensures { IfOk result (λ p. p ≡ position_in view.now.typed.now of indexes.now) }
{
    match view.typed.shapes.get(of as usize) {
        Some(info) => position(info.extents.as_slice(), indexes),
        None => Ok(None),
    }
}

/// The position with these coordinates, where each is a constant within its extent.
#[tactic(auto, using(crate::proofs::Coordinates::too_few_or_many), unfolding(crate::specs::Positions::position_from))]
fn position(extents: &[u32], indexes: &[TExpr]) -> Result<Option<u32>, Memory>
    ensures { IfOk result (λ p. p ≡ position_from 0 extents.now indexes.now) }
{
    if extents.len() != indexes.len() {
        return Ok(None);
    }
    let mut position = 0;
    for (axis, index) in indexes.iter().enumerate() {
        match with_index(position, extents[axis], index)? {
            Some(next) => position = next,
            None => return Ok(None),
        }
    }
    Ok(Some(position))
}

/// One more index, where it is a constant within its extent.
#[tactic(auto, unfolding(crate::specs::Positions::with_index))]
fn with_index(position: u32, extent: u32, index: &TExpr) -> Result<Option<u32>, Memory>
    ensures { IfOk result (λ p. p ≡ with_index position extent index.now) }
{
    match register_word(index) {
        Some(coordinate) => with_coordinate(position, extent, coordinate),
        None => Ok(None),
    }
}

/// One more coordinate, where it is within its extent.
#[tactic(auto, unfolding(crate::specs::Positions::with_coordinate))]
fn with_coordinate(position: u32, extent: u32, coordinate: u32) -> Result<Option<u32>, Memory>
    ensures { IfOk result (λ p. p ≡ with_coordinate position extent coordinate) }
{
    if coordinate >= extent {
        return Ok(None);
    }
    let Some(first) = position.checked_mul(extent) else {
        return Err(Memory);
    };
    Ok(Some(plus(first, coordinate)?))
}
