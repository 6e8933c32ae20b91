//! The room that a typed program needs: for each shape the bits of a position, and whether the
//! machine has enough for all of them.
#![tactic(auto)]

ghost use Rattle.cstar_tree.specs.Constants.{product};
ghost use Rattle.cstar_tree.specs.Room.{HasRoom, blocks, machine_bits, needs};
ghost use Rattle.cstar_tree.specs.TypedParts.{calls_within};
ghost use Rattle.cstar_tree.specs.declared.typed.Instance.{Instance};
ghost use Rattle.shape_room.specs.CallOrders.{HasCalls, HasNoCycle, IsCallOrder};
ghost use Rattle.shape_room.specs.Counted.{counted, kept};
ghost use Rattle.std.specs.Prelude.{◌≡◌, ◌*◌, ◌-◌, ◌^◌, ◌↔◌, min, map, IfOk, IsTrue, length, slice_index, vec_len};

mod calls;
mod room;

use crate::calls::calls_of;
use crate::room::need;
use call_graph::finishing_order;
use cstar_base::Memory;
use cstar_tree::typed::{Instance, ShapeInfo, VarInfo};
use std::alloc::Global;

/// How many bits the machine has for all shapes.
const BITS: u64 = 1 << 30;
/// How many positions a block of the machine has.
const BLOCK: u64 = 512;

/// The room that the program needs on each shape, in bits for each position.
pub fn needs(
    alloc: Global,
    shapes: &[ShapeInfo],
    vars: &[VarInfo],
    instances: &[Instance],
) -> Result<Vec<u32>, Memory>
    ensures length { IfOk result (λ found. vec_len found ≡ length shapes.now) }
    ensures needs { HasNoCycle (map (λ (i : Instance). calls_within i.body) instances.now) → IfOk result (λ found. found.items ≡ map kept (needs shapes.now vars.now instances.now)) }
{
    let called = calls_of(alloc, instances)?;
    let order = finishing_order(alloc, called.as_slice())?;
    needs_by(
        alloc,
        shapes,
        vars,
        instances,
        called.as_slice(),
        order.as_slice(),
    )
}

/// The same, where the instances are in an order in which those that are called come first. `called`
/// has for each instance the numbers of those that it calls.
fn needs_by(
    alloc: Global,
    shapes: &[ShapeInfo],
    vars: &[VarInfo],
    instances: &[Instance],
    called: &[Vec<u32>],
    order: &[usize],
) -> Result<Vec<u32>, Memory>
    ensures length { IfOk result (λ found. vec_len found ≡ length shapes.now) }
    ensures needs { HasCalls instances.now called.now → IsCallOrder called.now order.now → IfOk result (λ found. found.items ≡ map kept (needs shapes.now vars.now instances.now)) }
{
    let mut needs = Vec::new(alloc);
    for (number, _) in shapes.iter().enumerate() {
        let shape = shape_number(number)?;
        let need = need(alloc, vars, instances, called, order, shape)?;
        needs.push(kept(need))?;
    }
    Ok(needs)
}

/// The number of a shape as the typed tree has it.
fn shape_number(number: usize) -> Result<u16, Memory>
    ensures { IfOk result (λ shape. shape ≡ number) }
{
    u16::try_from(number).map_err(|_error| Memory)
}

/// A need as far as a typed program tells it.
fn kept(need: u64) -> u32
    ensures { result ≡ kept need }
{
    u32::try_from(need).unwrap_or(u32::MAX)
}

/// Has the machine the room that is needed on all shapes together?
pub fn has_room(shapes: &[ShapeInfo], needs: &[u32]) -> bool
    ensures { IsTrue result ↔ HasRoom shapes.now needs.now }
{
    all_bits(shapes, needs) <= BITS
}

/// How many bits of the machine all shapes take that need so many for each position.
fn all_bits(shapes: &[ShapeInfo], needs: &[u32]) -> u64
    ensures { result ≡ counted (machine_bits shapes.now needs.now) }
{
    let mut total = 0u64;
    for (number, info) in shapes.iter().enumerate() {
        total = total.saturating_add(machine_bits(info, u64::from(need_at(needs, number))));
    }
    total
}

/// The need of the shape of the number, or 0 behind the last.
fn need_at(needs: &[u32], number: usize) -> u32
    ensures { result ≡ slice_index needs.now number }
{
    needs.get(number).copied().unwrap_or(0)
}

/// How many bits of the machine a shape takes that needs so many for each position.
fn machine_bits(info: &ShapeInfo, need: u64) -> u64
    ensures { result ≡ counted (need * 512 * blocks info.now.extents.items) }
{
    let blocks = positions(info).div_ceil(BLOCK);
    need.saturating_mul(BLOCK).saturating_mul(blocks)
}

/// How many positions the shape has: the product of its extents, as far as it is counted.
pub fn positions(shape: &ShapeInfo) -> u64
    ensures { result ≡ min (product shape.now.extents.items) (2 ^ 64 - 1) }
{
    let mut product = 1u64;
    for extent in &shape.extents {
        product = product.saturating_mul(u64::from(*extent));
    }
    product
}
