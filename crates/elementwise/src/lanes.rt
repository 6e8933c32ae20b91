//! The lanes of one block, as processors that can be read.

ghost use Rattle.std.specs.Prelude.{◌≡◌, ◌≤◌, ◌<◌, ◌+◌, ◌*◌, ◌%◌, ◌^◌, ℕ, true, map, length, slice_index};
ghost use Rattle.vp_sets.specs.Blocks.{block_count};
ghost use Rattle.paris_code.specs.Elementwise.{element, destination};
ghost use Rattle.paris_code.specs.Memory.{processors};
ghost use Rattle.paris_code.specs.Shapes.{bits_at, extents_at};
ghost use Rattle.phase_meaning.specs.Apply.{CanApply, active_set};
ghost use Rattle.block_store.specs.Stored.{shape_of_plan};
ghost use Rattle.elementwise.specs.Blocks.{block_memory};

use crate::columns::{addresses, all_lanes, own_coordinates};
use crate::writes::plan_of;
use bit_planes::Block;
use bit_planes::plane::lane;
use block_store::SetPlan;
use paris_code::{Field, Instr};
use phase_elements::{Readable, element};
use vp_sets::Geometry;

/// A block, and what the sets of its machine are made after.
#[derive(Drop)]
pub(crate) struct InBlock<'a> {
    pub plans: &'a [SetPlan],
    pub block: &'a Block,
}

impl<'a> Readable for InBlock<'a> {
    ghost shapes = { λ m. map shape_of_plan m.plans.now };

    ghost memory = { λ m. block_memory m.block.now.planes.items };

    ghost reads = { λ m position set. bits_at (map shape_of_plan m.plans.now) set + 2 ≤ length m.block.now.planes.items };

    fn geometry(&self, set: u16) -> &Geometry {
        &plan_of(self.plans, set).geometry
    }

    fn number(&self, run: Field, position: u32) -> u32 {
        self.block.number(position % 512, run.offset, run.len)
    }

    fn context(&self, set: u16, position: u32) -> bool {
        let at = plan_of(self.plans, set).bits as usize;
        lane(self.block.planes[at].bits, position % 512) == 1
    }

    fn test(&self, set: u16, position: u32) -> bool {
        let at = plan_of(self.plans, set).bits as usize + 1;
        lane(self.block.planes[at].bits, position % 512) == 1
    }
}

/// What an elementwise instruction gives the lanes of block `k` that hold a position, one after
/// another.
fn words_by_lane(
    plans: &[SetPlan],
    block: &Block,
    instr: &Instr,
    args: &[u32],
    set: u16,
    k: u32,
) -> [u32; 512]
    requires can { CanApply (map shape_of_plan plans.now) instr.now args.now }
    requires set { set ≡ active_set instr.now }
    requires exists { set < length plans.now }
    requires planes { bits_at (map shape_of_plan plans.now) set + 2 ≤ length block.now.planes.items }
    requires block { k < block_count (extents_at (map shape_of_plan plans.now) set) }
    ensures { (i : ℕ) → i < 512 → 512 * k + i < processors (map shape_of_plan plans.now) set
        → let len = (destination (map shape_of_plan plans.now) instr.now).len in
        slice_index result i % 2 ^ len ≡ element (map shape_of_plan plans.now) instr.now args.now (block_memory block.now.planes.items) (512 * k + i) % 2 ^ len }
{
    let m = InBlock { plans, block };
    let (start, end) = plan_of(plans, set).geometry.block_range(k);
    let mut words = [0; 512];
    'lanes: for i in 0..end - start {
        words[i as usize] = element(&m, instr, args, start + i);
    }
    words
}

/// The same, by columns where it is made of coordinates.
pub(crate) fn words_given(
    plans: &[SetPlan],
    block: &Block,
    instr: &Instr,
    args: &[u32],
    set: u16,
    k: u32,
) -> [u32; 512]
    requires can { CanApply (map shape_of_plan plans.now) instr.now args.now }
    requires set { set ≡ active_set instr.now }
    requires exists { set < length plans.now }
    requires planes { bits_at (map shape_of_plan plans.now) set + 2 ≤ length block.now.planes.items }
    requires block { k < block_count (extents_at (map shape_of_plan plans.now) set) }
    ensures { (i : ℕ) → i < 512 → 512 * k + i < processors (map shape_of_plan plans.now) set
        → let len = (destination (map shape_of_plan plans.now) instr.now).len in
        slice_index result i % 2 ^ len ≡ element (map shape_of_plan plans.now) instr.now args.now (block_memory block.now.planes.items) (512 * k + i) % 2 ^ len }
{
    match instr {
        Instr::MyNewsCoordinate { axis, .. } => {
            own_coordinates(&plan_of(plans, set).geometry, *axis, k)
        }
        Instr::MakeAddress {
            set: grid,
            coordinates,
            ..
        } => {
            let extents = plan_of(plans, *grid).geometry.extents();
            addresses(block, extents, coordinates.as_slice(), args, all_lanes(0))
        }
        _ => words_by_lane(plans, block, instr, args, set, k),
    }
}
