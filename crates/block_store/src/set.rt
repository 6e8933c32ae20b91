//! The blocks of one set.

ghost use Rattle.std.specs.Prelude.{ℕ, ◌≡◌, ◌≢◌, ◌⊎◌, ◌<◌, ◌≤◌, ◌+◌, ◌-◌, ◌*◌, ◌/◌, ◌^◌, All, IfOk, length, nat_lt, if◌then◌else◌};
ghost use Rattle.std.specs.Int.{bit_at};
ghost use Rattle.paris_code.specs.Memory.{run_number};
ghost use Rattle.bit_planes.specs.Bits.{bit};
ghost use Rattle.vp_sets.specs.Blocks.{block_count};
ghost use Rattle.vp_sets.specs.Positions.{position_count};
ghost use Rattle.block_store.specs.Fresh.{IsFreshBlock, IsFreshSet};
ghost use Rattle.bit_planes.specs.Planes.{plane_at};
ghost use Rattle.block_store.specs.Phases.{TakesLanes};
ghost use Rattle.block_store.specs.Planes.{block_bit, HasPlanes};
ghost use Rattle.block_store.specs.Stored.{shape_of_plan};

use bit_planes::plane::first_lanes;
use bit_planes::{Block, Plane};
use cstar_base::Memory;
use std::alloc::Global;
use std::simd::prelude::*;
use vp_sets::{BLOCK_SIZE, Geometry};

/// What a set is made after: its grid, and the bits of each of its positions, at most 2 to the 30.
#[derive(Drop)]
pub struct SetPlan {
    pub geometry: Geometry,
    pub bits: u32,
}

/// The blocks of a set, each of 512 positions. A block has a plane for each bit of its positions,
/// then one of the context flags and one of the test flags.
#[derive(Drop)]
pub struct BlockSet {
    pub blocks: Vec<Block>,
}

/// The lanes of block `k` that hold a position of the set; behind the last one there is padding.
#[inline(always)]
pub fn used_lanes(geometry: &Geometry, k: u32) -> u64x8
    requires { k < block_count geometry.now }
    ensures { (i : ℕ) → i < 512 → bit result i ≡ (if nat_lt (512 * k + i) (position_count geometry.now) then 1 else 0) }
{
    let (start, end) = geometry.block_range(k);
    first_lanes(end - start)
}

/// The lanes of block `k` that an instruction writes: those that are active, or all that hold a
/// position.
#[inline(always)]
pub fn taking_lanes(plan: &SetPlan, block: &Block, k: u32, always: bool) -> u64x8
    requires block { k < block_count plan.now.geometry }
    requires context { plan.now.bits < length block.now.planes.items }
    ensures { TakesLanes plan.now.geometry k always (plane_at block.now.planes.items plan.now.bits) result }
{
    if always {
        return used_lanes(&plan.geometry, k);
    }
    block.plane(plan.bits)
}

/// Room for one word of each position of a block, and for the lanes at which lines or segments begin.
#[derive(Clone, Copy)]
pub struct Cell {
    pub words: [u32; 512],
    pub cuts: Plane,
}

/// Block `k` of a new set.
fn fresh_block(alloc: Global, plan: &SetPlan, k: u32) -> Result<Block, Memory>
    requires bits { plan.now.bits ≤ 2 ^ 30 }
    requires block { k < block_count plan.now.geometry }
    ensures { IfOk result (λ block. IsFreshBlock (shape_of_plan plan.now) k block.planes.items) }
{
    let mut block = Block::new(alloc, plan.bits + 2)?;
    block.set_plane(plan.bits, used_lanes(&plan.geometry, k));
    Ok(block)
}

impl BlockSet {
    /// The blocks of a new set: 0 in every field and test flag, 1 in the context flag of every
    /// position, and 0 behind the last one.
    pub(crate) fn new(alloc: Global, plan: &SetPlan) -> Result<BlockSet, Memory>
        requires { plan.now.bits ≤ 2 ^ 30 }
        ensures { IfOk result (λ set. IsFreshSet (shape_of_plan plan.now) set.blocks.items) }
    {
        let mut blocks = Vec::new(alloc);
        'fresh: for k in 0..plan.geometry.block_count() {
            blocks.push(fresh_block(alloc, plan, k)?)?;
        }
        Ok(BlockSet { blocks })
    }

    /// The number in a run of bits of a position, unsigned.
    pub fn number(&self, position: u32, offset: u32, len: u8) -> u32
        requires position { position / 512 < length self.now.blocks.items }
        requires len { (1 ≤ len) × (len ≤ 32) }
        requires planes { HasPlanes (offset + len) self.now.blocks.items }
        ensures { result ≡ run_number (block_bit self.now.blocks.items position) offset len }
    {
        let block = &self.blocks[(position / BLOCK_SIZE) as usize];
        block.number(position % BLOCK_SIZE, offset, len)
    }

    /// Writes a number, modulo 2 to the length, to a run of bits of a position.
    pub fn set_number(&mut self, position: u32, offset: u32, len: u8, n: u32)
        requires position { position / 512 < length self.old.blocks.items }
        requires len { (1 ≤ len) × (len ≤ 32) }
        requires planes { HasPlanes (offset + len) self.old.blocks.items }
        ensures long { length self.new.blocks.items ≡ length self.old.blocks.items }
        ensures planes { (most : ℕ) → HasPlanes most self.old.blocks.items → HasPlanes most self.new.blocks.items }
        ensures inside { (i : ℕ) → offset ≤ i → i < offset + len → block_bit self.new.blocks.items position i ≡ bit_at n (i - offset) }
        ensures outside { (p i : ℕ) → (p ≢ position) ⊎ ((i < offset) ⊎ (offset + len ≤ i)) → block_bit self.new.blocks.items p i ≡ block_bit self.old.blocks.items p i }
    {
        self.blocks[(position / BLOCK_SIZE) as usize].set_number(
            position % BLOCK_SIZE,
            offset,
            len,
            n,
        );
    }
}
