//! The checks over all blocks: the least active processor that fails.

ghost use Rattle.std.specs.Prelude.{◌≡◌, ℕ, ◌+◌, ◌*◌, ◌/◌, ◌%◌, ◌<◌, ◌≤◌, ◌^◌, true, map, length, slice_index, slice_index_or, MatchOption};
ghost use Rattle.vp_sets.specs.Blocks.{block_count};
ghost use Rattle.bit_planes.specs.Bits.{bit};
ghost use Rattle.bit_planes.specs.declared.block.Block.{Block};
ghost use Rattle.cstar_base.specs.declared.operators.Winner.{Winner};
ghost use Rattle.paris_code.specs.Checking.{checked_set};
ghost use Rattle.paris_code.specs.Meaning.{bad_or_nothing, reply_of};
ghost use Rattle.paris_code.specs.Shapes.{bits_at, extents_at};
ghost use Rattle.phase_meaning.specs.Apply.{CanApply, ReplyFits, is_check};
ghost use Rattle.block_store.specs.declared.set.Cell.{Cell};
ghost use Rattle.block_store.specs.Planes.{HasPlanes};
ghost use Rattle.block_store.specs.Stored.{shape_of_plan, shapes_in, memory_in, word_at, IsWhole, HasRoom};
ghost use Rattle.elementwise.specs.Failing.{IsFirstFailing};

use crate::failures::failing_lanes;
use crate::writes::plan_of;
use bit_planes::Block;
use bit_planes::plane::both;
use block_store::{BlockSet, Cell, Room, SetPlan, Store, used_lanes};
use cstar_io::Gate;
use paris_code::{Instr, Reply};
use phase_elements::checked_set;
use std::simd::prelude::*;
use std::thread::Threads;
use worker_forks::for_each_mut;

/// The first lane in which a plane is 1; 512 where there is none.
pub(crate) fn first_lane(plane: u64x8) -> u32
    ensures before { (i : ℕ) → i < 512 → i < result → bit plane i ≡ 0 }
    ensures here { result < 512 → bit plane result ≡ 1 }
{
    let words = plane.to_array();
    'words: for j in 0..8u32 {
        let word = words[j as usize];
        if word != 0 {
            return 64 * j + word.trailing_zeros();
        }
    }
    512
}

/// The first lane of block `k` at which an active processor fails; 512 where there is none.
fn first_failing(plans: &[SetPlan], block: &Block, instr: &Instr, args: &[u32], k: u32) -> u32
    requires can { CanApply (map shape_of_plan plans.now) instr.now args.now }
    requires exists { checked_set instr.now < length plans.now }
    requires planes { bits_at (map shape_of_plan plans.now) (checked_set instr.now) + 2 ≤ length block.now.planes.items }
    requires block { k < block_count (extents_at (map shape_of_plan plans.now) (checked_set instr.now)) }
    requires few { k < 2048 }
    ensures { IsFirstFailing (map shape_of_plan plans.now) instr.now args.now k block.now.planes.items result }
{
    let plan = plan_of(plans, checked_set(instr));
    let used = used_lanes(&plan.geometry, k);
    let active = both(used, block.plane(plan.bits));
    let failing = failing_lanes(plans, &block.planes, instr, args, k);
    first_lane(both(active, failing))
}

/// Holds in the first word of each block's cell what a check finds there, with a call of the gate
/// for each.
fn look_in_blocks<R: Threads + Sync, G: Gate + Sync>(
    rt: &R,
    plans: &[SetPlan],
    set: &BlockSet,
    room: &mut Room,
    instr: &Instr,
    args: &[u32],
    workers: u32,
    gate: &G,
)
    requires can { CanApply (map shape_of_plan plans.now) instr.now args.now }
    requires exists { checked_set instr.now < length plans.now }
    requires workers { 1 ≤ workers }
    requires few { length set.now.blocks.items ≤ 2048 }
    requires count { length set.now.blocks.items ≡ block_count (extents_at (map shape_of_plan plans.now) (checked_set instr.now)) }
    requires planes { HasPlanes (bits_at (map shape_of_plan plans.now) (checked_set instr.now) + 2) set.now.blocks.items }
    ensures count { length room.new.cells.items ≡ length room.old.cells.items }
    ensures each { (k : ℕ) (none : Cell) (other : Block) → k < length set.now.blocks.items → k < length room.old.cells.items
        → IsFirstFailing (map shape_of_plan plans.now) instr.now args.now k (slice_index_or set.now.blocks.items k other).planes.items (slice_index (slice_index_or room.new.cells.items k none).words 0) }
{
    let blocks = set.blocks.as_slice();
    for_each_mut(
        rt,
        room.cells.as_mut_slice(),
        workers as usize,
        &|k: usize, cell: &mut Cell|
            requires { CanApply (map shape_of_plan plans.now) instr.now args.now × (checked_set instr.now < length plans.now)
                × (length blocks.now ≤ 2048) × (length blocks.now ≡ block_count (extents_at (map shape_of_plan plans.now) (checked_set instr.now)))
                × HasPlanes (bits_at (map shape_of_plan plans.now) (checked_set instr.now) + 2) blocks.now }
            ensures { (other : Block) → k < length blocks.entry.now
                → IsFirstFailing (map shape_of_plan plans.entry.now) instr.entry.now args.entry.now k (slice_index_or blocks.entry.now k other).planes.items (slice_index cell.exit.now.words 0) }
        {
            if k < blocks.len() {
                gate.at(k as u32);
                cell.words[0] = first_failing(plans, &blocks[k], instr, args, k as u32);
            }
        },
    );
}

/// The least position at which one of the first cells holds a lane.
fn least_held(cells: &[Cell], blocks: u32) -> Option<u32>
    requires cells { blocks ≤ length cells.now }
    requires few { blocks ≤ 2048 }
    ensures { MatchOption result ((k : ℕ) → k < blocks → 512 ≤ word_at cells.now (512 * k))
        (λ p. (p / 512 < blocks) × (word_at cells.now (512 * (p / 512)) ≡ p % 512) × ((k : ℕ) → k < p / 512 → 512 ≤ word_at cells.now (512 * k))) }
{
    'cells: for k in 0..blocks {
        let lane = cells[k as usize].words[0];
        if lane < 512 {
            return Some(512 * k + lane);
        }
    }
    None
}

/// The least active processor of a set that fails, by the first failing lanes that the cells of its
/// blocks come to hold.
fn find<R: Threads + Sync, G: Gate + Sync>(
    rt: &R,
    plans: &[SetPlan],
    set: &BlockSet,
    room: &mut Room,
    instr: &Instr,
    args: &[u32],
    workers: u32,
    gate: &G,
) -> Option<u32>
    requires can { CanApply (map shape_of_plan plans.now) instr.now args.now }
    requires exists { checked_set instr.now < length plans.now }
    requires workers { 1 ≤ workers }
    requires few { length set.now.blocks.items ≤ 2048 }
    requires count { length set.now.blocks.items ≡ block_count (extents_at (map shape_of_plan plans.now) (checked_set instr.now)) }
    requires planes { HasPlanes (bits_at (map shape_of_plan plans.now) (checked_set instr.now) + 2) set.now.blocks.items }
    requires room { length set.now.blocks.items ≤ length room.old.cells.items }
    ensures count { length room.new.cells.items ≡ length room.old.cells.items }
    ensures each { (k : ℕ) (none : Cell) (other : Block) → k < length set.now.blocks.items → k < length room.new.cells.items
        → IsFirstFailing (map shape_of_plan plans.now) instr.now args.now k (slice_index_or set.now.blocks.items k other).planes.items (slice_index (slice_index_or room.new.cells.items k none).words 0) }
    ensures least { MatchOption result ((k : ℕ) → k < length set.now.blocks.items → 512 ≤ word_at room.new.cells.items (512 * k))
        (λ p. (p / 512 < length set.now.blocks.items) × (word_at room.new.cells.items (512 * (p / 512)) ≡ p % 512) × ((k : ℕ) → k < p / 512 → 512 ≤ word_at room.new.cells.items (512 * k))) }
{
    look_in_blocks(rt, plans, set, room, instr, args, workers, gate);
    least_held(&room.cells, set.blocks.len() as u32)
}

/// Does a check, by so many workers.
pub(crate) fn check<R: Threads + Sync, G: Gate + Sync>(
    rt: &R,
    store: &mut Store,
    instr: &Instr,
    args: &[u32],
    workers: u32,
    gate: &G,
) -> Reply
    requires whole { IsWhole store.old }
    requires room { HasRoom store.old }
    requires can { CanApply (shapes_in store.old) instr.now args.now }
    requires check { is_check instr.now ≡ true }
    requires workers { (1 ≤ workers) × (workers ≤ 64) }
    ensures plans { store.new.plans ≡ store.old.plans }
    ensures sets { store.new.sets ≡ store.old.sets }
    ensures room { HasRoom store.new }
    ensures fits { ReplyFits instr.now result }
    ensures reply { (w : Winner) → result ≡ reply_of (shapes_in store.old) instr.now args.now (memory_in store.old w) }
{
    let set = &store.sets[usize::from(checked_set(instr))];
    match find(
        rt,
        &store.plans,
        set,
        &mut store.room,
        instr,
        args,
        workers,
        gate,
    ) {
        None => Reply::Nothing,
        Some(position) => Reply::Bad { position },
    }
}
