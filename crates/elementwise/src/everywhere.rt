//! An elementwise instruction or a check over all blocks.

ghost use Rattle.std.specs.Prelude.{◌≡◌, ℕ, ◌<◌, ◌≤◌, ◌+◌, ◌^◌, ◌||◌, true, map, length, slice_index_or};
ghost use Rattle.vp_sets.specs.Blocks.{block_count};
ghost use Rattle.bit_planes.specs.declared.block.Block.{Block};
ghost use Rattle.cstar_base.specs.declared.operators.Winner.{Winner};
ghost use Rattle.paris_code.specs.Elementwise.{is_elementwise, destination, writes_always};
ghost use Rattle.paris_code.specs.Meaning.{Means};
ghost use Rattle.paris_code.specs.Shapes.{bits_at, extents_at};
ghost use Rattle.phase_meaning.specs.Apply.{CanApply, ReplyFits, active_set, is_check};
ghost use Rattle.block_store.specs.Planes.{HasPlanes};
ghost use Rattle.block_store.specs.Stored.{shape_of_plan, shapes_in, memory_in, IsWhole, HasRoom};
ghost use Rattle.elementwise.specs.Blocks.{DoneInBlock};
ghost use Rattle.elementwise.specs.Ways.{IsWayOf};

use crate::checks::check;
use crate::in_block::do_in_block;
use crate::ways::{Way, way_of};
use crate::writes::{Written, written_by};
use bit_planes::Block;
use block_store::{BlockSet, SetPlan, Store};
use cstar_io::Gate;
use paris_code::{Instr, Reply};
use std::thread::Threads;
use worker_forks::for_each_mut;

/// Does the instruction in all blocks of its set, with a call of the gate for each.
fn do_in_set<R: Threads + Sync, G: Gate + Sync>(
    rt: &R,
    plans: &[SetPlan],
    set: &mut BlockSet,
    instr: &Instr,
    args: &[u32],
    to: Written,
    way: &Way,
    workers: u32,
    gate: &G,
)
    requires can { CanApply (map shape_of_plan plans.now) instr.now args.now }
    requires elementwise { is_elementwise instr.now ≡ true }
    requires run { to.run ≡ destination (map shape_of_plan plans.now) instr.now }
    requires always { to.always ≡ writes_always instr.now }
    requires way { IsWayOf (map shape_of_plan plans.now) instr.now args.now way.now }
    requires workers { 1 ≤ workers }
    requires few { length set.old.blocks.items < 2 ^ 32 }
    requires count { length set.old.blocks.items ≡ block_count (extents_at (map shape_of_plan plans.now) (active_set instr.now)) }
    requires planes { HasPlanes (bits_at (map shape_of_plan plans.now) (active_set instr.now) + 2) set.old.blocks.items }
    ensures count { length set.new.blocks.items ≡ length set.old.blocks.items }
    ensures each { (k : ℕ) (none : Block) → k < length set.old.blocks.items → DoneInBlock (map shape_of_plan plans.now) instr.now args.now k
        (slice_index_or set.old.blocks.items k none).planes.items (slice_index_or set.new.blocks.items k none).planes.items }
{
    for_each_mut(
        rt,
        set.blocks.as_mut_slice(),
        workers as usize,
        &|k: usize, block: &mut Block|
            requires { (k < 2 ^ 32) × CanApply (map shape_of_plan plans.now) instr.now args.now × (is_elementwise instr.now ≡ true)
                × (to.run ≡ destination (map shape_of_plan plans.now) instr.now) × (to.always ≡ writes_always instr.now)
                × IsWayOf (map shape_of_plan plans.now) instr.now args.now way.now
                × (bits_at (map shape_of_plan plans.now) (active_set instr.now) + 2 ≤ length block.now.planes.items)
                × (k < block_count (extents_at (map shape_of_plan plans.now) (active_set instr.now))) }
            ensures { DoneInBlock (map shape_of_plan plans.entry.now) instr.entry.now args.entry.now k block.entry.now.planes.items block.exit.now.planes.items }
        {
            gate.at(k as u32);
            do_in_block(plans, block, instr, args, to, way, k as u32);
        },
    );
}

/// Does an elementwise instruction or a check, by so many workers.
pub fn run<R: Threads + Sync, G: Gate + Sync>(
    rt: &R,
    store: &mut Store,
    instr: &Instr,
    args: &[u32],
    workers: u32,
    gate: &G,
) -> Reply
    requires whole { IsWhole store.old }
    requires room { HasRoom store.old }
    requires can { CanApply (shapes_in store.old) instr.now args.now }
    requires family { (is_elementwise instr.now || is_check instr.now) ≡ true }
    requires workers { (1 ≤ workers) × (workers ≤ 64) }
    ensures whole { IsWhole store.new }
    ensures room { HasRoom store.new }
    ensures shapes { shapes_in store.new ≡ shapes_in store.old }
    ensures fits { ReplyFits instr.now result }
    ensures meaning { (w : Winner) → Means (shapes_in store.old) instr.now args.now (memory_in store.old w) (memory_in store.new w) result }
{
    let Some(to) = written_by(&store.plans, instr, args) else {
        return check(rt, store, instr, args, workers, gate);
    };
    let way = way_of(&store.plans, instr, args);
    let set = &mut store.sets[usize::from(to.run.set)];
    do_in_set(rt, &store.plans, set, instr, args, to, &way, workers, gate);
    Reply::Nothing
}
