//! A batch over all blocks of its set.

ghost use Rattle.std.specs.Prelude.{◌≡◌, ℕ, true, ◌<◌, ◌≤◌, ◌+◌, ◌^◌, [], All, map, length, slice_index_or};
ghost use Rattle.vp_sets.specs.Blocks.{block_count};
ghost use Rattle.bit_planes.specs.declared.block.Block.{Block};
ghost use Rattle.cstar_base.specs.declared.operators.Winner.{Winner};
ghost use Rattle.cstar_base.specs.Numbers.{number_of};
ghost use Rattle.paris_code.specs.declared.instr.Instr.{Instr};
ghost use Rattle.paris_code.specs.Memory.{SameBits};
ghost use Rattle.paris_code.specs.Shapes.{bits_at, extents_at};
ghost use Rattle.phase_meaning.specs.Apply.{LiesIn};
ghost use Rattle.block_store.specs.Phases.{WrittenInBlock};
ghost use Rattle.block_store.specs.Planes.{HasPlanes};
ghost use Rattle.block_store.specs.Stored.{shape_of_plan, shapes_in, memory_in, IsWhole, HasRoom};
ghost use Rattle.elementwise.specs.Blocks.{block_memory};
ghost use Rattle.news_grid.specs.Steps.{Leads};
ghost use Rattle.instruction_runs.specs.declared.deferring.Work.TheVariants as W;
ghost use Rattle.instruction_runs.specs.Passes.{held_in, write_from, write_of_work, AllDoneInBlock, IsFieldIn, IsHeldOf, PassFits};
ghost use Rattle.instruction_runs.specs.Waiting.{done_all, set_of, source_of, AreInTurn, AreReady, IsReady};

use crate::batches::Batch;
use crate::deferring::{Deferred, Work};
use bit_planes::{Block, Plane};
use block_store::{BlockSet, Room, SetPlan, Store};
use cstar_io::Gate;
use news_grid::{News, Step, Taking, hold, step_block};
use paris_code::Field;
use std::thread::Threads;
use worker_forks::for_each_mut;

/// What a pass over the blocks of a batch's set needs: the sets, the instructions, and the planes
/// that are held of each block's field from which shifts take.
#[derive(Clone, Copy)]
struct Pass<'a> {
    plans: &'a [SetPlan],
    batch: &'a Batch,
    held: &'a [Plane],
}

impl Pass<'_> {
    /// Does a shift by such a step in block `k` of its set.
    fn shift(&self, block: &mut Block, k: u32, news: News, step: Step)
        requires dest { LiesIn (map shape_of_plan self.now.plans.now) news.dest }
        requires together { news.dest.set ≡ news.source.set }
        requires lens { news.source.len ≡ news.dest.len }
        requires leads { Leads (extents_at (map shape_of_plan self.now.plans.now) news.dest.set) news.axis (number_of 32 true news.by) step }
        requires fits { PassFits (map shape_of_plan self.now.plans.now) news.dest.set self.now.held.now }
        requires planes { bits_at (map shape_of_plan self.now.plans.now) news.dest.set + 2 ≤ length block.old.planes.items }
        requires block { k < block_count (extents_at (map shape_of_plan self.now.plans.now) news.dest.set) }
        ensures { (instr : Instr) → WrittenInBlock (map shape_of_plan self.now.plans.now) (write_of_work (map shape_of_plan self.now.plans.now) (held_in self.now.held.now) instr (block_memory block.old.planes.items) (W.Shift news step)) k
            block.old.planes.items block.new.planes.items }
    {
        let plans = self.plans;
        let plan = &plans[usize::from(news.dest.set)];
        let taking = Taking {
            plan,
            blocks: plan.geometry.block_count(),
            held: self.held,
            shift: news,
            step,
        };
        step_block(block, k, &taking);
    }
}

/// From how many planes on, in all blocks, several workers hold a field sooner than one: below, their
/// threads take longer to start.
const MANY_PLANES: usize = 1 << 14;

/// By how many workers, of those of the pass, a field of so many blocks is held.
fn workers_to_hold(blocks: usize, field: Field, workers: u32) -> u32
    requires { 1 ≤ workers }
    ensures { (1 ≤ result) × (result ≤ workers) }
{
    if blocks.saturating_mul(usize::from(field.len)) < MANY_PLANES {
        1
    } else {
        workers
    }
}

/// Holds the field from which the shifts of the batch take, if one waits.
fn hold_source<R: Threads + Sync>(
    rt: &R,
    set: &BlockSet,
    room: &mut Room,
    batch: &Batch,
    workers: u32,
)
    requires workers { 1 ≤ workers }
    requires sources { All (λ d. IsFieldIn (source_of d) set.now.blocks.items) batch.now.deferred.items }
    requires turns { AreInTurn batch.now.deferred.items }
    requires few { length set.now.blocks.items < 2 ^ 16 }
    requires room { length set.now.blocks.items ≤ length room.old.cells.items }
    ensures count { length room.new.cells.items ≡ length room.old.cells.items }
    ensures held { All (λ d. IsHeldOf (source_of d) set.now.blocks.items room.new.held.items) batch.now.deferred.items }
{
    let Some(source) = batch.source() else {
        return;
    };
    let workers = workers_to_hold(set.blocks.len(), source, workers);
    hold(rt, set, room, source, workers);
}

/// Does an instruction in block `k` of its set.
fn do_in_block(block: &mut Block, d: &Deferred, pass: &Pass, k: u32)
    requires ready { IsReady (map shape_of_plan pass.now.plans.now) d.now }
    requires fits { PassFits (map shape_of_plan pass.now.plans.now) (set_of d.now) pass.now.held.now }
    requires planes { bits_at (map shape_of_plan pass.now.plans.now) (set_of d.now) + 2 ≤ length block.old.planes.items }
    requires block { k < block_count (extents_at (map shape_of_plan pass.now.plans.now) (set_of d.now)) }
    ensures { WrittenInBlock (map shape_of_plan pass.now.plans.now) (write_from (map shape_of_plan pass.now.plans.now) (held_in pass.now.held.now) d.now (block_memory block.old.planes.items)) k
        block.old.planes.items block.new.planes.items }
{
    match &d.work {
        Work::Elementwise(prepared) => prepared.do_in_block(pass.plans, block, &d.instr, &[], k),
        Work::Shift { news, step } => pass.shift(block, k, *news, *step),
    }
}

/// Does the instructions in block `k` of their set.
fn do_all_in_block(block: &mut Block, pass: &Pass, k: u32)
    requires ready { AreReady (map shape_of_plan pass.now.plans.now) pass.now.batch.now.set pass.now.batch.now.deferred.items }
    requires fits { PassFits (map shape_of_plan pass.now.plans.now) pass.now.batch.now.set pass.now.held.now }
    requires planes { bits_at (map shape_of_plan pass.now.plans.now) pass.now.batch.now.set + 2 ≤ length block.old.planes.items }
    requires block { k < block_count (extents_at (map shape_of_plan pass.now.plans.now) pass.now.batch.now.set) }
    ensures { AllDoneInBlock (map shape_of_plan pass.now.plans.now) (held_in pass.now.held.now) pass.now.batch.now.set pass.now.batch.now.deferred.items k block.old.planes.items block.new.planes.items }
{
    'deferred: for d in pass.batch.as_slice() {
        do_in_block(block, d, pass, k);
    }
}

/// Does the instructions in all blocks of their set, with a call of the gate for each block.
fn do_all_in_set<R: Threads + Sync, G: Gate + Sync>(
    rt: &R,
    set: &mut BlockSet,
    pass: &Pass,
    workers: u32,
    gate: &G,
)
    requires ready { AreReady (map shape_of_plan pass.now.plans.now) pass.now.batch.now.set pass.now.batch.now.deferred.items }
    requires fits { PassFits (map shape_of_plan pass.now.plans.now) pass.now.batch.now.set pass.now.held.now }
    requires workers { 1 ≤ workers }
    requires few { length set.old.blocks.items < 2 ^ 32 }
    requires count { length set.old.blocks.items ≡ block_count (extents_at (map shape_of_plan pass.now.plans.now) pass.now.batch.now.set) }
    requires planes { HasPlanes (bits_at (map shape_of_plan pass.now.plans.now) pass.now.batch.now.set + 2) set.old.blocks.items }
    ensures count { length set.new.blocks.items ≡ length set.old.blocks.items }
    ensures each { (k : ℕ) (none : Block) → k < length set.old.blocks.items
        → AllDoneInBlock (map shape_of_plan pass.now.plans.now) (held_in pass.now.held.now) pass.now.batch.now.set pass.now.batch.now.deferred.items k
        (slice_index_or set.old.blocks.items k none).planes.items (slice_index_or set.new.blocks.items k none).planes.items }
{
    for_each_mut(
        rt,
        set.blocks.as_mut_slice(),
        workers as usize,
        &|k: usize, block: &mut Block|
            requires { (k < 2 ^ 32) × AreReady (map shape_of_plan pass.now.plans.now) pass.now.batch.now.set pass.now.batch.now.deferred.items
                × PassFits (map shape_of_plan pass.now.plans.now) pass.now.batch.now.set pass.now.held.now
                × (bits_at (map shape_of_plan pass.now.plans.now) pass.now.batch.now.set + 2 ≤ length block.now.planes.items)
                × (k < block_count (extents_at (map shape_of_plan pass.now.plans.now) pass.now.batch.now.set)) }
            ensures { AllDoneInBlock (map shape_of_plan pass.entry.now.plans.now) (held_in pass.entry.now.held.now) pass.entry.now.batch.now.set pass.entry.now.batch.now.deferred.items k
                block.entry.now.planes.items block.exit.now.planes.items }
        {
            gate.at(k as u32);
            do_all_in_block(block, pass, k as u32);
        },
    );
}

/// Does the instructions that wait, in their order, by so many workers, and empties the batch. The
/// field from which shifts take is held first, in a pass of its own. An empty batch costs nothing.
pub fn settle<R: Threads + Sync, G: Gate + Sync>(
    rt: &R,
    store: &mut Store,
    batch: &mut Batch,
    workers: u32,
    gate: &G,
)
    requires whole { IsWhole store.old }
    requires room { HasRoom store.old }
    requires ready { AreReady (shapes_in store.old) batch.old.set batch.old.deferred.items }
    requires workers { (1 ≤ workers) × (workers ≤ 64) }
    ensures whole { IsWhole store.new }
    ensures room { HasRoom store.new }
    ensures shapes { shapes_in store.new ≡ shapes_in store.old }
    ensures empty { batch.new.deferred.items ≡ [] }
    ensures memory { (w : Winner) → SameBits (shapes_in store.old) (memory_in store.new w) (done_all (shapes_in store.old) batch.old.deferred.items (memory_in store.old w)) }
{
    if batch.is_empty() {
        return;
    }
    let own = usize::from(batch.set());
    hold_source(rt, &store.sets[own], &mut store.room, batch, workers);
    let pass = Pass {
        plans: store.plans.as_slice(),
        batch,
        held: store.room.held.as_slice(),
    };
    do_all_in_set(rt, &mut store.sets[own], &pass, workers, gate);
    batch.clear();
}
