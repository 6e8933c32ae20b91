//! Words that are fetched from the room, into a field.

ghost use Rattle.std.specs.Prelude.{◌≡◌, ℕ, ◌<◌, ◌≤◌, ◌+◌, ◌*◌, ◌^◌, length, slice_index_or};
ghost use Rattle.bit_planes.specs.declared.block.Block.{Block};
ghost use Rattle.vp_sets.specs.Blocks.{block_count};
ghost use Rattle.block_store.specs.Planes.{HasPlanes};
ghost use Rattle.news_grid.specs.Places.{Taken, FetchingFits};

use bit_planes::Block;
use block_store::{BlockSet, Cell, SetPlan, fetched, put_words, taking_lanes, words_of};
use cstar_io::Gate;
use paris_code::Field;
use std::thread::Threads;
use worker_forks::for_each_mut;

/// What a pass over the blocks of a set needs for a get: the words that the cells hold of so many
/// positions, and the fields that take them and that name their places.
#[derive(Clone, Copy)]
pub(crate) struct Fetching<'a> {
    pub(crate) plan: &'a SetPlan,
    pub(crate) cells: &'a [Cell],
    pub(crate) count: u32,
    pub(crate) dest: Field,
    pub(crate) address: Field,
}

/// Gives the active lanes of block `k` the words that are held for the places that they name.
fn spread_block(block: &mut Block, k: u32, taking: &Fetching)
    requires block { k < block_count taking.now.plan.now.geometry }
    requires taking { FetchingFits taking.now }
    requires planes { taking.now.plan.now.bits + 1 ≤ length block.old.planes.items }
    ensures { Taken taking.now k block.old.planes.items block.new.planes.items }
{
    let (dest, address) = (taking.dest, taking.address);
    let lanes = taking_lanes(taking.plan, block, k, false);
    let places = words_of(block, address.offset, address.len);
    let words = fetched(taking.cells, taking.count, &places);
    put_words(block, dest.offset, dest.len, lanes, &words);
}

/// The same in all blocks of a set, with a call of the gate for each.
pub(crate) fn spread<R: Threads + Sync, G: Gate + Sync>(
    rt: &R,
    set: &mut BlockSet,
    taking: &Fetching,
    workers: u32,
    gate: &G,
)
    requires taking { FetchingFits taking.now }
    requires planes { HasPlanes (taking.now.plan.now.bits + 1) set.old.blocks.items }
    requires blocks { length set.old.blocks.items ≡ block_count taking.now.plan.now.geometry }
    requires few { length set.old.blocks.items < 2 ^ 16 }
    requires workers { 1 ≤ workers }
    ensures count { length set.new.blocks.items ≡ length set.old.blocks.items }
    ensures each { (k : ℕ) (none : Block) → k < length set.old.blocks.items
        → Taken taking.now k (slice_index_or set.old.blocks.items k none).planes.items (slice_index_or set.new.blocks.items k none).planes.items }
{
    for_each_mut(
        rt,
        set.blocks.as_mut_slice(),
        workers as usize,
        &|k: usize, block: &mut Block|
            requires { (k < block_count taking.now.plan.now.geometry) × (k < 2 ^ 16) × FetchingFits taking.now
                × (taking.now.plan.now.bits + 1 ≤ length block.now.planes.items) }
            ensures { Taken taking.entry.now k block.entry.now.planes.items block.exit.now.planes.items }
        {
            gate.at(k as u32);
            spread_block(block, k as u32, taking);
        },
    );
}
