//! Runs of bits of all positions of a block.

ghost use Rattle.std.specs.Prelude.{◌≡◌, ◌≢◌, ℕ, ◌+◌, ◌%◌, ◌^◌, ◌<◌, ◌≤◌, length, slice_index, slice_index_or};
ghost use Rattle.bit_planes.specs.declared.block.Block.{Block};
ghost use Rattle.block_store.specs.Phases.{LanesWritten};
ghost use Rattle.block_store.specs.Planes.{HasPlanes, planes_in};
ghost use Rattle.block_store.specs.Stored.{IsWhole, memory_in, shapes_in};
ghost use Rattle.cstar_base.specs.declared.operators.Winner.{Winner};
ghost use Rattle.paris_code.specs.Memory.{SameBits};
ghost use Rattle.paris_code.specs.Shapes.{extents_at};
ghost use Rattle.paris_code.specs.Writes.{written};
ghost use Rattle.phase_gate.specs.Blocks.{HoldRun, at_block};
ghost use Rattle.phase_meaning.specs.Apply.{IsRun};
ghost use Rattle.vp_sets.specs.Blocks.{block_count};

use block_store::{BlockSet, Store, put_words, used_lanes, words_of};
use paris_code::Field;
use std::simd::prelude::*;

/// The numbers in a run of bits of a block's positions.
pub(crate) fn numbers(store: &Store, run: Field, block: u32) -> [u32; 512]
    requires whole { IsWhole store.now }
    requires run { IsRun (shapes_in store.now) run }
    requires block { block < block_count (extents_at (shapes_in store.now) run.set) }
    ensures { (w : Winner) → HoldRun (shapes_in store.now) (memory_in store.now w) run block result }
{
    let set = &store.sets[usize::from(run.set)];
    words_of(&set.blocks[block as usize], run.offset, run.len)
}

/// Makes a run of bits of a block's positions these numbers, modulo 2 to the length.
pub(crate) fn set_numbers(store: &mut Store, run: Field, block: u32, words: &[u32; 512])
    requires whole { IsWhole store.old }
    requires run { IsRun (shapes_in store.old) run }
    requires block { block < block_count (extents_at (shapes_in store.old) run.set) }
    ensures whole { IsWhole store.new }
    ensures shapes { shapes_in store.new ≡ shapes_in store.old }
    ensures room { store.new.room ≡ store.old.room }
    ensures memory { (w : Winner) → SameBits (shapes_in store.old) (memory_in store.new w) (written (at_block run block words.now) (memory_in store.old w)) }
{
    let lanes = used_lanes(&store.plan(run.set).geometry, block);
    put_in_block(
        &mut store.sets[usize::from(run.set)],
        run,
        block,
        lanes,
        words,
    );
}

/// Makes a run of a block's planes the words, in the lanes of the mask.
fn put_in_block(set: &mut BlockSet, run: Field, block: u32, lanes: u64x8, words: &[u32; 512])
    requires block { block < length set.old.blocks.items }
    requires len { (1 ≤ run.len) × (run.len ≤ 32) }
    requires planes { HasPlanes (run.offset + run.len) set.old.blocks.items }
    ensures count { length set.new.blocks.items ≡ length set.old.blocks.items }
    ensures written { (none : Block) → LanesWritten run.offset run.len lanes (λ i. slice_index words.now i % 2 ^ run.len)
        (planes_in (slice_index_or set.old.blocks.items block none)) (planes_in (slice_index_or set.new.blocks.items block none)) }
    ensures others { (k : ℕ) (none : Block) → k ≢ block → slice_index_or set.new.blocks.items k none ≡ slice_index_or set.old.blocks.items k none }
{
    put_words(
        &mut set.blocks[block as usize],
        run.offset,
        run.len,
        lanes,
        words,
    );
}
