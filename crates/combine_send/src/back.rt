//! The words of a send go into its destination.

ghost use Rattle.std.specs.Prelude.{◌≡◌, ℕ, ◌<◌, ◌≤◌, ◌+◌, ◌*◌, ◌^◌, length, slice_index, slice_index_or};
ghost use Rattle.cstar_base.specs.Numbers.{converted};
ghost use Rattle.cstar_base.specs.declared.operators.Winner.{Winner};
ghost use Rattle.vp_sets.specs.Blocks.{block_count};
ghost use Rattle.vp_sets.specs.Positions.{position_count};
ghost use Rattle.bit_planes.specs.declared.block.Block.{Block};
ghost use Rattle.paris_code.specs.Fetching.{at_all};
ghost use Rattle.paris_code.specs.Memory.{SameBits, processors};
ghost use Rattle.paris_code.specs.Sending.{word_kind};
ghost use Rattle.paris_code.specs.Writes.{written};
ghost use Rattle.phase_meaning.specs.Apply.{LiesIn};
ghost use Rattle.block_store.specs.Planes.{HasPlanes};
ghost use Rattle.block_store.specs.Stored.{shapes_in, memory_in, IsWhole, HasRoom};
ghost use Rattle.combine_send.specs.Back.{HasTaken};

use crate::send::Send;
use bit_planes::Block;
use block_store::{BlockSet, SetPlan, Store, put_words, taking_lanes};
use combine_board::Words;
use cstar_base::Elem;
use cstar_base::numbers::convert;
use vp_sets::Geometry;

/// The words of the positions of block `k`, converted to the type of the destination.
fn converted_words(geometry: &Geometry, k: u32, kind: Elem, words: &[u32]) -> [u32; 512]
    requires block { k < block_count geometry.now }
    requires words { length words.now ≡ position_count geometry.now }
    ensures { (i : ℕ) → i < 512 → 512 * k + i < position_count geometry.now
        → slice_index result i ≡ converted kind word_kind (slice_index words.now (512 * k + i)) }
{
    let (start, end) = geometry.block_range(k);
    let mut numbers = [0; 512];
    for i in 0..end - start {
        numbers[i as usize] = convert(kind, Elem::INT, words[(start + i) as usize]);
    }
    numbers
}

/// The positions of block `k` take their words.
fn take_words(block: &mut Block, k: u32, plan: &SetPlan, send: &Send, words: &[u32])
    requires block { k < block_count plan.now.geometry }
    requires words { length words.now ≡ position_count plan.now.geometry }
    requires len { (1 ≤ send.now.dest.len) × (send.now.dest.len ≤ 32) }
    requires within { send.now.dest.offset + send.now.dest.len ≤ plan.now.bits }
    requires planes { plan.now.bits + 1 ≤ length block.old.planes.items }
    ensures { HasTaken plan.now.geometry plan.now.bits send.now words.now k block.old.planes.items block.new.planes.items }
{
    let lanes = taking_lanes(plan, block, k, true);
    let numbers = converted_words(&plan.geometry, k, send.kind, words);
    put_words(block, send.dest.offset, send.dest.len, lanes, &numbers);
}

/// The positions of a set take their words.
fn take_all(set: &mut BlockSet, plan: &SetPlan, send: &Send, words: &[u32])
    requires words { length words.now ≡ position_count plan.now.geometry }
    requires len { (1 ≤ send.now.dest.len) × (send.now.dest.len ≤ 32) }
    requires within { send.now.dest.offset + send.now.dest.len ≤ plan.now.bits }
    requires planes { HasPlanes (plan.now.bits + 1) set.old.blocks.items }
    requires blocks { length set.old.blocks.items ≡ block_count plan.now.geometry }
    ensures count { length set.new.blocks.items ≡ length set.old.blocks.items }
    ensures each { (k : ℕ) (none : Block) → k < length set.old.blocks.items
        → HasTaken plan.now.geometry plan.now.bits send.now words.now k (slice_index_or set.old.blocks.items k none).planes.items (slice_index_or set.new.blocks.items k none).planes.items }
{
    for k in 0..plan.geometry.block_count() {
        take_words(&mut set.blocks[k as usize], k, plan, send, words);
    }
}

/// Each position of the destination's set takes its word, as `write_back` says.
pub(crate) fn put_back(store: &mut Store, send: &Send, words: &[u32])
    requires whole { IsWhole store.old }
    requires room { HasRoom store.old }
    requires dest { LiesIn (shapes_in store.old) send.now.dest }
    requires words { length words.now ≡ processors (shapes_in store.old) send.now.dest.set }
    ensures whole { IsWhole store.new }
    ensures room { HasRoom store.new }
    ensures shapes { shapes_in store.new ≡ shapes_in store.old }
    ensures memory { (w : Winner) → SameBits (shapes_in store.old) (memory_in store.new w)
        (written (at_all send.now.dest (λ t. converted send.now.kind word_kind (slice_index words.now t))) (memory_in store.old w)) }
{
    let set = usize::from(send.dest.set);
    take_all(&mut store.sets[set], &store.plans[set], send, words);
}

/// Each position of the destination's set takes its word, converted to the type of the destination,
/// whether it is active or not.
pub fn write_back(store: &mut Store, send: &Send, words: &Words)
    requires whole { IsWhole store.old }
    requires room { HasRoom store.old }
    requires dest { LiesIn (shapes_in store.old) send.now.dest }
    requires words { length words.now ≡ processors (shapes_in store.old) send.now.dest.set }
    ensures whole { IsWhole store.new }
    ensures room { HasRoom store.new }
    ensures shapes { shapes_in store.new ≡ shapes_in store.old }
    ensures memory { (w : Winner) → SameBits (shapes_in store.old) (memory_in store.new w)
        (written (at_all send.now.dest (λ t. converted send.now.kind word_kind (slice_index words.now t))) (memory_in store.old w)) }
{
    put_back(store, send, words.as_slice());
}
