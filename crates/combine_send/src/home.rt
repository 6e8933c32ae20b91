//! The words that targets hold before a send.

ghost use Rattle.std.specs.Prelude.{◌≡◌, ℕ, ◌<◌, ◌≤◌, ◌+◌, ◌*◌, ◌^◌, IfOk, length, slice_index, slice_index_or};
ghost use Rattle.cstar_base.specs.Numbers.{residue, number_of};
ghost use Rattle.cstar_base.specs.declared.operators.Winner.{Winner};
ghost use Rattle.bit_planes.specs.Planes.{number};
ghost use Rattle.paris_code.specs.Memory.{processors, whole_number};
ghost use Rattle.phase_meaning.specs.Apply.{LiesIn};
ghost use Rattle.block_store.specs.Stored.{shapes_in, memory_in, IsWhole};

use bit_planes::Block;
use block_store::{Store, words_of};
use cstar_base::Memory;
use paris_code::Field;
use phase_meaning::arith::extended;
use std::alloc::Global;

/// The numbers of a field of a block as words, read signed or unsigned.
fn extended_words(block: &Block, signed: bool, field: Field) -> [u32; 512]
    requires len { (1 ≤ field.len) × (field.len ≤ 32) }
    requires within { field.offset + field.len ≤ length block.now.planes.items }
    ensures { (i : ℕ) → i < 512 → slice_index result i ≡ residue 32 (number_of field.len signed (number block.now.planes.items field.offset field.len i)) }
{
    let mut words = words_of(block, field.offset, field.len);
    for i in 0..512 {
        words[i] = extended(signed, field.len, words[i]);
    }
    words
}

/// The number of each position in a field as a word, read signed or unsigned. `Memory` is want of
/// memory alone.
pub(crate) fn home_words(
    alloc: Global,
    store: &Store,
    signed: bool,
    field: Field,
) -> Result<Vec<u32>, Memory>
    requires whole { IsWhole store.now }
    requires field { LiesIn (shapes_in store.now) field }
    ensures count { IfOk result (λ home. length home.items ≡ processors (shapes_in store.now) field.set) }
    ensures words { IfOk result (λ home. (w : Winner) (t : ℕ) → t < processors (shapes_in store.now) field.set
        → slice_index home.items t ≡ residue 32 (whole_number (memory_in store.now w) signed field t)) }
{
    let geometry = &store.plan(field.set).geometry;
    let set = &store.sets[usize::from(field.set)];
    let mut home = Vec::with_capacity(alloc, geometry.positions() as usize)?;
    for k in 0..geometry.block_count() {
        let (start, end) = geometry.block_range(k);
        let words = extended_words(&set.blocks[k as usize], signed, field);
        home.extend_from_slice(&words[..(end - start) as usize])?;
    }
    Ok(home)
}
