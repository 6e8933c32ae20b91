//! The numbers of a field as words, and words as the numbers of a field.

ghost use Rattle.std.specs.Prelude.{◌≡◌, ℕ, ◌<◌, ◌≤◌, ◌+◌, ◌*◌, ◌%◌, ◌^◌, length, slice_index, slice_index_or};
ghost use Rattle.bit_planes.specs.Planes.{number};
ghost use Rattle.bit_planes.specs.declared.block.Block.{Block};
ghost use Rattle.block_store.specs.declared.set.Cell.{Cell};
ghost use Rattle.block_store.specs.Phases.{LanesWritten};
ghost use Rattle.block_store.specs.Planes.{HasPlanes};
ghost use Rattle.block_store.specs.Stored.{word_or_zero};

use crate::room::Room;
use crate::set::{BlockSet, Cell};
use bit_planes::{Block, Rows};
use lane_kernels::{Target, in_place};
use std::simd::prelude::*;
use std::thread::Threads;
use worker_forks::for_each_mut;

/// The numbers of a field of a block.
pub fn words_of(block: &Block, offset: u32, len: u8) -> [u32; 512]
    requires len { (1 ≤ len) × (len ≤ 32) }
    requires within { offset + len ≤ length block.now.planes.items }
    ensures { (i : ℕ) → i < 512 → slice_index result i ≡ number block.now.planes.items offset len i }
{
    Rows::of_field(&block.planes, offset, len).values()
}

/// Makes the field of `len` bits at the offset the words, in the lanes of the mask.
pub fn put_words(block: &mut Block, offset: u32, len: u8, lanes: u64x8, words: &[u32; 512])
    requires len { (1 ≤ len) × (len ≤ 32) }
    requires within { offset + len ≤ length block.old.planes.items }
    ensures { LanesWritten offset len lanes (λ i. slice_index words.now i % 2 ^ len) block.old.planes.items block.new.planes.items }
{
    let to = Target::at(offset, len, lanes);
    in_place::put_values(&mut block.planes, &to, words);
}

/// Holds the numbers of a field of each block in its cell.
pub fn lift<R: Threads + Sync>(
    rt: &R,
    set: &BlockSet,
    room: &mut Room,
    offset: u32,
    len: u8,
    workers: u32,
)
    requires len { (1 ≤ len) × (len ≤ 32) }
    requires planes { HasPlanes (offset + len) set.now.blocks.items }
    requires workers { 1 ≤ workers }
    ensures count { length room.new.cells.items ≡ length room.old.cells.items }
    ensures words { (k i : ℕ) (none : Cell) (other : Block) → k < length set.now.blocks.items → k < length room.old.cells.items → i < 512
        → slice_index (slice_index_or room.new.cells.items k none).words i ≡ number (slice_index_or set.now.blocks.items k other).planes.items offset len i }
{
    let blocks = set.blocks.as_slice();
    for_each_mut(
        rt,
        room.cells.as_mut_slice(),
        workers as usize,
        &|k: usize, cell: &mut Cell|
            requires { (1 ≤ len) × (len ≤ 32) × HasPlanes (offset + len) blocks.now }
            ensures { (i : ℕ) (other : Block) → k < length blocks.entry.now → i < 512
                → slice_index cell.exit.now.words i ≡ number (slice_index_or blocks.entry.now k other).planes.items offset len i }
        {
            if k < blocks.len() {
                cell.words = words_of(&blocks[k], offset, len);
            }
        },
    );
}

/// The word that is held for a position of so many, and 0 where there is none.
pub fn word_or_zero(cells: &[Cell], count: u32, position: u32) -> u32
    requires { count ≤ 512 * length cells.now }
    ensures { result ≡ word_or_zero cells.now count position }
{
    if position < count {
        cells[(position / 512) as usize].words[(position % 512) as usize]
    } else {
        0
    }
}

/// The words that are held for these positions.
pub fn fetched(cells: &[Cell], count: u32, positions: &[u32; 512]) -> [u32; 512]
    requires { count ≤ 512 * length cells.now }
    ensures { (i : ℕ) → i < 512 → slice_index result i ≡ word_or_zero cells.now count (slice_index positions.now i) }
{
    let mut words = [0; 512];
    for i in 0..512 {
        words[i] = word_or_zero(cells, count, positions[i]);
    }
    words
}
