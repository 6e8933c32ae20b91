//! Windows of 512 lanes on the planes that the room holds, from any lane on.

ghost use Rattle.std.specs.Prelude.{◌≡◌, ℕ, ◌<◌, ◌≤◌, ◌+◌, ◌*◌, ◌/◌, ◌%◌, ◌==◌, if◌then◌else◌};
ghost use Rattle.std.specs.Int.{bit_at};
ghost use Rattle.bit_planes.specs.Bits.{bit};
ghost use Rattle.bit_planes.specs.Planes.{plane_at};
ghost use Rattle.news_grid.specs.Steps.{beside, seen_through, HasHeld, Views};

use bit_planes::Plane;
use bit_planes::plane::{both, either, moved_down, moved_up, opposite};
use std::simd::prelude::*;
use vp_sets::BLOCK_SIZE;

/// One of the 16 words of two planes side by side.
#[inline(always)]
fn word_beside(low: &[u64; 8], high: &[u64; 8], at: usize) -> u64
    requires { at < 16 }
    ensures { (i : ℕ) → i < 64 → bit_at result i ≡ beside low.now high.now (64 * at + i) }
{
    if at < 8 { low[at] } else { high[at - 8] }
}

/// The eight words of two planes side by side that begin at word `skip` of the first.
#[inline(always)]
fn words_beside(low: u64x8, high: u64x8, skip: usize) -> u64x8
    requires { skip ≤ 8 }
    ensures { (i : ℕ) → i < 512 → bit result i ≡ beside low high (64 * skip + i) }
{
    let low = low.to_array();
    let high = high.to_array();
    u64x8::from_array([
        word_beside(&low, &high, skip),
        word_beside(&low, &high, skip + 1),
        word_beside(&low, &high, skip + 2),
        word_beside(&low, &high, skip + 3),
        word_beside(&low, &high, skip + 4),
        word_beside(&low, &high, skip + 5),
        word_beside(&low, &high, skip + 6),
        word_beside(&low, &high, skip + 7),
    ])
}

/// The 512 lanes of two planes side by side that begin `by` lanes behind word `skip` of the first: by
/// whole words where they begin at one, and else with shifts.
#[inline(always)]
fn lanes_behind(low: u64x8, high: u64x8, skip: usize, by: u32) -> u64x8
    requires { (skip < 8) × (by < 64) }
    ensures { (i : ℕ) → i < 512 → bit result i ≡ beside low high (64 * skip + by + i) }
{
    let first = words_beside(low, high, skip);
    if by == 0 {
        return first;
    }
    let next = words_beside(low, high, skip + 1);
    either(moved_down(first, by as u64), moved_up(next, 64 - by as u64))
}

/// The 512 lanes of two planes side by side that begin at a lane of the first.
pub(crate) fn lanes_beside(low: u64x8, high: u64x8, from: u32) -> u64x8
    requires { from < 512 }
    ensures { (i : ℕ) → i < 512 → bit result i ≡ beside low high (from + i) }
{
    lanes_behind(low, high, from as usize / 64, from % 64)
}

/// 512 lanes of a set, from a lane on and round its end: they begin in one block and end in the
/// next.
#[derive(Clone, Copy)]
pub(crate) struct Window {
    pub(crate) first: usize,
    pub(crate) next: usize,
    pub(crate) from: u32,
}

impl Window {
    /// The window that begins at a lane of a set of so many blocks.
    pub(crate) fn at(lane: u32, blocks: u32) -> Window
        requires { 0 < blocks }
        ensures { Views result lane blocks }
    {
        let block = lane / BLOCK_SIZE;
        Window {
            first: (block % blocks) as usize,
            next: ((block + 1) % blocks) as usize,
            from: lane % BLOCK_SIZE,
        }
    }

    /// The word of the first block in which it begins.
    pub(crate) fn word(&self) -> usize
        requires { self.now.from < 512 }
        ensures is { result ≡ self.now.from / 64 }
        ensures few { result < 8 }
    {
        self.from as usize / 64
    }

    /// Its lanes on plane `j` of a field of `len` bits that is held, where it begins in this word. In a
    /// loop over planes the word is to be a constant: then the words of a plane are picked without a look
    /// at where.
    #[inline(always)]
    pub(crate) fn plane(&self, held: &[Plane], len: u8, j: usize, word: usize) -> u64x8
        requires plane { j < len }
        requires held { HasHeld self.now len held.now }
        requires word { word ≡ self.now.from / 64 }
        ensures { (i : ℕ) → i < 512 → bit result i ≡ seen_through self.now held.now len j i }
    {
        let len = len as usize;
        lanes_behind(
            held[self.first * len + j].bits,
            held[self.next * len + j].bits,
            word,
            self.from % 64,
        )
    }
}

/// What the lanes of a block take: those of `crossing` through the window `round`, and all others
/// through the window `staying`.
#[derive(Clone, Copy)]
pub(crate) struct Turn {
    pub(crate) staying: Window,
    pub(crate) round: Window,
    pub(crate) crossing: u64x8,
}

impl Turn {
    /// What its lanes take on plane `j` of a field of `len` bits that is held, where both of its windows
    /// begin in this word.
    #[inline(always)]
    pub(crate) fn plane(&self, held: &[Plane], len: u8, j: usize, word: usize) -> u64x8
        requires plane { j < len }
        requires staying { HasHeld self.now.staying len held.now }
        requires round { HasHeld self.now.round len held.now }
        requires words { (word ≡ self.now.staying.from / 64) × (word ≡ self.now.round.from / 64) }
        ensures { (i : ℕ) → i < 512 → bit result i ≡ (if bit self.now.crossing i == 1 then seen_through self.now.round held.now len j i else seen_through self.now.staying held.now len j i) }
    {
        let round = self.round.plane(held, len, j, word);
        let staying = self.staying.plane(held, len, j, word);
        either(
            both(self.crossing, round),
            both(opposite(self.crossing), staying),
        )
    }
}
