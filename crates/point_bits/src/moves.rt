//! Runs of bits of a block's positions, to a string and from it.

ghost use Rattle.std.specs.Prelude.{◌≡◌, ℕ, ◌+◌, ◌-◌, min, ◌*◌, ◌/◌, ◌%◌, ◌^◌, ◌<◌, ◌≤◌, length, slice_index};
ghost use Rattle.std.specs.Int.{bit_at};
ghost use Rattle.point_bits.specs.Strings.{HasRun, IsString, RunPut, string_at};

use crate::bytes::{number_at, put_number};
use crate::strings::SetString;
use paris_code::Field;
use vp_sets::BLOCK_SIZE;

impl SetString {
    /// The first bit of a run of a position.
    #[inline(always)]
    fn place(self, run: Field, position: u32) -> u64
        requires string { IsString self }
        requires position { position < self.positions }
        requires run { HasRun self run }
        ensures place { result ≡ position * self.width + run.offset }
        ensures inside { result + run.len ≤ self.positions * self.width }
    {
        u64::from(position) * u64::from(self.width) + u64::from(run.offset)
    }

    /// How many positions a block has.
    pub(crate) fn positions_in(self, block: u32) -> u32
        requires { 512 * block < self.positions }
        ensures count { result ≡ min (self.positions - 512 * block) 512 }
        ensures few { result ≤ 512 }
        ensures inside { 512 * block + result ≤ self.positions }
        ensures whole { (p : ℕ) → p / 512 ≡ block → p < self.positions → p < 512 * block + result }
    {
        (self.positions - BLOCK_SIZE * block).min(BLOCK_SIZE)
    }

    /// Makes a run the words, at the positions of a block.
    pub(crate) fn put(self, run: Field, block: u32, words: &[u32; 512], bytes: &mut [u8])
        requires string { IsString self }
        requires run { HasRun self run }
        requires block { 512 * block < self.positions }
        requires bytes { self.positions * self.width ≤ 8 * length bytes.old }
        requires small { (lane : ℕ) → lane < 512 → slice_index words.now lane < 2 ^ run.len }
        ensures { RunPut self.positions self.width run block words.now bytes.old bytes.new }
    {
        let first = BLOCK_SIZE * block;
        'lanes: for lane in 0..self.positions_in(block) {
            put_number(
                bytes,
                self.place(run, first + lane),
                run.len,
                words[lane as usize],
            );
        }
    }

    /// The numbers in a run, at the positions of a block; 0 where there is none.
    pub(crate) fn numbers(self, run: Field, block: u32, bytes: &[u8]) -> [u32; 512]
        requires string { IsString self }
        requires run { HasRun self run }
        requires block { 512 * block < self.positions }
        requires bytes { self.positions * self.width ≤ 8 * length bytes.now }
        ensures { (p j : ℕ) → p / 512 ≡ block → p < self.positions → j < run.len
            → bit_at (slice_index result (p % 512)) j ≡ string_at self.width bytes.now p (run.offset + j) }
    {
        let first = BLOCK_SIZE * block;
        let mut words = [0; 512];
        'lanes: for lane in 0..self.positions_in(block) {
            words[lane as usize] = number_at(bytes, self.place(run, first + lane), run.len);
        }
        words
    }
}
