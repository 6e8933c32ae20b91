ghost use Rattle.std.specs.Prelude.{◌≡◌, ◌≢◌, ℕ, ◌<◌, ◌+◌, ◌*◌, ◌-◌, ◌/◌, ◌%◌, ◌^◌, min, max, if◌then◌else◌, nat_lt, IsTrue};
ghost use Rattle.std.specs.Int.{bit_at};
ghost use Rattle.bit_planes.specs.Bits.{bit};

use std::alloc::AllocError;
use std::simd::prelude::*;

/// One bit of each of 512 lanes: lane i is bit i % 64 of word i / 64.
pub struct Plane {
    pub bits: u64x8,
}

impl Clone for Plane {
    ghost is_clone = { λ x y. y ≡ x };

    fn clone(&self) -> Result<Plane, AllocError> {
        Ok(*self)
    }
}

impl Copy for Plane {}

impl Plane {
    /// The plane with 0 in every lane.
    #[inline(always)]
    pub fn zero() -> Plane
        ensures { (i : ℕ) → i < 512 → bit result.bits i ≡ 0 }
    {
        Plane {
            bits: u64x8::splat(0),
        }
    }
}

/// The word with this bit made 1 or 0.
#[inline(always)]
fn with_bit(word: u64, at: u32, one: bool) -> u64
    requires { at < 64 }
    ensures bit { bit_at result at ≡ (if one then 1 else 0) }
    ensures others { (j : ℕ) → j < 64 → j ≢ at → bit_at result j ≡ bit_at word j }
{
    if one {
        word | (1 << at)
    } else {
        word & !(1 << at)
    }
}

/// The bit of a lane, 0 or 1.
#[inline(always)]
pub fn lane(a: u64x8, i: u32) -> u32
    requires { i < 512 }
    ensures { result ≡ bit a i }
{
    let words = a.to_array();
    ((words[i as usize / 64] >> (i % 64)) % 2) as u32
}

/// The plane with the bit of a lane made 1 or 0.
#[inline(always)]
pub fn with_lane(a: u64x8, i: u32, one: bool) -> u64x8
    requires { i < 512 }
    ensures lane { bit result i ≡ (if one then 1 else 0) }
    ensures others { (k : ℕ) → k < 512 → k ≢ i → bit result k ≡ bit a k }
{
    let mut words = a.to_array();
    let word = i as usize / 64;
    words[word] = with_bit(words[word], i % 64, one);
    u64x8::from_array(words)
}

/// The plane that holds one bit in every lane.
#[inline(always)]
pub fn repeated(one: bool) -> u64x8
    ensures { (i : ℕ) → i < 512 → bit result i ≡ (if one then 1 else 0) }
{
    u64x8::splat(if one { u64::MAX } else { 0 })
}

/// The word of the lanes from 64 times `word` on, with 1 in those below `count`.
#[inline(always)]
fn first_of_word(count: u32, word: u32) -> u64
    requires { word < 8 }
    ensures { result ≡ 2 ^ min 64 (count - 64 * word) - 1 }
{
    let from = 64 * word;
    if count <= from {
        0
    } else if count - from < 64 {
        (1 << (count - from)) - 1
    } else {
        u64::MAX
    }
}

/// The plane that holds 1 in the first `count` lanes, and 0 in all others.
pub fn first_lanes(count: u32) -> u64x8
    ensures { (i : ℕ) → i < 512 → bit result i ≡ (if nat_lt i count then 1 else 0) }
{
    if count >= 512 {
        return repeated(true);
    }
    u64x8::from_array([
        first_of_word(count, 0),
        first_of_word(count, 1),
        first_of_word(count, 2),
        first_of_word(count, 3),
        first_of_word(count, 4),
        first_of_word(count, 5),
        first_of_word(count, 6),
        first_of_word(count, 7),
    ])
}

/// The plane whose eight words are all this one.
#[inline(always)]
pub(crate) fn each_word(word: u64) -> u64x8
    ensures { (i : ℕ) → i < 512 → bit result i ≡ bit_at word (i % 64) }
{
    u64x8::splat(word)
}

/// 1 where both are.
#[inline(always)]
pub fn both(a: u64x8, b: u64x8) -> u64x8
    ensures { (i : ℕ) → i < 512 → bit result i ≡ min (bit a i) (bit b i) }
{
    a & b
}

/// 1 where one of them is.
#[inline(always)]
pub fn either(a: u64x8, b: u64x8) -> u64x8
    ensures { (i : ℕ) → i < 512 → bit result i ≡ max (bit a i) (bit b i) }
{
    a | b
}

/// 1 where they differ.
#[inline(always)]
pub fn differ(a: u64x8, b: u64x8) -> u64x8
    ensures { (i : ℕ) → i < 512 → bit result i ≡ (bit a i + bit b i) % 2 }
{
    a ^ b
}

/// 1 where the plane is 0.
#[inline(always)]
pub fn opposite(a: u64x8) -> u64x8
    ensures { (i : ℕ) → i < 512 → bit result i ≡ 1 - bit a i }
{
    !a
}

/// Whether no lane has a 1. No word is skipped, so that all eight are looked at together.
#[inline(always)]
pub fn is_empty(a: u64x8) -> bool
    ensures { IsTrue result → (i : ℕ) → i < 512 → bit a i ≡ 0 }
{
    let words = a.to_array();
    let mut seen = 0;
    'words: for j in 0..8usize {
        seen |= words[j];
    }
    seen == 0
}

/// Whether each lane has a 1.
#[inline(always)]
pub fn is_full(a: u64x8) -> bool
    ensures { IsTrue result → (i : ℕ) → i < 512 → bit a i ≡ 1 }
{
    is_empty(opposite(a))
}

/// Each bit moved to the lane `by` further, within its word of 64 lanes; 0 moves in.
#[inline(always)]
pub fn moved_up(a: u64x8, by: u64) -> u64x8
    requires { by < 64 }
    ensures { (i : ℕ) → i < 512 → bit result i ≡ (if nat_lt (i % 64) by then 0 else bit a (i - by)) }
{
    a << u64x8::splat(by)
}

/// Each bit moved to the lane `by` before, within its word of 64 lanes; 0 moves in.
#[inline(always)]
pub fn moved_down(a: u64x8, by: u64) -> u64x8
    requires { by < 64 }
    ensures { (i : ℕ) → i < 512 → bit result i ≡ (if nat_lt (i % 64 + by) 64 then bit a (i + by) else 0) }
{
    a >> u64x8::splat(by)
}
