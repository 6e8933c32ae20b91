//! Running sums over the numbers of a block, as rows hold them: 16 runs of 32 lanes side by side.

ghost use Rattle.std.specs.Prelude.{◌≡◌, ℕ, ◌<◌, ◌+◌, ◌*◌, ◌/◌, ◌%◌, ◌^◌, length, slice_index};
ghost use Rattle.bit_planes.specs.Rows.{half, held};
ghost use Rattle.reduce_scan.specs.Sums.{own_of, owns, row_start, sum_from};

use bit_planes::Plane;
use cstar_base::Inclusion;
use std::simd::prelude::*;

/// The sums of the words of two planes.
#[inline(always)]
fn word_sums(x: u64x8, y: u64x8) -> u64x8
    ensures { (w : ℕ) → w < 8 → slice_index result w ≡ (slice_index x w + slice_index y w) % 2 ^ 64 }
{
    x + y
}

/// The upper halves of the words of a plane.
#[inline(always)]
fn upper(x: u64x8) -> u64x8
    ensures { (w : ℕ) → w < 8 → slice_index result w ≡ slice_index x w / 2 ^ 32 }
{
    x >> u64x8::splat(32)
}

/// The lower halves of the words of a plane, in the upper ones.
#[inline(always)]
fn raised(x: u64x8) -> u64x8
    ensures { (w : ℕ) → w < 8 → slice_index result w ≡ slice_index x w * 2 ^ 32 % 2 ^ 64 }
{
    x << u64x8::splat(32)
}

/// The sums of the numbers in two planes.
#[inline(always)]
fn sums(x: u64x8, y: u64x8) -> u64x8
    ensures { (i : ℕ) → i < 512 → half result i ≡ (half x i + half y i) % 2 ^ 32 }
{
    let low = upper(raised(word_sums(x, y)));
    let high = raised(word_sums(upper(x), upper(y)));
    word_sums(low, high)
}

/// Of the sums before and behind a lane, those that lanes take.
#[inline(always)]
fn own_of(inclusion: Inclusion, before: u64x8, behind: u64x8) -> u64x8
    ensures { result ≡ own_of inclusion before behind }
{
    match inclusion {
        Inclusion::Exclusive => before,
        Inclusion::Inclusive => behind,
    }
}

/// The sums of the numbers of each 32 lanes, in all of them.
fn totals(rows: &[Plane]) -> u64x8
    requires { length rows.now ≡ 32 }
    ensures { (i : ℕ) → i < 512 → half result i ≡ sum_from (held rows.now) (row_start i) 32 % 2 ^ 32 }
{
    let mut total = u64x8::splat(0);
    for row in 0..32 {
        total = sums(total, rows[row].bits);
    }
    total
}

/// The word of two numbers.
#[inline(always)]
fn paired(low: u32, high: u32) -> u64
    ensures { result ≡ high * 2 ^ 32 + low }
{
    (u64::from(high) << 32) + u64::from(low)
}

/// The sum of a start and the 16 sums before each, in its place, and of the start and all of them.
fn sums_before(totals: u64x8, start: u32) -> (u64x8, u32)
    ensures before { (i : ℕ) → i < 512 → half result.0 i ≡ (start + sum_from (λ g. half totals (32 * g)) 0 (i / 32)) % 2 ^ 32 }
    ensures all { result.1 ≡ (start + sum_from (λ g. half totals (32 * g)) 0 16) % 2 ^ 32 }
{
    let words = totals.to_array();
    let mut before = [0; 8];
    let mut sum = start;
    for word in 0..8 {
        let middle = sum.wrapping_add((words[word] % (1 << 32)) as u32);
        before[word] = paired(sum, middle);
        sum = middle.wrapping_add((words[word] >> 32) as u32);
    }
    (u64x8::from_array(before), sum)
}

/// Each number becomes the sum of what stands before its 32 lanes and of the numbers before it in
/// them, its own among them or not.
fn sum_within(rows: &mut [Plane], inclusion: Inclusion, before: u64x8)
    requires { length rows.old ≡ 32 }
    ensures long { length rows.new ≡ 32 }
    ensures numbers { (i : ℕ) → i < 512 → held rows.new i ≡ (half before i + sum_from (held rows.old) (row_start i) (i % 32 + owns inclusion)) % 2 ^ 32 }
{
    let mut total = before;
    for row in 0..32 {
        let next = sums(total, rows[row].bits);
        rows[row] = Plane {
            bits: own_of(inclusion, total, next),
        };
        total = next;
    }
}

/// Each number becomes the sum of a start and the numbers before it, its own among them or not. Gives
/// the sum of the start and all numbers.
pub(crate) fn sum_all(rows: &mut [Plane], inclusion: Inclusion, start: u32) -> u32
    requires { length rows.old ≡ 32 }
    ensures long { length rows.new ≡ 32 }
    ensures fits { start < 2 ^ 32 }
    ensures numbers { (i : ℕ) → i < 512 → held rows.new i ≡ (start + sum_from (held rows.old) 0 (i + owns inclusion)) % 2 ^ 32 }
    ensures total { result ≡ (start + sum_from (held rows.old) 0 512) % 2 ^ 32 }
{
    let (before, total) = sums_before(totals(rows), start);
    sum_within(rows, inclusion, before);
    total
}
