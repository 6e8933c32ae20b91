//! The lanes of a block at which a line or a segment begins, in any direction along any axis.

ghost use Rattle.std.specs.Prelude.{◌≡◌, ℕ, ◌<◌, ◌≤◌, ◌+◌, ◌-◌, ◌*◌, ◌%◌, ◌/◌, ◌^◌, ◌==◌, ◌&&◌, not, Bool, false, IfSome, length, nat_lt, if◌then◌else◌};
ghost use Rattle.bit_planes.specs.Bits.{bit};
ghost use Rattle.cstar_base.specs.declared.operators.Direction.TheVariants as D;
ghost use Rattle.block_store.specs.Planes.{HasPlanes};
ghost use Rattle.reduce_scan.specs.Across.{begins_line, marks_behind, previous, stops_there};
ghost use Rattle.reduce_scan.specs.Parts.{AreLines, CanScan, FitsBelow, bit_there, begins_there};

use crate::lines::{Lines, Scan, steps_before};
use crate::runs::is_marked;
use crate::straight::segment_starts;
use bit_planes::plane::{differ, either, first_lanes, repeated, with_lane};
use block_store::BlockSet;
use cstar_base::{Direction, SegmentMode};
use paris_code::Field;
use std::simd::prelude::*;

/// The lanes from one on and below another.
fn lanes_between(from: u32, til: u32) -> u64x8
    requires { from ≤ til }
    ensures { (i : ℕ) → i < 512 → bit result i ≡ (if nat_lt i til && not (nat_lt i from) then 1 else 0) }
{
    differ(first_lanes(from), first_lanes(til))
}

/// The lanes of block `k` at which a line begins.
fn line_cuts(lines: &Lines, k: u32) -> u64x8
    requires lines { AreLines lines.now }
    requires block { k < 2 ^ 16 }
    ensures { (i : ℕ) → i < 512 → 512 * k + i < lines.now.positions → bit result i ≡ (if begins_line lines.now (512 * k + i) then 1 else 0) }
{
    let from = k * 512;
    let mut found = repeated(false);
    if lines.positions <= from {
        return found;
    }
    let size = lines.extent * lines.apart;
    let first = steps_before(lines.direction, lines.extent, 0) * lines.apart;
    for group in from / size..(from + 511) / size + 1 {
        let at = group * size + first;
        let low = at.saturating_sub(from);
        let high = (at + lines.apart).saturating_sub(from);
        found = either(found, lanes_between(low, high));
    }
    found
}

/// The lanes of block `k` where the position before, on a line downward, has a 1 as its bit.
fn marked_before(set: &BlockSet, scan: &Scan, lines: &Lines, k: u32) -> u64x8
    requires bit { IfSome scan.now.bit (λ f. FitsBelow scan.now.context f × (f.len ≡ 1)) }
    requires planes { HasPlanes (scan.now.context + 1) set.now.blocks.items }
    requires lines { AreLines lines.now }
    requires apart { lines.now.apart ≤ 2 ^ 20 }
    requires much { lines.now.positions ≤ 512 * length set.now.blocks.items }
    requires block { k < 2 ^ 16 }
    ensures { (i : ℕ) → i < 512 → 512 * k + i + lines.now.apart < lines.now.positions
        → bit result i ≡ (if bit_there set.now.blocks.items scan.now.bit (512 * k + i + lines.now.apart) then 1 else 0) }
{
    let mut found = repeated(false);
    for i in 0..512 {
        let before = k * 512 + i + lines.apart;
        if before < lines.positions {
            let marked = is_marked(set, scan.bit, scan.context, before);
            found = with_lane(found, i, marked);
        }
    }
    found
}

/// Whether the bit of the position before one says that a segment begins there.
fn marks_behind(mode: SegmentMode, direction: Direction) -> bool
    ensures { result ≡ marks_behind mode direction }
{
    match (mode, direction) {
        (SegmentMode::SegmentBit, Direction::Downward) => true,
        (SegmentMode::SegmentBit, Direction::Upward)
        | (SegmentMode::NoSegments | SegmentMode::StartBit, _) => false,
    }
}

/// The lanes of block `k` at which a segment begins.
fn segment_cuts(set: &BlockSet, scan: &Scan, lines: &Lines, k: u32) -> u64x8
    requires can { CanScan set.now.blocks.items scan.now lines.now }
    requires apart { lines.now.apart ≤ 2 ^ 20 }
    requires block { (k < 2 ^ 16) × (k < length set.now.blocks.items) }
    ensures { (i : ℕ) → i < 512 → 512 * k + i < lines.now.positions → begins_line lines.now (512 * k + i) ≡ false
        → bit result i ≡ (if begins_there set.now.blocks.items scan.now lines.now (previous lines.now.direction lines.now.apart (512 * k + i)) (512 * k + i) then 1 else 0) }
{
    if marks_behind(scan.mode, lines.direction) {
        return marked_before(set, scan, lines, k);
    }
    segment_starts(&set.blocks[k as usize], scan)
}

/// The lanes of block `k` at which a line or a segment begins.
pub(crate) fn cuts(set: &BlockSet, scan: &Scan, lines: &Lines, k: u32) -> u64x8
    requires can { CanScan set.now.blocks.items scan.now lines.now }
    requires block { (k < 2 ^ 16) × (k < length set.now.blocks.items) }
    ensures { (i : ℕ) → i < 512 → 512 * k + i < lines.now.positions → (bit result i == 1) ≡ stops_there set.now.blocks.items scan.now lines.now (512 * k + i) }
{
    if lines.positions <= k * 512 {
        return repeated(false);
    }
    either(line_cuts(lines, k), segment_cuts(set, scan, lines, k))
}
