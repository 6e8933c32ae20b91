//! The running fold of a scan, part by part in line order.

ghost use Rattle.std.specs.Prelude.{◌≡◌, ℕ, ◌<◌, ◌≤◌, ◌+◌, ◌-◌, ◌*◌, ◌^◌, ◌==◌, true, Bool, Option, Some, None, IfSome, length, slice_index, slice_index_or, if◌then◌else◌};
ghost use Rattle.std.specs.Int.{from_bool};
ghost use Rattle.cstar_base.specs.Folds.{fold_once, identity_of};
ghost use Rattle.cstar_base.specs.declared.operators.Direction.TheVariants as D;
ghost use Rattle.paris_code.specs.Operators.{combiner_of};
ghost use Rattle.block_store.specs.declared.set.Cell.{Cell};
ghost use Rattle.block_store.specs.Planes.{HasPlanes};
ghost use Rattle.reduce_scan.specs.Parts.{CanScan, FitsBelow, ordered_at, active_there, value_there, bit_there, begins_there, cut_there, part_fold, part_begins, part_size, starts, IsFolded};
ghost use Rattle.reduce_scan.specs.Running.{handed_on};

use crate::lines::{LineScan, Lines, Scan};
use crate::straight::fold_own;
use block_store::{BlockSet, Cell, Room};
use cstar_base::numbers::{fold_step, identity};
use cstar_base::{Direction, SegmentMode};
use paris_code::{Field, Reduction};
use std::thread::Threads;
use worker_forks::for_each_mut;

/// Whether the bit that parts the segments is 1 at a position.
pub(crate) fn is_marked(set: &BlockSet, bit: Option<Field>, context: u32, position: u32) -> bool
    requires bit { IfSome bit (λ f. FitsBelow context f × (f.len ≡ 1)) }
    requires planes { HasPlanes (context + 1) set.now.blocks.items }
    requires position { position < 512 * length set.now.blocks.items }
    ensures { result ≡ bit_there set.now.blocks.items bit position }
{
    match bit {
        None => false,
        Some(bit) => set.number(position, bit.offset, bit.len) == 1,
    }
}

/// Whether a position is active.
fn is_active(set: &BlockSet, scan: &Scan, position: u32) -> bool
    requires planes { HasPlanes (scan.now.context + 1) set.now.blocks.items }
    requires position { position < 512 * length set.now.blocks.items }
    ensures { result ≡ active_there set.now.blocks.items scan.now position }
{
    set.number(position, scan.context, 1) == 1
}

/// Whether a new segment begins between two neighbours of a line.
fn begins(set: &BlockSet, scan: &Scan, lines: &Lines, first: u32, second: u32) -> bool
    requires can { CanScan set.now.blocks.items scan.now lines.now }
    requires first { first < 512 * length set.now.blocks.items }
    requires second { second < 512 * length set.now.blocks.items }
    ensures { result ≡ begins_there set.now.blocks.items scan.now lines.now first second }
{
    match (scan.mode, lines.direction) {
        (SegmentMode::NoSegments, _) => false,
        (SegmentMode::StartBit, _) => {
            is_active(set, scan, second) & is_marked(set, scan.bit, scan.context, second)
        }
        (SegmentMode::SegmentBit, Direction::Upward) => {
            is_marked(set, scan.bit, scan.context, second)
        }
        (SegmentMode::SegmentBit, Direction::Downward) => {
            is_marked(set, scan.bit, scan.context, first)
        }
    }
}

/// Whether a line or a segment begins at a place behind the first one.
fn is_cut(set: &BlockSet, scan: &Scan, lines: &Lines, place: u32) -> bool
    requires can { CanScan set.now.blocks.items scan.now lines.now }
    requires place { 1 ≤ place }
    ensures { result ≡ cut_there set.now.blocks.items scan.now lines.now place }
{
    if lines.positions <= place {
        return false;
    }
    if place % lines.extent == 0 {
        return true;
    }
    if scan.mode == SegmentMode::NoSegments {
        return false;
    }
    begins(
        set,
        scan,
        lines,
        lines.position(place - 1),
        lines.position(place),
    )
}

/// Folds each part but the last one from the identity: the first word of its cell becomes the fold
/// behind it, and the second one 1 where a line or a segment begins in it.
pub(crate) fn fold_parts<R: Threads + Sync>(
    rt: &R,
    set: &BlockSet,
    room: &mut Room,
    task: &LineScan,
    workers: u32,
)
    requires can { CanScan set.now.blocks.items task.now.scan task.now.lines }
    requires straight { (task.now.lines.direction ≡ D.Upward) × (task.now.lines.apart ≡ 1) }
    requires few { length set.now.blocks.items < 2 ^ 16 }
    requires workers { 1 ≤ workers }
    ensures count { length room.new.cells.items ≡ length room.old.cells.items }
    ensures folds { (k : ℕ) (none : Cell) → 512 * (k + 1) < task.now.lines.positions → k < length set.now.blocks.items → k < length room.old.cells.items
        → IsFolded set.now.blocks.items task.now.scan task.now.lines k (slice_index_or room.new.cells.items k none).words }
{
    let blocks = set.blocks.len();
    for_each_mut(
        rt,
        room.cells.as_mut_slice(),
        workers as usize,
        &|k: usize, cell: &mut Cell|
            requires { CanScan set.now.blocks.items task.now.scan task.now.lines × (task.now.lines.direction ≡ D.Upward) × (task.now.lines.apart ≡ 1) × (blocks < 2 ^ 16) }
            ensures { 512 * (k + 1) < task.entry.now.lines.positions → k < blocks → IsFolded set.entry.now.blocks.items task.entry.now.scan task.entry.now.lines k cell.exit.now.words }
        {
            if k < blocks && (k as u32 + 1) * 512 < task.lines.positions {
                fold_part(set, &task.scan, &task.lines, k as u32, cell);
            }
        },
    );
}

/// Folds part `k`, which is not the last one, from the identity.
fn fold_part(set: &BlockSet, scan: &Scan, lines: &Lines, k: u32, cell: &mut Cell)
    requires can { CanScan set.now.blocks.items scan.now lines.now }
    requires part { k < 2 ^ 16 }
    requires more { 512 * (k + 1) < lines.now.positions }
    requires straight { (lines.now.direction ≡ D.Upward) × (lines.now.apart ≡ 1) }
    ensures { IsFolded set.now.blocks.items scan.now lines.now k cell.new.words }
{
    let (total, begun) = fold_block_part(set, scan, lines, k);
    hold(cell, total, begun);
}

/// Holds the fold of a part and whether a line or a segment begins in it.
fn hold(cell: &mut Cell, total: u32, begun: bool)
    ensures total { slice_index cell.new.words 0 ≡ total }
    ensures begun { (slice_index cell.new.words 1 == 1) ≡ begun }
{
    cell.words[0] = total;
    cell.words[1] = u32::from(begun);
}

/// The fold of part `k`, which is a block and not the last one, from the identity, and whether a line
/// or a segment begins in it.
fn fold_block_part(set: &BlockSet, scan: &Scan, lines: &Lines, k: u32) -> (u32, bool)
    requires can { CanScan set.now.blocks.items scan.now lines.now }
    requires part { k < 2 ^ 16 }
    requires more { 512 * (k + 1) < lines.now.positions }
    requires straight { (lines.now.direction ≡ D.Upward) × (lines.now.apart ≡ 1) }
    ensures tail { result.0 ≡ part_fold set.now.blocks.items scan.now lines.now k (identity_of (combiner_of scan.now.combiner).0 (combiner_of scan.now.combiner).1) 512 }
    ensures begins { result.1 ≡ part_begins set.now.blocks.items scan.now lines.now k 512 }
{
    if is_cut(set, scan, lines, k * 512 + 512) {
        let (combine, unsigned) = scan.combiner.combiner();
        return (identity(combine, unsigned), true);
    }
    fold_own(&set.blocks[k as usize], k, scan, lines.extent)
}

/// What a part hands on to the next one.
fn handed_on(combiner: Reduction, begins: bool, start: u32, tail: u32) -> u32
    ensures { result ≡ handed_on combiner begins start tail }
{
    if begins {
        return tail;
    }
    let (combine, unsigned) = combiner.combiner();
    fold_step(combine, unsigned, start, tail)
}

/// Makes the first word of a cell a number, and gives what it and the second one were.
fn exchange(cell: &mut Cell, start: u32) -> (u32, u32)
    ensures first { result.0 ≡ slice_index cell.old.words 0 }
    ensures second { result.1 ≡ slice_index cell.old.words 1 }
    ensures start { slice_index cell.new.words 0 ≡ start }
{
    let found = (cell.words[0], cell.words[1]);
    cell.words[0] = start;
    found
}

/// Hands the folds on from part to part: the first word of each cell becomes the fold with which its
/// part begins.
pub(crate) fn hand_on(room: &mut Room, combiner: Reduction, count: usize)
    requires { count ≤ length room.old.cells.items }
    ensures count { length room.new.cells.items ≡ length room.old.cells.items }
    ensures starts { (k : ℕ) (none : Cell) → k < count → slice_index (slice_index_or room.new.cells.items k none).words 0 ≡ starts combiner room.old.cells.items k }
{
    let (combine, unsigned) = combiner.combiner();
    let mut start = identity(combine, unsigned);
    for k in 0..count {
        let (tail, begins) = exchange(&mut room.cells[k], start);
        start = handed_on(combiner, begins == 1, start, tail);
    }
}
