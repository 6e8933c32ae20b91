//! Scans upward along lines whose neighbours are neighbours in a block.

ghost use Rattle.std.specs.Prelude.{◌≡◌, ℕ, ◌<◌, ◌≤◌, ◌+◌, ◌*◌, ◌%◌, ◌^◌, ◌==◌, Bool, IfSome, length, slice_index, slice_index_or, if◌then◌else◌};
ghost use Rattle.bit_planes.specs.Bits.{bit};
ghost use Rattle.bit_planes.specs.Planes.{plane_at};
ghost use Rattle.bit_planes.specs.Rows.{held};
ghost use Rattle.cstar_base.specs.Folds.{identity_of};
ghost use Rattle.cstar_base.specs.declared.operators.Direction.TheVariants as D;
ghost use Rattle.cstar_base.specs.Orders.{any_of};
ghost use Rattle.paris_code.specs.Operators.{combiner_of};
ghost use Rattle.phase_meaning.specs.Apply.{looked_at};
ghost use Rattle.block_store.specs.Phases.{LanesWritten};
ghost use Rattle.block_store.specs.Planes.{HasPlanes};
ghost use Rattle.bit_planes.specs.declared.block.Block.{Block};
ghost use Rattle.reduce_scan.specs.Parts.{CanScan, FieldsFit, FitsBelow, fold_there, word_of_cell};
ghost use Rattle.reduce_scan.specs.WithinBlocks.{begins_in, bit_in, cut_in, fold_in, scanned_in, start_in};

use crate::folds::FieldFold;
use crate::lines::{LineScan, Scan};
use crate::words::{Run, rows_or};
use bit_planes::plane::{both, either, lane, repeated, with_lane};
use bit_planes::{Block, Rows};
use block_store::{BlockSet, Cell, Room};
use cstar_base::numbers::identity;
use cstar_base::{Inclusion, SegmentMode};
use cstar_io::Gate;
use lane_kernels::{Target, count, in_place};
use paris_code::Field;
use std::simd::prelude::*;
use std::thread::Threads;
use worker_forks::for_each_mut;

/// The lanes of block `k` at which a line of so many positions begins.
fn line_starts(extent: u32, k: u32) -> u64x8
    requires extent { 0 < extent }
    requires block { k < 2 ^ 16 }
    ensures { (i : ℕ) → i < 512 → bit result i ≡ (if (512 * k + i) % extent == 0 then 1 else 0) }
{
    let from = k * 512;
    let mut starts = repeated(false);
    for line in from.div_ceil(extent)..(from + 512).div_ceil(extent) {
        starts = with_lane(starts, line * extent - from, true);
    }
    starts
}

/// The lanes of a block where the bit that parts the segments is 1.
fn marks(block: &Block, mark: Option<Field>) -> u64x8
    requires mark { IfSome mark (λ f. (f.offset < length block.now.planes.items) × (f.len ≡ 1)) }
    ensures { (i : ℕ) → i < 512 → bit result i ≡ (if bit_in block.now.planes.items mark i then 1 else 0) }
{
    match mark {
        None => repeated(false),
        Some(field) => block.plane(field.offset),
    }
}

/// The lanes of a block at which a segment begins.
pub(crate) fn segment_starts(block: &Block, scan: &Scan) -> u64x8
    requires fields { FieldsFit scan.now }
    requires planes { scan.now.context < length block.now.planes.items }
    ensures { (i : ℕ) → i < 512 → bit result i ≡ (if begins_in block.now.planes.items scan.now i then 1 else 0) }
{
    match scan.mode {
        SegmentMode::NoSegments => repeated(false),
        SegmentMode::StartBit => both(marks(block, scan.bit), block.plane(scan.context)),
        SegmentMode::SegmentBit => marks(block, scan.bit),
    }
}

/// The lanes of block `k`, behind its first one, at which a line or a segment begins.
fn inner_cuts(block: &Block, k: u32, scan: &Scan, extent: u32) -> u64x8
    requires block { k < 2 ^ 16 }
    requires extent { 0 < extent }
    requires fields { FieldsFit scan.now }
    requires planes { scan.now.context < length block.now.planes.items }
    ensures first { bit result 0 ≡ 0 }
    ensures others { (i : ℕ) → 0 < i → i < 512 → (bit result i == 1) ≡ cut_in block.now.planes.items scan.now extent k i }
{
    let all = either(line_starts(extent, k), segment_starts(block, scan));
    with_lane(all, 0, false)
}

/// The fold of block `k` from the identity, and whether a line or a segment begins behind its first
/// lane.
pub(crate) fn fold_own(block: &Block, k: u32, scan: &Scan, extent: u32) -> (u32, bool)
    requires block { k < 2 ^ 16 }
    requires extent { 0 < extent }
    requires fields { FieldsFit scan.now }
    requires planes { scan.now.context < length block.now.planes.items }
    ensures total { result.0 ≡ fold_in block.now.planes.items scan.now extent k (identity_of (combiner_of scan.now.combiner).0 (combiner_of scan.now.combiner).1) 512 }
    ensures begins { result.1 ≡ any_of (λ i. cut_in block.now.planes.items scan.now extent k i) 1 512 }
{
    let cuts = inner_cuts(block, k, scan, extent);
    if count(cuts) == 0 {
        let fold = FieldFold {
            combiner: scan.combiner,
            source: scan.source,
            context: scan.context,
        };
        return (fold.of(block), false);
    }
    let (combine, unsigned) = scan.combiner.combiner();
    let start = identity(combine, unsigned);
    let mut words = rows_or(block, scan.source.offset, scan.context, start).values();
    let run = Run {
        combiner: scan.combiner,
        inclusion: Inclusion::Exclusive,
        start,
        cuts,
    };
    (run.over(&mut words), true)
}

/// Makes a field of a block the numbers that rows hold, in these lanes.
fn put_rows(block: &mut Block, dest: Field, lanes: u64x8, rows: Rows)
    requires len { (1 ≤ dest.len) × (dest.len ≤ 32) }
    requires within { dest.offset + dest.len ≤ length block.old.planes.items }
    ensures { LanesWritten dest.offset dest.len lanes (λ i. held rows.planes i % 2 ^ dest.len) block.old.planes.items block.new.planes.items }
{
    let to = Target::at(dest.offset, dest.len, lanes);
    in_place::put(&mut block.planes, &to, &rows.column(dest.len));
}

/// Gives the active lanes of block `k` the scan, from the fold before its first lane, and gives the
/// fold behind its last one.
fn scan_block(block: &mut Block, k: u32, task: &LineScan, start: u32) -> u32
    requires block { k < 2 ^ 16 }
    requires extent { 0 < task.now.lines.extent }
    requires dest { FitsBelow task.now.scan.context task.now.dest }
    requires fields { FieldsFit task.now.scan }
    requires planes { task.now.scan.context < length block.old.planes.items }
    ensures written { LanesWritten task.now.dest.offset task.now.dest.len (plane_at block.old.planes.items task.now.scan.context)
        (λ i. scanned_in block.old.planes.items task.now.scan task.now.lines.extent k start i % 2 ^ task.now.dest.len) block.old.planes.items block.new.planes.items }
    ensures total { result ≡ fold_in block.old.planes.items task.now.scan task.now.lines.extent k start 512 }
{
    let scan = &task.scan;
    let (combine, unsigned) = scan.combiner.combiner();
    let none = identity(combine, unsigned);
    let mut rows = rows_or(block, scan.source.offset, scan.context, none);
    let run = Run {
        combiner: scan.combiner,
        inclusion: scan.inclusion,
        start,
        cuts: inner_cuts(block, k, scan, task.lines.extent),
    };
    let total = run.over_rows(&mut rows);
    let active = block.plane(scan.context);
    put_rows(block, task.dest, active, rows);
    total
}

/// The fold before the first lane of block `k`, as its cell holds it.
fn start_of(cells: &[Cell], k: usize) -> u32
    requires { k < length cells.now }
    ensures { result ≡ word_of_cell cells.now k 0 }
{
    cells[k].words[0]
}

/// Gives the active positions of a set the scan, each block from the fold that the first word of its
/// cell holds, with a call of the gate for each.
pub(crate) fn scan_blocks<R: Threads + Sync, G: Gate + Sync>(
    rt: &R,
    room: &Room,
    set: &mut BlockSet,
    task: &LineScan,
    workers: u32,
    gate: &G,
)
    requires extent { 0 < task.now.lines.extent }
    requires dest { FitsBelow task.now.scan.context task.now.dest }
    requires fields { FieldsFit task.now.scan }
    requires planes { HasPlanes (task.now.scan.context + 1) set.old.blocks.items }
    requires few { length set.old.blocks.items < 2 ^ 16 }
    requires room { length set.old.blocks.items ≤ length room.now.cells.items }
    requires workers { 1 ≤ workers }
    ensures count { length set.new.blocks.items ≡ length set.old.blocks.items }
    ensures each { (k : ℕ) (none : Block) → k < length set.old.blocks.items
        → LanesWritten task.now.dest.offset task.now.dest.len (plane_at (slice_index_or set.old.blocks.items k none).planes.items task.now.scan.context)
        (λ i. scanned_in (slice_index_or set.old.blocks.items k none).planes.items task.now.scan task.now.lines.extent k (word_of_cell room.now.cells.items k 0) i % 2 ^ task.now.dest.len)
        (slice_index_or set.old.blocks.items k none).planes.items (slice_index_or set.new.blocks.items k none).planes.items }
{
    let cells = room.cells.as_slice();
    for_each_mut(
        rt,
        set.blocks.as_mut_slice(),
        workers as usize,
        &|k: usize, block: &mut Block|
            requires { (k < 2 ^ 16) × (k < length cells.now) × (0 < task.now.lines.extent) × FitsBelow task.now.scan.context task.now.dest
                × FieldsFit task.now.scan × (task.now.scan.context < length block.now.planes.items) }
            ensures { LanesWritten task.entry.now.dest.offset task.entry.now.dest.len (plane_at block.entry.now.planes.items task.entry.now.scan.context)
                (λ i. scanned_in block.entry.now.planes.items task.entry.now.scan task.entry.now.lines.extent k (word_of_cell cells.entry.now k 0) i % 2 ^ task.entry.now.dest.len)
                block.entry.now.planes.items block.exit.now.planes.items }
        {
            gate.at(k as u32);
            scan_block(block, k as u32, task, start_of(cells, k));
        },
    );
}

/// Whether a line or a segment begins at the first lane of block `k`.
fn begins_first(block: &Block, k: u32, scan: &Scan, extent: u32) -> bool
    requires block { k < 2 ^ 16 }
    requires extent { 0 < extent }
    requires fields { FieldsFit scan.now }
    requires planes { scan.now.context < length block.now.planes.items }
    ensures { result ≡ cut_in block.now.planes.items scan.now extent k 0 }
{
    if k * 512 % extent == 0 {
        return true;
    }
    lane(segment_starts(block, scan), 0) == 1
}

/// The fold before the first lane of block `k`, from the one behind the block before it.
fn start_from(block: &Block, k: u32, scan: &Scan, extent: u32, before: u32) -> u32
    requires block { k < 2 ^ 16 }
    requires extent { 0 < extent }
    requires fields { FieldsFit scan.now }
    requires planes { scan.now.context < length block.now.planes.items }
    ensures { result ≡ start_in block.now.planes.items scan.now extent k before }
{
    if begins_first(block, k, scan, extent) {
        let (combine, unsigned) = scan.combiner.combiner();
        return identity(combine, unsigned);
    }
    before
}

/// Gives the active lanes of block `k` the scan, from the fold behind the block before it, and gives
/// the fold behind its own last lane.
fn scan_next(block: &mut Block, k: u32, task: &LineScan, before: u32) -> u32
    requires block { k < 2 ^ 16 }
    requires extent { 0 < task.now.lines.extent }
    requires dest { FitsBelow task.now.scan.context task.now.dest }
    requires fields { FieldsFit task.now.scan }
    requires planes { task.now.scan.context < length block.old.planes.items }
    ensures written { LanesWritten task.now.dest.offset task.now.dest.len (plane_at block.old.planes.items task.now.scan.context)
        (λ i. scanned_in block.old.planes.items task.now.scan task.now.lines.extent k (start_in block.old.planes.items task.now.scan task.now.lines.extent k before) i % 2 ^ task.now.dest.len)
        block.old.planes.items block.new.planes.items }
    ensures total { result ≡ fold_in block.old.planes.items task.now.scan task.now.lines.extent k (start_in block.old.planes.items task.now.scan task.now.lines.extent k before) 512 }
{
    let start = start_from(block, k, &task.scan, task.lines.extent, before);
    scan_block(block, k, task, start)
}

/// Gives the active positions of a set the scan, block after block, each from the fold that the one
/// before it leaves, with a call of the gate for each.
pub(crate) fn scan_in_order<G: Gate>(set: &mut BlockSet, task: &LineScan, gate: &G)
    requires can { CanScan set.old.blocks.items task.now.scan task.now.lines }
    requires straight { (task.now.lines.direction ≡ D.Upward) × (task.now.lines.apart ≡ 1) }
    requires full { (k : ℕ) → k < length set.old.blocks.items → 512 * k < task.now.lines.positions }
    requires few { length set.old.blocks.items < 2 ^ 16 }
    requires dest { FitsBelow task.now.scan.context task.now.dest }
    ensures count { length set.new.blocks.items ≡ length set.old.blocks.items }
    ensures each { (k : ℕ) (none : Block) → k < length set.old.blocks.items
        → LanesWritten task.now.dest.offset task.now.dest.len (plane_at (slice_index_or set.old.blocks.items k none).planes.items task.now.scan.context)
        (λ i. scanned_in (slice_index_or set.old.blocks.items k none).planes.items task.now.scan task.now.lines.extent k (fold_there set.old.blocks.items task.now.scan task.now.lines (512 * k)) i % 2 ^ task.now.dest.len)
        (slice_index_or set.old.blocks.items k none).planes.items (slice_index_or set.new.blocks.items k none).planes.items }
{
    let (combine, unsigned) = task.scan.combiner.combiner();
    let mut total = identity(combine, unsigned);
    for k in 0..set.blocks.len() {
        gate.at(k as u32);
        total = scan_next(&mut set.blocks[k], k as u32, task, total);
    }
}
