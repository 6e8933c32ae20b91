//! Scans downward, or along an axis whose neighbours stand apart: the words of a set in the room, each
//! joined to the one before it on its line.

ghost use Rattle.std.specs.Prelude.{◌≡◌, ◌≢◌, ℕ, ◌<◌, ◌≤◌, ◌+◌, ◌*◌, ◌%◌, ◌/◌, ◌^◌, ◌==◌, Bool, false, length, slice_index, slice_index_or, if◌then◌else◌};
ghost use Rattle.bit_planes.specs.Bits.{bit};
ghost use Rattle.bit_planes.specs.Planes.{plane_at};
ghost use Rattle.bit_planes.specs.declared.block.Block.{Block};
ghost use Rattle.block_store.specs.declared.set.Cell.{Cell};
ghost use Rattle.block_store.specs.Phases.{LanesWritten};
ghost use Rattle.block_store.specs.Planes.{HasPlanes};
ghost use Rattle.block_store.specs.Stored.{word_at};
ghost use Rattle.cstar_base.specs.declared.operators.Inclusion.TheVariants as N;
ghost use Rattle.reduce_scan.specs.Across.{previous, HasPrevious, is_held_cut, Holds, Joined, WordSet, taken_at};
ghost use Rattle.reduce_scan.specs.Parts.{AreLines, CanScan, FitsBelow};

use crate::cuts::cuts;
use crate::lines::{LineScan, Lines, Scan, steps_before};
use crate::words::rows_or;
use bit_planes::plane::lane;
use bit_planes::{Block, Plane};
use block_store::{BlockSet, Cell, Room, put_words};
use cstar_base::numbers::{fold_step, identity};
use cstar_base::{Direction, Inclusion};
use cstar_io::Gate;
use paris_code::Reduction;
use std::simd::prelude::*;
use std::thread::Threads;
use worker_forks::for_each_mut;

/// Holds words, and the lanes at which something begins.
fn keep(cell: &mut Cell, words: [u32; 512], lanes: u64x8)
    ensures words { cell.new.words ≡ words }
    ensures cuts { cell.new.cuts.bits ≡ lanes }
{
    cell.words = words;
    cell.cuts = Plane { bits: lanes };
}

/// Holds the words of block `k`: the number of each active position, and the identity for each other
/// one; and the lanes at which a line or a segment begins.
fn hold_block(set: &BlockSet, scan: &Scan, lines: &Lines, k: u32, cell: &mut Cell)
    requires can { CanScan set.now.blocks.items scan.now lines.now }
    requires block { k < length set.now.blocks.items }
    requires few { k < 2 ^ 16 }
    ensures { Holds set.now.blocks.items scan.now lines.now k cell.new }
{
    let block = &set.blocks[k as usize];
    let (combine, unsigned) = scan.combiner.combiner();
    let none = identity(combine, unsigned);
    let words = rows_or(block, scan.source.offset, scan.context, none).values();
    keep(cell, words, cuts(set, scan, lines, k));
}

/// The same for all blocks, each in its cell.
pub(crate) fn hold_blocks<R: Threads + Sync>(
    rt: &R,
    set: &BlockSet,
    room: &mut Room,
    task: &LineScan,
    workers: u32,
)
    requires can { CanScan set.now.blocks.items task.now.scan task.now.lines }
    requires few { length set.now.blocks.items < 2 ^ 16 }
    requires workers { 1 ≤ workers }
    ensures count { length room.new.cells.items ≡ length room.old.cells.items }
    ensures held { (k : ℕ) (none : Cell) → k < length set.now.blocks.items → k < length room.old.cells.items
        → Holds set.now.blocks.items task.now.scan task.now.lines k (slice_index_or room.new.cells.items k none) }
{
    let blocks = set.blocks.len();
    for_each_mut(
        rt,
        room.cells.as_mut_slice(),
        workers as usize,
        &|k: usize, cell: &mut Cell|
            requires { CanScan set.now.blocks.items task.now.scan task.now.lines × (blocks ≡ length set.now.blocks.items) × (blocks < 2 ^ 16) }
            ensures { k < length set.entry.now.blocks.items → Holds set.entry.now.blocks.items task.entry.now.scan task.entry.now.lines k cell.exit.now }
        {
            if k < blocks {
                hold_block(set, &task.scan, &task.lines, k as u32, cell);
            }
        },
    );
}

/// The word that is held for a position.
#[inline(always)]
fn word(room: &Room, position: u32) -> u32
    requires { position / 512 < length room.now.cells.items }
    ensures { result ≡ word_at room.now.cells.items position }
{
    room.cells[(position / 512) as usize].words[(position % 512) as usize]
}

/// Whether a line or a segment begins at a position, as its cell holds it.
#[inline(always)]
fn is_held_cut(room: &Room, position: u32) -> bool
    requires { position / 512 < length room.now.cells.items }
    ensures { result ≡ is_held_cut room.now.cells.items position }
{
    let cell = &room.cells[(position / 512) as usize];
    lane(cell.cuts.bits, position % 512) == 1
}

/// Makes one word of a cell a number.
#[inline(always)]
fn put(cell: &mut Cell, lane: u32, number: u32)
    requires { lane < 512 }
    ensures here { slice_index cell.new.words lane ≡ number }
    ensures others { (i : ℕ) → i ≢ lane → slice_index cell.new.words i ≡ slice_index cell.old.words i }
    ensures cuts { cell.new.cuts ≡ cell.old.cuts }
{
    cell.words[lane as usize] = number;
}

/// Makes the word that is held for a position a number.
#[inline(always)]
fn set_word(room: &mut Room, position: u32, number: u32)
    requires { position / 512 < length room.old.cells.items }
    ensures { WordSet position number room.old.cells.items room.new.cells.items }
{
    put(
        &mut room.cells[(position / 512) as usize],
        position % 512,
        number,
    );
}

/// The position before one on its line.
#[inline(always)]
fn previous(lines: &Lines, position: u32) -> u32
    requires position { position < lines.now.positions }
    requires few { lines.now.positions ≤ 2 ^ 20 }
    requires has { HasPrevious lines.now position }
    ensures value { result ≡ previous lines.now.direction lines.now.apart position }
    ensures bound { result < lines.now.positions }
{
    match lines.direction {
        Direction::Upward => position - lines.apart,
        Direction::Downward => position + lines.apart,
    }
}

/// Joins to each word where nothing begins, in the order of the lines, the one before it.
pub(crate) fn join_words(room: &mut Room, combiner: Reduction, lines: &Lines)
    requires lines { AreLines lines.now }
    requires much { lines.now.positions ≤ 512 * length room.old.cells.items }
    requires has { (p : ℕ) → p < lines.now.positions → is_held_cut room.old.cells.items p ≡ false → HasPrevious lines.now p }
    ensures { Joined combiner lines.now room.old.cells.items room.new.cells.items }
{
    let (combine, unsigned) = combiner.combiner();
    for n in 0..lines.positions {
        let at = steps_before(lines.direction, lines.positions, n);
        if !is_held_cut(room, at) {
            let before = word(room, previous(lines, at));
            let joined = fold_step(combine, unsigned, before, word(room, at));
            set_word(room, at, joined);
        }
    }
}

/// The joined word before a position on its line, and the identity where something begins.
fn word_before(room: &Room, combiner: Reduction, lines: &Lines, position: u32) -> u32
    requires few { lines.now.positions ≤ 2 ^ 20 }
    requires much { lines.now.positions ≤ 512 * length room.now.cells.items }
    requires has { (p : ℕ) → p < lines.now.positions → is_held_cut room.now.cells.items p ≡ false → HasPrevious lines.now p }
    ensures { result ≡ taken_at combiner N.Exclusive lines.now room.now.cells.items position }
{
    let (combine, unsigned) = combiner.combiner();
    let none = identity(combine, unsigned);
    if lines.positions <= position {
        return none;
    }
    if is_held_cut(room, position) {
        return none;
    }
    word(room, previous(lines, position))
}

/// The same for the positions of block `k`.
fn words_before(room: &Room, combiner: Reduction, lines: &Lines, k: u32) -> [u32; 512]
    requires few { lines.now.positions ≤ 2 ^ 20 }
    requires much { lines.now.positions ≤ 512 * length room.now.cells.items }
    requires has { (p : ℕ) → p < lines.now.positions → is_held_cut room.now.cells.items p ≡ false → HasPrevious lines.now p }
    requires block { k < 2 ^ 16 }
    ensures { (i : ℕ) → i < 512 → slice_index result i ≡ taken_at combiner N.Exclusive lines.now room.now.cells.items (512 * k + i) }
{
    let mut words = [0; 512];
    for i in 0..512 {
        words[i as usize] = word_before(room, combiner, lines, k * 512 + i);
    }
    words
}

/// What the positions of block `k` take of the joined words.
fn taken(room: &Room, scan: &Scan, lines: &Lines, k: u32) -> [u32; 512]
    requires lines { AreLines lines.now }
    requires much { lines.now.positions ≤ 512 * length room.now.cells.items }
    requires has { (p : ℕ) → p < lines.now.positions → is_held_cut room.now.cells.items p ≡ false → HasPrevious lines.now p }
    requires block { (k < 2 ^ 16) × (k < length room.now.cells.items) }
    ensures { (i : ℕ) → i < 512 → slice_index result i ≡ taken_at scan.now.combiner scan.now.inclusion lines.now room.now.cells.items (512 * k + i) }
{
    match scan.inclusion {
        Inclusion::Inclusive => room.cells[k as usize].words,
        Inclusion::Exclusive => words_before(room, scan.combiner, lines, k),
    }
}

/// Gives the active positions of a set the scan, from the joined words, with a call of the gate for
/// each block.
pub(crate) fn take_words<R: Threads + Sync, G: Gate + Sync>(
    rt: &R,
    room: &Room,
    set: &mut BlockSet,
    task: &LineScan,
    workers: u32,
    gate: &G,
)
    requires lines { AreLines task.now.lines }
    requires much { task.now.lines.positions ≤ 512 * length room.now.cells.items }
    requires has { (p : ℕ) → p < task.now.lines.positions → is_held_cut room.now.cells.items p ≡ false → HasPrevious task.now.lines p }
    requires dest { FitsBelow task.now.scan.context task.now.dest }
    requires planes { HasPlanes (task.now.scan.context + 1) set.old.blocks.items }
    requires few { length set.old.blocks.items < 2 ^ 16 }
    requires room { length set.old.blocks.items ≤ length room.now.cells.items }
    requires workers { 1 ≤ workers }
    ensures count { length set.new.blocks.items ≡ length set.old.blocks.items }
    ensures each { (k : ℕ) (none : Block) → k < length set.old.blocks.items
        → LanesWritten task.now.dest.offset task.now.dest.len (plane_at (slice_index_or set.old.blocks.items k none).planes.items task.now.scan.context)
        (λ i. taken_at task.now.scan.combiner task.now.scan.inclusion task.now.lines room.now.cells.items (512 * k + i) % 2 ^ task.now.dest.len)
        (slice_index_or set.old.blocks.items k none).planes.items (slice_index_or set.new.blocks.items k none).planes.items }
{
    for_each_mut(
        rt,
        set.blocks.as_mut_slice(),
        workers as usize,
        &|k: usize, block: &mut Block|
            requires { (k < 2 ^ 16) × (k < length room.now.cells.items) × AreLines task.now.lines × (task.now.lines.positions ≤ 512 * length room.now.cells.items)
                × ((p : ℕ) → p < task.now.lines.positions → is_held_cut room.now.cells.items p ≡ false → HasPrevious task.now.lines p)
                × FitsBelow task.now.scan.context task.now.dest × (task.now.scan.context < length block.now.planes.items) }
            ensures { LanesWritten task.entry.now.dest.offset task.entry.now.dest.len (plane_at block.entry.now.planes.items task.entry.now.scan.context)
                (λ i. taken_at task.entry.now.scan.combiner task.entry.now.scan.inclusion task.entry.now.lines room.entry.now.cells.items (512 * k + i) % 2 ^ task.entry.now.dest.len)
                block.entry.now.planes.items block.exit.now.planes.items }
        {
            gate.at(k as u32);
            take_block(room, block, k as u32, task);
        },
    );
}

/// The same in block `k`.
fn take_block(room: &Room, block: &mut Block, k: u32, task: &LineScan)
    requires block { (k < 2 ^ 16) × (k < length room.now.cells.items) }
    requires lines { AreLines task.now.lines }
    requires much { task.now.lines.positions ≤ 512 * length room.now.cells.items }
    requires has { (p : ℕ) → p < task.now.lines.positions → is_held_cut room.now.cells.items p ≡ false → HasPrevious task.now.lines p }
    requires dest { FitsBelow task.now.scan.context task.now.dest }
    requires planes { task.now.scan.context < length block.old.planes.items }
    ensures { LanesWritten task.now.dest.offset task.now.dest.len (plane_at block.old.planes.items task.now.scan.context)
        (λ i. taken_at task.now.scan.combiner task.now.scan.inclusion task.now.lines room.now.cells.items (512 * k + i) % 2 ^ task.now.dest.len)
        block.old.planes.items block.new.planes.items }
{
    let words = taken(room, &task.scan, &task.lines, k);
    let active = block.plane(task.scan.context);
    put_words(block, task.dest.offset, task.dest.len, active, &words);
}
