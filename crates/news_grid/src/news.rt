//! A NEWS shift over all blocks of a set, by planes.

ghost use Rattle.std.specs.Prelude.{◌≡◌, ℕ, ◌<◌, ◌≤◌, ◌+◌, ◌*◌, ◌/◌, ◌%◌, ◌^◌, length, slice_index_or};
ghost use Rattle.cstar_base.specs.declared.operators.Winner.{Winner};
ghost use Rattle.bit_planes.specs.declared.block.Block.{Block};
ghost use Rattle.bit_planes.specs.Planes.{number, plane_at};
ghost use Rattle.lane_kernels.specs.Kernels.{HasTarget, Becomes};
ghost use Rattle.paris_code.specs.Fetching.{of_neighbour};
ghost use Rattle.paris_code.specs.Memory.{SameBits};
ghost use Rattle.paris_code.specs.Shapes.{rank_at};
ghost use Rattle.paris_code.specs.Writes.{written};
ghost use Rattle.phase_meaning.specs.Apply.{LiesIn};
ghost use Rattle.phase_meaning.specs.Gathered.{gathered};
ghost use Rattle.block_store.specs.Phases.{LanesWritten};
ghost use Rattle.block_store.specs.Planes.{planes_at, HasPlanes};
ghost use Rattle.block_store.specs.Stored.{shapes_in, memory_in, IsWhole, HasRoom};
ghost use Rattle.news_grid.specs.Steps.{HasHeld, number_seen, number_taken};
ghost use Rattle.news_grid.specs.Takings.{TakingFits, Stepped};

use crate::step::Step;
use crate::window::{Turn, Window};
use bit_planes::plane::{both, is_empty, is_full, opposite};
use bit_planes::{Block, Plane};
use block_store::{BlockSet, Room, SetPlan, Store, taking_lanes};
use cstar_io::Gate;
use lane_kernels::Target;
use paris_code::Field;
use phase_meaning::arith::signed;
use std::simd::prelude::*;
use std::thread::Threads;
use worker_forks::for_each_mut;

/// A NEWS shift: the active positions of `dest`, or all, take what `source` holds `by` steps along
/// an axis, round its ends.
#[derive(Clone, Copy)]
pub struct News {
    pub dest: Field,
    pub source: Field,
    pub axis: u32,
    pub by: u32,
    pub always: bool,
}

/// What a pass over the blocks of a set needs for a shift: the planes that are held of each of its
/// blocks, and how far the step leads.
#[derive(Clone, Copy)]
pub struct Taking<'a> {
    pub plan: &'a SetPlan,
    pub blocks: u32,
    pub held: &'a [Plane],
    pub shift: News,
    pub step: Step,
}

/// The quotient and the remainder of a number by a length: by the usual ones without a division, which
/// would take as long as a plane.
#[inline(always)]
fn parted(n: u32, len: u32) -> (u32, u32)
    requires { 1 ≤ len }
    ensures quotient { result.0 ≡ n / len }
    ensures remainder { result.1 ≡ n % len }
{
    match len {
        1 => (n, 0),
        8 => (n / 8, n % 8),
        16 => (n / 16, n % 16),
        32 => (n / 32, n % 32),
        _ => (n / len, n % len),
    }
}

/// The plane at place `n` where the planes of a field of each block lie side by side.
#[inline(always)]
fn plane_of(blocks: &[Block], field: Field, n: u32) -> Plane
    requires len { (1 ≤ field.len) × (field.len ≤ 32) }
    requires planes { HasPlanes (field.offset + field.len) blocks.now }
    requires place { n < length blocks.now * field.len }
    ensures { result.bits ≡ plane_at (planes_at blocks.now (n / field.len)) (field.offset + n % field.len) }
{
    let len = u32::from(field.len);
    let (k, j) = parted(n, len);
    blocks[k as usize].planes[field.offset as usize + j as usize]
}

/// Copies the planes of a field of each block to the first planes that are held, side by side.
fn copy_fields<R: Threads + Sync>(
    rt: &R,
    blocks: &[Block],
    held: &mut [Plane],
    field: Field,
    workers: u32,
)
    requires len { (1 ≤ field.len) × (field.len ≤ 32) }
    requires planes { HasPlanes (field.offset + field.len) blocks.now }
    requires few { length blocks.now < 2 ^ 16 }
    requires room { length blocks.now * field.len ≤ length held.old }
    requires workers { 1 ≤ workers }
    ensures long { length held.new ≡ length held.old }
    ensures planes { (n : ℕ) → n < length blocks.now * field.len → plane_at held.new n ≡ plane_at (planes_at blocks.now (n / field.len)) (field.offset + n % field.len) }
{
    let count = blocks.len() * field.len as usize;
    for_each_mut(
        rt,
        &mut held[..count],
        workers as usize,
        &|n: usize, plane: &mut Plane|
            requires { (1 ≤ field.len) × (field.len ≤ 32) × HasPlanes (field.offset + field.len) blocks.now × (n < length blocks.now * field.len) × (n < 2 ^ 32) }
            ensures { plane.exit.now.bits ≡ plane_at (planes_at blocks.entry.now (n / field.len)) (field.offset + n % field.len) }
        {
            *plane = plane_of(blocks, field, n as u32);
        },
    );
}

/// Holds the planes of a field of each block, side by side.
pub fn hold<R: Threads + Sync>(rt: &R, set: &BlockSet, room: &mut Room, field: Field, workers: u32)
    requires len { (1 ≤ field.len) × (field.len ≤ 32) }
    requires planes { HasPlanes (field.offset + field.len) set.now.blocks.items }
    requires few { length set.now.blocks.items < 2 ^ 16 }
    requires room { length set.now.blocks.items ≤ length room.old.cells.items }
    requires workers { 1 ≤ workers }
    ensures count { length room.new.cells.items ≡ length room.old.cells.items }
    ensures planes { (k i : ℕ) (other : Block) → k < length set.now.blocks.items
        → number room.new.held.items (k * field.len) field.len i ≡ number (slice_index_or set.now.blocks.items k other).planes.items field.offset field.len i }
{
    copy_fields(
        rt,
        set.blocks.as_slice(),
        room.held.as_mut_slice(),
        field,
        workers,
    );
}

/// The target becomes, in its lanes, what a window shows of the planes that are held; the window
/// begins in this word of its first block.
#[inline(always)]
fn put_from(planes: &mut [Plane], to: &Target, held: &[Plane], window: &Window, word: usize)
    requires target { HasTarget to.now planes.old }
    requires held { HasHeld window.now to.now.len held.now }
    requires word { word ≡ window.now.from / 64 }
    ensures { Becomes to.now (λ i. number_seen held.now window.now to.now.len i) planes.old planes.new }
{
    // Copies, which stay in registers over the writes.
    let (to, window) = (*to, *window);
    for j in 0..to.len as usize {
        to.write(planes, j, window.plane(held, to.len, j, word));
    }
}

/// The target becomes, in its lanes, what a window shows of the planes that are held: by a loop
/// of its own for each word in which the window may begin.
fn put_window(planes: &mut [Plane], to: &Target, held: &[Plane], window: &Window)
    requires target { HasTarget to.now planes.old }
    requires held { HasHeld window.now to.now.len held.now }
    ensures { Becomes to.now (λ i. number_seen held.now window.now to.now.len i) planes.old planes.new }
{
    match window.word() {
        0 => put_from(planes, to, held, window, 0),
        1 => put_from(planes, to, held, window, 1),
        2 => put_from(planes, to, held, window, 2),
        3 => put_from(planes, to, held, window, 3),
        4 => put_from(planes, to, held, window, 4),
        5 => put_from(planes, to, held, window, 5),
        6 => put_from(planes, to, held, window, 6),
        _ => put_from(planes, to, held, window, 7),
    }
}

/// The target becomes, in its lanes, what a turn takes of the planes that are held; both of its
/// windows begin in this word of their first blocks.
#[inline(always)]
fn put_both_from(planes: &mut [Plane], to: &Target, held: &[Plane], turn: &Turn, word: usize)
    requires target { HasTarget to.now planes.old }
    requires staying { HasHeld turn.now.staying to.now.len held.now }
    requires round { HasHeld turn.now.round to.now.len held.now }
    requires words { (word ≡ turn.now.staying.from / 64) × (word ≡ turn.now.round.from / 64) }
    ensures { Becomes to.now (λ i. number_taken held.now turn.now to.now.len i) planes.old planes.new }
{
    // Copies, which stay in registers over the writes.
    let (to, turn) = (*to, *turn);
    for j in 0..to.len as usize {
        to.write(planes, j, turn.plane(held, to.len, j, word));
    }
}

/// The same by a loop of its own for each word in which the windows may begin.
fn put_both(planes: &mut [Plane], to: &Target, held: &[Plane], turn: &Turn)
    requires target { HasTarget to.now planes.old }
    requires staying { HasHeld turn.now.staying to.now.len held.now }
    requires round { HasHeld turn.now.round to.now.len held.now }
    requires words { turn.now.staying.from / 64 ≡ turn.now.round.from / 64 }
    ensures { Becomes to.now (λ i. number_taken held.now turn.now to.now.len i) planes.old planes.new }
{
    match turn.staying.word() {
        0 => put_both_from(planes, to, held, turn, 0),
        1 => put_both_from(planes, to, held, turn, 1),
        2 => put_both_from(planes, to, held, turn, 2),
        3 => put_both_from(planes, to, held, turn, 3),
        4 => put_both_from(planes, to, held, turn, 4),
        5 => put_both_from(planes, to, held, turn, 5),
        6 => put_both_from(planes, to, held, turn, 6),
        _ => put_both_from(planes, to, held, turn, 7),
    }
}

/// The same of windows that begin in different words, through one after the other.
fn put_apart(planes: &mut [Plane], to: &Target, held: &[Plane], turn: &Turn)
    requires target { HasTarget to.now planes.old }
    requires staying { HasHeld turn.now.staying to.now.len held.now }
    requires round { HasHeld turn.now.round to.now.len held.now }
    ensures { Becomes to.now (λ i. number_taken held.now turn.now to.now.len i) planes.old planes.new }
{
    let staying = both(to.lanes, opposite(turn.crossing));
    let staying = Target::at(to.offset, to.len, staying);
    put_window(planes, &staying, held, &turn.staying);
    let round = Target::at(to.offset, to.len, both(to.lanes, turn.crossing));
    put_window(planes, &round, held, &turn.round);
}

/// The same, and where no lane crosses the end of its turn, or each does, through the one window alone.
fn put_turn(planes: &mut [Plane], to: &Target, held: &[Plane], turn: &Turn)
    requires target { HasTarget to.now planes.old }
    requires staying { HasHeld turn.now.staying to.now.len held.now }
    requires round { HasHeld turn.now.round to.now.len held.now }
    ensures { Becomes to.now (λ i. number_taken held.now turn.now to.now.len i) planes.old planes.new }
{
    if is_empty(turn.crossing) {
        put_window(planes, to, held, &turn.staying);
    } else if is_full(turn.crossing) {
        put_window(planes, to, held, &turn.round);
    } else if turn.staying.word() == turn.round.word() {
        put_both(planes, to, held, turn);
    } else {
        put_apart(planes, to, held, turn);
    }
}

/// A field of a block becomes, in these lanes, what a window shows of the planes that are held.
fn take_window(block: &mut Block, dest: Field, lanes: u64x8, held: &[Plane], window: &Window)
    requires len { (1 ≤ dest.len) × (dest.len ≤ 32) }
    requires within { dest.offset + dest.len ≤ length block.old.planes.items }
    requires held { HasHeld window.now dest.len held.now }
    ensures { LanesWritten dest.offset dest.len lanes (λ i. number_seen held.now window.now dest.len i) block.old.planes.items block.new.planes.items }
{
    let to = Target::at(dest.offset, dest.len, lanes);
    put_window(&mut block.planes, &to, held, window);
}

/// The same of what a turn takes.
fn take_turn(block: &mut Block, dest: Field, lanes: u64x8, held: &[Plane], turn: &Turn)
    requires len { (1 ≤ dest.len) × (dest.len ≤ 32) }
    requires within { dest.offset + dest.len ≤ length block.old.planes.items }
    requires staying { HasHeld turn.now.staying dest.len held.now }
    requires round { HasHeld turn.now.round dest.len held.now }
    ensures { LanesWritten dest.offset dest.len lanes (λ i. number_taken held.now turn.now dest.len i) block.old.planes.items block.new.planes.items }
{
    let to = Target::at(dest.offset, dest.len, lanes);
    put_turn(&mut block.planes, &to, held, turn);
}

/// Block `k` takes what is held a step away: through one window where each turn of the axis is made of
/// whole blocks, and else through one in the lanes whose step stays in its turn, and through another in
/// those that come round its end.
pub fn step_block(block: &mut Block, k: u32, taking: &Taking)
    requires block { (k < taking.now.blocks) × (k < 2 ^ 16) }
    requires taking { TakingFits taking.now }
    requires planes { taking.now.plan.now.bits + 1 ≤ length block.old.planes.items }
    ensures { Stepped taking.now k block.old.planes.items block.new.planes.items }
{
    let shift = &taking.shift;
    let lanes = taking_lanes(taking.plan, block, k, shift.always);
    if taking.step.blocks > 0 {
        let window = taking.step.own_window(k);
        take_window(block, shift.dest, lanes, taking.held, &window);
        return;
    }
    let (staying, round) = taking.step.windows(k, taking.blocks);
    let turn = Turn {
        staying,
        round,
        crossing: taking.step.crossing_lanes(k),
    };
    take_turn(block, shift.dest, lanes, taking.held, &turn);
}

/// The same in all blocks of the set, with a call of the gate for each.
fn step_blocks<R: Threads + Sync, G: Gate + Sync>(
    rt: &R,
    set: &mut BlockSet,
    taking: &Taking,
    workers: u32,
    gate: &G,
)
    requires taking { TakingFits taking.now }
    requires planes { HasPlanes (taking.now.plan.now.bits + 1) set.old.blocks.items }
    requires blocks { length set.old.blocks.items ≡ taking.now.blocks }
    requires workers { 1 ≤ workers }
    ensures count { length set.new.blocks.items ≡ length set.old.blocks.items }
    ensures each { (k : ℕ) (none : Block) → k < length set.old.blocks.items
        → Stepped taking.now k (slice_index_or set.old.blocks.items k none).planes.items (slice_index_or set.new.blocks.items k none).planes.items }
{
    for_each_mut(
        rt,
        set.blocks.as_mut_slice(),
        workers as usize,
        &|k: usize, block: &mut Block|
            requires { (k < taking.now.blocks) × (k < 2 ^ 16) × TakingFits taking.now × (taking.now.plan.now.bits + 1 ≤ length block.now.planes.items) }
            ensures { Stepped taking.entry.now k block.entry.now.planes.items block.exit.now.planes.items }
        {
            gate.at(k as u32);
            step_block(block, k as u32, taking);
        },
    );
}

/// Does a NEWS shift. All is read before anything is written.
pub fn shift<R: Threads + Sync, G: Gate + Sync>(
    rt: &R,
    store: &mut Store,
    shift: News,
    workers: u32,
    gate: &G,
)
    requires whole { IsWhole store.old }
    requires room { HasRoom store.old }
    requires dest { LiesIn (shapes_in store.old) shift.dest }
    requires source { LiesIn (shapes_in store.old) shift.source }
    requires together { shift.dest.set ≡ shift.source.set }
    requires lens { shift.source.len ≡ shift.dest.len }
    requires axis { shift.axis < rank_at (shapes_in store.old) shift.dest.set }
    requires workers { (1 ≤ workers) × (workers ≤ 64) }
    ensures whole { IsWhole store.new }
    ensures room { HasRoom store.new }
    ensures shapes { shapes_in store.new ≡ shapes_in store.old }
    ensures memory { (w : Winner) → SameBits (shapes_in store.old) (memory_in store.new w)
        (written (gathered (shapes_in store.old) (memory_in store.old w) shift.dest shift.always (of_neighbour (shapes_in store.old) (memory_in store.old w) shift.source shift.axis shift.by)) (memory_in store.old w)) }
{
    let set = usize::from(shift.dest.set);
    hold(rt, &store.sets[set], &mut store.room, shift.source, workers);
    let plan = &store.plans[set];
    let taking = Taking {
        plan,
        blocks: plan.geometry.block_count(),
        held: store.room.held.as_slice(),
        shift,
        step: Step::along(&plan.geometry, shift.axis, signed(shift.by)),
    };
    step_blocks(rt, &mut store.sets[set], &taking, workers, gate);
}
