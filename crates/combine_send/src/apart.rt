//! Messages combined by several workers, each in cells of its own, which are joined in the end. Where
//! the targets are few, workers on one board would take its cells from each other at every message.

ghost use Rattle.std.specs.Prelude.{◌≡◌, ℕ, ◌<◌, ◌≤◌, ◌+◌, ◌-◌, ◌*◌, ◌^◌, IfOk, OnOk, length, replicate, slice_index};
ghost use Rattle.combine_core.specs.Encodings.{joined};
ghost use Rattle.combine_send.specs.Alone.{HasCombined};
ghost use Rattle.combine_send.specs.Apart.{blank, part_count};
ghost use Rattle.combine_send.specs.Senders.{CanRead};

use crate::alone::combine_blocks;
use crate::senders::Senders;
use combine_core::Combine;
use cstar_base::{Combiner, Memory};
use cstar_io::Gate;
use std::alloc::Global;
use std::thread::Threads;
use vp_sets::BLOCK_SIZE;
use worker_forks::map_indices;

/// Whether so many targets are few for these senders: where so many workers join cells of their own
/// for each target, that is little beside combining the messages.
pub fn are_few(targets: u32, senders: u32, workers: u32) -> bool {
    targets <= senders / workers.max(1) / 2
}

/// A cell that changes no cell that it is joined to.
#[tactic(auto, unfolding(crate::specs::Apart::blank))]
fn blank<C: Combine>(combiner: &C) -> u64
    ensures { result ≡ blank (C.combines combiner.now) }
{
    match combiner.kind().0 {
        Combiner::And | Combiner::Min => u64::MAX,
        Combiner::Add | Combiner::Or | Combiner::Xor | Combiner::Max | Combiner::Last => 0,
    }
}

/// Joins to each cell the other one of its target.
fn join_cells<C: Combine>(combiner: &C, cells: &mut [u64], others: &[u64])
    requires wide { length others.now ≡ length cells.old }
    ensures wide { length cells.new ≡ length cells.old }
    ensures joined { (t : ℕ) → t < length cells.old → slice_index cells.new t ≡ joined (C.combines combiner.now) (slice_index cells.old t) (slice_index others.now t) }
    ensures small { (t : ℕ) → slice_index cells.old t < 2 ^ 64 }
{
    for t in 0..cells.len() {
        cells[t] = combiner.join(cells[t], others[t]);
    }
}

/// How many of `count` senders stand in the part of a worker, whose first block is `first` and which
/// has `size` blocks.
#[tactic(auto, unfolding(crate::specs::Apart::part_count))]
fn part_count(count: u32, first: u32, size: u32) -> u32
    requires first { first ≤ 2 ^ 20 }
    requires size { size ≤ 2 ^ 20 }
    ensures { result ≡ part_count count first size }
{
    count
        .saturating_sub(first * BLOCK_SIZE)
        .min(size * BLOCK_SIZE)
}

/// The messages of `count` senders from block `first` on, in cells of their own.
fn own_cells<C: Combine, G: Gate>(
    alloc: Global,
    combiner: &C,
    senders: &Senders,
    first: u32,
    count: u32,
    gate: &G,
) -> Result<Vec<u64>, Memory>
    requires can { CanRead senders.now }
    requires within { count ≤ 512 * length senders.now.blocks.now - 512 * first }
    ensures { IfOk result (λ cells. HasCombined (C.combines combiner.now) senders.now (512 * first) count (replicate senders.now.targets (blank (C.combines combiner.now))) cells.items) }
{
    let mut cells = vec![in alloc; blank(combiner); senders.targets as usize]?;
    combine_blocks(combiner, senders, first, count, cells.as_mut_slice(), gate);
    Ok(cells)
}

/// Combines the messages of so many senders by so many workers, each in the cells of its blocks, and
/// joins these to the cells. `Memory` is want of memory alone.
pub(crate) fn combine_apart<R: Threads + Sync, C: Combine + Sync, G: Gate + Sync>(
    rt: &R,
    alloc: Global,
    combiner: &C,
    senders: &Senders,
    count: u32,
    workers: u32,
    cells: &mut [u64],
    gate: &G,
) -> Result<(), Memory>
    requires can { CanRead senders.now }
    requires within { count ≤ 512 * length senders.now.blocks.now }
    requires targets { senders.now.targets ≡ length cells.old }
    requires workers { (1 ≤ workers) × (workers ≤ 64) }
    ensures { OnOk result (HasCombined (C.combines combiner.now) senders.now 0 count cells.old cells.new) }
{
    let size = senders.blocks.len().div_ceil(workers as usize) as u32;
    let parts = map_indices(
        rt,
        alloc,
        workers as usize,
        &|w: usize| -> Result<Vec<u64>, Memory>
            requires { CanRead senders.now × (w < 64) × (size ≤ 2048) × (count ≤ 512 * length senders.now.blocks.now) }
            ensures { IfOk result (λ cells. HasCombined (C.combines combiner.entry.now) senders.entry.now (512 * (w * size)) (part_count count (w * size) size) (replicate senders.entry.now.targets (blank (C.combines combiner.entry.now))) cells.items) }
        {
            let first = w as u32 * size;
            own_cells(
                alloc,
                combiner,
                senders,
                first,
                part_count(count, first, size),
                gate,
            )
        },
    )?;
    for part in parts {
        join_cells(combiner, cells, part?.as_slice());
    }
    Ok(())
}
