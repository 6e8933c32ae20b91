//! A send without a board: each message is combined at once with a plain word, by one worker, or by
//! several that have cells of their own.

ghost use Rattle.std.specs.Prelude.{◌≡◌, ℕ, ◌<◌, ◌≤◌, ◌+◌, ◌-◌, ◌*◌, ◌^◌, true, IfOk, OnOk, IfSome, length, map, slice_index};
ghost use Rattle.cstar_base.specs.declared.operators.Winner.{Winner};
ghost use Rattle.combine_core.specs.Cells.{taken};
ghost use Rattle.combine_core.specs.Encodings.{encoded_home, decoded};
ghost use Rattle.block_store.specs.Stored.{shapes_in, memory_in, IsWhole};
ghost use Rattle.combine_send.specs.Alone.{AreCombined, AreWordsOf, HasCombined};
ghost use Rattle.combine_send.specs.Senders.{CanRead};
ghost use Rattle.combine_send.specs.Sends.{SendFits};

use crate::apart::combine_apart;
use crate::home::home_words;
use crate::ready::kind_for;
use crate::send::Send;
use crate::senders::{Senders, is_one, message};
use crate::sending::senders_of;
use block_store::{Store, words_of};
use combine_core::{Add, And, Combine, First, Kind, Last, MaxOf, Message, MinOf, Or, Xor};
use cstar_base::{Memory, Winner};
use cstar_io::Gate;
use std::alloc::Global;
use std::simd::prelude::*;
use std::thread::Threads;
use vp_sets::BLOCK_SIZE;

/// The cells of the targets before any message.
fn opening_cells<C: Combine>(alloc: Global, combiner: &C, home: &[u32]) -> Result<Vec<u64>, Memory>
    ensures cells { IfOk result (λ cells. cells.items ≡ map (encoded_home (C.combines combiner.now)) home.now) }
    ensures fits { (t : ℕ) → slice_index home.now t < 2 ^ 32 }
{
    let mut cells = Vec::with_capacity(alloc, home.len())?;
    for word in home {
        cells.push(combiner.encode_home(*word))?;
    }
    Ok(cells)
}

/// Combines a message, if there is one, with the cell of its target.
#[inline(always)]
fn combine_one<C: Combine>(combiner: &C, slot: Option<Message>, cells: &mut [u64])
    requires { IfSome slot (λ message. message.target < length cells.old) }
    ensures wide { length cells.new ≡ length cells.old }
    ensures cells { (t : ℕ) → t < length cells.old → slice_index cells.new t ≡ taken (C.combines combiner.now) true t (slice_index cells.old t) slot }
{
    if let Some(message) = slot {
        let at = message.target as usize;
        let value = combiner.encode(message.sender, message.value);
        cells[at] = combiner.join(cells[at], value);
    }
}

/// Combines the messages of the first `count` senders of block `k`.
fn combine_block<C: Combine>(combiner: &C, senders: &Senders, k: u32, count: u32, cells: &mut [u64])
    requires can { CanRead senders.now }
    requires block { k < length senders.now.blocks.now }
    requires count { count ≤ 512 }
    requires targets { senders.now.targets ≡ length cells.old }
    ensures { HasCombined (C.combines combiner.now) senders.now (512 * k) count cells.old cells.new }
{
    let block = &senders.blocks[k as usize];
    let active = block.plane(senders.context).to_array();
    let addresses = words_of(block, senders.address.offset, senders.address.len);
    let values = words_of(block, senders.source.offset, senders.source.len);
    for i in 0..count as usize {
        let slot = message(
            is_one(&active, i),
            k * BLOCK_SIZE + i as u32,
            addresses[i],
            values[i],
            senders.targets,
        );
        combine_one(combiner, slot, cells);
    }
}

/// Combines the messages of `count` senders from block `first` on, block by block. The gate is called
/// twice for each block, as where its slots are filled first and then claimed.
pub(crate) fn combine_blocks<C: Combine, G: Gate>(
    combiner: &C,
    senders: &Senders,
    first: u32,
    count: u32,
    cells: &mut [u64],
    gate: &G,
)
    requires can { CanRead senders.now }
    requires within { count ≤ 512 * length senders.now.blocks.now - 512 * first }
    requires targets { senders.now.targets ≡ length cells.old }
    ensures { HasCombined (C.combines combiner.now) senders.now (512 * first) count cells.old cells.new }
{
    for k in 0..count.div_ceil(BLOCK_SIZE) {
        gate.at(first + k);
        gate.at(first + k);
        let some = (count - k * BLOCK_SIZE).min(BLOCK_SIZE);
        combine_block(combiner, senders, first + k, some, cells);
    }
}

/// Combines the messages of so many senders, by one worker at once, or by several apart. `Memory` is
/// want of memory alone.
fn combine_all<R: Threads + Sync, C: Combine + Sync, G: Gate + Sync>(
    rt: &R,
    alloc: Global,
    combiner: &C,
    senders: &Senders,
    count: u32,
    workers: u32,
    cells: &mut [u64],
    gate: &G,
) -> Result<(), Memory>
    requires can { CanRead senders.now }
    requires within { count ≤ 512 * length senders.now.blocks.now }
    requires targets { senders.now.targets ≡ length cells.old }
    requires workers { (1 ≤ workers) × (workers ≤ 64) }
    ensures { OnOk result (HasCombined (C.combines combiner.now) senders.now 0 count cells.old cells.new) }
{
    if workers > 1 {
        return combine_apart(rt, alloc, combiner, senders, count, workers, cells, gate);
    }
    combine_blocks(combiner, senders, 0, count, cells, gate);
    Ok(())
}

/// Each home word becomes the word that its cell stands for.
fn decode_all<C: Combine>(combiner: &C, home: &mut [u32], cells: &[u64])
    requires wide { length cells.now ≡ length home.old }
    requires fits { (t : ℕ) → t < length home.old → decoded (C.combines combiner.now) (slice_index home.old t) (slice_index cells.now t) < 2 ^ 32 }
    ensures wide { length home.new ≡ length home.old }
    ensures words { (t : ℕ) → t < length home.old → slice_index home.new t ≡ decoded (C.combines combiner.now) (slice_index home.old t) (slice_index cells.now t) }
{
    for t in 0..home.len() {
        home[t] = combiner.decode(home[t], cells[t]);
    }
}

/// The home words with the messages of so many senders.
fn combined<R: Threads + Sync, C: Combine + Sync, G: Gate + Sync>(
    rt: &R,
    alloc: Global,
    combiner: C,
    senders: &Senders,
    count: u32,
    workers: u32,
    mut home: Vec<u32>,
    gate: &G,
) -> Result<Vec<u32>, Memory>
    requires can { CanRead senders.now }
    requires within { count ≤ 512 * length senders.now.blocks.now }
    requires targets { senders.now.targets ≡ length home.items }
    requires workers { (1 ≤ workers) × (workers ≤ 64) }
    ensures { IfOk result (λ words. AreCombined (C.combines combiner) senders.now count home.items words.items) }
{
    let mut cells = opening_cells(alloc, &combiner, home.as_slice())?;
    combine_all(
        rt,
        alloc,
        &combiner,
        senders,
        count,
        workers,
        cells.as_mut_slice(),
        gate,
    )?;
    decode_all(&combiner, home.as_mut_slice(), cells.as_slice());
    Ok(home)
}

/// The words of all targets, once so many workers have combined all messages without a board.
/// `Memory` is want of memory alone.
pub(crate) fn words_in_cells<R: Threads + Sync, G: Gate + Sync>(
    rt: &R,
    alloc: Global,
    store: &Store,
    send: &Send,
    workers: u32,
    gate: &G,
    winner: Winner,
) -> Result<Vec<u32>, Memory>
    requires whole { IsWhole store.now }
    requires send { SendFits (shapes_in store.now) send.now }
    requires workers { (1 ≤ workers) × (workers ≤ 64) }
    ensures { IfOk result (λ words. AreWordsOf (shapes_in store.now) (memory_in store.now winner) send.now words.items) }
{
    let count = store.plan(send.address.set).geometry.positions();
    let senders = senders_of(store, send);
    let home = home_words(alloc, store, send.kind.signed, send.dest)?;
    match kind_for(send.combiner, winner) {
        Kind::Add => combined(rt, alloc, Add, &senders, count, workers, home, gate),
        Kind::And => combined(rt, alloc, And, &senders, count, workers, home, gate),
        Kind::Or => combined(rt, alloc, Or, &senders, count, workers, home, gate),
        Kind::Xor => combined(rt, alloc, Xor, &senders, count, workers, home, gate),
        Kind::Min { signed } => combined(
            rt,
            alloc,
            MinOf { signed },
            &senders,
            count,
            workers,
            home,
            gate,
        ),
        Kind::Max { signed } => combined(
            rt,
            alloc,
            MaxOf { signed },
            &senders,
            count,
            workers,
            home,
            gate,
        ),
        Kind::Last => combined(rt, alloc, Last, &senders, count, workers, home, gate),
        Kind::First => combined(rt, alloc, First, &senders, count, workers, home, gate),
    }
}
