//! The senders of a send, read from their blocks.

ghost use Rattle.std.specs.Prelude.{◌≡◌, ℕ, ◌<◌, ◌≤◌, ◌+◌, ◌-◌, ◌*◌, ◌%◌, ◌^◌, ◌==◌, None, IfOk, length, slice_index_or};
ghost use Rattle.bit_planes.specs.Bits.{bit};
ghost use Rattle.combine_send.specs.Senders.{Sends, IsSlotOf, CanRead};

use bit_planes::Block;
use block_store::words_of;
use combine_core::Message;
use cstar_base::Memory;
use cstar_io::Gate;
use paris_code::Field;
use std::alloc::Global;
use std::simd::prelude::*;
use std::thread;
use std::thread::Threads;
use vp_sets::BLOCK_SIZE;

/// The blocks of the senders' set, the plane of its context flags, the fields of addresses and of
/// messages, and how many positions there are to send to.
#[derive(Clone, Copy)]
pub(crate) struct Senders<'a> {
    pub(crate) blocks: &'a [Block],
    pub(crate) context: u32,
    pub(crate) address: Field,
    pub(crate) source: Field,
    pub(crate) targets: u32,
}

/// The message of a sender: none if it is not active, or if there is no position of its address.
#[inline(always)]
pub(crate) fn message(
    active: bool,
    sender: u32,
    address: u32,
    value: u32,
    count: u32,
) -> Option<Message>
    requires { sender < 2 ^ 32 - 1 }
    ensures { Sends active sender address value count result }
{
    if active && address < count {
        Some(Message {
            sender,
            target: address,
            value,
        })
    } else {
        None
    }
}

/// Whether a lane of a plane is 1, by the words of the plane.
#[inline(always)]
pub(crate) fn is_one(words: &[u64; 8], i: usize) -> bool
    requires { i < 512 }
    ensures { result ≡ (bit words.now i == 1) }
{
    (words[i / 64] >> (i % 64)) % 2 == 1
}

/// The slots of the senders of block `k`.
fn block_slots(senders: &Senders, k: u32) -> [Option<Message>; 512]
    requires can { CanRead senders.now }
    requires block { k < length senders.now.blocks.now }
    ensures { (i : ℕ) → i < 512 → IsSlotOf senders.now (512 * k + i) (slice_index_or result i None) }
{
    let block = &senders.blocks[k as usize];
    let active = block.plane(senders.context).to_array();
    let addresses = words_of(block, senders.address.offset, senders.address.len);
    let values = words_of(block, senders.source.offset, senders.source.len);
    let mut slots = [None; 512];
    for i in 0..512 {
        slots[i] = message(
            is_one(&active, i),
            k * BLOCK_SIZE + i as u32,
            addresses[i],
            values[i],
            senders.targets,
        );
    }
    slots
}

/// Fills the slots of the senders of block `k`, of which the first is slot `from`.
fn fill_block(senders: &Senders, k: u32, slots: &mut [Option<Message>], from: usize)
    requires can { CanRead senders.now }
    requires block { k < length senders.now.blocks.now }
    requires from { from < length slots.old }
    ensures filled { (i : ℕ) → from ≤ i → i < from + 512 → i < length slots.old
        → IsSlotOf senders.now (512 * k + (i - from)) (slice_index_or slots.new i None) }
    ensures kept { (i : ℕ) → i < from → slice_index_or slots.new i None ≡ slice_index_or slots.old i None }
{
    let filled = block_slots(senders, k);
    for i in 0..(slots.len() - from).min(512) {
        slots[from + i] = filled[i];
    }
}

/// Fills the slots of the senders from block `first` on, with a call of the gate for each block.
fn fill_part<G: Gate>(senders: &Senders, first: u32, slots: &mut [Option<Message>], gate: &G)
    requires can { CanRead senders.now }
    requires within { 512 * first + length slots.old ≤ 512 * length senders.now.blocks.now }
    ensures { (i : ℕ) → i < length slots.old → IsSlotOf senders.now (512 * first + i) (slice_index_or slots.new i None) }
{
    for j in 0..slots.len().div_ceil(512) {
        let k = first + j as u32;
        gate.at(k);
        fill_block(senders, k, slots, 512 * j);
    }
}

/// The slots of so many senders, filled by one worker.
fn filled_by_one<G: Gate>(
    alloc: Global,
    senders: &Senders,
    count: u32,
    gate: &G,
) -> Result<Vec<Option<Message>>, Memory>
    requires can { CanRead senders.now }
    requires within { count ≤ 512 * length senders.now.blocks.now }
    ensures count { IfOk result (λ slots. length slots.items ≡ count) }
    ensures slots { IfOk result (λ slots. (i : ℕ) → i < length slots.items → IsSlotOf senders.now i (slice_index_or slots.items i None)) }
{
    let mut slots = Vec::with_capacity(alloc, count as usize)?;
    for k in 0..count.div_ceil(BLOCK_SIZE) {
        gate.at(k);
        let filled = block_slots(senders, k);
        let some = (count - k * BLOCK_SIZE).min(BLOCK_SIZE);
        slots.extend_from_slice(&filled[..some as usize])?;
    }
    Ok(slots)
}

/// The slots of so many senders, filled by so many workers. `Memory` is want of memory alone.
pub(crate) fn filled<R: Threads + Sync, G: Gate + Sync>(
    rt: &R,
    alloc: Global,
    senders: &Senders,
    count: u32,
    workers: u32,
    gate: &G,
) -> Result<Vec<Option<Message>>, Memory>
    requires can { CanRead senders.now }
    requires within { count ≤ 512 * length senders.now.blocks.now }
    requires workers { 1 ≤ workers }
    ensures count { IfOk result (λ slots. length slots.items ≡ count) }
    ensures slots { IfOk result (λ slots. (i : ℕ) → i < length slots.items → IsSlotOf senders.now i (slice_index_or slots.items i None)) }
{
    if workers == 1 {
        return filled_by_one(alloc, senders, count, gate);
    }
    let mut slots = vec![in alloc; None; count as usize]?;
    let part = 512 * senders.blocks.len().div_ceil(workers as usize);
    thread::for_each_chunk_mut(
        rt,
        slots.as_mut_slice(),
        part,
        &|start: usize, chunk: &mut [Option<Message>]|
            requires { CanRead senders.now × (start % 512 ≡ 0) × (start + length chunk.now ≤ 512 * length senders.now.blocks.now) }
            ensures { (i : ℕ) → i < length chunk.entry.now → IsSlotOf senders.entry.now (start + i) (slice_index_or chunk.exit.now i None) }
        { fill_part(senders, (start / 512) as u32, chunk, gate) },
    );
    Ok(slots)
}
