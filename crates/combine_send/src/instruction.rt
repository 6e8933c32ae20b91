//! The instructions that send.

ghost use Rattle.std.specs.Prelude.{◌≡◌, ℕ, List, true, ◌≤◌, IfOk};
ghost use Rattle.paris_code.specs.Meaning.{Means};
ghost use Rattle.paris_code.specs.declared.program.Reply.TheVariants as reply;
ghost use Rattle.phase_meaning.specs.Apply.{CanApply, ReplyFits, is_send};
ghost use Rattle.block_store.specs.Stored.{shapes_in, memory_in, IsWhole, HasRoom};
ghost use Rattle.combine_send.specs.Alone.{AreWordsOf};
ghost use Rattle.combine_send.specs.Sends.{SendFits};

use crate::alone::words_in_cells;
use crate::apart::are_few;
use crate::back::put_back;
use crate::ready::{go, prepare};
use crate::send::Send;
use block_store::Store;
use cstar_base::{Memory, Winner};
use cstar_io::Gate;
use paris_code::{Instr, Reply};
use std::alloc::Global;
use std::thread::Threads;

/// The words of all targets once all messages are combined: by one worker in plain words, by several
/// each in words of its own where the targets are few, and else on a board, each message by one atomic
/// operation. `Memory` is want of memory alone.
fn words_sent<R: Threads + Sync, G: Gate + Sync>(
    rt: &R,
    alloc: Global,
    store: &Store,
    send: &Send,
    workers: u32,
    gate: &G,
    winner: Winner,
) -> Result<Vec<u32>, Memory>
    requires whole { IsWhole store.now }
    requires send { SendFits (shapes_in store.now) send.now }
    requires workers { (1 ≤ workers) × (workers ≤ 64) }
    ensures { IfOk result (λ words. AreWordsOf (shapes_in store.now) (memory_in store.now winner) send.now words.items) }
{
    let targets = store.plan(send.dest.set).geometry.positions();
    let senders = store.plan(send.address.set).geometry.positions();
    if workers == 1 || are_few(targets, senders, workers) {
        return words_in_cells(rt, alloc, store, send, workers, gate, winner);
    }
    let ready = prepare(rt, alloc, store, send, workers, gate, winner)?;
    Ok(go(rt, ready, workers, gate).into_values())
}

/// Does a send, by so many workers; it reads no register. It takes memory, and where there is none
/// the reply is `Memory` and the store is as it was.
pub fn run<R: Threads + Sync, G: Gate + Sync>(
    rt: &R,
    alloc: Global,
    store: &mut Store,
    instr: &Instr,
    workers: u32,
    gate: &G,
    winner: Winner,
) -> Reply
    requires whole { IsWhole store.old }
    requires room { HasRoom store.old }
    requires can { (args : List ℕ) × CanApply (shapes_in store.old) instr.now args }
    requires send { is_send instr.now ≡ true }
    requires workers { (1 ≤ workers) × (workers ≤ 64) }
    ensures whole { IsWhole store.new }
    ensures room { HasRoom store.new }
    ensures shapes { shapes_in store.new ≡ shapes_in store.old }
    ensures fits { ReplyFits instr.now result }
    ensures refused { result ≡ reply.Memory → store.new ≡ store.old }
    ensures meaning { (args : List ℕ) → Means (shapes_in store.old) instr.now args (memory_in store.old winner) (memory_in store.new winner) result }
{
    let Some(send) = Send::of(instr) else {
        return Reply::Nothing;
    };
    match words_sent(rt, alloc, store, &send, workers, gate, winner) {
        Ok(words) => {
            put_back(store, &send, words.as_slice());
            Reply::Nothing
        }
        Err(Memory) => Reply::Memory,
    }
}
