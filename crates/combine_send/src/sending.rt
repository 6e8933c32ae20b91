//! The slots of a send.

ghost use Rattle.std.specs.Prelude.{◌≡◌, ◌≤◌, ◌*◌, IfOk, length};
ghost use Rattle.cstar_base.specs.declared.operators.Winner.{Winner};
ghost use Rattle.paris_code.specs.Memory.{processors};
ghost use Rattle.block_store.specs.Stored.{shapes_in, memory_in, IsWhole};
ghost use Rattle.combine_send.specs.Alone.{AreSendersOf};
ghost use Rattle.combine_send.specs.Senders.{CanRead};
ghost use Rattle.combine_send.specs.Sends.{SendFits};
ghost use Rattle.combine_send.specs.Slots.{AreSlotsFrom};

use crate::send::Send;
use crate::senders::{Senders, filled};
use block_store::Store;
use combine_core::Message;
use cstar_base::Memory;
use cstar_io::Gate;
use std::alloc::Global;
use std::thread::Threads;

/// The senders of a send.
pub(crate) fn senders_of<'a>(store: &'a Store, send: &Send) -> Senders<'a>
    requires whole { IsWhole store.now }
    requires send { SendFits (shapes_in store.now) send.now }
    ensures can { CanRead result }
    ensures many { processors (shapes_in store.now) send.now.address.set ≤ 512 * length result.blocks.now }
    ensures senders { AreSendersOf store.now send.now result }
{
    Senders {
        blocks: store.sets[usize::from(send.address.set)].blocks.as_slice(),
        context: store.plan(send.address.set).bits,
        address: send.address,
        source: send.source,
        targets: store.plan(send.dest.set).geometry.positions(),
    }
}

/// A slot for each sender, with its message where it sends one. The gate is called once for each of
/// the senders' blocks. `Memory` is want of memory alone.
pub(crate) fn slots_of<R: Threads + Sync, G: Gate + Sync>(
    rt: &R,
    alloc: Global,
    store: &Store,
    send: &Send,
    workers: u32,
    gate: &G,
) -> Result<Vec<Option<Message>>, Memory>
    requires whole { IsWhole store.now }
    requires send { SendFits (shapes_in store.now) send.now }
    requires workers { 1 ≤ workers }
    ensures senders { IfOk result (λ slots. length slots.items ≡ processors (shapes_in store.now) send.now.address.set) }
    ensures slots { IfOk result (λ slots. (w : Winner) → AreSlotsFrom (shapes_in store.now) (memory_in store.now w) send.now.address send.now.source (processors (shapes_in store.now) send.now.dest.set) 0 slots.items) }
{
    let count = store.plan(send.address.set).geometry.positions();
    let senders = senders_of(store, send);
    filled(rt, alloc, &senders, count, workers, gate)
}
