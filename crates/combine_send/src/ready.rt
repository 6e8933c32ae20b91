//! A send made ready, and what its workers make of it.

ghost use Rattle.std.specs.Prelude.{◌≡◌, ℕ, ◌<◌, ◌≤◌, IfOk, length, slice_index};
ghost use Rattle.combine_core.specs.Folded.{folded};
ghost use Rattle.block_store.specs.Stored.{shapes_in, memory_in, IsWhole};
ghost use Rattle.combine_send.specs.Boards.{CanLoad, IsPlanOf, plan_of};
ghost use Rattle.combine_send.specs.Sends.{SendFits};
ghost use Rattle.combine_send.specs.Slots.{kind_for};

use crate::home::home_words;
use crate::loaded::Loaded;
use crate::send::Send;
use crate::sending::slots_of;
use block_store::Store;
use combine_board::Words;
use combine_core::{Add, And, First, Kind, Last, MaxOf, Message, MinOf, Or, Xor};
use cstar_base::{Memory, Winner};
use cstar_io::Gate;
use paris_code::Reduction;
use std::alloc::Global;
use std::thread::Threads;

/// A board of which nothing is done yet, by the way in which it combines.
#[derive(Drop)]
pub enum Ready {
    Add(Loaded<Add>),
    And(Loaded<And>),
    Or(Loaded<Or>),
    Xor(Loaded<Xor>),
    Min(Loaded<MinOf>),
    Max(Loaded<MaxOf>),
    Last(Loaded<Last>),
    First(Loaded<First>),
}

/// The kind of board that a send asks for.
pub(crate) fn kind_for(combiner: Option<Reduction>, winner: Winner) -> Kind
    ensures { result ≡ kind_for combiner winner }
{
    match (combiner, winner) {
        (None, Winner::High) => Kind::Last,
        (None, Winner::Low) => Kind::First,
        (Some(Reduction::SAdd), _) => Kind::Add,
        (Some(Reduction::Logand), _) => Kind::And,
        (Some(Reduction::Logior), _) => Kind::Or,
        (Some(Reduction::Logxor), _) => Kind::Xor,
        (Some(Reduction::SMin), _) => Kind::Min { signed: true },
        (Some(Reduction::UMin), _) => Kind::Min { signed: false },
        (Some(Reduction::SMax), _) => Kind::Max { signed: true },
        (Some(Reduction::UMax), _) => Kind::Max { signed: false },
    }
}

/// A board of a kind about these home words and slots. `Memory` is want of memory alone.
fn load(
    alloc: Global,
    kind: Kind,
    home: Vec<u32>,
    slots: Vec<Option<Message>>,
) -> Result<Ready, Memory>
    requires { CanLoad home.items slots.items }
    ensures { IfOk result (λ ready. plan_of ready ≡ record { kind = kind; slots = slots.items; home = home.items }) }
{
    let ready = match kind {
        Kind::Add => Ready::Add(Loaded::new(alloc, Add, home, slots)?),
        Kind::And => Ready::And(Loaded::new(alloc, And, home, slots)?),
        Kind::Or => Ready::Or(Loaded::new(alloc, Or, home, slots)?),
        Kind::Xor => Ready::Xor(Loaded::new(alloc, Xor, home, slots)?),
        Kind::Min { signed } => Ready::Min(Loaded::new(alloc, MinOf { signed }, home, slots)?),
        Kind::Max { signed } => Ready::Max(Loaded::new(alloc, MaxOf { signed }, home, slots)?),
        Kind::Last => Ready::Last(Loaded::new(alloc, Last, home, slots)?),
        Kind::First => Ready::First(Loaded::new(alloc, First, home, slots)?),
    };
    Ok(ready)
}

/// A board about a send, whose slots so many workers fill. It takes memory, and `Memory` is want of
/// memory alone; nothing else has changed then.
pub fn prepare<R: Threads + Sync, G: Gate + Sync>(
    rt: &R,
    alloc: Global,
    store: &Store,
    send: &Send,
    workers: u32,
    gate: &G,
    winner: Winner,
) -> Result<Ready, Memory>
    requires whole { IsWhole store.now }
    requires send { SendFits (shapes_in store.now) send.now }
    requires workers { (1 ≤ workers) × (workers ≤ 64) }
    ensures { IfOk result (λ ready. IsPlanOf (shapes_in store.now) (memory_in store.now winner) send.now (plan_of ready)) }
{
    let slots = slots_of(rt, alloc, store, send, workers, gate)?;
    let home = home_words(alloc, store, send.kind.signed, send.dest)?;
    load(alloc, kind_for(send.combiner, winner), home, slots)
}

/// The words of all targets, once so many workers have combined all messages, each by one atomic
/// operation.
pub fn go<R: Threads + Sync, G: Gate + Sync>(rt: &R, ready: Ready, workers: u32, gate: &G) -> Words
    requires { workers ≤ 64 }
    ensures len { length result ≡ length (plan_of ready).home }
    ensures folded { (t : ℕ) → t < length (plan_of ready).home
        → slice_index result t ≡ folded (plan_of ready).kind t (slice_index (plan_of ready).home t) (plan_of ready).slots }
{
    match ready {
        Ready::Add(it) => it.go(rt, workers, gate),
        Ready::And(it) => it.go(rt, workers, gate),
        Ready::Or(it) => it.go(rt, workers, gate),
        Ready::Xor(it) => it.go(rt, workers, gate),
        Ready::Min(it) => it.go(rt, workers, gate),
        Ready::Max(it) => it.go(rt, workers, gate),
        Ready::Last(it) => it.go(rt, workers, gate),
        Ready::First(it) => it.go(rt, workers, gate),
    }
}
