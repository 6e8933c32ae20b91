ghost use Rattle.std.specs.Prelude.{◌≡◌, ◌+◌, ◌^◌, ◌<◌, is_some, if◌then◌else◌};

use crate::view::View;
use atomic_table::Seat;
use combine_core::Held;
use std::marker::Model;

/// The right to draw numbers of a board and to deliver messages. It may go to another thread.
/// Contracts see it as a worker of the machine on its board.
#[derive(Drop)]
pub struct Pass {
    pub(crate) seat: Seat<u8, View>,
    pub(crate) last: Option<Held>,
    pub(crate) next: Option<u32>,
    pub(crate) number: Option<u64>,
    pub(crate) done: u32,
}

impl Model for Pass {
    ghost use Rattle.std.specs.Prelude.{◌≡◌, []};
    ghost use Rattle.combine_board.specs.Values.{PassValue};

    ghost Value = { PassValue };

    ghost use Rattle.combine_board.specs.Rule.{plan_of, IsPass};

    ghost view = { λ p. record { board = record { id = p.seat.table_id; plan = plan_of p.seat.me.0 }; worker = p.seat.me.0.worker } };

    ghost invariant = { λ p. (p.seat.me.1 ≡ []) × IsPass p.seat.me.0 p.last p.next p.number p.done };
}

// How many claims are done, where the claim taken last has this slot next.
pub(crate) fn counted(done: u32, next: Option<u32>) -> u32
    requires { done + 1 < 2 ^ 32 }
    ensures { result ≡ done + (if is_some next then 0 else 1) }
{
    if next.is_some() { done } else { done + 1 }
}

// How many claims are done, once the messages are delivered from this slot on that the claim taken
// last has next.
pub(crate) fn with_rest(done: u32, next: Option<u32>) -> u32
    requires { done + 1 < 2 ^ 32 }
    ensures { result ≡ done + (if is_some next then 1 else 0) }
{
    if next.is_some() { done + 1 } else { done }
}
