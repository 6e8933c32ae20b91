//! A board that is about a send, before anything is done.

ghost use Rattle.std.specs.Prelude.{◌≡◌, ◌^◌, true};
ghost use Rattle.combine_core.specs.Machine.{idle};

use combine_board::{Board, Pass, Words, combine_all};
use combine_core::{Combine, Message};
use cstar_base::Memory;
use cstar_io::Gate;
use std::alloc::Global;
use std::thread::Threads;

/// A board of which nothing is done yet.
#[derive(Drop)]
pub struct Loaded<C: Combine> {
    pub(crate) board: Board<C>,
    pub(crate) pass: Pass,
    ghost of: { pass.board ≡ board },
    ghost fresh: { pass.worker ≡ idle true (2 ^ 63) },
}

impl<C: Combine + Sync> Loaded<C> {
    ghost use Rattle.std.specs.Prelude.{ℕ, ◌<◌, ◌≤◌, IfOk, length, slice_index};
    ghost use Rattle.combine_core.specs.Folded.{folded};
    ghost use Rattle.combine_send.specs.Boards.{CanLoad};

    /// A board about these home words and slots. `Memory` is want of memory alone.
    pub(crate) fn new(
        alloc: Global,
        combiner: C,
        home: Vec<u32>,
        slots: Vec<Option<Message>>,
    ) -> Result<Loaded<C>, Memory>
        requires { CanLoad home.items slots.items }
        ensures { IfOk result (λ it. it.board.plan ≡ record { kind = C.combines combiner; slots = slots.items; home = home.items }) }
    {
        let (board, pass) = Board::new(alloc, combiner, home, slots)?;
        Ok(Loaded { board, pass })
    }

    /// The folded word of each target.
    pub(crate) fn go<R: Threads + Sync, G: Gate + Sync>(
        self,
        rt: &R,
        workers: u32,
        gate: &G,
    ) -> Words
        requires { workers ≤ 64 }
        ensures len { length result ≡ length self.board.plan.home }
        ensures folded { (t : ℕ) → t < length self.board.plan.home
            → slice_index result t ≡ folded self.board.plan.kind t (slice_index self.board.plan.home t) self.board.plan.slots }
    {
        let Loaded { board, pass } = self;
        combine_all(rt, board, pass, gate, workers)
    }
}
