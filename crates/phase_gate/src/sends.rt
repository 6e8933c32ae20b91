//! Sends: a word for each target takes the messages of the senders in order.

ghost use Rattle.std.specs.Prelude.{ℕ, ◌≡◌, ◌<◌, ◌==◌, length, Some, None, MatchOption, is_some, false};
ghost use Rattle.std.specs.Bool.{then_some};
ghost use Rattle.paris_code.specs.Memory.{SameBits, processors};
ghost use Rattle.paris_code.specs.Sending.{sends_to, winning_sender, message_or_zero, combined, overwriting, combining};
ghost use Rattle.paris_code.specs.Writes.{written};
ghost use Rattle.phase_meaning.specs.Apply.{IsPosition};

use crate::row_phases::RowPhases;
use cstar_base::numbers::fold_step;
use cstar_base::{Elem, Winner};
use paris_code::{Field, Reduction};

/// A send: the field that the messages go to, its type, and the fields of the senders.
#[derive(Clone, Copy)]
pub(crate) struct Send {
    pub(crate) dest: Field,
    pub(crate) kind: Elem,
    pub(crate) address: Field,
    pub(crate) source: Field,
}

ghost use Rattle.phase_meaning.specs.Sends.{kept};

/// Which message stays where one of a sender with a greater number comes to an earlier one.
fn kept(winner: Winner, earlier: Option<u32>, message: u32) -> u32
    ensures { result ≡ kept winner earlier message }
{
    match winner {
        Winner::High => message,
        Winner::Low => earlier.unwrap_or(message),
    }
}

impl RowPhases {
    ghost use Rattle.phase_gate.specs.Rows.{sets_of, memory_of, room_of};
    ghost use Rattle.phase_gate.specs.Sends.{SendFits};

    /// The processor that a sender's message goes to: none if the sender is not active, or if there
    /// is no processor with this number.
    fn target(&self, send: &Send, sender: u32) -> Option<u32>
        requires send { SendFits (sets_of self.now) send.now }
        requires sender { IsPosition (sets_of self.now) send.now.address.set sender }
        ensures { MatchOption result
            ((t : ℕ) → t < processors (sets_of self.now) send.now.dest.set → sends_to (sets_of self.now) (memory_of self.now) send.now.address t sender ≡ false)
            (λ target. (target < processors (sets_of self.now) send.now.dest.set) × ((t : ℕ) → sends_to (sets_of self.now) (memory_of self.now) send.now.address t sender ≡ (target == t))) }
    {
        let target = self.field(send.address, sender);
        if self.is_active(send.address.set, sender) && target < self.positions(send.dest.set) {
            Some(target)
        } else {
            None
        }
    }

    /// Holds no word for any processor of a set.
    fn clear(&mut self, set: u16)
        requires { set < length (sets_of self.old) }
        ensures sets { sets_of self.new ≡ sets_of self.old }
        ensures memory { memory_of self.new ≡ memory_of self.old }
        ensures none { (p : ℕ) → p < processors (sets_of self.old) set → room_of self.new set p ≡ None }
    {
        'positions: for position in 0..self.positions(set) {
            self.gather(set, position, None);
        }
    }

    /// Gathers for each target the message of its winning sender.
    fn gather_winners(&mut self, send: &Send)
        requires { SendFits (sets_of self.old) send.now }
        ensures sets { sets_of self.new ≡ sets_of self.old }
        ensures memory { memory_of self.new ≡ memory_of self.old }
        ensures words { (p : ℕ) → p < processors (sets_of self.old) send.now.dest.set → (let winner = winning_sender (sets_of self.old) (memory_of self.old) send.now.address p in
            room_of self.new send.now.dest.set p ≡ then_some (is_some winner) (message_or_zero (memory_of self.old) send.now.source winner)) }
    {
        self.clear(send.dest.set);
        'senders: for sender in 0..self.positions(send.address.set) {
            if let Some(target) = self.target(send, sender) {
                let message = self.field(send.source, sender);
                let earlier = self.gathered(send.dest.set, target);
                let word = kept(self.winner, earlier, message);
                self.gather(send.dest.set, target, Some(word));
            }
        }
    }

    /// Gathers for each target the fold over its senders, from its old value.
    fn gather_combined(&mut self, send: &Send, combiner: Reduction)
        requires { SendFits (sets_of self.old) send.now }
        ensures sets { sets_of self.new ≡ sets_of self.old }
        ensures memory { memory_of self.new ≡ memory_of self.old }
        ensures words { (p : ℕ) → p < processors (sets_of self.old) send.now.dest.set →
            room_of self.new send.now.dest.set p ≡ then_some (is_some (winning_sender (sets_of self.old) (memory_of self.old) send.now.address p))
            (combined (sets_of self.old) (memory_of self.old) combiner send.now.dest send.now.kind.signed send.now.address send.now.source p) }
    {
        let (combine, unsigned) = combiner.combiner();
        self.clear(send.dest.set);
        'senders: for sender in 0..self.positions(send.address.set) {
            if let Some(target) = self.target(send, sender) {
                let message = self.field(send.source, sender);
                let old = self.word(send.kind.signed, send.dest, target);
                let so_far = self.gathered(send.dest.set, target).unwrap_or(old);
                let word = fold_step(combine, unsigned, so_far, message);
                self.gather(send.dest.set, target, Some(word));
            }
        }
    }

    /// The send with a combiner.
    pub(crate) fn send(&mut self, send: &Send, combiner: Reduction)
        requires { SendFits (sets_of self.old) send.now }
        ensures sets { sets_of self.new ≡ sets_of self.old }
        ensures memory { SameBits (sets_of self.old) (memory_of self.new) (written (combining (sets_of self.old) (memory_of self.old) combiner send.now.dest send.now.kind send.now.address send.now.source) (memory_of self.old)) }
    {
        self.gather_combined(send, combiner);
        self.write_gathered(send.dest, Some(send.kind));
    }

    /// The send without a combiner: of the messages that come to a target one stays.
    pub(crate) fn overwrite(&mut self, send: &Send)
        requires { SendFits (sets_of self.old) send.now }
        ensures sets { sets_of self.new ≡ sets_of self.old }
        ensures memory { SameBits (sets_of self.old) (memory_of self.new) (written (overwriting (sets_of self.old) (memory_of self.old) send.now.dest send.now.address send.now.source) (memory_of self.old)) }
    {
        self.gather_winners(send);
        self.write_gathered(send.dest, None);
    }
}
