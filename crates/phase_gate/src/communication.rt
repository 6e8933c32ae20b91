//! Instructions whose values come from other processors: they are gathered, one word for each
//! processor, before anything is written.

ghost use Rattle.std.specs.Prelude.{ℕ, ◌≡◌, ◌+◌, ◌<◌, ◌≤◌, ◌≢◌, ◌⊎◌, ◌^◌, false, length};
ghost use Rattle.paris_code.specs.Fetching.{number_or_zero, global_fold, of_named};
ghost use Rattle.paris_code.specs.Memory.{SameBits, field_number, processors};
ghost use Rattle.paris_code.specs.Writes.{written};
ghost use Rattle.vp_sets.specs.Positions.{position_count, shifted};
ghost use Rattle.paris_code.specs.Shapes.{bits_at, extents_at, rank_at};
ghost use Rattle.phase_meaning.specs.Apply.{IsPosition, LiesIn};
ghost use Rattle.phase_meaning.specs.Gathered.{in_kind};

use crate::row_phases::RowPhases;
use cstar_base::Elem;
use cstar_base::numbers::{convert, fold_step, identity};
use paris_code::{Field, Reduction};

/// A word, converted to a type where one is named.
#[tactic(auto, unfolding(cstar_base::specs::Numbers::converted))]
fn in_kind(kind: Option<Elem>, word: u32) -> u32
    ensures { result ≡ in_kind kind word }
{
    match kind {
        None => word,
        Some(kind) => convert(kind, Elem::INT, word),
    }
}

impl RowPhases {
    ghost use Rattle.phase_gate.specs.Rows.{sets_of, memory_of, room_of};
    ghost use Rattle.phase_meaning.specs.Gathered.{held, word_if};

    /// Writes the words that are held for a set's processors to a field of these.
    pub(crate) fn write_gathered(&mut self, dest: Field, kind: Option<Elem>)
        requires { LiesIn (sets_of self.old) dest }
        ensures sets { sets_of self.new ≡ sets_of self.old }
        ensures memory { SameBits (sets_of self.old) (memory_of self.new) (written (held dest kind (room_of self.old dest.set)) (memory_of self.old)) }
    {
        'positions: for position in 0..self.positions(dest.set) {
            if let Some(word) = self.gathered(dest.set, position) {
                self.write(dest, position, in_kind(kind, word));
            }
        }
    }

    /// Holds a word for a processor that takes one, as the active ones do, or all; else none.
    pub(crate) fn hold(&mut self, set: u16, always: bool, position: u32, word: u32)
        requires { IsPosition (sets_of self.old) set position }
        ensures sets { sets_of self.new ≡ sets_of self.old }
        ensures memory { memory_of self.new ≡ memory_of self.old }
        ensures held { room_of self.new set position ≡ word_if (sets_of self.old) (memory_of self.old) set always position word }
        ensures others { (s p : ℕ) → (s ≢ set) ⊎ (p ≢ position) → room_of self.new s p ≡ room_of self.old s p }
    {
        let taken = self.takes(set, always, position).then_some(word);
        self.gather(set, position, taken);
    }

    /// Gathers the source of the neighbour `by` steps along an axis, round its ends.
    pub(crate) fn gather_shift(&mut self, source: Field, axis: u32, by: i32, always: bool)
        requires field { LiesIn (sets_of self.old) source }
        requires axis { axis < rank_at (sets_of self.old) source.set }
        ensures sets { sets_of self.new ≡ sets_of self.old }
        ensures memory { memory_of self.new ≡ memory_of self.old }
        ensures words { (p : ℕ) → p < processors (sets_of self.old) source.set → room_of self.new source.set p ≡ word_if (sets_of self.old) (memory_of self.old) source.set always p (field_number (memory_of self.old) source (shifted (extents_at (sets_of self.old) source.set) p axis by)) }
    {
        'positions: for position in 0..self.positions(source.set) {
            let from = self.rows(source.set).geometry.shift(position, axis, by);
            let word = self.field(source, from);
            self.hold(source.set, always, position, word);
        }
    }

    /// Gathers the source of the processors that the addresses name, and 0 where there is none.
    pub(crate) fn gather_named(&mut self, address: Field, source: Field)
        requires address { LiesIn (sets_of self.old) address }
        requires source { LiesIn (sets_of self.old) source }
        ensures sets { sets_of self.new ≡ sets_of self.old }
        ensures memory { memory_of self.new ≡ memory_of self.old }
        ensures words { (p : ℕ) → p < processors (sets_of self.old) address.set → room_of self.new address.set p ≡ word_if (sets_of self.old) (memory_of self.old) address.set false p (of_named (sets_of self.old) (memory_of self.old) address source p) }
    {
        'positions: for position in 0..self.positions(address.set) {
            let from = self.field(address, position);
            let word = self.field_or_zero(source, from);
            self.hold(address.set, false, position, word);
        }
    }

    /// The number in a field of a processor, and 0 if there is no such processor.
    #[tactic(auto, unfolding(paris_code::specs::Fetching::number_or_zero), using(phase_meaning::proofs::Tests::less, phase_meaning::proofs::Tests::not_less))]
    pub(crate) fn field_or_zero(&self, source: Field, processor: u32) -> u32
        requires { LiesIn (sets_of self.now) source }
        ensures value { result ≡ number_or_zero (sets_of self.now) (memory_of self.now) source processor }
        ensures bound { result < 2 ^ source.len }
    {
        if self.positions(source.set) <= processor {
            return 0;
        }
        self.field(source, processor)
    }

    /// The fold of a field over the active processors in order.
    pub(crate) fn reduce(&self, combiner: Reduction, source: Field) -> u32
        requires { LiesIn (sets_of self.now) source }
        ensures { result ≡ global_fold (sets_of self.now) (memory_of self.now) combiner source }
    {
        let (combine, unsigned) = combiner.combiner();
        let mut total = identity(combine, unsigned);
        'positions: for position in 0..self.positions(source.set) {
            if self.is_active(source.set, position) {
                let word = self.word(!unsigned, source, position);
                total = fold_step(combine, unsigned, total, word);
            }
        }
        total
    }
}
