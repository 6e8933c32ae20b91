ghost use Rattle.std.specs.Prelude.{◌≡◌, ◌≢◌, ℕ, ◌+◌, ◌^◌, ◌<◌, ◌≤◌, ◌==◌, ◌||◌, ◌⊎◌, length, IfOk};
ghost use Rattle.cstar_base.specs.Numbers.{residue, number_of};
ghost use Rattle.paris_code.specs.Fetching.{at_one};
ghost use Rattle.paris_code.specs.Memory.{SameBits, fresh_memory, field_number, whole_number, is_active, is_tested};
ghost use Rattle.paris_code.specs.Writes.{written};
ghost use Rattle.vp_sets.specs.Positions.{position_count};
ghost use Rattle.paris_code.specs.Shapes.{bits_at, extents_at};
ghost use Rattle.phase_meaning.specs.Apply.{IsPosition, LiesIn};
ghost use Rattle.paris_code.specs.Sound.{IsShape};
ghost use Rattle.paris_code.specs.Shapes.{shape_of, shapes_of};
ghost use Rattle.phase_gate.specs.Rows.{IsFresh};

use crate::rows::Rows;
use cstar_base::{Memory, Winner};
use image_check::Sound;
use paris_code::{Field, ShapeBits};
use phase_meaning::arith::extended;
use std::alloc::Global;
use vp_sets::Geometry;

/// The phases on one thread: one loop over the processors for each instruction.
#[derive(Drop)]
pub struct RowPhases {
    pub(crate) sets: Vec<Rows>,
    pub(crate) winner: Winner,
}

/// The rows of a shape.
fn rows_of(alloc: Global, shape: &ShapeBits) -> Result<Rows, Memory>
    requires { IsShape (shape_of shape.now) }
    ensures shape { IfOk result (λ rows. (rows.geometry ≡ shape.now.extents.items) × (rows.bits ≡ shape.now.bits)) }
    ensures fresh { IfOk result (λ rows. IsFresh rows) }
{
    let geometry = match Geometry::new(shape.extents.as_slice()) {
        Ok(geometry) => geometry,
        Err(_bad) => unreachable!(),
    };
    Rows::new(alloc, geometry, shape.bits)
}

impl RowPhases {
    ghost use Rattle.phase_gate.specs.Rows.{shape_of_rows, sets_of, memory_of, row_bit, room_of, room_word};

    #[tactic(auto, using(phase_meaning::proofs::FieldLemmas::shape_kept))]
    /// New phases for an image: all fields and test flags 0, all context flags 1, and of colliding
    /// senders the one with the greatest number wins.
    pub fn new(alloc: Global, sound: &Sound) -> Result<RowPhases, Memory>
        ensures sets { IfOk result (λ p. sets_of p ≡ shapes_of sound.now) }
        ensures fresh { IfOk result (λ p. SameBits (shapes_of sound.now) (memory_of p) (fresh_memory (shapes_of sound.now))) }
    {
        let mut sets = Vec::new(alloc);
        'shapes: for shape in sound.image().shapes.iter() {
            sets.push(rows_of(alloc, shape)?)?;
        }
        Ok(RowPhases {
            sets,
            winner: Winner::High,
        })
    }

    /// The rows of a set.
    pub(crate) fn rows(&self, set: u16) -> &Rows
        requires { set < length (sets_of self.now) }
        ensures extents { result.now.geometry ≡ extents_at (sets_of self.now) set }
        ensures bits { result.now.bits ≡ bits_at (sets_of self.now) set }
        ensures cells { row_bit result.now ≡ (memory_of self.now).bit set }
        ensures room { room_word result.now ≡ room_of self.now set }
    {
        &self.sets[usize::from(set)]
    }

    /// The number in a field of a processor, unsigned.
    pub(crate) fn field(&self, f: Field, position: u32) -> u32
        requires field { LiesIn (sets_of self.now) f }
        requires position { IsPosition (sets_of self.now) f.set position }
        ensures value { result ≡ field_number (memory_of self.now) f position }
        ensures bound { result < 2 ^ f.len }
    {
        self.rows(f.set).number(position, f.offset, f.len)
    }

    /// The number in a field of a processor as a word.
    pub(crate) fn word(&self, signed: bool, f: Field, position: u32) -> u32
        requires field { LiesIn (sets_of self.now) f }
        requires position { IsPosition (sets_of self.now) f.set position }
        ensures value { result ≡ residue 32 (whole_number (memory_of self.now) signed f position) }
        ensures whole { number_of 32 signed result ≡ whole_number (memory_of self.now) signed f position }
    {
        extended(signed, f.len, self.field(f, position))
    }

    /// How many positions a set has.
    pub(crate) fn positions(&self, set: u16) -> u32
        requires { set < length (sets_of self.now) }
        ensures { result ≡ position_count (extents_at (sets_of self.now) set) }
    {
        self.rows(set).positions()
    }

    pub(crate) fn is_active(&self, set: u16, position: u32) -> bool
        requires { IsPosition (sets_of self.now) set position }
        ensures { result ≡ is_active (sets_of self.now) (memory_of self.now) set position }
    {
        self.rows(set).is_active(position)
    }

    /// Whether an instruction that writes at the active processors, or at all, does so at this one.
    pub(crate) fn takes(&self, set: u16, always: bool, position: u32) -> bool
        requires { IsPosition (sets_of self.now) set position }
        ensures { result ≡ (always || is_active (sets_of self.now) (memory_of self.now) set position) }
    {
        always || self.is_active(set, position)
    }

    pub(crate) fn is_tested(&self, set: u16, position: u32) -> bool
        requires { IsPosition (sets_of self.now) set position }
        ensures { result ≡ is_tested (sets_of self.now) (memory_of self.now) set position }
    {
        self.rows(set).test(position)
    }

    /// Writes a number, modulo 2 to the length, to a run of bits of a processor.
    #[tactic(auto, using(crate::proofs::RowSets::same_sets))]
    pub(crate) fn write(&mut self, run: Field, position: u32, n: u32)
        requires position { IsPosition (sets_of self.old) run.set position }
        requires len { (1 ≤ run.len) × (run.len ≤ 32) }
        requires inside { run.offset + run.len ≤ bits_at (sets_of self.old) run.set + 2 }
        ensures sets { sets_of self.new ≡ sets_of self.old }
        ensures bits { SameBits (sets_of self.old) (memory_of self.new) (written (at_one run position n) (memory_of self.old)) }
        ensures room { room_of self.new ≡ room_of self.old }
    {
        self.sets[usize::from(run.set)].set_number(position, run.offset, run.len, n);
    }

    /// The word that is held for a processor, if any.
    pub(crate) fn gathered(&self, set: u16, position: u32) -> Option<u32>
        requires { IsPosition (sets_of self.now) set position }
        ensures { result ≡ room_of self.now set position }
    {
        self.rows(set).gathered(position)
    }

    /// Holds a word for a processor, or none.
    #[tactic(auto, using(crate::proofs::RowSets::same_sets))]
    pub(crate) fn gather(&mut self, set: u16, position: u32, word: Option<u32>)
        requires { IsPosition (sets_of self.old) set position }
        ensures sets { sets_of self.new ≡ sets_of self.old }
        ensures memory { memory_of self.new ≡ memory_of self.old }
        ensures held { room_of self.new set position ≡ word }
        ensures others { (s p : ℕ) → (s ≢ set) ⊎ (p ≢ position) → room_of self.new s p ≡ room_of self.old s p }
    {
        self.sets[usize::from(set)].gather(position, word);
    }
}
