//! The processors of a set, row by row: the bits of a processor are a run of machine words, its
//! fields first, then its context flag, then its test flag.

ghost use Rattle.std.specs.Prelude.{◌≡◌, ◌≢◌, ℕ, ◌+◌, ◌-◌, ◌*◌, ◌<◌, ◌≤◌, ◌^◌, ◌⊎◌, ◌==◌, vec_len, IfOk, if◌then◌else◌};
ghost use Rattle.std.specs.Int.{bit_at};
ghost use Rattle.vp_sets.specs.Positions.{position_count};
ghost use Rattle.paris_code.specs.Memory.{run_number};

use cstar_base::Memory;
use phase_meaning::arith::mask;
use std::alloc::Global;
use vp_sets::Geometry;

/// The bits of a word of a row.
const WORD: u32 = 32;

#[derive(Drop)]
pub(crate) struct Rows {
    pub(crate) geometry: Geometry,
    pub(crate) bits: u32,
    positions: u32,
    /// The machine words of one row.
    words: u32,
    cells: Vec<u32>,
    /// The word that each processor is to take, if any: words are gathered before they are written.
    room: Vec<Option<u32>>,
    ghost few: { bits ≤ 2 ^ 30 },
    ghost wide: { bits + 65 ≤ 32 * words },
    ghost narrow: { words ≤ 2 ^ 26 },
    ghost counted: { positions ≡ position_count geometry },
    ghost short: { positions ≤ 2 ^ 20 },
    ghost all: { vec_len cells ≡ positions * words },
    ghost one_each: { vec_len room ≡ positions },
}

impl Rows {
    ghost use Rattle.phase_gate.specs.Rows.{shape_of_rows, row_bit, room_word, IsFresh};

    /// Rows of zeros, but for the context flags, which are 1.
    pub(crate) fn new(alloc: Global, geometry: Geometry, bits: u32) -> Result<Rows, Memory>
        requires { bits ≤ 2 ^ 30 }
        ensures shape { IfOk result (λ rows. shape_of_rows rows ≡ record { extents = geometry; bits = bits }) }
        ensures fresh { IfOk result (λ rows. IsFresh rows) }
    {
        let positions = geometry.positions();
        let words = bits / WORD + 3;
        let count = positions as usize * words as usize;
        let cells = vec![in alloc; 0; count]?;
        let room = vec![in alloc; None; positions as usize]?;
        let mut rows = Rows {
            geometry,
            bits,
            positions,
            words,
            cells,
            room,
        };
        'contexts: for position in 0..positions {
            rows.set_number(position, bits, 1, 1);
        }
        Ok(rows)
    }

    pub(crate) fn positions(&self) -> u32
        ensures { result ≡ position_count self.now.geometry }
    {
        self.positions
    }

    /// Where a word of a row is held.
    fn cell(&self, position: u32, word: u32) -> usize
        requires position { position < self.now.positions }
        requires word { word < self.now.words }
        ensures place { result ≡ position * self.now.words + word }
        ensures inside { result < vec_len self.now.cells }
    {
        position as usize * self.words as usize + word as usize
    }

    /// A word of a row and the next one, as one number.
    fn window(&self, position: u32, word: u32) -> u64
        requires position { position < self.now.positions }
        requires word { word + 1 < self.now.words }
        ensures { (j : ℕ) → j < 64 → bit_at result j ≡ row_bit self.now position (32 * word + j) }
    {
        let at = self.cell(position, word);
        u64::from(self.cells[at]) + (u64::from(self.cells[at + 1]) << WORD)
    }

    /// Writes a word of a row and the next one.
    fn set_window(&mut self, position: u32, word: u32, n: u64)
        requires position { position < self.old.positions }
        requires word { word + 1 < self.old.words }
        ensures shape { shape_of_rows self.new ≡ shape_of_rows self.old }
        ensures words { self.new.words ≡ self.old.words }
        ensures room { room_word self.new ≡ room_word self.old }
        ensures inside { (j : ℕ) → j < 64 → row_bit self.new position (32 * word + j) ≡ bit_at n j }
        ensures outside { (p i : ℕ) → i < 32 * self.old.words → (p ≢ position) ⊎ ((i < 32 * word) ⊎ (32 * word + 64 ≤ i)) → row_bit self.new p i ≡ row_bit self.old p i }
    {
        let at = self.cell(position, word);
        self.cells[at] = (n & 0xffff_ffff) as u32;
        self.cells[at + 1] = (n >> WORD) as u32;
    }

    /// The number in a run of bits of a processor, unsigned.
    pub(crate) fn number(&self, position: u32, offset: u32, len: u8) -> u32
        requires position { position < position_count self.now.geometry }
        requires len { (1 ≤ len) × (len ≤ 32) }
        requires inside { offset + len ≤ self.now.bits + 2 }
        ensures value { result ≡ run_number (row_bit self.now position) offset len }
        ensures bound { result < 2 ^ len }
    {
        let window = self.window(position, offset / WORD);
        (window >> (offset % WORD) & u64::from(mask(len))) as u32
    }

    /// Writes a number, modulo 2 to the length, to a run of bits of a processor.
    pub(crate) fn set_number(&mut self, position: u32, offset: u32, len: u8, n: u32)
        requires position { position < position_count self.old.geometry }
        requires len { (1 ≤ len) × (len ≤ 32) }
        requires inside { offset + len ≤ self.old.bits + 2 }
        ensures shape { shape_of_rows self.new ≡ shape_of_rows self.old }
        ensures room { room_word self.new ≡ room_word self.old }
        ensures inside { (i : ℕ) → offset ≤ i → i < offset + len → row_bit self.new position i ≡ bit_at n (i - offset) }
        ensures outside { (p i : ℕ) → i < self.old.bits + 2 → (p ≢ position) ⊎ ((i < offset) ⊎ (offset + len ≤ i)) → row_bit self.new p i ≡ row_bit self.old p i }
    {
        let shift = offset % WORD;
        let ones = u64::from(mask(len));
        let window = self.window(position, offset / WORD);
        let held = window >> shift & ones;
        let number = u64::from(n) & ones;
        let changed = window - (held << shift) + (number << shift);
        self.set_window(position, offset / WORD, changed);
    }

    /// The context flag of a processor: whether it is active.
    pub(crate) fn is_active(&self, position: u32) -> bool
        requires { position < position_count self.now.geometry }
        ensures { result ≡ (row_bit self.now position self.now.bits == 1) }
    {
        self.number(position, self.bits, 1) == 1
    }

    /// The test flag of a processor.
    pub(crate) fn test(&self, position: u32) -> bool
        requires { position < position_count self.now.geometry }
        ensures { result ≡ (row_bit self.now position (self.now.bits + 1) == 1) }
    {
        self.number(position, self.bits + 1, 1) == 1
    }

    /// The word that is held for a processor, if any.
    pub(crate) fn gathered(&self, position: u32) -> Option<u32>
        requires { position < position_count self.now.geometry }
        ensures { result ≡ room_word self.now position }
    {
        self.room[position as usize]
    }

    /// Holds a word for a processor, or none.
    pub(crate) fn gather(&mut self, position: u32, word: Option<u32>)
        requires { position < position_count self.old.geometry }
        ensures shape { shape_of_rows self.new ≡ shape_of_rows self.old }
        ensures bits { row_bit self.new ≡ row_bit self.old }
        ensures held { room_word self.new position ≡ word }
        ensures others { (p : ℕ) → p ≢ position → room_word self.new p ≡ room_word self.old p }
    {
        self.room[position as usize] = word;
    }
}
