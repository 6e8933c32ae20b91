//! Which kept states fit an image.

ghost use Rattle.std.specs.Prelude.{◌≡◌, ℕ, ◌↔◌, ◌+◌, ◌<◌, IsTrue, IfSome, IfNone, length, slice_index_or};
ghost use Rattle.paris_code.specs.Units.{IsAt, starts_of, unit_of};
ghost use Rattle.front_end.specs.Fit.{IsBehindCall, IsPlace};
ghost use Rattle.front_end.specs.Kept.{KeptFits};

use crate::kept::Kept;
use crate::step::{instr_at, start_of};
use image_check::Sound;
use paris_code::Instr;

/// Where the unit behind a unit begins, or the code ends.
fn end_of(sound: &Sound, unit: u32) -> u32
    requires { unit < length sound.now.units.items }
    ensures { result ≡ slice_index_or (starts_of sound.now) (unit + 1) (length sound.now.code.items) }
{
    let image = sound.image();
    let next = unit as usize + 1;
    if next < image.units.len() {
        image.units[next].start
    } else {
        image.code.len() as u32
    }
}

/// Whether a place is one of the code, in the unit.
fn is_in_unit(sound: &Sound, place: u32, unit: u32) -> bool
    requires { unit < length sound.now.units.items }
    ensures { IsTrue result ↔ ((place < length sound.now.code.items) × (unit_of sound.now place ≡ unit)) }
{
    let _image = sound.image();
    let start = start_of(sound, unit);
    let end = end_of(sound, unit);
    start <= place && place < end
}

/// The unit that the instruction before a place of the code calls.
fn called_before(sound: &Sound, place: u32) -> Option<u32>
    ensures some { IfSome result (λ called. IsBehindCall sound.now place called × (called < length sound.now.units.items)) }
    ensures none { IfNone result ((called : ℕ) → ¬ IsBehindCall sound.now place called) }
{
    if place == 0 || sound.image().code.len() <= place as usize {
        return None;
    }
    match instr_at(sound, place - 1) {
        Instr::FrontCall { unit } => Some(*unit),
        _ => None,
    }
}

/// Whether these are the places behind the calls that are open at a place of the code.
fn is_place(sound: &Sound, at: u32, returns: &[u32]) -> bool
    ensures { IsTrue result ↔ IsPlace sound.now at returns.now }
{
    let _image = sound.image();
    let mut unit = 0;
    'returns: for place in returns {
        if !is_in_unit(sound, *place, unit) {
            return false;
        }
        match called_before(sound, *place) {
            Some(called) => unit = called,
            None => return false,
        }
    }
    is_in_unit(sound, at, unit)
}

impl Kept {
    /// Whether the state fits the image: it has a register for each slot, and stands at an
    /// instruction behind its open calls.
    pub fn fits(&self, sound: &Sound) -> bool
        ensures { IsTrue result ↔ KeptFits sound.now self.now }
    {
        is_place(sound, self.at, self.returns.list())
            && self.regs.list().len() == sound.image().slots as usize
    }

    /// Whether a turn stands where the state does.
    pub fn at_turn(&self, sound: &Sound) -> bool
        ensures { IsTrue result ↔ IsAt sound.now self.now.at Instr.FrontTurn }
    {
        matches!(
            sound.image().code.get(self.at as usize),
            Some(Instr::FrontTurn)
        )
    }
}
