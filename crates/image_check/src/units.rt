//! The units in which the instructions of an image stand.

ghost use Rattle.std.specs.Prelude.{ℕ, ◌≡◌, ◌≢◌, ◌↔◌, ◌<◌, ◌≤◌, ◌+◌, IsTrue, IfOk, length, map, slice_index};
ghost use Rattle.paris_code.specs.Sound.{IsNumbered};
ghost use Rattle.paris_code.specs.Units.{start_of, started, IsAt};
ghost use Rattle.paris_code.specs.RuleTarget.{AreStarts};
ghost use Rattle.image_check.specs.Tables.{AreBegun, AreUnitNumbers};

use paris_code::{Entry, Image, Instr};
use std::alloc::{AllocError, Global};

/// Whether there is a unit, the units start in increasing order, the first at 0, and each has an
/// instruction.
pub fn are_starts(units: &[Entry], end: usize) -> bool
    ensures some { IsTrue result → 0 < length units.now }
    ensures ordered { IsTrue result ↔ AreStarts (map start_of units.now) end }
{
    let Some((first, later)) = units.split_first() else {
        return false;
    };
    if first.start != 0 {
        return false;
    }
    let mut last = first.start;
    for unit in later {
        if unit.start <= last {
            return false;
        }
        last = unit.start;
    }
    (last as usize) < end
}

/// How many units begin at or before a place, of which the first `from` are known to.
fn count_started(units: &[Entry], from: usize, place: usize) -> usize
    requires { AreBegun (map start_of units.now) from place }
    ensures begun { AreBegun (map start_of units.now) result place }
    ensures count { result ≡ started (map start_of units.now) place }
{
    let mut count = from;
    while count < units.len() {
        if units[count].start as usize > place {
            return count;
        }
        count += 1;
    }
    count
}

/// The instruction at a place of the code.
pub fn instruction(image: &Image, place: usize) -> &Instr
    requires { place < length image.now.code.items }
    ensures { IsAt image.now place result.now }
{
    &image.code[place]
}

/// The unit of each instruction.
pub fn unit_numbers(alloc: Global, image: &Image) -> Result<Vec<u32>, AllocError>
    requires { IsNumbered image.now }
    ensures { IfOk result (λ v. AreUnitNumbers image.now v.items) }
{
    let mut numbers = Vec::new(alloc);
    let mut count: usize = 0;
    for place in 0..image.code.len() {
        count = count_started(image.units.as_slice(), count, place);
        numbers.push((count as u32).saturating_sub(1))?;
    }
    Ok(numbers)
}
