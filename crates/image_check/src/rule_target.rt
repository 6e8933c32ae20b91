//! Image rule 1: where jumps, calls and returns lead.

ghost use Rattle.std.specs.Prelude.{◌≡◌, ◌↔◌, ◌<◌, ◌≤◌, ◌+◌, ◌^◌, IsTrue, length};
ghost use Rattle.paris_code.specs.Units.{IsInUnitOf};
ghost use Rattle.paris_code.specs.RuleTarget.{GoesOn, KeepsTarget};
ghost use Rattle.image_check.specs.Tables.{AreUnitNumbers};

use paris_code::{Image, Instr};

/// Whether the target is a place of the code, in the unit of the other place.
fn is_in_unit_of(image: &Image, numbers: &[u32], target: usize, place: usize) -> bool
    requires numbered { AreUnitNumbers image.now numbers.now }
    requires inside { place < length numbers.now }
    ensures { IsTrue result ↔ IsInUnitOf image.now target place }
{
    target < numbers.len() && numbers[target] == numbers[place]
}

fn goes_on(image: &Image, numbers: &[u32], place: usize) -> bool
    requires numbered { AreUnitNumbers image.now numbers.now }
    requires inside { place < length numbers.now }
    ensures { IsTrue result ↔ GoesOn image.now place }
{
    is_in_unit_of(image, numbers, place + 1, place)
}

/// Whether an instruction keeps image rule 1.
pub fn keeps_target(image: &Image, numbers: &[u32], place: usize, instr: &Instr) -> bool
    requires numbered { AreUnitNumbers image.now numbers.now }
    requires inside { place < length numbers.now }
    ensures { IsTrue result ↔ KeepsTarget image.now place instr.now }
{
    match instr {
        Instr::FrontJump { target } => is_in_unit_of(image, numbers, *target as usize, place),
        Instr::FrontJumpZero { target, .. } | Instr::FrontJumpNonzero { target, .. } => {
            is_in_unit_of(image, numbers, *target as usize, place) && goes_on(image, numbers, place)
        }
        Instr::FrontCall { unit } => {
            (*unit as usize) < image.units.len() && goes_on(image, numbers, place)
        }
        Instr::FrontReturn => numbers[place] != 0,
        Instr::FrontHalt => true,
        _ => goes_on(image, numbers, place),
    }
}
