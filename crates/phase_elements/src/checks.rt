//! The processors that checks are about.

ghost use Rattle.std.specs.Prelude.{◌≡◌};
ghost use Rattle.paris_code.specs.Checking.{checked_set, set_of_coordinates};

use paris_code::{Coordinate, Instr, SignedCoordinate};

/// The set whose processors check these coordinates: that of the first field, or else the target's.
fn checking_set(target: u16, list: &[SignedCoordinate]) -> u16
    ensures { result ≡ set_of_coordinates target list.now }
{
    match list.split_first() {
        None => target,
        Some((first, rest)) => match first.coordinate {
            Coordinate::Field(f) => f.set,
            Coordinate::Reg(_) => checking_set(target, rest),
        },
    }
}

/// The set whose processors a check is about; 0 for another instruction.
pub fn checked_set(instr: &Instr) -> u16
    ensures { result ≡ checked_set instr.now }
{
    match instr {
        Instr::CheckTarget {
            set,
            coordinates,
            ..
        } => checking_set(*set, coordinates.as_slice()),
        Instr::CheckGrid { set, .. } => *set,
        Instr::CheckDivisor { source, .. } => source.set,
        _ => 0,
    }
}
