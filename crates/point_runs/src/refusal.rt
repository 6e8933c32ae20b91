//! Why a file has no image.

ghost use Rattle.std.specs.Prelude.{◌≡◌};
ghost use Rattle.cstar_base.specs.declared.faults.Fault.TheVariants as F;
ghost use Rattle.point_runs.specs.declared.refusal.NoImage.TheVariants as N;
ghost use Rattle.point_runs.specs.Refusals.{file_start};

use cstar_base::{Fault, Memory, Place};

/// The greatest length of a program or a listing, in bytes.
pub const FILE_LIMIT: u32 = 1_048_576;

/// The greatest length of a saved point, in bytes.
pub const POINT_LIMIT: u32 = 1_073_741_824;

/// Where a fault of a whole file is told.
pub const FILE_START: Place = Place { line: 1, col: 1 };

/// Why there is no image of a file: it is refused for this fault at this place, or there is no
/// memory.
#[derive(Clone, Copy)]
pub enum NoImage {
    Refused { fault: Fault, place: Place },
    Memory,
}

impl From<Memory> for NoImage {
    ghost use Rattle.point_runs.specs.declared.refusal.NoImage.TheVariants.{Memory};

    ghost from_gives = { λ _ no_image. no_image ≡ Memory };

    fn from(_error: Memory) -> NoImage {
        NoImage::Memory
    }
}

/// The refusal of a file that is too long.
pub fn too_long() -> NoImage
    ensures { result ≡ N.Refused F.TooLong file_start }
{
    refused(Fault::TooLong, FILE_START)
}

/// The refusal of a file for this fault at this place.
pub fn refused(fault: Fault, place: Place) -> NoImage
    ensures { result ≡ N.Refused fault place }
{
    NoImage::Refused { fault, place }
}
