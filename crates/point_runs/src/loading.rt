//! From the bytes of a saved point to the start of the run that goes on from it.

ghost use Rattle.std.specs.Prelude.{◌≡◌, ◌<◌, ◌≤◌, Err, IfErr, IfOk, MatchBool, length};
ghost use Rattle.cstar_base.specs.declared.faults.Fault.TheVariants as F;
ghost use Rattle.point_runs.specs.declared.refusal.NoImage.TheVariants as N;
ghost use Rattle.point_runs.specs.Points.{CanGoOn, IsPointOf, RefusesPoint, RefusesState, Resumes, ResumesPoint};
ghost use Rattle.point_runs.specs.Refusals.{TellsWhy, file_start};
ghost use Rattle.point_runs.specs.Starts.{CanStart, origin_of};

use crate::assemble::assembled_part;
use crate::refusal::{FILE_START, NoImage, POINT_LIMIT, refused, too_long};
use crate::start::Start;
use checkpoint::{LoadFault, Point, load};
use cstar_base::{Fault, Place};
use front_end::Kept;
use image_check::Sound;
use point_bits::are_bits;
use std::alloc::Global;

/// Where the run goes on from the saved point whose bytes these are. Refused in this order: bytes
/// that are too many, the first byte with which they begin no point, what `assembled` refuses of the
/// point's listing but for its registers and open calls, and a state that is none at which a run of
/// that image stops.
pub fn resumed(alloc: Global, text: Vec<u8>) -> Result<Start, NoImage>
    ensures start { IfOk result (λ start. Resumes text.items (origin_of start)) }
    ensures can { IfOk result CanStart }
    ensures too_long { POINT_LIMIT < length text.items → result ≡ Err (N.Refused F.TooLong file_start) }
    ensures refused { IfErr result (TellsWhy (RefusesPoint text.items)) }
{
    match loaded(alloc, text) {
        Ok(point) => started(alloc, point),
        Err(no_image) => Err(no_image),
    }
}

/// The point whose bytes these are; its bits stay in their memory.
fn loaded(alloc: Global, text: Vec<u8>) -> Result<Point, NoImage>
    ensures point { IfOk result (IsPointOf text.items) }
    ensures too_long { POINT_LIMIT < length text.items → result ≡ Err (N.Refused F.TooLong file_start) }
    ensures refused { IfErr result (TellsWhy (RefusesPoint text.items)) }
{
    if text.len() > POINT_LIMIT as usize {
        return Err(too_long());
    }
    match load(alloc, text) {
        Ok(point) => Ok(point),
        Err(LoadFault::Bad { at }) => {
            let place = Place {
                line: 1,
                col: at + 1,
            };
            Err(refused(Fault::Point, place))
        }
        Err(LoadFault::Memory) => Err(NoImage::Memory),
    }
}

/// Where the run goes on from a point.
fn started(alloc: Global, point: Point) -> Result<Start, NoImage>
    requires { length point.listing ≤ POINT_LIMIT }
    ensures start { IfOk result (λ start. ResumesPoint point (origin_of start)) }
    ensures can { IfOk result CanStart }
    ensures refused { IfErr result (TellsWhy (RefusesState point)) }
{
    let Point {
        winner,
        ended,
        at,
        regs,
        returns,
        listing,
        bits,
    } = point;
    let sound = match assembled_part(alloc, listing.bytes()) {
        Ok(sound) => sound,
        Err(no_image) => return Err(no_image),
    };
    let kept = Kept {
        at,
        regs,
        returns,
        ended,
    };
    if !can_go_on(&sound, &kept, bits.bytes()) {
        return Err(refused(Fault::State, FILE_START));
    }
    Ok(Start {
        sound,
        kept,
        winner,
        bits: Some(bits),
    })
}

/// Whether a run of the image can have stopped in this state, with these bits of its sets.
fn can_go_on(sound: &Sound, kept: &Kept, bits: &[u8]) -> bool
    ensures { MatchBool result (CanGoOn sound.now kept.now bits.now) (CanGoOn sound.now kept.now bits.now → ⊥) }
{
    kept.fits(sound) && kept.at_turn(sound) && are_bits(sound, bits)
}
