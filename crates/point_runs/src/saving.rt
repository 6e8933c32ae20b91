//! From a run that stopped to its point.

ghost use Rattle.std.specs.Prelude.{◌≡◌, ◌<◌, ◌^◌, IfOk, length};
ghost use Rattle.checkpoint.specs.Bytes.{AreWords, IsHeld};
ghost use Rattle.block_store.specs.Stored.{AreWhole, stored};
ghost use Rattle.cstar_base.specs.declared.operators.Winner.{Winner};
ghost use Rattle.front_end.specs.Kept.{KeptFits};
ghost use Rattle.paris_code.specs.Listing.{listing};
ghost use Rattle.paris_code.specs.Shapes.{shapes_of};
ghost use Rattle.point_runs.specs.Points.{point_with};

use crate::text_sink::TextSink;
use block_store::BlockSet;
use checkpoint::{Bits, Point};
use cstar_base::{Memory, Winner, Word};
use front_end::Kept;
use image_check::Sound;
use paris_code::Image;
use paris_text::print;
use point_bits::gather;
use std::alloc::Global;

/// The point of a run of an image that stopped in this state, with these sets. Each block of theirs is
/// let go as soon as its bits are taken.
pub fn point_of(
    alloc: Global,
    sound: &Sound,
    kept: Kept,
    winner: Winner,
    sets: Vec<BlockSet>,
) -> Result<Point, Memory>
    requires fits { KeptFits sound.now kept }
    requires sets { AreWhole (shapes_of sound.now) sets.items }
    ensures point { IfOk result (λ point. (w : Winner) → point ≡ point_with sound.now kept winner (stored sets.items w)) }
    ensures held { IfOk result IsHeld }
{
    let image = sound.image();
    let _slots = slots(image);
    let _depth = depth(image);
    are_words(kept.regs.list());
    are_words(kept.returns.list());
    let bits = Bits::of(gather(alloc, sound, sets)?);
    let listing = listing_of(alloc, sound)?;
    Ok(Point {
        winner,
        ended: kept.ended,
        at: kept.at,
        regs: kept.regs,
        returns: kept.returns,
        listing,
        bits,
    })
}

/// How many registers an image has.
fn slots(image: &Image) -> u32
    ensures { result ≡ image.now.slots }
{
    image.slots
}

/// How many calls of an image may be open.
fn depth(image: &Image) -> u32
    ensures { result ≡ image.now.depth }
{
    image.depth
}

/// Each of the numbers has 32 bits, by its type.
fn are_words(numbers: &[u32])
    ensures { AreWords numbers.now }
{}

/// The listing of an image.
fn listing_of(alloc: Global, sound: &Sound) -> Result<Word, Memory>
    ensures listing { IfOk result (λ text. text ≡ listing sound.now) }
    ensures small { IfOk result (λ text. length text < 2 ^ 64) }
{
    let mut text = TextSink::new(alloc);
    match print(sound.image(), &mut text) {
        Ok(()) => Ok(text.into_word()),
        Err(_) => Err(Memory),
    }
}
