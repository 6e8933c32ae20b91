//! From a listing to a checked image.

ghost use Rattle.std.specs.Prelude.{◌≡◌, ◌<◌, ◌≤◌, ◌^◌, Err, IfErr, IfOk, true, false, length};
ghost use Rattle.cstar_base.specs.declared.faults.Fault.TheVariants as F;
ghost use Rattle.image_check.specs.Errors.{IsRefusalOf};
ghost use Rattle.listed_images.specs.Meaning.{IsListable};
ghost use Rattle.paris_code.specs.Listing.{listing};
ghost use Rattle.paris_code.specs.Plain.{IsPlain};
ghost use Rattle.paris_code.specs.Sound.{IsSound};
ghost use Rattle.point_runs.specs.declared.refusal.NoImage.TheVariants as N;
ghost use Rattle.point_runs.specs.Assembled.{BreaksRule, FitsMachine, FitsSets, RefusesListing, RefusesPart, RefusesSets, bits_of_set, bits_of_sets, line_in};
ghost use Rattle.point_runs.specs.Refusals.{TellsWhy, file_start};

use crate::refusal::{FILE_LIMIT, FILE_START, NoImage, refused, too_long};
use cstar_base::{Fault, Place};
use image_check::{CheckErr, Sound, verify};
use listed_images::have_words;
use paris_asm::{AsmFault, read};
use paris_code::{Image, ShapeBits};
use std::alloc::Global;
use vp_sets::{BLOCK_SIZE, Geometry};

/// How many bits the sets of a listing may take together, by whole blocks.
const BITS: u128 = 1 << 30;

/// How many registers a listing may have, and how many open calls.
const MOST_SLOTS: u32 = 67_108_864;

/// The number of the fault of a line that is none of a listing. Those of the image rules follow it.
const LISTING: u8 = 40;

/// How many units, and how many instructions, 32 bits can number.
const MOST_NUMBERED: usize = u32::MAX as usize;

/// The checked image of a listing. Refused in this order: a text that is too long, a line that is
/// none of a listing, sets that take too many bits, too many registers or open calls, and the first
/// instruction that breaks an image rule, at its line.
pub fn assembled(alloc: Global, text: &[u8]) -> Result<Sound, NoImage>
    ensures listed { IfOk result (λ sound. listing sound ≡ text.now) }
    ensures sound { IfOk result IsSound }
    ensures listable { IfOk result IsListable }
    ensures within { IfOk result (λ sound. length text.now ≤ FILE_LIMIT) }
    ensures fits { IfOk result (λ sound. FitsMachine sound) }
    ensures too_long { FILE_LIMIT < length text.now → result ≡ Err (N.Refused F.TooLong file_start) }
    ensures refused { IfErr result (TellsWhy (RefusesListing text.now)) }
{
    if text.len() > FILE_LIMIT as usize {
        return Err(too_long());
    }
    match listed(alloc, text) {
        Ok(image) => fitting(alloc, image, text),
        Err(no_image) => Err(no_image),
    }
}

/// The checked image of the listing of a point, with as many registers and open calls as it asks for.
pub(crate) fn assembled_part(alloc: Global, text: &[u8]) -> Result<Sound, NoImage>
    requires { length text.now < 2 ^ 32 }
    ensures listed { IfOk result (λ sound. listing sound ≡ text.now) }
    ensures sound { IfOk result IsSound }
    ensures listable { IfOk result IsListable }
    ensures fits { IfOk result (λ sound. FitsSets sound) }
    ensures refused { IfErr result (TellsWhy (RefusesPart text.now)) }
{
    match listed(alloc, text) {
        Ok(image) => checked(alloc, image),
        Err(no_image) => Err(no_image),
    }
}

/// The image of a listing whose sets the machine has the bits for.
fn listed(alloc: Global, text: &[u8]) -> Result<Image, NoImage>
    requires { length text.now < 2 ^ 32 }
    ensures listed { IfOk result (λ image. listing image ≡ text.now) }
    ensures plain { IfOk result IsPlain }
    ensures fits { IfOk result (λ image. FitsSets image) }
    ensures refused { IfErr result (TellsWhy (RefusesSets text.now)) }
{
    match read(alloc, text) {
        Ok(image) => {
            if has_room(image.shapes.as_slice()) {
                Ok(image)
            } else {
                Err(refused(Fault::CodeSpace, FILE_START))
            }
        }
        Err(AsmFault::Line { line }) => Err(refused(Fault::Listing, Place { line, col: 1 })),
        Err(AsmFault::Memory) => Err(NoImage::Memory),
    }
}

/// The checked image of a listing, where it asks for no more registers and open calls than the
/// machine has.
fn fitting(alloc: Global, image: Image, text: &[u8]) -> Result<Sound, NoImage>
    requires listed { listing image ≡ text.now }
    requires plain { IsPlain image }
    requires fits { FitsSets image }
    ensures listed { IfOk result (λ sound. listing sound ≡ text.now) }
    ensures sound { IfOk result IsSound }
    ensures listable { IfOk result IsListable }
    ensures fits { IfOk result (λ sound. FitsMachine sound) }
    ensures refused { IfErr result (TellsWhy (RefusesListing text.now)) }
{
    if image.slots > MOST_SLOTS || image.depth > MOST_SLOTS {
        return Err(refused(Fault::Slots, FILE_START));
    }
    checked(alloc, image)
}

/// Has the machine the bits that these sets take together?
fn has_room(shapes: &[ShapeBits]) -> bool
    ensures room { result ≡ true → bits_of_sets shapes.now ≤ 1073741824 }
    ensures full { result ≡ false → 1073741824 < bits_of_sets shapes.now }
{
    let mut left = BITS;
    for shape in shapes {
        let bits = bits_of_set(shape);
        if bits > left {
            return false;
        }
        left -= bits;
    }
    true
}

/// The bits that a set takes by whole blocks, two for a position at least. Extents that are no grid
/// take none: the image rules refuse them.
#[tactic(auto, unfolding(crate::specs::Assembled::bits_of_set))]
fn bits_of_set(shape: &ShapeBits) -> u128
    ensures { result ≡ bits_of_set shape.now }
{
    match Geometry::new(shape.extents.as_slice()) {
        Ok(grid) => {
            let bits = u128::from(shape.bits.max(2)) * u128::from(BLOCK_SIZE);
            bits * u128::from(grid.block_count())
        }
        Err(_bad) => 0,
    }
}

/// The image with the proof that it keeps the image rules. A broken rule is refused at the line of
/// its instruction.
fn checked(alloc: Global, image: Image) -> Result<Sound, NoImage>
    requires plain { IsPlain image }
    ensures same { IfOk result (λ sound. sound ≡ image) }
    ensures sound { IfOk result IsSound }
    ensures listable { IfOk result IsListable }
    ensures refused { IfErr result (TellsWhy (BreaksRule image)) }
{
    match verified(alloc, image) {
        Ok(sound) => Ok(sound),
        Err(CheckErr::Bad { rule, at, image }) => {
            let place = Place {
                line: line_of(&image, at),
                col: 1,
            };
            Err(refused(Fault::numbered(LISTING + rule), place))
        }
        Err(CheckErr::Memory { .. }) => Err(NoImage::Memory),
    }
}

/// The plain image with the proof that it keeps the image rules, or its first fault. Units or
/// instructions past the numbers of 32 bits count as want of memory.
pub fn verified(alloc: Global, image: Image) -> Result<Sound, CheckErr>
    requires plain { IsPlain image }
    ensures same { IfOk result (λ sound. sound ≡ image) }
    ensures sound { IfOk result IsSound }
    ensures listable { IfOk result IsListable }
    ensures refused { IfErr result (IsRefusalOf image) }
{
    if image.units.len() > MOST_NUMBERED || image.code.len() > MOST_NUMBERED {
        return Err(CheckErr::Memory { image });
    }
    match verify(alloc, image) {
        Ok(sound) => {
            have_words(sound.image());
            Ok(sound)
        }
        Err(refusal) => Err(refusal),
    }
}

/// The line of an instruction in the listing of its image; that behind the last line for the index
/// behind the last instruction.
fn line_of(image: &Image, at: u32) -> u32
    ensures { result ≡ line_in image.now at }
{
    let parts = image.shapes.len() as u128 + image.finals.len() as u128 + image.units.len() as u128;
    let line = u128::from(at) + 3 + parts;
    if line < u128::from(u32::MAX) {
        line as u32
    } else {
        u32::MAX
    }
}
