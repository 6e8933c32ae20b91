//! How the bits of a set stand in a string.

ghost use Rattle.std.specs.Prelude.{◌≡◌, ◌+◌, ◌-◌, ◌*◌, ◌/◌, ◌<◌, length, min};
ghost use Rattle.paris_code.specs.Shapes.{shapes_of};
ghost use Rattle.point_bits.specs.Strings.{IsString, IsStringOf};

use image_check::Sound;
use paris_code::Field;
use vp_sets::{BLOCK_SIZE, Geometry};

/// A set whose bits stand position behind position.
#[derive(Clone, Copy)]
pub struct SetString {
    pub set: u16,
    /// How many positions the set has.
    pub positions: u32,
    /// How many bits a position has: those of its fields, its context flag and its test flag.
    pub width: u32,
}

/// The most bits of a number that is moved at once.
const WORD: u32 = 32;

impl SetString {
    /// How many bits there are.
    pub(crate) fn bits(self) -> u64
        requires { IsString self }
        ensures { result ≡ self.positions * self.width }
    {
        u64::from(self.positions) * u64::from(self.width)
    }

    /// How many bytes hold them.
    pub(crate) fn size(self) -> usize
        requires { IsString self }
        ensures { result ≡ (self.positions * self.width + 7) / 8 }
    {
        self.bits().div_ceil(8) as usize
    }

    /// How the bits of a block's positions stand in a string of their own.
    pub(crate) fn part(self, block: u32) -> SetString
        requires string { IsString self }
        requires block { 512 * block < self.positions }
        ensures string { IsString result }
        ensures set { result.set ≡ self.set }
        ensures positions { result.positions ≡ min (self.positions - 512 * block) 512 }
        ensures width { result.width ≡ self.width }
    {
        SetString {
            set: self.set,
            positions: self.positions_in(block),
            width: self.width,
        }
    }

    pub(crate) fn blocks(self) -> u32
        ensures { result ≡ (self.positions + 511) / 512 }
    {
        self.positions.div_ceil(BLOCK_SIZE)
    }

    /// How many runs of at most 32 bits a position has.
    pub(crate) fn runs(self) -> u32
        ensures { result ≡ (self.width + 31) / 32 }
    {
        self.width.div_ceil(WORD)
    }

    /// The run with this number, from 0.
    pub(crate) fn run(self, number: u32) -> Field
        requires { 32 * number < self.width }
        ensures set { result.set ≡ self.set }
        ensures offset { result.offset ≡ 32 * number }
        ensures len { result.len ≡ min 32 (self.width - 32 * number) }
    {
        let offset = WORD * number;
        Field {
            set: self.set,
            offset,
            len: WORD.min(self.width - offset) as u8,
        }
    }
}

/// How the bits of a set stand in a string.
pub fn string_of(sound: &Sound, set: u16) -> SetString
    requires { set < length (shapes_of sound.now) }
    ensures string { IsStringOf (shapes_of sound.now) result }
    ensures small { IsString result }
    ensures set { result.set ≡ set }
{
    let shape = &sound.image().shapes[usize::from(set)];
    match Geometry::new(shape.extents.as_slice()) {
        Ok(geometry) => SetString {
            set,
            positions: geometry.positions(),
            width: shape.bits + 2,
        },
        Err(_bad) => unreachable!(),
    }
}
