//! The operands of an instruction, in the order of the listing.

ghost use Rattle.std.specs.Prelude.{◌≡◌};
ghost use Rattle.paris_code.specs.Listing.{operands_of};
ghost use Rattle.paris_text.specs.Operands.{words_of};

use crate::instructions;
use cstar_base::{Direction, Elem, Inclusion, Place, SegmentMode};
use paris_code::{Coordinate, Field, GridStep, Instr, Konst, RegisterCoordinate, SignedCoordinate};

/// One operand.
#[derive(Clone, Copy)]
pub enum Operand {
    Field(Field),
    Register(u32),
    Immediate(u32),
    Konst(Konst),
    Target(u32),
    Unit(u32),
    Set(u16),
    Axis(u32),
    Place(Place),
    Kind(Elem),
    Direction(Direction),
    Mode(SegmentMode),
    Bit(Option<Field>),
    Inclusion(Inclusion),
}

/// The operands that every instruction of a kind has.
#[derive(Clone, Copy)]
pub enum Fixed {
    Zero,
    One(Operand),
    Two(Operand, Operand),
    Three(Operand, Operand, Operand),
    Four(Operand, Operand, Operand, Operand),
    Seven(Operand, Operand, Operand, Operand, Operand, Operand, Operand),
}

/// The list that some instructions end with.
#[derive(Clone, Copy)]
pub enum Rest<'a> {
    Nothing,
    Coordinates(&'a [Coordinate]),
    Checked(&'a [SignedCoordinate]),
    Steps(&'a [GridStep]),
    Registers(&'a [u32]),
    CheckedRegisters(&'a [RegisterCoordinate]),
    Bytes(&'a [u8]),
}

/// All operands of an instruction.
#[derive(Clone, Copy)]
pub struct Operands<'a> {
    pub fixed: Fixed,
    pub rest: Rest<'a>,
}

/// The operands that every instruction of a kind has, from their values.
macro_rules! fixed {
    () => { Fixed::Zero };
    ($a:expr) => { Fixed::One($a) };
    ($a:expr, $b:expr) => { Fixed::Two($a, $b) };
    ($a:expr, $b:expr, $c:expr) => { Fixed::Three($a, $b, $c) };
    ($a:expr, $b:expr, $c:expr, $d:expr) => { Fixed::Four($a, $b, $c, $d) };
    ($a:expr, $b:expr, $c:expr, $d:expr, $e:expr, $f:expr, $g:expr) => {
        Fixed::Seven($a, $b, $c, $d, $e, $f, $g)
    };
}

/// The list that an instruction ends with.
macro_rules! rest {
    () => { Rest::Nothing };
    ($list:ident: Bytes) => { Rest::Bytes($list.bytes()) };
    ($list:ident: $kind:ident) => { Rest::$kind($list.as_slice()) };
}

/// The operands of an instruction, by the table.
macro_rules! operands {
    (
        ($instr:expr)
        $(
            $variant:ident = $head:literal $($keyword:ident $tail:literal)?
            ($($operand:ident: $kind:ident),* $(; $list:ident: $lists:ident)?);
        )*
    ) => {
        match $instr {
            $(
                Instr::$variant { $($operand,)* $($list,)? .. } => Operands {
                    fixed: fixed!($(Operand::$kind(*$operand)),*),
                    rest: rest!($($list: $lists)?),
                },
            )*
        }
    };
}

/// The operands of an instruction.
#[tactic(auto, unfolding(paris_code::specs::Listing::operands_of))]
pub fn listed_operands(instr: &Instr) -> Operands<'_>
    ensures { words_of result ≡ operands_of instr.now }
{
    instructions!(operands(instr))
}
