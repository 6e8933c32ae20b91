//! The names of instructions.

ghost use Rattle.std.specs.Prelude.{◌≡◌, ◌++◌};
ghost use Rattle.paris_code.specs.Mnemonics.{mnemonic_of};

use crate::instructions;
use crate::keywords::Keyword;
use paris_code::Instr;

/// A name in three parts, of which the middle one says what is done.
#[derive(Clone, Copy)]
pub struct Mnemonic {
    pub head: &'static [u8],
    pub middle: &'static [u8],
    pub tail: &'static [u8],
}

impl Mnemonic {
    fn whole(name: &'static [u8]) -> Mnemonic
        ensures { result.head.now ++ (result.middle.now ++ result.tail.now) ≡ name.now }
    {
        Mnemonic {
            head: b"",
            middle: b"",
            tail: name,
        }
    }

    fn of(head: &'static [u8], middle: &'static [u8], tail: &'static [u8]) -> Mnemonic
        ensures { result.head.now ++ (result.middle.now ++ result.tail.now) ≡ head.now ++ (middle.now ++ tail.now) }
    {
        Mnemonic { head, middle, tail }
    }
}

/// A mnemonic, with or without a keyword in its middle.
macro_rules! mnemonic {
    ($whole:literal) => { Mnemonic::whole($whole) };
    ($head:literal $keyword:ident $tail:literal) => {
        Mnemonic::of($head, $keyword.spelling(), $tail)
    };
}

/// The name of an instruction, by the table.
macro_rules! name {
    (
        ($instr:expr)
        $(
            $variant:ident = $head:literal $($keyword:ident $tail:literal)?
            ($($operand:ident: $kind:ident),* $(; $list:ident: $lists:ident)?);
        )*
    ) => {
        match $instr {
            $(Instr::$variant { $($keyword,)? .. } => mnemonic!($head $($keyword $tail)?),)*
        }
    };
}

/// The name of an instruction.
#[tactic(auto, unfolding(paris_code::specs::Mnemonics::mnemonic_of))]
pub fn name_of(instr: &Instr) -> Mnemonic
    ensures { result.head.now ++ (result.middle.now ++ result.tail.now) ≡ mnemonic_of instr.now }
{
    instructions!(name(instr))
}
