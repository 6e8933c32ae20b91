//! The operands of instructions.

ghost use Rattle.std.specs.Prelude.{◌<◌, IfOk};

use crate::words::{Stop, Words, marked, number, parted};
use cstar_base::{Elem, Place, Word};
use paris_code::{Coordinate, Field, GridStep, Konst, RegisterCoordinate, SignedCoordinate};
use paris_text::{Keyword, keyword_of};
use std::alloc::Global;

/// What one word of a list of operands says.
pub trait Item<T> {
    fn read(word: &[u8]) -> Result<T, Stop>;
}

/// Coordinates, each a field or a register.
pub struct Coordinates;

impl Item<Coordinate> for Coordinates {
    fn read(word: &[u8]) -> Result<Coordinate, Stop> {
        match word {
            [b'r', rest @ ..] => Ok(Coordinate::Reg(number(rest)?)),
            _ => Ok(Coordinate::Field(field(word)?)),
        }
    }
}

/// Coordinates, each with how it is read.
pub struct Checked;

impl Item<SignedCoordinate> for Checked {
    fn read(word: &[u8]) -> Result<SignedCoordinate, Stop> {
        let (text, sign) = parted(word, b'/')?;
        Ok(SignedCoordinate {
            coordinate: Coordinates::read(text)?,
            signed: keyword(sign)?,
        })
    }
}

/// Steps, each along an axis.
pub struct Steps;

impl Item<GridStep> for Steps {
    fn read(word: &[u8]) -> Result<GridStep, Stop> {
        let (axis, step) = parted(word, b'=')?;
        Ok(GridStep {
            axis: marked(axis, b'a')?,
            step: konst(step)?,
        })
    }
}

/// Registers.
pub struct Registers;

impl Item<u32> for Registers {
    fn read(word: &[u8]) -> Result<u32, Stop> {
        marked(word, b'r')
    }
}

/// Registers, each with how it is read.
pub struct CheckedRegisters;

impl Item<RegisterCoordinate> for CheckedRegisters {
    fn read(word: &[u8]) -> Result<RegisterCoordinate, Stop> {
        let (text, sign) = parted(word, b'/')?;
        Ok(RegisterCoordinate {
            register: marked(text, b'r')?,
            signed: keyword(sign)?,
        })
    }
}

impl<'a> Words<'a> {
    /// The number behind a mark.
    pub fn marked(&mut self, mark: u8) -> Result<u32, Stop> {
        marked(self.word()?, mark)
    }

    pub fn set(&mut self) -> Result<u16, Stop> {
        small(self.marked(b's')?)
    }

    pub fn field(&mut self) -> Result<Field, Stop> {
        field(self.word()?)
    }

    pub fn konst(&mut self) -> Result<Konst, Stop> {
        konst(self.word()?)
    }

    /// `LINE,COL`
    pub fn place(&mut self) -> Result<Place, Stop> {
        let (line, col) = parted(self.word()?, b',')?;
        Ok(Place {
            line: number(line)?,
            col: number(col)?,
        })
    }

    pub fn kind(&mut self) -> Result<Elem, Stop> {
        kind(self.word()?)
    }

    pub fn keyword<K: Keyword>(&mut self) -> Result<K, Stop> {
        keyword(self.word()?)
    }

    /// The field of a bit; `-` is none.
    pub fn bit(&mut self) -> Result<Option<Field>, Stop> {
        match self.word()? {
            b"-" => Ok(None),
            word => Ok(Some(field(word)?)),
        }
    }

    /// The bytes that pairs of hexadecimal digits behind an `x` are.
    pub fn bytes(&mut self, alloc: Global) -> Result<Word, Stop> {
        let [b'x', digits @ ..] = self.word()? else {
            return Err(Stop::NoLine);
        };
        let mut bytes = Vec::new(alloc);
        for pair in digits.chunks(2) {
            let [high, low] = pair else {
                return Err(Stop::NoLine);
            };
            let byte = digit(*high)? * 16 + digit(*low)?;
            push(&mut bytes, byte)?;
        }
        Ok(Word::of(bytes))
    }

    /// What the words that are left say, each an item.
    pub fn list<T: Drop, I: Item<T>>(&mut self, alloc: Global) -> Result<Vec<T>, Stop> {
        let mut list = Vec::new(alloc);
        let Some(tail) = self.tail() else {
            return Ok(list);
        };
        for word in tail.split(|byte| *byte == b' ') {
            let item = I::read(word)?;
            push(&mut list, item)?;
        }
        Ok(list)
    }
}

/// Adds an item to a list.
pub fn push<T: Drop>(list: &mut Vec<T>, item: T) -> Result<(), Stop> {
    match list.push(item) {
        Ok(()) => Ok(()),
        Err(_failed) => Err(Stop::Memory),
    }
}

fn small(n: u32) -> Result<u16, Stop> {
    u16::try_from(n).map_err(|_error| Stop::NoLine)
}

/// `SET:OFFSET:LENGTH`
pub fn field(word: &[u8]) -> Result<Field, Stop> {
    let (set, rest) = parted(word, b':')?;
    let (offset, len) = parted(rest, b':')?;
    let set = small(number(set)?)?;
    let offset = number(offset)?;
    let Ok(len) = u8::try_from(number(len)?) else {
        return Err(Stop::NoLine);
    };
    Ok(Field { set, offset, len })
}

fn konst(word: &[u8]) -> Result<Konst, Stop> {
    match word {
        [b'r', rest @ ..] => Ok(Konst::Reg(number(rest)?)),
        [b'#', rest @ ..] => Ok(Konst::Imm(number(rest)?)),
        _ => Err(Stop::NoLine),
    }
}

fn keyword<K: Keyword>(word: &[u8]) -> Result<K, Stop> {
    keyword_of(word).ok_or(Stop::NoLine)
}

/// One of the seven kinds of numbers.
pub fn kind(word: &[u8]) -> Result<Elem, Stop> {
    match word {
        b"b1" => Ok(Elem::BOOL),
        b"s8" => Ok(Elem::CHAR),
        b"u8" => Ok(Elem::UNSIGNED_CHAR),
        b"s16" => Ok(Elem::SHORT),
        b"u16" => Ok(Elem::UNSIGNED_SHORT),
        b"s32" => Ok(Elem::INT),
        b"u32" => Ok(Elem::UNSIGNED),
        _ => Err(Stop::NoLine),
    }
}

/// The number that a lower-case hexadecimal digit is.
fn digit(byte: u8) -> Result<u8, Stop>
    ensures { IfOk result (λ n. n < 16) }
{
    match byte {
        b'0'..=b'9' => Ok(byte - b'0'),
        b'a'..=b'f' => Ok(byte - b'a' + 10),
        _ => Err(Stop::NoLine),
    }
}
