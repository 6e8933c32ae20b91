//! The words of a line, one space apart.

ghost use Rattle.std.specs.Prelude.{◌<◌, IfOk, length};

use cstar_base::Memory;

/// Why a line cannot be read.
#[derive(Clone, Copy)]
pub enum Stop {
    /// It is no line of a listing.
    NoLine,
    Memory,
}

impl From<Memory> for Stop {
    fn from(_memory: Memory) -> Stop {
        Stop::Memory
    }
}

/// What is left of a line.
#[derive(Drop)]
pub struct Words<'a> {
    rest: Option<&'a [u8]>,
}

impl<'a> Words<'a> {
    pub fn new(line: &'a [u8]) -> Words<'a> {
        Words { rest: Some(line) }
    }

    /// The next word.
    pub fn word(&mut self) -> Result<&'a [u8], Stop> {
        let Some(rest) = self.rest else {
            return Err(Stop::NoLine);
        };
        match rest.iter().position(|byte| *byte == b' ') {
            Some(end) => {
                self.rest = Some(&rest[end + 1..]);
                Ok(&rest[..end])
            }
            None => {
                self.rest = None;
                Ok(rest)
            }
        }
    }

    /// All words that are left, if any is.
    pub fn tail(&mut self) -> Option<&'a [u8]> {
        let tail = self.rest;
        self.rest = None;
        tail
    }

    /// Whether no word is left.
    pub fn is_empty(&self) -> bool {
        self.rest.is_none()
    }
}

/// The number that decimal digits are, below 2^32.
pub fn number(text: &[u8]) -> Result<u32, Stop> {
    if text.is_empty() {
        return Err(Stop::NoLine);
    }
    let mut total = 0u32;
    for byte in text {
        match with_digit(total, *byte) {
            Some(more) => total = more,
            None => return Err(Stop::NoLine),
        }
    }
    Ok(total)
}

/// One more digit behind a number.
fn with_digit(total: u32, byte: u8) -> Option<u32> {
    if byte.is_ascii_digit() {
        total.checked_mul(10)?.checked_add(u32::from(byte - b'0'))
    } else {
        None
    }
}

/// The number behind a mark.
pub fn marked(text: &[u8], mark: u8) -> Result<u32, Stop> {
    match text {
        [first, rest @ ..] if *first == mark => number(rest),
        _ => Err(Stop::NoLine),
    }
}

/// The two parts of a text round the first byte of this kind.
pub fn parted(text: &[u8], at: u8) -> Result<(&[u8], &[u8]), Stop>
    ensures { IfOk result (λ parts. length parts.1.now < length text.now) }
{
    match text.iter().position(|byte| *byte == at) {
        Some(end) => Ok((&text[..end], &text[end + 1..])),
        None => Err(Stop::NoLine),
    }
}
