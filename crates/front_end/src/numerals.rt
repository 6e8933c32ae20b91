//! Numbers as text.

ghost use Rattle.std.specs.Prelude.{◌≡◌, ◌+◌, ◌<◌, ◌≤◌, ◌^◌, ◌++◌, ◌∷◌, [], true, length, take};
ghost use Rattle.cstar_base.specs.Numbers.{number_of};
ghost use Rattle.cstar_base.specs.Numerals.{digit_of, numeral_in, word_text};

use cstar_base::numbers::value;
use cstar_base::{Elem, NumberFormat};
use itoa::Buffer;

/// A text of at most 11 bytes in a room for them.
#[derive(Clone, Copy)]
pub struct Numeral {
    pub text: [u8; 11],
    pub len: u8,
    pub ghost fits: { len ≤ 11 },
}

/// The text in a room of its own.
fn held(text: &[u8]) -> Numeral
    requires { length text.now ≤ 11 }
    ensures len { result.len ≡ length text.now }
    ensures text { take result.len result.text ≡ text.now }
{
    let mut room = [0; 11];
    room[..text.len()].copy_from_slice(text);
    Numeral {
        text: room,
        len: text.len() as u8,
    }
}

/// The digit of a number below 16.
fn digit(n: u32) -> u8
    requires { n < 16 }
    ensures { result ≡ digit_of n }
{
    if n < 10 {
        b'0' + n as u8
    } else {
        b'a' - 10 + n as u8
    }
}

impl Numeral {
    /// The text with one more byte behind it.
    fn with(self, byte: u8) -> Numeral
        requires { self.len < 11 }
        ensures len { result.len ≡ self.len + 1 }
        ensures text { take result.len result.text ≡ take self.len self.text ++ byte ∷ [] }
    {
        let Numeral { mut text, len } = self;
        text[usize::from(len)] = byte;
        Numeral { text, len: len + 1 }
    }
}

/// The number in a base, at no more than so many places.
#[tactic(auto, unfolding(cstar_base::specs::Numerals::numeral_in))]
fn in_base(base: u32, places: u8, n: u32) -> Numeral
    requires base { (2 ≤ base) × (base ≤ 16) }
    requires places { (1 ≤ places) × (places ≤ 11) }
    requires fits { n < base ^ places }
    ensures len { result.len ≤ places }
    ensures text { take result.len result.text ≡ numeral_in base places n }
{
    if n < base {
        held(&[digit(n)])
    } else {
        in_base(base, places - 1, n / base).with(digit(n % base))
    }
}

/// The number that a word stands for in two's complement.
#[tactic(auto, unfolding(cstar_base::specs::Numbers::least_of, cstar_base::specs::Numbers::greatest_of))]
pub fn signed(w: u32) -> i32
    ensures { result ≡ number_of 32 true w }
{
    value(Elem::INT, w) as i32
}

/// The text of a register.
#[tactic(auto, unfolding(cstar_base::specs::Numerals::word_text))]
pub fn print(format: NumberFormat, w: u32) -> Numeral
    ensures { take result.len result.text ≡ word_text format w }
{
    let mut buffer = Buffer::new();
    match format {
        NumberFormat::Signed => held(buffer.format(signed(w)).as_bytes()),
        NumberFormat::Unsigned => held(buffer.format(w).as_bytes()),
        NumberFormat::Hexadecimal => in_base(16, 11, w),
        NumberFormat::Octal => in_base(8, 11, w),
        NumberFormat::Character => held(&[(w % 256) as u8]),
    }
}
