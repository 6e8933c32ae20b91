//! Integer constants.

ghost use Rattle.std.specs.Prelude.{◌≡◌, ◌≤◌, ◌<◌, ◌^◌, ◌+◌, ◌||◌, length, IfOk, IfErr, MatchOption, slice_index, true, false, take, min, nat_lt};
ghost use Rattle.std.specs.List.{prefix_len};
ghost use Rattle.cstar_lexer.specs.Bytes.{is_figure};
ghost use Rattle.cstar_lexer.specs.Faults.{IsFirst};
ghost use Rattle.cstar_lexer.specs.Numbers.{IsNumber, NumberFault, is_glued};
ghost use Rattle.cstar_lexer.specs.Constants.{IsKeptConstant, IsLongestNumeral, IsLongestSuffix, begins_hexadecimal, is_digit, is_l, is_u, is_unsigned, is_x, value_of};

use crate::bytes::{byte_or_zero, continues_name, digit_value, tail};
use crate::flaw::Flaw;
use cstar_base::Fault;

/// The value from which on a constant is too large.
const WIDE: u64 = 1 << 32;

/// The digits of a constant: their value, or `WIDE` where it is greater, and their number.
#[derive(Clone, Copy)]
pub struct Digits {
    pub value: u64,
    pub length: usize,
}

/// The longest run of digits of a radix of at most 16.
pub fn read_digits(rest: &[u8], radix: u64) -> Digits
    requires most { radix ≤ 16 }
    requires some { 0 < radix }
    ensures run { result.length ≡ prefix_len (is_digit radix) rest.now }
    ensures value { result.value ≡ min (2 ^ 32) (value_of radix (take result.length rest.now)) }
{
    let mut value: u64 = 0;
    let mut length: usize = 0;
    for byte in rest {
        match digit_value(*byte, radix) {
            Some(digit) => value = (value * radix + digit).min(WIDE),
            None => break,
        }
        length += 1;
    }
    Digits { value, length }
}

/// An integer constant with its suffix; the value is `WIDE` where it is greater.
#[derive(Clone, Copy)]
pub struct Constant {
    value: u64,
    suffixed: bool,
    pub length: usize,
}

/// A number as a token has it.
#[derive(Clone, Copy)]
pub struct Number {
    pub value: u32,
    pub unsigned: bool,
}

impl Constant {
    /// The number that the constant stands for, or None where it is above 4294967295.
    pub fn number(self) -> Option<Number>
        ensures { MatchOption result (2 ^ 32 ≤ self.value) (λ number. (self.value < 2 ^ 32)
            × (number.value ≡ self.value)
            × (number.unsigned ≡ is_unsigned self.value self.suffixed)) }
    {
        if self.value >= WIDE {
            return None;
        }
        let value = self.value as u32;
        let unsigned = self.suffixed || value > 0x7fff_ffff;
        Some(Number { value, unsigned })
    }
}

impl Number {
    /// Whether it is the same number, unsigned where the other is.
    pub fn is(self, other: Number) -> bool
        ensures same { result ≡ true → self ≡ other }
        ensures different { result ≡ false → self ≡ other → ⊥ }
    {
        self.value == other.value && self.unsigned == other.unsigned
    }
}

/// The longest integer constant at the beginning, where a digit stands.
pub fn read_constant(rest: &[u8]) -> Constant
    requires { is_figure (slice_index rest.now 0) ≡ true }
    ensures within { result.length ≤ length rest.now }
    ensures longest { IsKeptConstant rest.now result.length result.value result.suffixed }
{
    let digits = read_numeral(rest);
    let suffix = read_suffix(tail(rest, digits.length));
    Constant {
        value: digits.value,
        suffixed: suffix.unsigned,
        length: digits.length + suffix.length,
    }
}

/// The longest constant without its suffix at the beginning, where a digit stands.
fn read_numeral(rest: &[u8]) -> Digits
    requires { is_figure (slice_index rest.now 0) ≡ true }
    ensures within { result.length ≤ length rest.now }
    ensures longest { IsLongestNumeral rest.now result.length result.value }
{
    if byte_or_zero(rest, 0) != b'0' {
        return read_digits(rest, 10);
    }
    if !is_hexadecimal(rest) {
        return read_digits(rest, 8);
    }
    let behind = read_digits(tail(rest, 2), 16);
    Digits {
        value: behind.value,
        length: behind.length + 2,
    }
}

/// Whether `0x` or `0X` and a hexadecimal digit begin the constant.
#[tactic(auto, unfolding(crate::specs::Constants::begins_hexadecimal))]
fn is_hexadecimal(rest: &[u8]) -> bool
    ensures { result ≡ begins_hexadecimal rest.now }
{
    byte_or_zero(rest, 0) == b'0'
        && is_x(byte_or_zero(rest, 1))
        && is_digit(byte_or_zero(rest, 2), 16)
}

fn is_digit(byte: u8, radix: u64) -> bool
    ensures { result ≡ is_digit radix byte }
{
    digit_value(byte, radix).is_some()
}

#[tactic(auto, unfolding(crate::specs::Constants::is_x))]
fn is_x(byte: u8) -> bool
    ensures { result ≡ is_x byte }
{
    matches!(byte, b'x' | b'X')
}

#[tactic(auto, unfolding(crate::specs::Constants::is_u))]
fn is_u(byte: u8) -> bool
    ensures { result ≡ is_u byte }
{
    matches!(byte, b'u' | b'U')
}

#[tactic(auto, unfolding(crate::specs::Constants::is_l))]
fn is_l(byte: u8) -> bool
    ensures { result ≡ is_l byte }
{
    matches!(byte, b'l' | b'L')
}

#[derive(Clone, Copy)]
struct Suffix {
    unsigned: bool,
    length: usize,
}

/// The longest suffix at the beginning: at most one `u` and at most one `l` of either case, in
/// either order.
fn read_suffix(rest: &[u8]) -> Suffix
    ensures within { result.length ≤ length rest.now }
    ensures longest { IsLongestSuffix rest.now result.length result.unsigned }
{
    let first = byte_or_zero(rest, 0);
    let second = byte_or_zero(rest, 1);
    if is_u(first) {
        let length = if is_l(second) { 2 } else { 1 };
        Suffix {
            unsigned: true,
            length,
        }
    } else if is_l(first) {
        let unsigned = is_u(second);
        let length = if unsigned { 2 } else { 1 };
        Suffix { unsigned, length }
    } else {
        Suffix {
            unsigned: false,
            length: 0,
        }
    }
}

/// The integer constant at the beginning, where a digit stands, and its length. A constant that
/// is too large is a fault at its beginning; a letter, digit, `_` or `.` behind it one there.
pub fn read_number(rest: &[u8]) -> Result<(Number, usize), Flaw>
    requires { is_figure (slice_index rest.now 0) ≡ true }
    ensures taken { IfOk result (λ found. IsNumber rest.now found.1 found.0) }
    ensures within { IfErr result (λ flaw. flaw.offset < length rest.now) }
    ensures refused { IfErr result (λ flaw. IsFirst (NumberFault rest.now) flaw.fault flaw.offset) }
{
    let constant = read_constant(rest);
    let Some(number) = constant.number() else {
        return Err(Flaw {
            fault: Fault::Wide,
            offset: 0,
        });
    };
    if is_glued(byte_or_zero(rest, constant.length)) {
        return Err(Flaw {
            fault: Fault::BadByte,
            offset: constant.length,
        });
    }
    Ok((number, constant.length))
}

/// Whether a byte may not stand directly behind a number: a letter, digit, `_` or `.`.
#[tactic(auto, unfolding(crate::specs::Numbers::is_glued))]
fn is_glued(byte: u8) -> bool
    ensures { result ≡ is_glued byte }
{
    continues_name(byte) || byte == b'.'
}
