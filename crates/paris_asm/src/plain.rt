//! The names that plain images have.

ghost use Rattle.std.specs.Prelude.{◌≡◌, ◌↔◌, All, IsTrue, true};
ghost use Rattle.paris_code.specs.Plain.{AreFinalNames, AreGrids, AreUnitNames, IsBracketed, IsElementName, IsName, IsNumeral, IsPlain, begins_name, goes_on_name, is_digit};

use paris_code::{Entry, Final, Image, ShapeBits};

/// Whether the listing of the image can be read back: its units have names, its final variables those
/// of variables or of elements of arrays, and each of its shapes an axis at least.
pub fn is_plain(image: &Image) -> bool
    ensures { result ≡ true → IsPlain image.now }
{
    are_unit_names(image.units.as_slice())
        && are_final_names(image.finals.as_slice())
        && are_grids(image.shapes.as_slice())
}

fn are_unit_names(units: &[Entry]) -> bool
    ensures { result ≡ true → AreUnitNames units.now }
{
    units.iter().all(|unit| is_name(unit.name.bytes()))
}

fn are_final_names(finals: &[Final]) -> bool
    ensures { result ≡ true → AreFinalNames finals.now }
{
    finals.iter().all(|last| is_element_name(last.name.bytes()))
}

fn are_grids(shapes: &[ShapeBits]) -> bool
    ensures { result ≡ true → AreGrids shapes.now }
{
    shapes.iter().all(|shape| !shape.extents.is_empty())
}

/// Whether the byte is a letter or `_`.
fn begins_name(byte: u8) -> bool
    ensures { result ≡ begins_name byte }
{
    (b'A' <= byte && byte <= b'Z') || ((b'a' <= byte && byte <= b'z') || byte == b'_')
}

fn is_digit(byte: u8) -> bool
    ensures { result ≡ is_digit byte }
{
    b'0' <= byte && byte <= b'9'
}

fn goes_on_name(byte: u8) -> bool
    ensures { result ≡ goes_on_name byte }
{
    begins_name(byte) || is_digit(byte)
}

fn all_go_on(bytes: &[u8]) -> bool
    ensures { IsTrue result ↔ All (λ b. goes_on_name b ≡ true) bytes.now }
{
    bytes.iter().all(|byte| goes_on_name(*byte))
}

fn all_are_digits(bytes: &[u8]) -> bool
    ensures { IsTrue result ↔ All (λ b. is_digit b ≡ true) bytes.now }
{
    bytes.iter().all(|byte| is_digit(*byte))
}

/// Whether the text is a letter or `_`, and then letters, digits and `_`.
pub fn is_name(text: &[u8]) -> bool
    ensures { result ≡ true → IsName text.now }
{
    match text {
        [first, rest @ ..] => begins_name(*first) && all_go_on(rest),
        [] => false,
    }
}

/// Whether the text is a name, or an element of an array: a name and a number in square brackets.
pub fn is_element_name(text: &[u8]) -> bool
    ensures { result ≡ true → IsElementName text.now }
{
    match text.iter().position(|byte| *byte == b'[') {
        Some(at) => is_name(&text[..at]) && is_bracketed(&text[at..]),
        None => is_name(text),
    }
}

fn is_bracketed(text: &[u8]) -> bool
    ensures { result ≡ true → IsBracketed text.now }
{
    match text {
        [b'[', digits @ .., b']'] => is_numeral(digits),
        _ => false,
    }
}

/// Whether the text is decimal digits without a leading zero, however many.
fn is_numeral(text: &[u8]) -> bool
    ensures { result ≡ true → IsNumeral text.now }
{
    match text {
        [] => false,
        [first, rest @ ..] => all_are_digits(text) && (*first != b'0' || rest.is_empty()),
    }
}
