//! How words are printed.

/// How a word is printed: in signed or unsigned decimal, in lower-case hexadecimal, in octal, or as
/// the byte that its number is modulo 256.
#[derive(Clone, Copy, PartialEq, Eq)]
pub enum NumberFormat {
    Signed,
    Unsigned,
    Hexadecimal,
    Octal,
    Character,
}
