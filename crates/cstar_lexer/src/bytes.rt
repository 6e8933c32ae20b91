//! The classes of bytes, and the parts of a text from a position on.

ghost use Rattle.std.specs.Prelude.{ℕ, true, false, slice_index, ◌≡◌, ◌≤◌, ◌<◌, ◌+◌, length, drop, IfSome, IfNone};
ghost use Rattle.std.specs.List.{prefix_len};
ghost use Rattle.cstar_lexer.specs.Bytes.{LineEnds, goes_on, is_figure, is_inner_blank, is_letter};
ghost use Rattle.cstar_lexer.specs.Constants.{digit_of, is_digit};
ghost use Rattle.cstar_lexer.specs.Comments.{IsComment, OpensComment};

/// A blank that does not end its line.
#[tactic(auto, unfolding(crate::specs::Bytes::is_inner_blank))]
pub fn is_blank(byte: u8) -> bool
    ensures { result ≡ is_inner_blank byte }
{
    matches!(byte, b' ' | b'\t' | 0x0b..=b'\r')
}

/// A decimal digit.
#[tactic(auto, unfolding(crate::specs::Bytes::is_figure))]
pub fn is_figure(byte: u8) -> bool
    ensures { result ≡ is_figure byte }
{
    matches!(byte, b'0'..=b'9')
}

/// Whether a name or a reserved word can begin with this byte.
#[tactic(auto, unfolding(crate::specs::Bytes::is_letter))]
pub fn begins_name(byte: u8) -> bool
    ensures { result ≡ is_letter byte }
{
    matches!(byte, b'_' | b'A'..=b'Z' | b'a'..=b'z')
}

#[tactic(auto, unfolding(crate::specs::Bytes::goes_on))]
pub fn continues_name(byte: u8) -> bool
    ensures { result ≡ goes_on byte }
{
    begins_name(byte) || is_figure(byte)
}

/// The value of a digit in a radix of at most 16, or None for any other byte.
#[tactic(auto, unfolding(crate::specs::Constants::is_digit, crate::specs::Constants::digit_of))]
pub fn digit_value(byte: u8, radix: u64) -> Option<u64>
    ensures below { IfSome result (λ digit. digit < 16) }
    ensures digit { IfSome result (λ digit. (is_digit radix byte ≡ true) × (digit ≡ digit_of byte)) }
    ensures none { IfNone result (is_digit radix byte ≡ false) }
{
    let digit = match byte {
        b'0'..=b'9' => byte - b'0',
        b'a'..=b'f' => byte - b'a' + 10,
        b'A'..=b'F' => byte - b'A' + 10,
        _ => return None,
    };
    let digit = u64::from(digit);
    if digit < radix { Some(digit) } else { None }
}

/// The bytes from a position on.
pub fn tail(bytes: &[u8], at: usize) -> &[u8]
    requires { at ≤ length bytes.now }
    ensures { result.now ≡ drop at bytes.now }
{
    &bytes[at..]
}

/// The byte at a position, or 0 behind the end.
pub fn byte_or_zero(bytes: &[u8], at: usize) -> u8
    ensures { result ≡ slice_index bytes.now at }
{
    bytes.get(at).copied().unwrap_or(0)
}

/// Whether the line or the text ends at a position.
pub fn ends_line(bytes: &[u8], at: usize) -> bool
    ensures within { result ≡ false → at < length bytes.now }
    ensures ends { result ≡ true → LineEnds bytes.now at }
    ensures goes_on { result ≡ false → LineEnds bytes.now at → ⊥ }
{
    match bytes.get(at) {
        Some(byte) => *byte == b'\n',
        None => true,
    }
}

/// The length of the run of letters, digits and `_` at the beginning.
pub fn name_length(rest: &[u8]) -> usize
    ensures within { result ≤ length rest.now }
    ensures run { result ≡ prefix_len goes_on rest.now }
{
    for (at, byte) in rest.iter().enumerate() {
        if !continues_name(*byte) {
            return at;
        }
    }
    rest.len()
}

/// The length of the run of blanks at the beginning, none of which ends its line.
pub fn blank_length(rest: &[u8]) -> usize
    ensures within { result ≤ length rest.now }
    ensures run { result ≡ prefix_len is_inner_blank rest.now }
{
    for (at, byte) in rest.iter().enumerate() {
        if !is_blank(*byte) {
            return at;
        }
    }
    rest.len()
}

/// The length of the line that begins here, without the newline that ends it.
pub fn line_length(rest: &[u8]) -> usize
    ensures within { result ≤ length rest.now }
    ensures one_line { (at : ℕ) → at < result → slice_index rest.now at ≡ 10 → ⊥ }
    ensures whole { result < length rest.now → slice_index rest.now result ≡ 10 }
{
    for (at, byte) in rest.iter().enumerate() {
        if *byte == b'\n' {
            return at;
        }
    }
    rest.len()
}

/// Whether a comment opens here.
pub fn opens_comment(rest: &[u8]) -> bool
    ensures opens { result ≡ true → OpensComment rest.now }
    ensures none { result ≡ false → OpensComment rest.now → ⊥ }
{
    byte_or_zero(rest, 0) == b'/' && byte_or_zero(rest, 1) == b'*'
}

/// The length of the comment that opens here, or None where it is not closed.
pub fn comment_length(rest: &[u8]) -> Option<usize>
    requires { OpensComment rest.now }
    ensures found { IfSome result (IsComment rest.now) }
    ensures none { IfNone result ((n : ℕ) → IsComment rest.now n → ⊥) }
{
    let mut last: usize = 3;
    'bytes: while last < rest.len() {
        if rest[last - 1] == b'*' && rest[last] == b'/' {
            return Some(last + 1);
        }
        last += 1;
    }
    None
}
