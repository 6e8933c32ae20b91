use cstar_base::Word;
use cstar_lexer::lex;
use cstar_tree::token::{Kind, Mark, Tokens};
use std::alloc::Global;
use std::test::Fail;

/// How many tokens a text has; none where it is refused or too long. Which texts are refused, and with
/// which fault, stands in the rows of `row_runs`, where text costs less.
fn count_of(alloc: Global, text: &[u8]) -> Option<usize> {
    if text.len() > 1_048_576 {
        return None;
    }
    let tokens = lex(alloc, text).ok()?;
    Some(tokens.list.len())
}

static ROWS: [(&[u8], usize); 28] = [
    (b"", 0),
    (b"x<?=y", 3),
    (b"a%%%b", 4),
    (b"a>>=b>>c>?d>?=e", 9),
    (b"boolsizeof bool sizeof", 3),
    (b"1ul 1LU 0x1fU 017l 0", 5),
    (b"4294967295", 1),
    (b"a /* b\n **/ c", 2),
    (b"'a'b", 2),
    (b"1'a'", 2),
    (b"\"\\\"\\x41\\0\\1234\x00\xfe\r\"", 1),
    (
        b"#include <stdio.h>\n # \tinclude  <cscomm.h> /* a */ \r\nx",
        1,
    ),
    (b"#define N 5\nN.", 2),
    (b"#define N 5/* a */\n#define N 0x5l\nN", 1),
    (b"a /**/ b\r c", 3),
    (b"#define N 1\n\"N\" N", 2),
    (b"N\n#define N 1", 1),
    (b"/**//***/", 0),
    (b"/* /* */ a */", 3),
    (b"\x0b\x0c\r\t a", 1),
    (b"0X1fLu", 1),
    (b".5 1 .", 4),
    (b"037777777777", 1),
    (b"'\\xff' '\\?' '\\'' '\\\\'", 4),
    (b"\"\"\"a\"", 2),
    (b"#include <stdio.h> /* a */ /* b */", 0),
    (b"#define N 5\n#define N 5l\n#define N 05\nN", 1),
    (b"#define N 2147483648\n#define N 2147483648u\nN", 1),
];

#[test]
fn texts_have_their_tokens(rt: HostRuntime) {
    for (text, wanted) in &ROWS {
        let found = count_of(rt.alloc(), text);
        assert_eq!(rt; found, Some(*wanted), "{text:?}");
    }
}

/// The number that a token is, or None where it is none.
fn number_of(kind: &Kind) -> Option<(u32, bool)> {
    match kind {
        Kind::Num { value, unsigned } => Some((*value, *unsigned)),
        _ => None,
    }
}

#[test]
fn constants_have_their_values(rt: HostRuntime) -> Result<(), Fail> {
    let text = b"#define N 0x10\n N 2147483648 017u 'a' '\\377' '\\x7f' '\\n' '\"'";
    let tokens = lex(rt.alloc(), text).ok().ok_or("the text is refused")?;
    let wanted = [
        (16, false),
        (2_147_483_648, true),
        (15, true),
        (97, false),
        (4_294_967_295, false),
        (127, false),
        (10, false),
        (34, false),
    ];
    assert_eq!(rt; tokens.list.len(), wanted.len());
    for (token, number) in tokens.list.iter().zip(&wanted) {
        assert_eq!(rt; number_of(&token.kind), Some(*number));
    }
    Ok(())
}

#[test]
fn words_stand_at_their_places(rt: HostRuntime) -> Result<(), Fail> {
    let text = b"/* a */ where\n\twheres \"\\045d\\\"\"\n";
    let tokens = lex(rt.alloc(), text).ok().ok_or("the text is refused")?;
    let Tokens { list, end } = tokens;
    assert_eq!(rt; (end.line, end.col), (3, 1));
    assert_eq!(rt; list.len(), 3);
    for token in &list {
        let at = (token.start, token.end, token.place.line, token.place.col);
        match &token.kind {
            Kind::Mark(mark) => {
                assert_eq!(rt; at, (8, 13, 1, 9));
                assert!(rt; *mark == Mark::Where);
            }
            Kind::Name(name) => {
                assert_eq!(rt; at, (15, 21, 2, 2));
                assert_eq!(rt; Word::bytes(name), b"wheres".as_slice());
            }
            Kind::Text(word) => {
                assert_eq!(rt; at, (22, 31, 2, 9));
                assert_eq!(rt; word.bytes(), b"%d\"".as_slice());
            }
            Kind::Num { .. } => assert!(rt; false, "no number stands there"),
        }
    }
    Ok(())
}
