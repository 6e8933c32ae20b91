//! Texts with each of their tokens.

use cstar_lexer::{LexFault, lex};
use cstar_tree::token::{Kind, Mark, Tokens};
use std::alloc::Global;

/// A token as a row names it.
enum Wanted {
    Name(&'static str),
    Number(u32),
    Text(&'static str),
    Sign(Mark),
}

use Wanted::{Name, Number, Sign, Text};

fn is_wanted(kind: &Kind, wanted: &Wanted) -> bool {
    match (kind, wanted) {
        (Kind::Name(word), Name(name)) => word.bytes() == name.as_bytes(),
        (Kind::Num { value, .. }, Number(number)) => *value == *number,
        (Kind::Text(word), Text(text)) => word.bytes() == text.as_bytes(),
        (Kind::Mark(mark), Sign(sign)) => *mark == *sign,
        _ => false,
    }
}

/// The tokens of a row's text, which is short.
fn tokens_of(alloc: Global, text: &str) -> Result<Tokens, LexFault> {
    let bytes = text.as_bytes();
    if bytes.len() > 65536 {
        return Err(LexFault::Memory);
    }
    lex(alloc, bytes)
}

static TEXTS: [(&str, &[Wanted]); 8] = [
    (
        "x<?=y",
        &[Name("x"), Sign(Mark::LessQuestionEqual), Name("y")],
    ),
    (
        "a%%%b",
        &[
            Name("a"),
            Sign(Mark::PercentPercent),
            Sign(Mark::Percent),
            Name("b"),
        ],
    ),
    (
        "a%%%%=b",
        &[
            Name("a"),
            Sign(Mark::PercentPercent),
            Sign(Mark::PercentPercentEqual),
            Name("b"),
        ],
    ),
    (
        "a>>=b>>c>?d>?=e",
        &[
            Name("a"),
            Sign(Mark::ShiftRightEqual),
            Name("b"),
            Sign(Mark::ShiftRight),
            Name("c"),
            Sign(Mark::GreaterQuestion),
            Name("d"),
            Sign(Mark::GreaterQuestionEqual),
            Name("e"),
        ],
    ),
    (
        "i+++++j",
        &[
            Name("i"),
            Sign(Mark::PlusPlus),
            Sign(Mark::PlusPlus),
            Sign(Mark::Plus),
            Name("j"),
        ],
    ),
    (
        "boolsizeof bool sizeof _CMC_none CMC_none",
        &[
            Name("boolsizeof"),
            Sign(Mark::Bool),
            Sign(Mark::SizeOf),
            Name("_CMC_none"),
            Sign(Mark::NoSegments),
        ],
    ),
    (
        "1'a'\"%\\x64\"017l/* b */0",
        &[Number(1), Number(97), Text("%d"), Number(15), Number(0)],
    ),
    (
        "N\n#define N 0x10\nN.",
        &[Name("N"), Number(16), Sign(Mark::Dot)],
    ),
];

#[test]
fn texts_have_these_tokens(rt: HostRuntime) {
    for (text, wanted) in &TEXTS {
        let Ok(tokens) = tokens_of(rt.alloc(), text) else {
            panic!(rt; "{text} is refused");
        };
        assert_eq!(rt; tokens.list.len(), wanted.len(), "{text}");
        for (token, wanted) in tokens.list.iter().zip(wanted.iter()) {
            assert!(rt; is_wanted(&token.kind, wanted), "{text}");
        }
    }
}
