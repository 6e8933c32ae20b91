//! What stands at a hopeless token, and what may stand there instead.

ghost use Rattle.std.specs.Prelude.{◌≤◌, vec_len};

use cstar_base::{Memory, Place};
use cstar_lexer::{LexFault, lex};
use cstar_parser::{ParseFault, parse};
use cstar_tree::token::{Kind, Mark, Token, Tokens};
use fault_catalogue::instead_of;
use std::alloc::Global;

/// The greatest number of bytes of a text, and of tokens of one.
const MOST: usize = 1_048_576;

/// Words that go together: where the first may stand, they are named by the name of them all.
struct Group {
    name: &'static str,
    words: &'static [&'static str],
}

static GROUPS: [Group; 5] = [
    Group {
        name: "a statement",
        words: &[
            "while",
            "if",
            "do",
            "for",
            "with",
            "where",
            "everywhere",
            "break",
            "continue",
            "return",
            "{",
            ";",
            "x",
            "1",
            "(",
            "-",
            "+",
            "!",
            "~",
            "[",
            "++",
            "--",
            "+=",
            "-=",
            "&=",
            "|=",
            "^=",
            "<?=",
            ">?=",
            "pcoord",
            "positionsof",
            "rankof",
            "dimof",
            "scan",
            "enumerate",
            "printf",
            "getchar",
            ".",
        ],
    },
    Group {
        name: "an expression",
        words: &[
            "1",
            "x",
            "(",
            "-",
            "+",
            "!",
            "~",
            "[",
            "++",
            "--",
            "+=",
            "-=",
            "&=",
            "|=",
            "^=",
            "<?=",
            ">?=",
            "pcoord",
            "positionsof",
            "rankof",
            "dimof",
            "scan",
            "enumerate",
            "printf",
            "getchar",
            ".",
        ],
    },
    Group {
        name: "an operator",
        words: &[
            "*", "/", "%", "%%", "+", "-", "<<", ">>", "<", ">", "<=", ">=", "==", "!=", "&", "^",
            "|", "&&", "||", "?", "<?", ">?", "++", "--",
        ],
    },
    Group {
        name: "an assignment",
        words: &[
            "*=", "=", "+=", "-=", "/=", "%=", "%%=", "&=", "|=", "^=", "<<=", ">>=", "<?=", ">?=",
        ],
    },
    Group {
        name: "a type",
        words: &["int", "bool", "char", "short", "long", "signed", "unsigned"],
    },
];

/// Every other word that may be wanted, and how it is named.
static WORDS: [(&str, &str); 24] = [
    ("x", "a name"),
    ("1", "a number"),
    ("\"\"", "a text"),
    ("void", "`void`"),
    ("shape", "`shape`"),
    ("current", "`current`"),
    ("else", "`else`"),
    ("while", "`while`"),
    ("{", "`{`"),
    ("}", "`}`"),
    ("(", "`(`"),
    (")", "`)`"),
    ("[", "`[`"),
    ("]", "`]`"),
    (";", "`;`"),
    (",", "`,`"),
    (":", "`:`"),
    ("=", "`=`"),
    (".", "`.`"),
    ("CMC_upward", "`CMC_upward` or `CMC_downward`"),
    ("CMC_inclusive", "`CMC_inclusive` or `CMC_exclusive`"),
    (
        "CMC_none",
        "`CMC_none`, `CMC_start_bit` or `CMC_segment_bit`",
    ),
    ("CMC_no_field", "`CMC_no_field`"),
    ("CMC_combiner_add", "a combiner, as `CMC_combiner_add`"),
];

/// The tokens before a place, and the bytes of the one that stands there, none at the end.
#[derive(Drop)]
struct Before<'a> {
    tokens: Tokens,
    there: Option<&'a [u8]>,
}

impl Before<'_> {
    /// Whether some program begins with the tokens and this word.
    fn goes_on(&mut self, alloc: Global, word: &str) -> Result<bool, Memory> {
        let bytes = word.as_bytes();
        if MOST < bytes.len() {
            return Ok(false);
        }
        let mut read = match lex(alloc, bytes) {
            Ok(read) => read,
            Err(LexFault::Memory) => return Err(Memory),
            Err(LexFault::Fault { .. }) => return Ok(false),
        };
        let Some(token) = read.list.pop() else {
            return Ok(false);
        };
        let count = self.tokens.list.len();
        self.tokens.list.push(token)?;
        let goes_on = begins(alloc, &self.tokens, count)?;
        let _token = self.tokens.list.pop();
        Ok(goes_on)
    }
}

/// Whether some program begins with all of the tokens, of which so many are before the last.
fn begins(alloc: Global, tokens: &Tokens, count: usize) -> Result<bool, Memory> {
    if MOST < tokens.list.len() {
        return Ok(false);
    }
    match parse(alloc, tokens) {
        Ok(_tree) => Ok(true),
        Err(ParseFault::Syntax { token }) => Ok(count < token as usize),
        Err(ParseFault::Depth { .. }) => Ok(true),
        Err(ParseFault::Memory) => Err(Memory),
    }
}

/// The number of the token at a place, or the count of all at the place of the end.
fn number_at(tokens: &Tokens, place: Place) -> Option<usize> {
    for (number, token) in tokens.list.iter().enumerate() {
        if token.place == place {
            return Some(number);
        }
    }
    if tokens.end == place {
        Some(tokens.list.len())
    } else {
        None
    }
}

/// The tokens before a place of a file. None where no token stands there, or the file has none.
fn tokens_before(alloc: Global, file: &[u8], place: Place) -> Result<Option<Before<'_>>, Memory> {
    if MOST < file.len() {
        return Ok(None);
    }
    let mut tokens = match lex(alloc, file) {
        Ok(tokens) => tokens,
        Err(LexFault::Memory) => return Err(Memory),
        Err(LexFault::Fault { .. }) => return Ok(None),
    };
    let Some(number) = number_at(&tokens, place) else {
        return Ok(None);
    };
    let there = match tokens.list.get(number) {
        Some(token) => file.get(token.start as usize..token.end as usize),
        None => None,
    };
    tokens.list.truncate(number);
    Ok(Some(Before { tokens, there }))
}

/// What may stand behind the tokens, in words, divided by commas.
fn wanted_words(alloc: Global, before: &mut Before<'_>) -> Result<String, Memory> {
    let mut words = String::new(alloc);
    let mut named: Vec<&'static [&'static str]> = Vec::new(alloc);
    for group in &GROUPS {
        let Some(first) = group.words.first() else {
            continue;
        };
        if !is_named(named.as_slice(), first) && before.goes_on(alloc, first)? {
            add(&mut words, group.name)?;
            named.push(group.words)?;
        }
    }
    for (word, name) in &WORDS {
        if !is_named(named.as_slice(), word) && before.goes_on(alloc, word)? {
            add(&mut words, name)?;
        }
    }
    let count = before.tokens.list.len();
    if begins(alloc, &before.tokens, count)? {
        add(&mut words, "the end of the file")?;
    }
    Ok(words)
}

/// Whether one of the lists has the word.
fn is_named(lists: &[&'static [&'static str]], word: &str) -> bool {
    for list in lists {
        for listed in *list {
            if *listed == word {
                return true;
            }
        }
    }
    false
}

/// Appends a name to a list that is divided by commas.
fn add(words: &mut String, name: &str) -> Result<(), Memory> {
    if !words.is_empty() {
        words.push_str(", ")?;
    }
    words.push_str(name)?;
    Ok(())
}

/// What form of C the tokens at the place look like that this language has not, and what is written
/// instead.
fn known_form(before: &Before<'_>) -> Option<&'static str> {
    let there = str::from_utf8(before.there?).ok()?;
    if let Some(instead) = instead_of(there) {
        return Some(instead);
    }
    let last = before.tokens.list.last();
    match there {
        "/" | "//" => Some("Comments are `/* text */`; there is no `//`."),
        ";" if ends_with(last, Mark::RightParen) => {
            Some("A function is known in the whole file: leave out its prototype.")
        }
        "*" if ends_with_type(last) => {
            Some(
                "There are no pointers: a function answers its result, and parallel data is indexed.",
            )
        }
        "[" => Some(
            "Arrays of scalars are a shape of that many positions, `shape [10]S; int:S a;`, and elements are `[i]a`.",
        ),
        _ if there.strip_prefix("\"").is_some() => {
            Some(
                "A text stands only as the first argument of `printf`, which has no `%s`: write it there.",
            )
        }
        _ if is_type_word(there) => {
            Some(
                "Declarations stand at the beginning of a block, before its statements, and not in the brackets of `for`.",
            )
        }
        _ => None,
    }
}

fn ends_with(last: Option<&Token>, mark: Mark) -> bool {
    match last {
        Some(
            Token {
                kind: Kind::Mark(found),
                ..
            },
        ) => *found == mark,
        _ => false,
    }
}

fn ends_with_type(last: Option<&Token>) -> bool {
    ends_with(last, Mark::Int)
        || ends_with(last, Mark::Char)
        || ends_with(last, Mark::Void)
        || ends_with(last, Mark::Short)
        || ends_with(last, Mark::Long)
        || ends_with(last, Mark::Unsigned)
}

fn is_type_word(word: &str) -> bool {
    matches!(
        word,
        "int" | "bool" | "char" | "short" | "long" | "signed" | "unsigned" | "void"
    )
}

/// The sentences on a hopeless token: what stands there, what may stand there instead, and the
/// substitute where C has such a form and this language has not. None where the file has no such
/// token.
pub fn wanted(alloc: Global, file: &[u8], place: Place) -> Result<Option<String>, Memory> {
    let Some(mut before) = tokens_before(alloc, file, place)? else {
        return Ok(None);
    };
    let mut text = String::from_str(alloc, "Here stands ")?;
    match before.there {
        Some(bytes) => match str::from_utf8(bytes) {
            Ok(word) if word.len() <= 40 => {
                text.push_str("`")?;
                text.push_str(word)?;
                text.push_str("`")?;
            }
            _ => text.push_str("a long token")?,
        },
        None => text.push_str("the end of the file")?,
    }
    text.push_str(". What may stand here: ")?;
    text.push_str(wanted_words(alloc, &mut before)?.as_str())?;
    text.push_str(".")?;
    if let Some(instead) = known_form(&before) {
        text.push_str(" ")?;
        text.push_str(instead)?;
    }
    Ok(Some(text))
}

/// The token that stands at a place, as text. None where the file has none there.
pub fn word_at(alloc: Global, file: &[u8], place: Place) -> Result<Option<&str>, Memory> {
    let Some(before) = tokens_before(alloc, file, place)? else {
        return Ok(None);
    };
    Ok(match before.there {
        Some(bytes) => str::from_utf8(bytes).ok(),
        None => None,
    })
}
