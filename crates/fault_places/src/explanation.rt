//! A line of `cstar` explained.

use crate::excerpt::excerpt;
use crate::index::extents;
use crate::room::room;
use crate::said::{Located, Said, read_line};
use crate::wanted::wanted;
use cstar_base::{Memory, Place};
use fault_catalogue::{entry_of, other_word};
use std::alloc::Global;

/// How much of a line could be explained.
#[derive(Clone, Copy, PartialEq, Eq)]
pub enum Found {
    /// All: the line tells no place, or the file has the place.
    All,
    /// What the line says, but the file is not there or has no such place.
    NoPlace,
    /// Nothing: it is no line of `cstar`.
    Nothing,
}

/// Sentences, each paragraph ended by a newline.
#[derive(Drop)]
pub struct Explanation {
    pub text: String,
    pub found: Found,
}

/// What a line of `cstar` means that it put on its error output. `file` are the bytes that it was
/// given, none where they cannot be had.
pub fn explain(alloc: Global, file: Option<&[u8]>, line: &[u8]) -> Result<Explanation, Memory> {
    let Ok(text) = str::from_utf8(line) else {
        return nothing(alloc);
    };
    match read_line(text) {
        Some(Said::Fault(located)) => explain_fault(alloc, file, text, located),
        Some(other) => Ok(Explanation {
            text: format!(in alloc; "{text}\n{}\n", without_place(&other))?,
            found: Found::All,
        }),
        None => nothing(alloc),
    }
}

/// The answer to what is no line of `cstar`.
fn nothing(alloc: Global) -> Result<Explanation, Memory> {
    Ok(Explanation {
        text: String::from_str(
            alloc,
            "This is no line that `cstar` puts on its error output.\n",
        )?,
        found: Found::Nothing,
    })
}

/// What a line means that tells no place.
fn without_place(said: &Said<'_>) -> &'static str {
    match said {
        Said::Stopped =>
            "The run spent its turns: each round of a loop and each call spends one. Give it more by `--turns N`.",
        Said::CannotRead => "There is no file of that name, or it may not be read.",
        Said::CannotSave =>
            "The state of the stopped run could not be written under that name; an old file of that name stays as it was.",
        Said::InputFault => "Standard input could not be read.",
        Said::OutOfMemory =>
            "There is too little memory. Use fewer or smaller variables, or another machine.",
        Said::Usage =>
            "The words are no command: look for an option that is given twice or misspelled, a number out of its range, or a second FILE.",
        Said::Fault(_) => "",
    }
}

/// What a fault means at its place.
fn explain_fault(
    alloc: Global,
    file: Option<&[u8]>,
    line: &str,
    located: Located<'_>,
) -> Result<Explanation, Memory> {
    let Some(entry) = entry_of(located.number, located.name) else {
        return nothing(alloc);
    };
    let mut text = format!(in alloc; "{line}\n")?;
    let shown = match file {
        Some(file) => excerpt(alloc, file, located.place)?,
        None => None,
    };
    let found = match &shown {
        Some(shown) => {
            text.push_str(shown.as_str())?;
            Found::All
        }
        None => {
            text.push_str(
                "The file is not there, or has no such place: it may have changed since.\n",
            )?;
            Found::NoPlace
        }
    };
    if let (Some(file), Found::All) = (file, found) {
        if let Some(here) = in_this_place(alloc, file, located)? {
            text.push_str(here.as_str())?;
            text.push_str("\n")?;
        }
    }
    text.push_str(entry.advice)?;
    text.push_str("\n")?;
    Ok(Explanation { text, found })
}

/// What there is to say of a fault in this file beside what it means everywhere.
fn in_this_place(
    alloc: Global,
    file: &[u8],
    located: Located<'_>,
) -> Result<Option<String>, Memory> {
    match located.number {
        "E05" => wanted(alloc, file, located.place),
        "E07" => unknown_name(alloc, file, located.place),
        "E28" => room(alloc, file),
        "E31" => Ok(Some(String::from_str(
            alloc,
            "Scalars have no arrays: write a shape of that many positions, `shape [10]S; int:S a;`, and elements as `[i]a`.",
        )?)),
        "F1" => extents(alloc, file, located.place, located.position),
        _ => Ok(None),
    }
}

/// The substitute of a name of C's library that stands at the place.
fn unknown_name(alloc: Global, file: &[u8], place: Place) -> Result<Option<String>, Memory> {
    let Some(name) = crate::wanted::word_at(alloc, file, place)? else {
        return Ok(None);
    };
    match other_word(name) {
        Some(instead) => Ok(Some(format!(in alloc; "C's `{name}` is not here. {instead}")?)),
        None => Ok(None),
    }
}
