//! A line of a file with a caret under a column.

use cstar_base::{Memory, Place};
use std::alloc::Global;

/// How many bytes of a line are shown on either side of a column.
const REACH: usize = 60;

/// The line of a place with a caret under its column, indented, each ended by a newline. None where
/// the file has no such place: its columns go up to the one behind the last byte of a line.
pub fn excerpt(alloc: Global, file: &[u8], place: Place) -> Result<Option<String>, Memory> {
    let Some(line) = line_of(file, place.line) else {
        return Ok(None);
    };
    let Some(column) = (place.col as usize).checked_sub(1) else {
        return Ok(None);
    };
    if line.len() < column {
        return Ok(None);
    }
    let mut shown = Shown::new(alloc, column)?;
    match str::from_utf8(line) {
        Ok(text) => {
            for (at, letter) in text.char_indices() {
                shown.push(at, letter)?;
            }
        }
        Err(_) => {
            for (at, byte) in line.iter().enumerate() {
                shown.push(
                    at,
                    if byte.is_ascii() {
                        char::from(*byte)
                    } else {
                        '?'
                    },
                )?;
            }
        }
    }
    Ok(Some(shown.lines()?))
}

/// The bytes of a line, without its newline; lines count from 1.
fn line_of(file: &[u8], number: u32) -> Option<&[u8]> {
    let mut line = 1u32;
    let mut start = 0;
    for (at, byte) in file.iter().enumerate() {
        if *byte == b'\n' {
            if line == number {
                return file.get(start..at);
            }
            line = line.saturating_add(1);
            start = at.saturating_add(1);
        }
    }
    if line == number {
        file.get(start..file.len())
    } else {
        None
    }
}

/// What is shown of a line around a column, and the blanks under it up to that column.
#[derive(Drop)]
struct Shown {
    text: String,
    under: String,
    column: usize,
}

impl Shown {
    fn new(alloc: Global, column: usize) -> Result<Shown, Memory> {
        Ok(Shown {
            text: String::from_str(alloc, "    ")?,
            under: String::from_str(alloc, "    ")?,
            column,
        })
    }

    /// Shows the letter that begins at this byte of the line, where it is near the column. Letters
    /// that have no picture are shown as a blank.
    fn push(&mut self, at: usize, letter: char) -> Result<(), Memory> {
        if at.abs_diff(self.column) > REACH {
            return Ok(());
        }
        self.text.push(if letter.is_ascii_control() {
            ' '
        } else {
            letter
        })?;
        if at < self.column {
            self.under.push(' ')?;
        }
        Ok(())
    }

    /// Both lines.
    fn lines(self) -> Result<String, Memory> {
        let Shown {
            mut text,
            under,
            ..
        } = self;
        text.push_str("\n")?;
        text.push_str(under.as_str())?;
        text.push_str("^\n")?;
        Ok(text)
    }
}
