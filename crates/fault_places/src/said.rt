//! What a line of `cstar` says.

use cstar_base::Place;

/// A line that `cstar` puts on the error output.
#[derive(Clone, Copy)]
pub enum Said<'a> {
    /// A refusal, or a fault that ends a run.
    Fault(Located<'a>),
    Stopped,
    CannotRead,
    CannotSave,
    InputFault,
    OutOfMemory,
    Usage,
}

/// A fault with its place, and for a fault of a run the position that the line may name.
#[derive(Clone, Copy)]
pub struct Located<'a> {
    pub place: Place,
    /// Letter and number, as `E05`.
    pub number: &'a str,
    pub name: &'a str,
    pub position: Option<u32>,
}

/// What a line says, without its newline. None where it is no line of `cstar`.
pub fn read_line(line: &str) -> Option<Said<'_>> {
    match line {
        "out of memory" => Some(Said::OutOfMemory),
        "input fault" => Some(Said::InputFault),
        _ => named(line),
    }
}

/// The same of a line that names a file, a place or a number.
fn named(line: &str) -> Option<Said<'_>> {
    if let Some(located) = read_fault(line) {
        return Some(Said::Fault(located));
    }
    if line.strip_prefix("usage: cstar ").is_some() {
        Some(Said::Usage)
    } else if line.strip_prefix("cannot read ").is_some() {
        Some(Said::CannotRead)
    } else if line.strip_prefix("cannot save ").is_some() {
        Some(Said::CannotSave)
    } else if line.strip_prefix("stopped after ").is_some() {
        Some(Said::Stopped)
    } else {
        None
    }
}

/// The fault of a line `FILE:LINE:COLUMN: E05 Syntax`, or `.. F1 Index at position 7`.
fn read_fault(line: &str) -> Option<Located<'_>> {
    let (before, fault) = line.rsplit_once(": ")?;
    let (before, column) = before.rsplit_once(":")?;
    let (_file, row) = before.rsplit_once(":")?;
    let (number, rest) = fault.split_once(" ")?;
    let (name, position) = match rest.split_once(" at position ") {
        Some((name, position)) => (name, Some(position.parse().ok()?)),
        None => (rest, None),
    };
    Some(Located {
        place: Place {
            line: row.parse().ok()?,
            col: column.parse().ok()?,
        },
        number,
        name,
        position,
    })
}
