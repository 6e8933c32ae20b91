//! Pages with examples: a program stands indented, and behind it the line that it gives.

use cstar_base::Memory;
use std::alloc::Global;

/// The greatest number of copies that a page can ask for.
const MOST: u32 = 1_048_577;

/// A program of a page, the heading that it stands under, and the line that the page names.
#[derive(Drop)]
pub struct Example {
    pub heading: String,
    pub program: String,
    pub wanted: String,
}

/// The examples of a page, in order. A line of an example is indented by four blanks, and the line
/// that it gives stands in backquotes behind the word `gives`.
pub fn examples_of(alloc: Global, page: &str) -> Result<Vec<Example>, Memory> {
    let mut examples = Vec::new(alloc);
    let mut heading = "";
    let mut program = String::new(alloc);
    for line in page.lines() {
        if let Some(title) = line.strip_prefix("## ") {
            heading = title;
        } else if let Some(written) = line.strip_prefix("    ") {
            if !program.is_empty() {
                program.push_str("\n")?;
            }
            push_copies(&mut program, written)?;
        } else if let Some(named) = line.strip_prefix("gives `") {
            let wanted = match named.split_once("`") {
                Some((wanted, _)) => wanted,
                None => named,
            };
            examples.push(Example {
                heading: String::from_str(alloc, heading)?,
                program,
                wanted: String::from_str(alloc, wanted)?,
            })?;
            program = String::new(alloc);
        }
    }
    Ok(examples)
}

/// Appends a line in which `«100 (»` stands for a hundred times `(`.
fn push_copies(program: &mut String, line: &str) -> Result<(), Memory> {
    for part in line.split("»") {
        let Some((before, copied)) = part.split_once("«") else {
            program.push_str(part)?;
            continue;
        };
        program.push_str(before)?;
        let Some((count, piece)) = copied.split_once(" ") else {
            continue;
        };
        let count: u32 = count.parse().unwrap_or(0);
        for _ in 0..count.min(MOST) {
            program.push_str(piece)?;
        }
    }
    Ok(())
}
