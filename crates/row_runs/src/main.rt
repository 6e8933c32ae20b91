//! Runs the rows of pages and compares what each command puts and gives with what the row says. Each
//! word names a page.
#![tactic(auto)]

mod bytes;
mod late;
mod row;

use crate::late::Late;
use crate::row::{Row, rows_of};
use batch_top::cstar_batch;
use cstar_base::{Memory, Word};
use cstar_io::{MemShelf, MemSink, MemSource, RealShelf, Shelf, ShelfErr};
use cstar_top::cstar;
use std::alloc::Global;
use std::rt::{Env, Files};
use std::sync::Wait;
use std::thread::Threads;
use std::{env, io};

/// The greatest number of bytes of a page.
const PAGE: u32 = 1_048_576;

/// The greatest number of bytes of an output.
const ROOM: u32 = 65_536;

/// A shelf that holds a row's file under both names, where `a.paris` is what rows call a listing, and
/// its other files.
fn shelf_with(alloc: Global, row: &Row) -> Result<MemShelf, Memory> {
    let mut files = Vec::new(alloc);
    for name in ["a.cs", "a.paris"] {
        files.push(named_file(alloc, name, row.file.as_slice())?)?;
    }
    for other in &row.others {
        files.push(named_file(alloc, other.name.as_str(), other.text.as_slice())?)?;
    }
    Ok(MemShelf::new(files, Vec::new(alloc)))
}

/// A file of this name.
fn named_file(alloc: Global, name: &str, text: &[u8]) -> Result<(Word, Vec<u8>), Memory> {
    let name = Word::of(Vec::from_slice(alloc, name.as_bytes())?);
    Ok((name, Vec::from_slice(alloc, text)?))
}

/// What a row's commands find outside.
#[derive(Drop)]
struct Outside {
    shelf: MemShelf,
    input: MemSource,
    out: MemSink,
    err: MemSink,
}

impl Outside {
    /// A row's files and input, and outputs that have taken nothing.
    fn of_row(alloc: Global, row: &Row) -> Result<Outside, Memory> {
        let input = Vec::from_slice(alloc, row.input.as_slice())?;
        Ok(Outside {
            shelf: shelf_with(alloc, row)?,
            input: MemSource::new(input, Vec::new(alloc)),
            out: MemSink::new(alloc, ROOM, Vec::new(alloc))?,
            err: MemSink::new(alloc, ROOM, Vec::new(alloc))?,
        })
    }
}

/// The words of a command, which blanks divide.
fn words_of(alloc: Global, command: &str) -> Result<Vec<String>, Memory> {
    let mut words = Vec::new(alloc);
    for word in command.split_whitespace() {
        words.push(String::from_str(alloc, word)?)?;
    }
    Ok(words)
}

/// The status of a command. The words behind `batch` are those of a batch.
fn status_of<R: Threads + Wait + Sync>(
    rt: &R,
    alloc: Global,
    words: &[String],
    outside: &mut Outside,
) -> u8 {
    let Outside {
        shelf,
        input,
        out,
        err,
    } = outside;
    let gate = Late::new();
    match words {
        [first, rest @ ..] if first.as_str() == "batch" => {
            cstar_batch(rt, alloc, rest, shelf, out, err, &gate)
        }
        words => cstar(rt, alloc, words, shelf, input, out, err, &gate),
    }
}

/// Whether commands, divided by ` ; `, do on a row's files and input what the row says, one behind the
/// other.
fn is_kept<R: Threads + Wait + Sync>(
    rt: &R,
    alloc: Global,
    row: &Row,
    commands: &str,
) -> Result<bool, Memory> {
    let mut outside = Outside::of_row(alloc, row)?;
    let mut status = 0;
    for command in commands.split(" ; ") {
        let words = words_of(alloc, command)?;
        status = status_of(rt, alloc, words.as_slice(), &mut outside);
    }
    Ok(
        status == row.status
            && outside.out.taken() == row.out.as_slice()
            && outside.err.taken() == row.err.as_slice(),
    )
}

/// A line for each command of the rows that does something else, and one that counts the others.
fn report<R: Threads + Wait + Sync>(
    rt: &R,
    alloc: Global,
    page: &str,
    rows: &[Row],
) -> Result<Vec<String>, Memory> {
    let mut lines = Vec::new(alloc);
    let mut kept = 0u32;
    for row in rows {
        for command in &row.commands {
            if is_kept(rt, alloc, row, command.as_str())? {
                kept = kept.saturating_add(1);
            } else {
                let name = row.name.as_str();
                let command = command.as_str();
                lines.push(format!(in alloc; "{page}: {name}: NOT as expected: {command}")?)?;
            }
        }
    }
    lines.push(format!(in alloc; "{page}: {kept} as expected")?)?;
    Ok(lines)
}

/// The lines on a page, which is none where it cannot be read or is no text.
fn lines_on<R>(rt: &R, page: &str) -> Result<Vec<String>, Memory>
where
    R: Files + AllocGlobal + Threads + Wait + Sync,
{
    let alloc = rt.alloc();
    let bytes = match RealShelf::new(rt, alloc).fetch(page, PAGE) {
        Ok(bytes) => bytes,
        Err(ShelfErr::Failed) => Vec::new(alloc),
        Err(ShelfErr::Memory) => return Err(Memory),
    };
    let rows = match str::from_utf8(bytes.as_slice()) {
        Ok(text) => rows_of(alloc, text)?,
        Err(_) => Vec::new(alloc),
    };
    report(rt, alloc, page, rows.as_slice())
}

fn main(rt: HostRuntime) -> io::Result<()> {
    let mut words = env::args(&rt)?;
    let _program = words.next();
    for page in words {
        let Ok(lines) = lines_on(&rt, page.as_str()) else {
            println!(rt; "{page}: out of memory")?;
            continue;
        };
        for line in &lines {
            println!(rt; "{line}")?;
        }
    }
    Ok(())
}
