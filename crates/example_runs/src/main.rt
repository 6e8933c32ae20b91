//! Runs examples and compares what they print with what is expected. Each word names one, whose
//! program, input and expected output stand in the files `NAME.cs`, `NAME.in` and `NAME.out`, or it is
//! the name of a page, `PAGE.md`, whose examples are faults.
#![tactic(auto)]

mod page;

use crate::page::{Example, examples_of};
use cstar_base::{Memory, Word};
use cstar_io::{MemShelf, MemSink, MemSource, Open, RealShelf, Shelf, ShelfErr};
use std::alloc::Global;
use std::rt::{Env, Files};
use std::thread::Threads;
use std::{env, io};

/// The greatest number of bytes of a file and of an output.
const ROOM: u32 = 1_048_576;

/// The bytes of a file, none where it cannot be read.
fn bytes<R: Files + AllocGlobal>(rt: &R, name: &str, kind: &str) -> Result<Vec<u8>, Memory> {
    let alloc = rt.alloc();
    let file = format!(in alloc; "{name}.{kind}")?;
    match RealShelf::new(rt, alloc).fetch(file.as_str(), ROOM) {
        Ok(bytes) => Ok(bytes),
        Err(ShelfErr::Failed) => Ok(Vec::new(alloc)),
        Err(ShelfErr::Memory) => Err(Memory),
    }
}

/// Whether an example ends well and prints what is expected, and nothing else.
fn is_kept<R>(rt: &R, name: &str) -> Result<bool, Memory>
where
    R: Files + AllocGlobal + Threads + Sync,
{
    let alloc = rt.alloc();
    let wanted = bytes(rt, name, "out")?;
    let mut words = Vec::new(alloc);
    words.push(format!(in alloc; "{name}.cs")?)?;
    let mut input = MemSource::new(bytes(rt, name, "in")?, Vec::new(alloc));
    let mut out = MemSink::new(alloc, ROOM, Vec::new(alloc))?;
    let mut err = MemSink::new(alloc, ROOM, Vec::new(alloc))?;
    let status = cstar_top::cstar(
        rt,
        alloc,
        words.as_slice(),
        &mut RealShelf::new(rt, alloc),
        &mut input,
        &mut out,
        &mut err,
        &Open,
    );
    Ok(status == 0 && out.taken() == wanted.as_slice() && err.taken().is_empty())
}

/// The line that a program of a page gives on the error output.
fn given<R: Threads + Sync>(rt: &R, alloc: Global, program: &str) -> Result<MemSink, Memory> {
    let name = Word::of(Vec::from_slice(alloc, b"a.cs")?);
    let mut files = Vec::new(alloc);
    files.push((name, Vec::from_slice(alloc, program.as_bytes())?))?;
    let mut words = Vec::new(alloc);
    words.push(String::from_str(alloc, "a.cs")?)?;
    let mut input = MemSource::new(Vec::new(alloc), Vec::new(alloc));
    let mut out = MemSink::new(alloc, ROOM, Vec::new(alloc))?;
    let mut err = MemSink::new(alloc, ROOM, Vec::new(alloc))?;
    let _status = cstar_top::cstar(
        rt,
        alloc,
        words.as_slice(),
        &mut MemShelf::new(files, Vec::new(alloc)),
        &mut input,
        &mut out,
        &mut err,
        &Open,
    );
    Ok(err)
}

/// Whether an example of a page gives the line that the page names, and that of its heading.
fn is_true<R: Threads + Sync>(rt: &R, alloc: Global, example: &Example) -> Result<bool, Memory> {
    let err = given(rt, alloc, example.program.as_str())?;
    let line = format!(in alloc; "{}\n", example.wanted.as_str())?;
    Ok(err.taken() == line.as_bytes() && example.wanted.contains(example.heading.as_str()))
}

/// The examples of a page, none where it is no text.
fn examples_in<R: Files + AllocGlobal>(rt: &R, name: &str) -> Result<Vec<Example>, Memory> {
    let page = bytes(rt, name, "md")?;
    match str::from_utf8(page.as_slice()) {
        Ok(page) => examples_of(rt.alloc(), page),
        Err(_) => Ok(Vec::new(rt.alloc())),
    }
}

/// What is printed of an example.
fn verdict_of(kept: bool) -> &'static str {
    if kept {
        "as expected"
    } else {
        "NOT as expected"
    }
}

/// The lines on a word: that of an example, or one for each example of a page.
fn report<R>(rt: &R, name: &str) -> Result<Vec<String>, Memory>
where
    R: Files + AllocGlobal + Threads + Sync,
{
    let alloc = rt.alloc();
    let mut lines = Vec::new(alloc);
    let Some(page) = name.strip_suffix(".md") else {
        let verdict = verdict_of(is_kept(rt, name)?);
        lines.push(format!(in alloc; "{name}: {verdict}")?)?;
        return Ok(lines);
    };
    for example in &examples_in(rt, page)? {
        let verdict = verdict_of(is_true(rt, alloc, example)?);
        lines.push(format!(in alloc; "{}: {verdict}", example.heading.as_str())?)?;
    }
    Ok(lines)
}

fn main(rt: HostRuntime) -> io::Result<()> {
    let mut words = env::args(&rt)?;
    let _program = words.next();
    for name in words {
        let Ok(lines) = report(&rt, name.as_str()) else {
            println!(rt; "{name}: out of memory")?;
            continue;
        };
        for line in &lines {
            println!(rt; "{line}")?;
        }
    }
    Ok(())
}
