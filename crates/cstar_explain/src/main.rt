//! Explains a line of `cstar`: `cstar_explain FILE < LINE`.
#![tactic(auto)]

use cstar_base::Memory;
use cstar_io::{RealShelf, RealSource, Shelf, Source};
use fault_places::{Explanation, Found, explain};
use std::alloc::Global;
use std::io::{ErrorKind, Read};
use std::process::ExitCode;
use std::rt::{Env, Files};
use std::{env, io};

/// The greatest number of bytes of a file and of a line that are read.
const ROOM: u32 = 1_048_576;

/// The status where what the line says is explained, but not its place in the file.
const NO_PLACE: u8 = 1;
/// The status where the words are not one FILE.
const USAGE: u8 = 2;
/// The status where the line is none of `cstar`.
const NO_LINE: u8 = 3;
/// The status where there is no memory.
const NO_MEMORY: u8 = 8;

/// The first line of the input, without its newline.
fn first_line<I: Source>(alloc: Global, input: &mut I) -> Result<Vec<u8>, Memory> {
    let mut line = Vec::new(alloc);
    for _ in 0..ROOM {
        match input.next() {
            Ok(Some(b'\n') | None) | Err(_) => break,
            Ok(Some(byte)) => line.push(byte)?,
        }
    }
    Ok(line)
}

/// The explanation of the line on the input, which speaks of the file of this name.
fn explained<R, I>(rt: &R, name: &str, input: I) -> Result<Explanation, Memory>
where
    R: Files + AllocGlobal,
    I: Read + Drop,
{
    let alloc = rt.alloc();
    let line = first_line(alloc, &mut RealSource::new(alloc, input)?)?;
    let file = RealShelf::new(rt, alloc).fetch(name, ROOM);
    match &file {
        Ok(bytes) => explain(alloc, Some(bytes.as_slice()), line.as_slice()),
        Err(_) => explain(alloc, None, line.as_slice()),
    }
}

/// The one word of the command, if it is one.
fn file_name<R: Env + AllocGlobal>(rt: &R) -> io::Result<Option<String>> {
    let mut words = env::args(rt)?;
    let _program = words.next();
    let name = words.next();
    Ok(if words.next().is_some() { None } else { name })
}

fn status_of(found: Found) -> u8 {
    match found {
        Found::All => 0,
        Found::NoPlace => NO_PLACE,
        Found::Nothing => NO_LINE,
    }
}

fn main(rt: HostRuntime) -> io::Result<ExitCode> {
    let Some(name) = file_name(&rt)? else {
        println!(rt; "usage: cstar_explain FILE < LINE")?;
        return Ok(ExitCode::from(USAGE));
    };
    match explained(&rt, name.as_str(), rt.stdin()) {
        Ok(explanation) => {
            print!(rt; "{}", explanation.text.as_str())?;
            Ok(ExitCode::from(status_of(explanation.found)))
        }
        Err(Memory) => Ok(ExitCode::from(NO_MEMORY)),
    }
}
