//! The command `cstar`: the top call, or that of a batch, over the system's files and streams.
#![tactic(auto)]

mod prompt;

use crate::prompt::{Prompt, Sending};
use batch_top::cstar_batch;
use cstar_io::{Open, RealShelf, RealSink, RealSource};
use cstar_top::cstar;
use std::io::{ErrorKind, IsTerminal, Read, Write};
use std::process::ExitCode;
use std::rt::{Env, Files};
use std::sync::Wait;
use std::thread::Threads;
use std::{env, io};

/// The status where the words of the process cannot be had.
const NO_WORDS: u8 = 11;

/// The status where there is no memory.
const NO_MEMORY: u8 = 8;

/// The words of the command, without the program's name.
fn words<R: Env + AllocGlobal>(rt: &R) -> io::Result<Vec<String>> {
    let mut args = env::args(rt)?;
    let _name = args.next();
    Ok(args.collect(rt.alloc())?)
}

/// The words behind the word `batch`, where it is the first.
fn batch_words(words: &[String]) -> Option<&[String]> {
    match words.split_first() {
        Some((first, rest)) if first.as_str() == "batch" => Some(rest),
        _ => None,
    }
}

/// The status of the command on these words: those behind the word `batch` are the words of a batch.
/// Where the input is a terminal, output is sent on at once, and where the output is one, by lines.
fn status<R, I, O, E>(rt: &R, words: &[String], input: I, out: O, err: E) -> u8
where
    R: Files + AllocGlobal + Threads + Wait + Sync,
    I: Read + IsTerminal + Drop,
    O: Write + IsTerminal + Drop,
    E: Write + Drop,
{
    let alloc = rt.alloc();
    let sending = Sending::towards(input.is_terminal(), out.is_terminal());
    let (Ok(mut input), Ok(out), Ok(mut err)) = (
        RealSource::new(alloc, input),
        RealSink::new(alloc, out),
        RealSink::new(alloc, err),
    ) else {
        return NO_MEMORY;
    };
    let mut out = Prompt::new(out, sending);
    let mut shelf = RealShelf::new(rt, alloc);
    match batch_words(words) {
        Some(words) => cstar_batch(rt, alloc, words, &mut shelf, &mut out, &mut err, &Open),
        None => cstar(
            rt, alloc, words, &mut shelf, &mut input, &mut out, &mut err, &Open,
        ),
    }
}

fn main(rt: HostRuntime) -> ExitCode {
    ExitCode::from(match words(&rt) {
        Ok(words) => status(&rt, words.as_slice(), rt.stdin(), rt.stdout(), rt.stderr()),
        Err(error) if error.kind() == ErrorKind::OutOfMemory => NO_MEMORY,
        Err(_) => NO_WORDS,
    })
}
