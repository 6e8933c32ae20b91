//! What the tests run: the top call over an outside in memory.

use cstar_base::{Memory, Word};
use cstar_io::{Gate, MemShelf, MemSink, MemSource, Open};
use std::alloc::Global;
use std::thread::Threads;

/// The greatest number of bytes that a test's output takes.
const ROOM: u32 = 4096;

/// What the outside does besides holding the file: the bytes of the input, and which of its calls
/// fail, counted from 1.
#[derive(Clone, Copy)]
pub struct Outside<'a> {
    pub input: &'a [u8],
    pub source: &'a [u64],
    pub shelf: &'a [u64],
    pub out: &'a [u64],
    pub err: &'a [u64],
    /// How many bytes a failing put of the output takes.
    pub keep: u32,
}

/// An outside of which no call fails.
pub const SOUND: Outside<'static> = Outside {
    input: &[],
    source: &[],
    shelf: &[],
    out: &[],
    err: &[],
    keep: 0,
};

/// What the command did: its status and what its sinks took.
#[derive(Drop)]
pub struct Done {
    pub status: u8,
    pub out: MemSink,
    pub err: MemSink,
}

/// What a command is to come to: its status, and what its sinks are to take.
#[derive(Clone, Copy)]
pub struct Answer<'a> {
    pub status: u8,
    pub out: &'a [u8],
    pub err: &'a [u8],
}

impl Done {
    /// Whether the command came to this answer.
    pub fn is(&self, answer: Answer) -> bool {
        self.status == answer.status
            && self.out.taken() == answer.out
            && self.err.taken() == answer.err
    }
}

fn strings(alloc: Global, words: &[&str]) -> Result<Vec<String>, Memory> {
    let mut all = Vec::new(alloc);
    for word in words {
        all.push(String::from_str(alloc, word)?)?;
    }
    Ok(all)
}

/// A shelf that holds the text under both names: `a.paris` is what tests call a listing.
pub fn shelf_with(alloc: Global, text: &[u8], failing: &[u64]) -> Result<MemShelf, Memory> {
    let source = Word::of(Vec::from_slice(alloc, b"a.cs")?);
    let listing = Word::of(Vec::from_slice(alloc, b"a.paris")?);
    let mut files = Vec::new(alloc);
    files.push((source, Vec::from_slice(alloc, text)?))?;
    files.push((listing, Vec::from_slice(alloc, text)?))?;
    Ok(MemShelf::new(files, Vec::from_slice(alloc, failing)?))
}

fn output(alloc: Global, failing: &[u64], keep: u32) -> Result<MemSink, Memory> {
    let failing = Vec::from_slice(alloc, failing)?;
    if keep == 0 {
        MemSink::new(alloc, ROOM, failing)
    } else {
        MemSink::partial(alloc, ROOM, failing, keep)
    }
}

/// Whether the command on `a.cs` comes to this answer, where that has this text.
pub fn answers<R: Threads + Sync>(
    rt: &R,
    alloc: Global,
    text: &[u8],
    outside: Outside,
    answer: Answer,
) -> bool {
    match command(rt, alloc, &["a.cs"], text, outside) {
        Ok(done) => done.is(answer),
        Err(Memory) => false,
    }
}

/// The command on these words, where `a.cs` and `a.paris` have this text.
pub fn command<R: Threads + Sync>(
    rt: &R,
    alloc: Global,
    words: &[&str],
    text: &[u8],
    outside: Outside,
) -> Result<Done, Memory> {
    command_by(rt, alloc, words, text, outside, &Open)
}

/// The same with a gate.
pub fn command_by<R: Threads + Sync, G: Gate + Sync>(
    rt: &R,
    alloc: Global,
    words: &[&str],
    text: &[u8],
    outside: Outside,
    gate: &G,
) -> Result<Done, Memory> {
    let mut shelf = shelf_with(alloc, text, outside.shelf)?;
    command_on(rt, alloc, words, &mut shelf, outside, gate)
}

/// The command on these words and the files of a shelf, which it may change.
pub fn command_on<R: Threads + Sync, G: Gate + Sync>(
    rt: &R,
    alloc: Global,
    words: &[&str],
    shelf: &mut MemShelf,
    outside: Outside,
    gate: &G,
) -> Result<Done, Memory> {
    let words = strings(alloc, words)?;
    let mut input = MemSource::new(
        Vec::from_slice(alloc, outside.input)?,
        Vec::from_slice(alloc, outside.source)?,
    );
    let mut out = output(alloc, outside.out, outside.keep)?;
    let mut err = MemSink::new(alloc, ROOM, Vec::from_slice(alloc, outside.err)?)?;
    let status = cstar_top::cstar(
        rt,
        alloc,
        words.as_slice(),
        shelf,
        &mut input,
        &mut out,
        &mut err,
        gate,
    );
    Ok(Done { status, out, err })
}
