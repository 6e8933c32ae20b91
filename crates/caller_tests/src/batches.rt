//! Two callers are at work at the same time, and an outside that fails.

use crate::meeting::Meeting;
use batch_top::cstar_batch;
use cstar_base::{Memory, Word};
use cstar_io::{Gate, MemShelf, MemSink, Open};
use std::alloc::Global;
use std::process::Abort;
use std::sync::Wait;
use std::test::Fail;
use std::thread::Threads;

/// What a batch came to: its status, and its outputs.
#[derive(Drop)]
struct Seen {
    status: u8,
    out: MemSink,
    err: MemSink,
}

#[test]
fn two_callers_meet(rt: HostRuntime) -> Result<(), Fail> {
    callers_meet(&rt, rt.alloc())
}

fn callers_meet<R: Threads + Wait + Abort + Sync>(rt: &R, alloc: Global) -> Result<(), Fail> {
    let gate = Meeting::new();
    let seen = run_two(rt, alloc, &[], &[], &gate)?;
    assert_eq!(rt; seen.status, 0);
    assert_eq!(rt; gate.seen(), (2, false));
    assert_eq!(rt;
        seen.out.taken(),
        b"== x.cs 0 1 0\na\n== y.cs 0 1 0\nb\n".as_slice()
    );
    assert!(rt; seen.err.taken().is_empty());
    Ok(())
}

#[test]
fn the_second_fetch_fails(rt: HostRuntime) -> Result<(), Fail> {
    fetch_fails(&rt, rt.alloc())
}

fn fetch_fails<R: Threads + Wait + Abort + Sync>(rt: &R, alloc: Global) -> Result<(), Fail> {
    let seen = run_two(rt, alloc, &[2], &[], &Open)?;
    assert_eq!(rt; seen.status, 5);
    assert!(rt; seen.out.taken().is_empty());
    assert_eq!(rt; seen.err.taken(), b"cannot read y.cs\n".as_slice());
    Ok(())
}

#[test]
fn the_second_section_fails(rt: HostRuntime) -> Result<(), Fail> {
    put_fails(&rt, rt.alloc())
}

fn put_fails<R: Threads + Wait + Abort + Sync>(rt: &R, alloc: Global) -> Result<(), Fail> {
    let seen = run_two(rt, alloc, &[], &[2], &Open)?;
    assert_eq!(rt; seen.status, 6);
    assert_eq!(rt; seen.out.taken(), b"== x.cs 0 1 0\na\n".as_slice());
    assert!(rt; seen.err.taken().is_empty());
    Ok(())
}

/// What two callers make of two files, where the fetches and the puts with these numbers fail.
fn run_two<R: Threads + Wait + Sync, G: Gate + Sync>(
    rt: &R,
    alloc: Global,
    fetches: &[u64],
    puts: &[u64],
    gate: &G,
) -> Result<Seen, Memory> {
    let mut words = Vec::new(alloc);
    for word in ["2", "x.cs", "y.cs"] {
        words.push(String::from_str(alloc, word)?)?;
    }
    let mut files = Vec::new(alloc);
    files.push(file(alloc, b"x.cs", b"main() { printf(\"a\"); }")?)?;
    files.push(file(alloc, b"y.cs", b"main() { printf(\"b\"); }")?)?;
    let mut shelf = MemShelf::new(files, Vec::from_slice(alloc, fetches)?);
    let mut out = MemSink::new(alloc, 64, Vec::from_slice(alloc, puts)?)?;
    let mut err = MemSink::new(alloc, 64, Vec::new(alloc))?;
    let status = cstar_batch(
        rt,
        alloc,
        words.as_slice(),
        &mut shelf,
        &mut out,
        &mut err,
        gate,
    );
    Ok(Seen { status, out, err })
}

fn file(alloc: Global, name: &[u8], text: &[u8]) -> Result<(Word, Vec<u8>), Memory> {
    Ok((
        Word::of(Vec::from_slice(alloc, name)?),
        Vec::from_slice(alloc, text)?,
    ))
}
