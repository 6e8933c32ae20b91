//! Runs that are kept on a shelf, of which calls may fail, and what becomes of its files.

use crate::bench::{Answer, Done, SOUND, command_on, shelf_with};
use cstar_base::Memory;
use cstar_io::{MemShelf, Open, Shelf, ShelfErr};
use std::alloc::Global;
use std::thread::Threads;

/// A program of five turns.
const COUNTS: &str = "main() { int i; for (i = 0; i < 5; i++) printf(\"%d \", i); }";

/// More bytes than a file of these tests has.
const LIMIT: u32 = 4096;

/// What the words come to, and the bytes of `k.pt` then, if there is such a file.
#[derive(Drop)]
struct Kept {
    done: Done,
    point: Option<Vec<u8>>,
}

fn keeping<R: Threads + Sync>(
    rt: &R,
    alloc: Global,
    words: &[&str],
    shelf: &mut MemShelf,
) -> Result<Kept, Memory> {
    let done = command_on(rt, alloc, words, shelf, SOUND, &Open)?;
    let point = match shelf.fetch("k.pt", LIMIT) {
        Ok(bytes) => Some(bytes),
        Err(ShelfErr::Failed) => None,
        Err(ShelfErr::Memory) => return Err(Memory),
    };
    Ok(Kept { done, point })
}

/// What a run comes to that puts this, and whose point cannot be kept.
fn unkept(out: &[u8]) -> Answer<'_> {
    Answer {
        status: 9,
        out,
        err: b"cannot save k.pt\n",
    }
}

/// Whether two points were kept, and are the same.
fn keep_the_same(first: &Kept, second: &Kept) -> bool {
    match (&first.point, &second.point) {
        (Some(before), Some(after)) => before.as_slice() == after.as_slice(),
        _ => false,
    }
}

#[test]
fn a_run_that_cannot_be_kept_says_so(rt: HostRuntime) {
    let Ok(mut shelf) = shelf_with(rt.alloc(), COUNTS.as_bytes(), &[2]) else {
        panic!(rt; "no memory");
    };
    let words = ["--turns", "2", "--save", "k.pt", "a.cs"];
    let Ok(kept) = keeping(&rt, rt.alloc(), &words, &mut shelf) else {
        panic!(rt; "no memory");
    };
    assert!(rt; kept.done.is(unkept(b"0 1 ")));
    assert!(rt; kept.point.is_none());
}

#[test]
fn a_run_that_ends_keeps_nothing(rt: HostRuntime) {
    let Ok(mut shelf) = shelf_with(rt.alloc(), COUNTS.as_bytes(), &[]) else {
        panic!(rt; "no memory");
    };
    let words = ["--save", "k.pt", "a.cs"];
    let Ok(kept) = keeping(&rt, rt.alloc(), &words, &mut shelf) else {
        panic!(rt; "no memory");
    };
    let answer = Answer {
        status: 0,
        out: b"0 1 2 3 4 ",
        err: b"",
    };
    assert!(rt; kept.done.is(answer));
    assert!(rt; kept.point.is_none());
    let Ok(text) = shelf.fetch("a.cs", LIMIT) else {
        panic!(rt; "the program is not there");
    };
    assert_eq!(rt; text.as_slice(), COUNTS.as_bytes());
}

#[test]
fn a_run_that_goes_no_further_is_kept_as_it_was(rt: HostRuntime) {
    let Ok(mut shelf) = shelf_with(rt.alloc(), COUNTS.as_bytes(), &[]) else {
        panic!(rt; "no memory");
    };
    let words = ["--turns", "0", "--save", "k.pt", "a.cs"];
    let Ok(first) = keeping(&rt, rt.alloc(), &words, &mut shelf) else {
        panic!(rt; "no memory");
    };
    let words = ["--mode", "resume", "--turns", "0", "--save", "k.pt", "k.pt"];
    let Ok(second) = keeping(&rt, rt.alloc(), &words, &mut shelf) else {
        panic!(rt; "no memory");
    };
    let answer = Answer {
        status: 4,
        out: b"",
        err: b"stopped after 0 turns\n",
    };
    assert!(rt; first.done.is(answer));
    assert!(rt; second.done.is(answer));
    assert!(rt; keep_the_same(&first, &second));
}

#[test]
fn a_point_stays_where_the_next_cannot_be_kept(rt: HostRuntime) {
    // The calls are those of two commands, and those that look at the point.
    let Ok(mut shelf) = shelf_with(rt.alloc(), COUNTS.as_bytes(), &[5]) else {
        panic!(rt; "no memory");
    };
    let words = ["--turns", "2", "--save", "k.pt", "a.cs"];
    let Ok(first) = keeping(&rt, rt.alloc(), &words, &mut shelf) else {
        panic!(rt; "no memory");
    };
    let words = ["--mode", "resume", "--turns", "2", "--save", "k.pt", "k.pt"];
    let Ok(second) = keeping(&rt, rt.alloc(), &words, &mut shelf) else {
        panic!(rt; "no memory");
    };
    let answer = Answer {
        status: 4,
        out: b"0 1 ",
        err: b"stopped after 2 turns\n",
    };
    assert!(rt; first.done.is(answer));
    assert!(rt; second.done.is(unkept(b"2 3 ")));
    assert!(rt; keep_the_same(&first, &second));
}
