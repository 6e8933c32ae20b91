ghost use Rattle.std.specs.Prelude.{◌≡◌, ◌<◌, ◌++◌, ◌∷◌, [], Some, IsTrue, take};
ghost use Rattle.cstar_io.specs.Faults.{CanRise};
ghost use Rattle.cstar_io.specs.Output.{Takes, TakesPrefix, TakesNothing};
ghost use Rattle.cstar_io.specs.declared.call.Call.{Call};

use cstar_base::Word;
use cstar_io::{
    Failed, Gate, MemShelf, MemSink, MemSource, Open, Shelf, ShelfErr, Sink, Source, SureSink,
    SureSource, put_line,
};
use std::alloc::{AllocError, Global};
use std::test::Fail;

/// Copies the beginning of a file and a newline. 0 where all was put, 5 where the file cannot be
/// read, 6 where a put failed, 8 for want of memory.
fn copy_line<S: Shelf, O: Sink>(shelf: &mut S, out: &mut O, name: &str) -> u8
    ensures unread { result ≡ 5 → CanRise (S.faults shelf.old) → S.faults shelf.old < S.faults shelf.new }
    ensures last { result ≡ 5 → S.last_failed shelf.new ≡ Some (Call.Fetch name.now) }
    ensures nothing { result ≡ 5 → TakesNothing O.agrees out.old out.new }
    ensures unwritten { result ≡ 6 → CanRise (O.faults out.old) → O.faults out.old < O.faults out.new }
    ensures done { (all : _) → IsTrue (S.tells shelf.old) → S.file shelf.old name.now ≡ Some all →
        result ≡ 0 → Takes O.agrees out.old out.new (take 4 all ++ 10 ∷ []) }
    ensures part { (all : _) → IsTrue (S.tells shelf.old) → S.file shelf.old name.now ≡ Some all →
        result ≡ 6 → TakesPrefix O.agrees out.old out.new (take 4 all ++ 10 ∷ []) }
{
    let bytes = match shelf.fetch(name, 3) {
        Ok(bytes) => bytes,
        Err(ShelfErr::Failed) => return 5,
        Err(ShelfErr::Memory) => return 8,
    };
    match put_line(out, bytes.as_slice()) {
        Ok(()) => 0,
        Err(Failed) => 6,
    }
}

fn shelf_of(alloc: Global, failing: &[u64]) -> Result<MemShelf, AllocError> {
    let name = Word::of(Vec::from_slice(alloc, b"a")?);
    let file = Vec::from_slice(alloc, b"hello")?;
    let mut files = Vec::with_capacity(alloc, 1)?;
    files.push((name, file))?;
    Ok(MemShelf::new(files, Vec::from_slice(alloc, failing)?))
}

#[test]
fn source_goes_on_behind_a_failure(rt: HostRuntime) -> Result<(), Fail> {
    let bytes = b"xyz".to_vec(rt.alloc())?;
    let mut source = MemSource::new(bytes, [2].to_vec(rt.alloc())?);
    assert_eq!(rt; source.next(), Ok(Some(b'x')));
    assert_eq!(rt; source.next(), Err(Failed));
    assert_eq!(rt; source.next(), Ok(Some(b'y')));
    assert_eq!(rt; source.next(), Ok(Some(b'z')));
    assert_eq!(rt; source.next(), Ok(None));
    assert_eq!(rt; source.next(), Ok(None));
    Ok(())
}

/// As a worker passes a gate that it shares.
fn pass<G: Gate + Sync>(gate: &G) {
    gate.at(0);
}

#[test]
fn sure_ends_never_fail(rt: HostRuntime) -> Result<(), Fail> {
    let mut source = SureSource::new([7].to_vec(rt.alloc())?);
    assert_eq!(rt; source.next(), Ok(Some(7)));
    assert_eq!(rt; source.next(), Ok(None));
    let mut sink = SureSink::new();
    for piece in [[255, 255], [0, 1]] {
        assert_eq!(rt; sink.put(piece.as_slice()), Ok(()));
    }
    assert_eq!(rt; (sink.count(), sink.sum()), (4, 511));
    pass(&Open);
    Ok(())
}

/// Puts these pieces: which of them were taken, `.` for Ok and `!` for Failed, and a stop.
fn puts<O: Sink>(alloc: Global, sink: &mut O, pieces: &[&str]) -> Result<Vec<u8>, AllocError> {
    let mut marks = Vec::new(alloc);
    for piece in pieces {
        marks.push(match sink.put(piece.as_bytes()) {
            Ok(()) => b'.',
            Err(Failed) => b'!',
        })?;
    }
    Ok(marks)
}

#[test]
fn sink_fails_where_it_is_told(rt: HostRuntime) -> Result<(), Fail> {
    let rows = [
        (5, 0, ".!.!.", "abefi"),
        (6, 1, ".!..!", "abcefg"),
        (3, 9, ".!!!!", "abc"),
    ];
    let alloc = rt.alloc();
    for (room, keep, marks, taken) in rows {
        let failing = [2].to_vec(alloc)?;
        let mut sink = match keep {
            0 => MemSink::new(alloc, room, failing),
            _ => MemSink::partial(alloc, room, failing, keep),
        }
        .ok()
        .ok_or("no memory")?;
        let pieces = ["ab", "cd", "ef", if keep == 1 { "g" } else { "gh" }, "i"];
        let made = puts(alloc, &mut sink, pieces.as_slice())?;
        assert_eq!(rt; made.as_slice(), marks.as_bytes());
        assert_eq!(rt; sink.taken(), taken.as_bytes());
        assert_eq!(rt; sink.flush(), Ok(()));
    }
    Ok(())
}

/// Whether a fetch of so many bytes at most gives these, or fails where none are wanted.
pub fn fetches<S: Shelf>(shelf: &mut S, name: &str, most: u32, wanted: Option<&[u8]>) -> bool {
    match (shelf.fetch(name, most), wanted) {
        (Ok(bytes), Some(wanted)) => bytes.as_slice() == wanted,
        (Err(ShelfErr::Failed), None) => true,
        _ => false,
    }
}

#[test]
fn shelf_answers_behind_a_failure(rt: HostRuntime) -> Result<(), Fail> {
    let mut shelf = shelf_of(rt.alloc(), &[1, 5])?;
    assert!(rt; fetches(&mut shelf, "a", 9, None));
    assert!(rt; fetches(&mut shelf, "a", 9, Some(b"hello")));
    assert!(rt; fetches(&mut shelf, "a", 2, Some(b"hel")));
    assert!(rt; fetches(&mut shelf, "b", 9, None));
    assert_eq!(rt; shelf.keep("a", b"x"), Err(ShelfErr::Failed));
    assert_eq!(rt; shelf.keep("b", b"new"), Ok(()));
    assert_eq!(rt; shelf.keep("a", b"bye"), Ok(()));
    assert!(rt; fetches(&mut shelf, "b", 9, Some(b"new")));
    assert!(rt; fetches(&mut shelf, "a", 9, Some(b"bye")));
    Ok(())
}

#[test]
fn a_line_is_copied_in_part(rt: HostRuntime) -> Result<(), Fail> {
    let rows = [
        ("a", 9, 0, "hell\n"),
        ("a", 4, 6, "hell"),
        ("a", 3, 6, "h"),
        ("b", 9, 5, ""),
    ];
    let alloc = rt.alloc();
    for (name, room, status, taken) in rows {
        let mut shelf = shelf_of(alloc, &[])?;
        let mut sink = MemSink::partial(alloc, room, Vec::new(alloc), 1)
            .ok()
            .ok_or("no memory")?;
        assert_eq!(rt; copy_line(&mut shelf, &mut sink, name), status);
        assert_eq!(rt; sink.taken(), taken.as_bytes());
    }
    Ok(())
}
