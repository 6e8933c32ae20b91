ghost use Rattle.std.specs.Prelude.{◌≤◌};

use crate::ends::fetches;
use cstar_io::{Failed, RealShelf, RealSink, RealSource, Shelf, ShelfErr, Sink, Source, SureSink};
use std::fs::File;
use std::io::{ErrorKind, Read, Write};
use std::test::Fail;
use std::{fs, io};

/// Gives two bytes, fails, gives one byte, and ends.
#[derive(Drop)]
struct Halting {
    reads: u8,
}

impl Read for Halting {
    fn read(&mut self, buf: &mut [u8]) -> io::Result<usize> {
        let reads = self.reads;
        self.reads = reads.saturating_add(1);
        match reads {
            0 => Ok(buf.len().min(2)),
            1 => Err(io::Error::from(ErrorKind::BrokenPipe)),
            2 => Ok(buf.len().min(1)),
            _ => Ok(0),
        }
    }
}

#[test]
fn reading_goes_on_behind_a_failure(rt: HostRuntime) -> Result<(), Fail> {
    let mut source = RealSource::new(rt.alloc(), Halting { reads: 0 })
        .ok()
        .ok_or("no memory")?;
    assert!(rt; source.may_wait());
    assert_eq!(rt; source.next(), Ok(Some(0)));
    assert!(rt; !source.may_wait());
    assert_eq!(rt; source.next(), Ok(Some(0)));
    assert_eq!(rt; source.next(), Err(Failed));
    assert_eq!(rt; source.next(), Ok(Some(0)));
    assert_eq!(rt; source.next(), Ok(None));
    Ok(())
}

/// Takes one byte at a time, up to its room, and then nothing.
#[derive(Drop)]
struct Narrow {
    room: u8,
}

impl Write for Narrow {
    fn write(&mut self, buf: &[u8]) -> io::Result<usize> {
        if self.room == 0 || buf.is_empty() {
            return Ok(0);
        }
        self.room -= 1;
        Ok(1)
    }

    fn flush(&mut self) -> io::Result<()> {
        Ok(())
    }
}

#[test]
fn a_late_write_fails(rt: HostRuntime) -> Result<(), Fail> {
    let mut sink = RealSink::new(rt.alloc(), Narrow { room: 3 })
        .ok()
        .ok_or("no memory")?;
    assert_eq!(rt; sink.put(b"ab"), Ok(()));
    assert_eq!(rt; sink.flush(), Ok(()));
    assert_eq!(rt; sink.flush(), Ok(()));
    assert_eq!(rt; sink.put(b"cd"), Ok(()));
    assert_eq!(rt; sink.flush(), Err(Failed));
    assert_eq!(rt; sink.flush(), Ok(()));
    assert_eq!(rt; sink.put(b"e"), Ok(()));
    assert_eq!(rt; sink.flush(), Err(Failed));
    Ok(())
}

#[test]
fn files_are_kept_and_fetched(rt: HostRuntime) -> Result<(), Fail> {
    let name = "cstar_io_files_are_kept";
    let mut shelf = RealShelf::new(&rt, rt.alloc());
    assert!(rt; fetches(&mut shelf, name, 9, None));
    assert!(rt; fetches(&mut shelf, ".", 9, None));
    assert_eq!(rt; shelf.keep(name, b"longer"), Ok(()));
    assert_eq!(rt; shelf.keep(name, b"short"), Ok(()));
    assert!(rt; fetches(&mut shelf, name, 5, Some(b"short")));
    assert!(rt; fetches(&mut shelf, name, 4, Some(b"short")));
    assert!(rt; fetches(&mut shelf, name, 3, Some(b"shor")));
    assert_eq!(rt; shelf.keep(".", b"short"), Err(ShelfErr::Failed));
    assert!(rt; fs::metadata(&rt, "cstar_io_files_are_kept.0").is_err());
    fs::remove_file(&rt, name)?;
    Ok(())
}

#[test]
fn a_file_is_kept_beside_the_old_one_first(rt: HostRuntime) -> Result<(), Fail> {
    let name = "cstar_io_kept_beside";
    let other = "cstar_io_kept_beside.0";
    fs::write(&rt, name, b"old")?;
    fs::write(&rt, other, b"mine")?;
    let mut shelf = RealShelf::new(&rt, rt.alloc());
    assert_eq!(rt; shelf.keep(name, b"new"), Ok(()));
    assert!(rt; fetches(&mut shelf, name, 9, Some(b"new")));
    assert!(rt; fetches(&mut shelf, other, 9, Some(b"mine")));
    assert!(rt; fs::metadata(&rt, "cstar_io_kept_beside.1").is_err());
    assert_eq!(rt;
        shelf.keep("cstar_io_no_folder/kept", b"new"),
        Err(ShelfErr::Failed)
    );
    fs::remove_file(&rt, name)?;
    fs::remove_file(&rt, other)?;
    Ok(())
}

#[test]
fn pieces_go_through_a_file(rt: HostRuntime) -> Result<(), Fail> {
    let name = "cstar_io_pieces_go_through";
    let alloc = rt.alloc();
    let mut sink = RealSink::new(alloc, File::create(&rt, name)?)
        .ok()
        .ok_or("no memory")?;
    let long = vec![in alloc; 7; 70000]?;
    assert_eq!(rt; sink.put(b"ab"), Ok(()));
    assert_eq!(rt; sink.put(long.as_slice()), Ok(()));
    assert_eq!(rt; sink.put(b"c"), Ok(()));
    assert_eq!(rt; sink.flush(), Ok(()));
    let mut source = RealSource::new(alloc, File::open(&rt, name)?)
        .ok()
        .ok_or("no memory")?;
    assert_eq!(rt; source.next(), Ok(Some(b'a')));
    assert_eq!(rt; source.next(), Ok(Some(b'b')));
    assert_eq!(rt; source.next(), Ok(Some(7)));
    let all = RealShelf::new(&rt, alloc).fetch(name, 80000)?;
    let mut sum = SureSink::new();
    assert_eq!(rt; sum.put(all.as_slice()), Ok(()));
    assert_eq!(rt; (sum.count(), sum.sum()), (70003, 490294));
    fs::remove_file(&rt, name)?;
    Ok(())
}
