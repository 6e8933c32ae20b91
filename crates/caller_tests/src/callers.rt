//! Two callers are at work at the same time, and the batch of their reports is in order.

ghost use Rattle.std.specs.Prelude.{◌≡◌, ℕ};
ghost use Rattle.job_board.specs.declared.report.Report.{Report};

use crate::meeting::Meeting;
use cstar_base::{Memory, Word};
use cstar_io::MemSink;
use job_board::{Book, Jobs, Judge, Report};
use job_callers::Callers;
use std::alloc::Global;
use std::marker::Brand;
use std::process::Abort;
use std::sync::{Mutex, Wait};
use std::test::Fail;
use std::thread::Threads;

#[test]
fn two_jobs_meet(rt: HostRuntime) -> Result<(), Fail> {
    two_jobs::<Brand, _>(&rt, rt.alloc())
}

fn two_jobs<J, R>(rt: &R, alloc: Global) -> Result<(), Fail>
where
    J: Judge + Send + Sync,
    R: Threads + Wait + Abort + Sync,
    requires jobs { 2 ≡ J.jobs }
    requires answered { (number : ℕ) (report : Report) → J.answers number report }
{
    let book: Jobs<J> = Mutex::new(Book::new(alloc, 2)?);
    let gate = Meeting::new();
    let callers = Callers::new(rt, 2, &gate);
    callers.call(&book, &|_number: u32| letter(alloc));
    let book = book.into_inner();
    assert_eq!(rt; gate.seen(), (2, false));
    assert!(rt; book.report(0).is_some() && book.report(1).is_some());
    let names = vec![in alloc;
        String::from_str(alloc, "x.cs")?,
        String::from_str(alloc, "y.cs")?,
    ]?;
    let mut out = MemSink::new(alloc, 64, Vec::new(alloc))?;
    let put = callers.put_batch::<J, _, _>(
        alloc,
        names.as_slice(),
        &|_number: u32| letter(alloc),
        &mut out,
    );
    assert!(rt; put.is_ok());
    assert_eq!(rt;
        out.taken(),
        b"== x.cs 0 1 0\na\n== y.cs 0 1 0\na\n".as_slice()
    );
    Ok(())
}

/// The report of a job that went well and put a letter.
fn letter(alloc: Global) -> Result<Report, Memory> {
    Ok(Report {
        status: 0,
        out: Word::of(Vec::from_slice(alloc, b"a")?),
        err: Word::of(Vec::new(alloc)),
    })
}
