//! A book of two jobs behind a lock, one call after the other.

ghost use Rattle.std.specs.Prelude.{◌≡◌, ℕ};
ghost use Rattle.job_board.specs.declared.report.Report.{Report};

use cstar_base::Word;
use job_board::{Book, Jobs, Judge, Report};
use std::alloc::Global;
use std::marker::Brand;
use std::process::Abort;
use std::sync::{Mutex, Wait};
use std::test::Fail;

#[test]
fn each_number_is_answered_once(rt: HostRuntime) -> Result<(), Fail> {
    two_jobs::<Brand, _>(&rt, rt.alloc())
}

fn two_jobs<J: Judge + Send + Sync, R: Wait + Abort>(rt: &R, alloc: Global) -> Result<(), Fail>
    requires jobs { 2 ≡ J.jobs }
    requires answered { (number : ℕ) (report : Report) → J.answers number report }
{
    let book: Jobs<J> = Mutex::new(Book::new(alloc, 2)?);
    assert!(rt; !book.lock(rt).post(0, with_status(alloc, 3)));
    assert_eq!(rt; book.lock(rt).draw(), Some(0));
    assert!(rt; book.lock(rt).post(0, with_status(alloc, 4)));
    assert!(rt; !book.lock(rt).post(0, with_status(alloc, 5)));
    assert_eq!(rt; book.lock(rt).draw(), Some(1));
    assert_eq!(rt; book.lock(rt).draw(), None);
    let book = book.into_inner();
    assert!(rt; matches!(book.report(0), Some(Report { status: 4, .. })));
    assert!(rt; book.report(1).is_none());
    Ok(())
}

fn with_status(alloc: Global, status: u8) -> Report {
    Report {
        status,
        out: Word::of(Vec::new(alloc)),
        err: Word::of(Vec::new(alloc)),
    }
}
