ghost use Rattle.std.specs.Prelude.{◌≡◌, ℕ, ◌<◌, ◌≤◌, IfOk, Result};
ghost use Rattle.cstar_base.specs.declared.memory.Memory.{Memory};
ghost use Rattle.job_board.specs.declared.report.Report.{Report};

use cstar_base::Memory;
use cstar_io::Gate;
use job_board::{Jobs, Judge, Report};
use std::sync::Wait;
use std::thread;
use std::thread::Threads;

/// The greatest number of callers.
pub const MOST_CALLERS: usize = 8;

/// The greatest number of jobs.
pub const MOST_JOBS: u32 = 256;

/// Up to 8 callers, each in a thread of its own where one can be had.
#[derive(Drop)]
pub struct Callers<'a, R, G> {
    rt: &'a R,
    gate: &'a G,
    count: usize,
    ghost some: { 1 ≤ count },
    ghost most: { count ≤ 8 },
}

impl<'a, R: Threads + Wait + Sync, G: Gate + Sync> Callers<'a, R, G> {
    /// So many callers in threads of `rt`, which call the gate with the number of each job.
    pub fn new(rt: &'a R, count: usize, gate: &'a G) -> Callers<'a, R, G>
        requires some { 1 ≤ count }
        requires most { count ≤ 8 }
    {
        Callers { rt, gate, count }
    }

    /// Has all callers draw and do the jobs of a book, and returns once they are done.
    pub fn call<J, F>(&self, book: &Jobs<J>, work: &F)
    where
        J: Judge + Send + Sync,
        F: Fn(u32) -> Result<Report, Memory> + Sync,
        requires callable { (number : ℕ) → number < J.jobs → F.pre work.now number }
        requires answers { (number : ℕ) (result : Result Report Memory) → number < J.jobs → F.post work.now number result → IfOk result (λ report. J.answers number report) }
    {
        let (rt, gate) = (self.rt, self.gate);
        let mut seats = [0u8; MOST_CALLERS];
        let seats = &mut seats[..self.count];
        thread::for_each_mut(
            rt,
            seats,
            self.count,
            &|_, _seat| draw_jobs(rt, book, gate, work),
        );
    }
}

/// Draws numbers until there are none, calls the gate with each, does its job, and posts the report.
/// The lock is held by no caller that does a job. A job that finds no memory is left without report.
fn draw_jobs<J, R, G, F>(rt: &R, book: &Jobs<J>, gate: &G, work: &F)
where
    J: Judge,
    R: Wait,
    G: Gate,
    F: Fn(u32) -> Result<Report, Memory>,
    requires callable { (number : ℕ) → number < J.jobs → F.pre work.now number }
    requires answers { (number : ℕ) (result : Result Report Memory) → number < J.jobs → F.post work.now number result → IfOk result (λ report. J.answers number report) }
{
    for _ in 0..=MOST_JOBS {
        let drawn = book.lock(rt).draw();
        let Some(number) = drawn else {
            return;
        };
        gate.at(number);
        if let Ok(report) = work(number) {
            let _posted = book.lock(rt).post(number, report);
        }
    }
}
