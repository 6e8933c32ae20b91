//! The jobs of a batch, one for each name.

ghost use Rattle.std.specs.Prelude.{◌≡◌, ◌≢◌, ℕ, ◌<◌, ◌≤◌, ◌⊎◌, Err, IfOk, OnErr, OnOk, length, map};
ghost use Rattle.std.specs.String.{string_bytes};
ghost use Rattle.cstar_io.specs.Faults.{RisesBy};
ghost use Rattle.job_board.specs.declared.report.Report.{Report};
ghost use Rattle.job_callers.specs.declared.stop.Stop.TheVariants as S;
ghost use Rattle.job_callers.specs.Sections.{TakesBatch, TakesPartOfBatch};
ghost use Rattle.batch_top.specs.Batches.{AnswersNumber};

use batch_jobs::job;
use cstar_base::{Memory, Word};
use cstar_io::{Gate, Sink};
use job_board::{Judge, Report};
use job_callers::{Callers, Stop};
use std::alloc::Global;
use std::sync::Wait;
use std::thread::Threads;

/// The names of a batch, and the text of the file of each.
#[derive(Clone, Copy)]
pub struct FileJobs<'a, R> {
    pub rt: &'a R,
    pub alloc: Global,
    pub names: &'a [String],
    pub texts: &'a [Word],
}

impl<'a, R: Threads + Sync> FileJobs<'a, R> {
    /// The report of the file of this number.
    fn report(&self, number: u32) -> Result<Report, Memory>
        requires named { number < length self.now.names.now }
        requires each { length self.now.texts.now ≡ length self.now.names.now }
        ensures { IfOk result (λ report. AnswersNumber (map string_bytes self.now.names.now) self.now.texts.now number report) }
    {
        let number = number as usize;
        job(
            self.rt,
            self.alloc,
            self.names[number].as_str(),
            self.texts[number].bytes(),
        )
    }
}

impl<'a, R: Threads + Wait + Sync> FileJobs<'a, R> {
    /// Has the callers do all jobs, and puts the batch of their reports. `Failed` where the output
    /// fails, and then nothing more is put; `Memory` where there is none.
    pub fn put<J, G, O>(&self, callers: &Callers<R, G>, out: &mut O) -> Result<(), Stop>
    where
        J: Judge + Send + Sync,
        G: Gate + Sync,
        O: Sink,
        requires few { length self.now.names.now ≤ 256 }
        requires each { length self.now.texts.now ≡ length self.now.names.now }
        requires count { length self.now.names.now ≡ J.jobs }
        requires answers { (number : ℕ) (report : Report) → AnswersNumber (map string_bytes self.now.names.now) self.now.texts.now number report → J.answers number report }
        ensures whole { OnOk result (TakesBatch O.agrees out.old out.new J.answers (map string_bytes self.now.names.now)) }
        ensures part { OnErr result (TakesPartOfBatch O.agrees out.old out.new J.answers (map string_bytes self.now.names.now)) }
        ensures failed { result ≡ Err S.Failed → RisesBy (O.faults out.old) (O.faults out.new) }
        ensures other { (result ≡ Err S.Failed) ⊎ (O.faults out.new ≡ O.faults out.old) }
    {
        let work = |number: u32| -> Result<Report, Memory>
            requires named { number < length self.now.names.now }
            requires each { length self.now.texts.now ≡ length self.now.names.now }
            ensures { IfOk result (λ report. AnswersNumber (map string_bytes self.entry.now.names.now) self.entry.now.texts.now number report) }
        { self.report(number) };
        callers.put_batch::<J, _, _>(self.alloc, self.names, &work, out)
    }
}
