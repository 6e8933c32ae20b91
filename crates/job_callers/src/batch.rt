//! The batch put: a section for each name, in order.

ghost use Rattle.std.specs.Prelude.{◌≡◌, ℕ, ◌<◌, ◌≤◌, ◌⊎◌, IfOk, Err, OnErr, OnOk, Result, length, map};
ghost use Rattle.std.specs.String.{string_bytes};
ghost use Rattle.cstar_base.specs.declared.memory.Memory.{Memory};
ghost use Rattle.cstar_io.specs.Faults.{RisesBy};
ghost use Rattle.cstar_io.specs.Output.{Takes, TakesNothing, TakesPrefix};
ghost use Rattle.job_board.specs.declared.report.Report.{Report};
ghost use Rattle.job_callers.specs.declared.stop.Stop.TheVariants as S;
ghost use Rattle.job_callers.specs.Sections.{TakesBatch, TakesPartOfBatch, TakesPartOfSection, TakesSection, section};

use crate::callers::Callers;
use crate::section::section_text;
use crate::stop::Stop;
use cstar_base::Memory;
use cstar_io::{Gate, Sink};
use job_board::{Book, Jobs, Judge, Report};
use std::alloc::Global;
use std::sync::{Mutex, Wait};
use std::thread::Threads;

impl<'a, R: Threads + Wait + Sync, G: Gate + Sync> Callers<'a, R, G> {
    /// Has all callers do the jobs of these names, and puts the batch of their reports: a section
    /// for each name, in order, whoever did its job. A job that found no memory is done once more.
    /// `Failed` where the output fails, and then nothing more is put; `Memory` where there is none.
    pub fn put_batch<J, O, F>(
        &self,
        alloc: Global,
        names: &[String],
        work: &F,
        out: &mut O,
    ) -> Result<(), Stop>
    where
        J: Judge + Send + Sync,
        O: Sink,
        F: Fn(u32) -> Result<Report, Memory> + Sync,
        requires few { length names.now ≤ 256 }
        requires count { length names.now ≡ J.jobs }
        requires callable { (number : ℕ) → number < J.jobs → F.pre work.now number }
        requires answers { (number : ℕ) (result : Result Report Memory) → number < J.jobs → F.post work.now number result → IfOk result (λ report. J.answers number report) }
        ensures whole { OnOk result (TakesBatch O.agrees out.old out.new J.answers (map string_bytes names.now)) }
        ensures part { OnErr result (TakesPartOfBatch O.agrees out.old out.new J.answers (map string_bytes names.now)) }
        ensures failed { result ≡ Err S.Failed → RisesBy (O.faults out.old) (O.faults out.new) }
        ensures other { (result ≡ Err S.Failed) ⊎ (O.faults out.new ≡ O.faults out.old) }
    {
        let Ok(book) = Book::new(alloc, names.len() as u32) else {
            return Err(Stop::Memory);
        };
        let book: Jobs<J> = Mutex::new(book);
        self.call(&book, work);
        let book = book.into_inner();
        let batch = Batch {
            alloc,
            names,
            book: &book,
        };
        batch.put(work, out)
    }
}

/// A book whose callers are done, with the names of its jobs.
#[derive(Drop)]
struct Batch<'a, J: Judge> {
    alloc: Global,
    names: &'a [String],
    book: &'a Book<J>,
}

impl<'a, J: Judge> Batch<'a, J> {
    /// Puts a section for each name, in order. A job without report is done here. `Failed` where
    /// the output fails, and then nothing more is put; `Memory` where there is none.
    fn put<O, F>(&self, work: &F, out: &mut O) -> Result<(), Stop>
    where
        O: Sink,
        F: Fn(u32) -> Result<Report, Memory>,
        requires few { length self.now.names.now ≤ 256 }
        requires count { length self.now.names.now ≡ J.jobs }
        requires callable { (number : ℕ) → number < J.jobs → F.pre work.now number }
        requires answers { (number : ℕ) (result : Result Report Memory) → number < J.jobs → F.post work.now number result → IfOk result (λ report. J.answers number report) }
        ensures whole { OnOk result (TakesBatch O.agrees out.old out.new J.answers (map string_bytes self.now.names.now)) }
        ensures part { OnErr result (TakesPartOfBatch O.agrees out.old out.new J.answers (map string_bytes self.now.names.now)) }
        ensures failed { result ≡ Err S.Failed → RisesBy (O.faults out.old) (O.faults out.new) }
        ensures other { (result ≡ Err S.Failed) ⊎ (O.faults out.new ≡ O.faults out.old) }
    {
        'names: for number in 0..self.names.len() {
            match self.put_section(number, work, out) {
                Ok(()) => {}
                Err(stop) => return Err(stop),
            }
        }
        Ok(())
    }

    /// Puts the section of a name.
    fn put_section<O, F>(&self, number: usize, work: &F, out: &mut O) -> Result<(), Stop>
    where
        O: Sink,
        F: Fn(u32) -> Result<Report, Memory>,
        requires few { length self.now.names.now ≤ 256 }
        requires named { number < length self.now.names.now }
        requires count { length self.now.names.now ≡ J.jobs }
        requires callable { (number : ℕ) → number < J.jobs → F.pre work.now number }
        requires answers { (number : ℕ) (result : Result Report Memory) → number < J.jobs → F.post work.now number result → IfOk result (λ report. J.answers number report) }
        ensures whole { OnOk result (TakesSection O.agrees out.old out.new J.answers (map string_bytes self.now.names.now) number) }
        ensures part { OnErr result (TakesPartOfSection O.agrees out.old out.new J.answers (map string_bytes self.now.names.now) number) }
        ensures failed { result ≡ Err S.Failed → RisesBy (O.faults out.old) (O.faults out.new) }
        ensures other { (result ≡ Err S.Failed) ⊎ (O.faults out.new ≡ O.faults out.old) }
    {
        let name = self.names[number].as_bytes();
        match self.book.report(number as u32) {
            Some(report) => put_text(self.alloc, name, report, out),
            None => put_text(self.alloc, name, &work(number as u32)?, out),
        }
    }
}

/// Puts the section of this name and this report.
fn put_text<O: Sink>(alloc: Global, name: &[u8], report: &Report, out: &mut O) -> Result<(), Stop>
    ensures whole { OnOk result (Takes O.agrees out.old out.new (section name.now report.now)) }
    ensures part { OnErr result (TakesNothing O.agrees out.old out.new ⊎ TakesPrefix O.agrees out.old out.new (section name.now report.now)) }
    ensures failed { result ≡ Err S.Failed → RisesBy (O.faults out.old) (O.faults out.new) }
    ensures other { (result ≡ Err S.Failed) ⊎ (O.faults out.new ≡ O.faults out.old) }
{
    let text = section_text(alloc, name, report)?;
    match out.put(text.as_slice()) {
        Ok(()) => Ok(()),
        Err(_) => Err(Stop::Failed),
    }
}
