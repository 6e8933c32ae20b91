//! A batch: its words, its files, and what they come to.

ghost use Rattle.std.specs.Prelude.{◌≡◌, ◌≢◌, ◌≤◌, ◌⊎◌, ℕ, List, false, length, map};
ghost use Rattle.std.specs.String.{string_bytes};
ghost use Rattle.cstar_io.specs.Faults.{RisesBy};
ghost use Rattle.cstar_io.specs.Output.{TakesNothing};
ghost use Rattle.job_callers.specs.Sections.{TakesBatch, TakesPartOfBatch};
ghost use Rattle.batch_top.specs.Batches.{AnswersNumber, CannotFetch, CannotReadOne, PutsBatch, PutsPartOfBatch};
ghost use Rattle.batch_top.specs.Endings.{CanEnd, PutsEnding, PutsPartOfEnding, status_of};
ghost use Rattle.batch_top.specs.Words.{is_batch, names_in};

use crate::ending::Ending;
use crate::fetch::fetch_all;
use crate::jobs::FileJobs;
use crate::words::{Asked, read};
use cstar_io::{Gate, Shelf, Sink};
use job_callers::{Callers, Stop};
use std::alloc::Global;
use std::marker::Brand;
use std::sync::Wait;
use std::thread::Threads;

/// Does the batch that the words ask for: a number of callers, and the names of files on a shelf.
/// All files are fetched first, in order. Then the callers do the jobs, each in a thread of its own
/// where `rt` can start one, and call `gate` with the number of each job. What it puts on `out` is a
/// section for each name, in order, whoever did its job; what the command says itself goes to `err`:
/// one line at most. The answer is the status:
///
/// - 0 all sections were put;
/// - 2 the words are no batch; 5 the shelf failed to fetch one of the files; then nothing is put;
/// - 6 an output failed, and nothing more was put; 8 there was no memory.
///
/// It waits for locks and for its callers, so it is not promised to return.
pub fn cstar_batch<R, S, O, E, G>(
    rt: &R,
    alloc: Global,
    words: &[String],
    shelf: &mut S,
    out: &mut O,
    err: &mut E,
    gate: &G,
) -> u8
where
    R: Threads + Wait + Sync,
    S: Shelf,
    O: Sink,
    E: Sink,
    G: Gate + Sync,
    ensures line { result ≢ 6 → PutsEnding E.agrees err.old err.new (map string_bytes words.now) result }
    ensures part_of_line { result ≡ 6 → PutsPartOfEnding E.agrees err.old err.new (map string_bytes words.now) }
    ensures done { result ≡ 0 → PutsBatch O.agrees out.old out.new S.tells S.file shelf.old (names_in (map string_bytes words.now)) }
    ensures part { PutsPartOfBatch O.agrees out.old out.new S.tells S.file shelf.old (names_in (map string_bytes words.now)) }
    ensures no_batch { is_batch (map string_bytes words.now) ≡ false → (out.new ≡ out.old) × (shelf.new ≡ shelf.old) }
    ensures unread { result ≡ 5 → (out.new ≡ out.old) × CannotReadOne S.faults S.last_failed shelf.old shelf.new E.agrees err.old err.new (names_in (map string_bytes words.now)) }
    ensures write_fault { result ≡ 6 → RisesBy (O.faults out.old) (O.faults out.new) ⊎ RisesBy (E.faults err.old) (E.faults err.new) }
    ensures counts { result ≢ 6 → (O.faults out.new ≡ O.faults out.old) × (E.faults err.new ≡ E.faults err.old) }
    ensures shelf_count { result ≢ 5 → result ≢ 6 → S.faults shelf.new ≡ S.faults shelf.old }
    ensures files { (name : List ℕ) → S.file shelf.new name ≡ S.file shelf.old name }
{
    match read(words) {
        Some(asked) => done(rt, alloc, &asked, shelf, out, gate).tell(err),
        None => Ending::Usage.tell(err),
    }
}

/// Fetches the files of a batch, has the callers do their jobs, and puts the batch of the reports.
/// What that comes to.
fn done<'a, R, S, O, G>(
    rt: &R,
    alloc: Global,
    asked: &Asked<'a>,
    shelf: &mut S,
    out: &mut O,
    gate: &G,
) -> Ending<'a>
where
    R: Threads + Wait + Sync,
    S: Shelf,
    O: Sink,
    G: Gate + Sync,
    requires some { 1 ≤ asked.now.callers }
    requires most { asked.now.callers ≤ 8 }
    requires few { length asked.now.names.now ≤ 256 }
    ensures can { CanEnd (map string_bytes asked.now.names.now) result }
    ensures done { status_of result ≡ 0 → PutsBatch O.agrees out.old out.new S.tells S.file shelf.old (map string_bytes asked.now.names.now) }
    ensures unread { status_of result ≡ 5 → (out.new ≡ out.old) × CannotFetch S.faults S.last_failed shelf.old shelf.new (map string_bytes asked.now.names.now) result }
    ensures part { PutsPartOfBatch O.agrees out.old out.new S.tells S.file shelf.old (map string_bytes asked.now.names.now) }
    ensures write_fault { status_of result ≡ 6 → RisesBy (O.faults out.old) (O.faults out.new) }
    ensures count { status_of result ≢ 6 → O.faults out.new ≡ O.faults out.old }
    ensures shelf_count { status_of result ≢ 5 → S.faults shelf.new ≡ S.faults shelf.old }
    ensures files { (name : List ℕ) → S.file shelf.new name ≡ S.file shelf.old name }
{
    match fetch_all(alloc, asked.names, shelf) {
        Ok(texts) => {
            let jobs = FileJobs {
                rt,
                alloc,
                names: asked.names,
                texts: texts.as_slice(),
            };
            put_reports(&jobs, &Callers::new(rt, asked.callers, gate), out)
        }
        Err(ending) => ending,
    }
}

/// Has the callers do all jobs of a batch, and puts the batch of the reports.
fn put_reports<'a, R, O, G>(jobs: &FileJobs<R>, callers: &Callers<R, G>, out: &mut O) -> Ending<'a>
where
    R: Threads + Wait + Sync,
    O: Sink,
    G: Gate + Sync,
    requires few { length jobs.now.names.now ≤ 256 }
    requires each { length jobs.now.texts.now ≡ length jobs.now.names.now }
    ensures can { (status_of result ≡ 0) ⊎ ((status_of result ≡ 6) ⊎ (status_of result ≡ 8)) }
    ensures whole { status_of result ≡ 0 → TakesBatch O.agrees out.old out.new (AnswersNumber (map string_bytes jobs.now.names.now) jobs.now.texts.now) (map string_bytes jobs.now.names.now) }
    ensures part { TakesPartOfBatch O.agrees out.old out.new (AnswersNumber (map string_bytes jobs.now.names.now) jobs.now.texts.now) (map string_bytes jobs.now.names.now) }
    ensures write_fault { status_of result ≡ 6 → RisesBy (O.faults out.old) (O.faults out.new) }
    ensures count { status_of result ≢ 6 → O.faults out.new ≡ O.faults out.old }
{
    match jobs.put::<Brand, _, _>(callers, out) {
        Ok(()) => sent(out),
        Err(Stop::Failed) => Ending::WriteFault,
        Err(Stop::Memory) => Ending::Memory,
    }
}

/// The ending of a batch that was put whole, once it is sent on.
fn sent<'a, O: Sink>(out: &mut O) -> Ending<'a>
    ensures can { (status_of result ≡ 0) ⊎ (status_of result ≡ 6) }
    ensures nothing { TakesNothing O.agrees out.old out.new }
    ensures write_fault { status_of result ≡ 6 → RisesBy (O.faults out.old) (O.faults out.new) }
    ensures count { status_of result ≢ 6 → O.faults out.new ≡ O.faults out.old }
{
    match out.flush() {
        Ok(()) => Ending::Done,
        Err(_) => Ending::WriteFault,
    }
}
