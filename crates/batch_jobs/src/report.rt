//! The report of one file.

ghost use Rattle.std.specs.Prelude.{◌≡◌, [], true, IfOk, map};
ghost use Rattle.std.specs.String.{string_bytes};
ghost use Rattle.batch_jobs.specs.Answering.{AnswersJob, words_of_job};

use crate::one_file::OneFile;
use crate::page::Page;
use cstar_base::{Memory, Word};
use cstar_io::{Open, SureSource};
use cstar_top::cstar;
use job_board::Report;
use std::alloc::Global;
use std::thread::Threads;

/// The greatest number of bytes of a report's output.
pub const OUT_LIMIT: usize = 1_048_576;

/// The status of a command whose output failed.
const WRITE_FAULT: u8 = 6;

/// The status of a command that found no memory.
const NO_MEMORY: u8 = 8;

/// The status of a report whose output has more than `OUT_LIMIT` bytes.
const TOO_MUCH: u8 = 10;

/// The report of the file of this name: what `cstar --workers 1 -- NAME` puts on its two outputs on
/// empty input, and its status, which is 0, 1, 3 or 4. Where the output has more than `OUT_LIMIT`
/// bytes, the report has the status 10 and no bytes. `Memory` where there is none.
pub fn job<R: Threads + Sync>(
    rt: &R,
    alloc: Global,
    name: &str,
    file: &[u8],
) -> Result<Report, Memory>
    ensures { IfOk result (λ report. AnswersJob name.now file.now report) }
{
    let words = words_of_job(alloc, name)?;
    let mut shelf = OneFile::new(alloc, file);
    let mut input = SureSource::new(Vec::new(alloc));
    let mut out = Page::<OUT_LIMIT>::new(alloc);
    let mut err = Page::<{ usize::MAX }>::new(alloc);
    let status = cstar(
        rt,
        alloc,
        words.as_slice(),
        &mut shelf,
        &mut input,
        &mut out,
        &mut err,
        &Open,
    );
    if status == NO_MEMORY {
        return Err(Memory);
    }
    if status == WRITE_FAULT {
        return too_much(alloc, &out);
    }
    Ok(Report {
        status,
        out: out.into_word(),
        err: err.into_word(),
    })
}

/// The report of a file whose output failed. `Memory` where it did not go past the limit.
fn too_much(alloc: Global, out: &Page<OUT_LIMIT>) -> Result<Report, Memory>
    ensures over { IfOk result (λ report. out.now.over ≡ true) }
    ensures own { IfOk result (λ report. (report.status ≡ 10) × (report.out ≡ []) × (report.err ≡ [])) }
{
    if !out.is_over() {
        return Err(Memory);
    }
    Ok(Report {
        status: TOO_MUCH,
        out: Word::of(Vec::new(alloc)),
        err: Word::of(Vec::new(alloc)),
    })
}

/// The words of the command that a job is.
fn words_of_job(alloc: Global, name: &str) -> Result<Vec<String>, Memory>
    ensures { IfOk result (λ words. map string_bytes words.items ≡ words_of_job name.now) }
{
    let mut words = Vec::new(alloc);
    words.push(String::from_str(alloc, "--workers")?)?;
    words.push(String::from_str(alloc, "1")?)?;
    words.push(String::from_str(alloc, "--")?)?;
    words.push(String::from_str(alloc, name)?)?;
    Ok(words)
}
