//! The text of a section.

ghost use Rattle.std.specs.Prelude.{◌≡◌, ◌++◌, IfOk, OnOk, codes};
ghost use Rattle.job_callers.specs.Sections.{counted, heading, section};

use cstar_base::Memory;
use itoa::Buffer;
use job_board::Report;
use std::alloc::Global;

/// The section of a batch for this name.
#[tactic(auto, unfolding(crate::specs::Sections::section))]
pub fn section_text(alloc: Global, name: &[u8], report: &Report) -> Result<Vec<u8>, Memory>
    ensures { IfOk result (λ text. text.items ≡ section name.now report.now) }
{
    let mut text = heading_text(alloc, name, report)?;
    text.extend_from_slice(b"\n")?;
    text.extend_from_slice(report.out.bytes())?;
    text.extend_from_slice(report.err.bytes())?;
    text.extend_from_slice(b"\n")?;
    Ok(text)
}

fn heading_text(alloc: Global, name: &[u8], report: &Report) -> Result<Vec<u8>, Memory>
    ensures { IfOk result (λ text. text.items ≡ heading name.now report.now) }
{
    let mut text = Vec::from_slice(alloc, b"== ")?;
    text.extend_from_slice(name)?;
    push_number(&mut text, u64::from(report.status))?;
    push_number(&mut text, report.out.bytes().len() as u64)?;
    push_number(&mut text, report.err.bytes().len() as u64)?;
    Ok(text)
}

/// A space and a number.
fn push_number(text: &mut Vec<u8>, number: u64) -> Result<(), Memory>
    ensures { OnOk result (text.new.items ≡ text.old.items ++ counted number) }
{
    text.extend_from_slice(b" ")?;
    text.extend_from_slice(Buffer::new().format(number).as_bytes())?;
    Ok(())
}
