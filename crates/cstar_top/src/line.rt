//! The line that an answer puts on the error output.

ghost use Rattle.std.specs.Prelude.{◌≡◌, ◌++◌, IfOk, OnOk, codes, decimal};
ghost use Rattle.cstar_top.specs.Answers.{at_place, at_position, fault_text, line_of, refusal_text, two_digits};

use crate::answer::Answer;
use cstar_base::{Fault, Memory, Place, RunFault};
use itoa::Buffer;
use std::alloc::Global;

/// The usage line.
pub const USAGE: &str =
    "usage: cstar [--mode run|list|check|drill|asm|resume] [--workers N] [--turns N] [--finals] [--listing] [--seed N] [--winner high|low] [--save NAME] FILE\n";

/// The line that an answer puts: its name is that of the file, or of the point that cannot be saved.
#[tactic(auto, unfolding(crate::specs::Answers::line_of))]
pub fn line(alloc: Global, name: &[u8], answer: &Answer) -> Result<Vec<u8>, Memory>
    ensures { IfOk result (λ text. text.items ≡ line_of name.now answer.now) }
{
    match answer {
        Answer::Done | Answer::WriteFault => Ok(Vec::new(alloc)),
        Answer::Fault {
            fault,
            place,
            position,
        } => fault_line(alloc, name, *fault, *place, *position),
        Answer::Usage => Ok(Vec::from_slice(alloc, USAGE.as_bytes())?),
        Answer::Refused { fault, place } => refusal_line(alloc, name, *fault, *place),
        Answer::Stopped { turns } => stopped_line(alloc, *turns),
        Answer::CannotRead => named_line(alloc, b"cannot read ", name),
        Answer::InputFault => Ok(Vec::from_slice(alloc, b"input fault\n")?),
        Answer::Memory => Ok(Vec::from_slice(alloc, b"out of memory\n")?),
        Answer::CannotSave => named_line(alloc, b"cannot save ", name),
    }
}

fn fault_line(
    alloc: Global,
    file: &[u8],
    fault: RunFault,
    place: Place,
    position: Option<u32>,
) -> Result<Vec<u8>, Memory>
    ensures { IfOk result (λ text. text.items ≡ at_place file.now place ++ fault_text fault ++ at_position position ++ codes "\n") }
{
    let mut text = placed(alloc, file, place)?;
    push_fault(&mut text, fault)?;
    push_position(&mut text, position)?;
    text.extend_from_slice(b"\n")?;
    Ok(text)
}

/// `F1 Index`
#[tactic(auto, unfolding(crate::specs::Answers::fault_text))]
fn push_fault(text: &mut Vec<u8>, fault: RunFault) -> Result<(), Memory>
    ensures { OnOk result (text.new.items ≡ text.old.items ++ fault_text fault) }
{
    text.extend_from_slice(b"F")?;
    push_number(text, u32::from(fault.number()))?;
    text.extend_from_slice(b" ")?;
    text.extend_from_slice(fault.name().as_bytes())?;
    Ok(())
}

fn push_position(text: &mut Vec<u8>, position: Option<u32>) -> Result<(), Memory>
    ensures { OnOk result (text.new.items ≡ text.old.items ++ at_position position) }
{
    match position {
        Some(number) => {
            text.extend_from_slice(b" at position ")?;
            push_number(text, number)?;
            Ok(())
        }
        None => Ok(()),
    }
}

fn refusal_line(alloc: Global, file: &[u8], fault: Fault, place: Place) -> Result<Vec<u8>, Memory>
    ensures { IfOk result (λ text. text.items ≡ at_place file.now place ++ refusal_text fault ++ codes "\n") }
{
    let mut text = placed(alloc, file, place)?;
    push_refusal(&mut text, fault)?;
    text.extend_from_slice(b"\n")?;
    Ok(text)
}

/// `E05 Syntax`
#[tactic(auto, unfolding(crate::specs::Answers::refusal_text))]
fn push_refusal(text: &mut Vec<u8>, fault: Fault) -> Result<(), Memory>
    ensures { OnOk result (text.new.items ≡ text.old.items ++ refusal_text fault) }
{
    text.extend_from_slice(b"E")?;
    push_digits(text, fault.number())?;
    text.extend_from_slice(b" ")?;
    text.extend_from_slice(fault.name().as_bytes())?;
    Ok(())
}

/// A number below 100.
fn push_digits(text: &mut Vec<u8>, number: u8) -> Result<(), Memory>
    ensures { OnOk result (text.new.items ≡ text.old.items ++ two_digits number) }
{
    text.extend_from_slice(&[b'0' + number / 10, b'0' + number % 10])?;
    Ok(())
}

fn stopped_line(alloc: Global, turns: u32) -> Result<Vec<u8>, Memory>
    ensures { IfOk result (λ text. text.items ≡ codes "stopped after " ++ decimal turns ++ codes " turns\n") }
{
    let mut text = Vec::from_slice(alloc, b"stopped after ")?;
    push_number(&mut text, turns)?;
    text.extend_from_slice(b" turns\n")?;
    Ok(text)
}

/// A name behind what is said of it.
fn named_line(alloc: Global, said: &[u8], name: &[u8]) -> Result<Vec<u8>, Memory>
    ensures { IfOk result (λ text. text.items ≡ said.now ++ name.now ++ codes "\n") }
{
    let mut text = Vec::from_slice(alloc, said)?;
    text.extend_from_slice(name)?;
    text.extend_from_slice(b"\n")?;
    Ok(text)
}

/// `FILE:LINE:COL: `
fn placed(alloc: Global, file: &[u8], place: Place) -> Result<Vec<u8>, Memory>
    ensures { IfOk result (λ text. text.items ≡ at_place file.now place) }
{
    let mut text = Vec::from_slice(alloc, file)?;
    text.extend_from_slice(b":")?;
    push_number(&mut text, place.line)?;
    text.extend_from_slice(b":")?;
    push_number(&mut text, place.col)?;
    text.extend_from_slice(b": ")?;
    Ok(text)
}

fn push_number(text: &mut Vec<u8>, number: u32) -> Result<(), Memory>
    ensures { OnOk result (text.new.items ≡ text.old.items ++ decimal number) }
{
    text.extend_from_slice(Buffer::new().format(number).as_bytes())?;
    Ok(())
}
