//! An answer told: its line on the error output, and its status.

ghost use Rattle.std.specs.Prelude.{◌≡◌, ◌≢◌, ◌⊎◌, codes};
ghost use Rattle.cstar_io.specs.Faults.{RisesBy};
ghost use Rattle.cstar_io.specs.Output.{Takes, TakesNothing, TakesPrefix};
ghost use Rattle.cstar_top.specs.Answers.{line_of, status_of};

use crate::answer::Answer;
use crate::line::line;
use cstar_io::Sink;
use std::alloc::Global;

/// Puts the line of an answer for the file of this name, and answers its status: 8 and its line
/// where there is no memory for the line, 6 where it cannot be put. After a write fault nothing is
/// put.
pub fn report<E: Sink>(alloc: Global, file: &[u8], answer: Answer, err: &mut E) -> u8
    ensures status { (result ≡ status_of answer) ⊎ (result ≡ 6) ⊎ (result ≡ 8) }
    ensures own { result ≡ status_of answer → result ≢ 6 → result ≢ 8 → Takes E.agrees err.old err.new (line_of file.now answer) }
    ensures memory { result ≡ 8 → Takes E.agrees err.old err.new (codes "out of memory\n") }
    ensures part { result ≡ 6 → TakesPrefix E.agrees err.old err.new (line_of file.now answer) ⊎ TakesPrefix E.agrees err.old err.new (codes "out of memory\n") }
    ensures kept { status_of answer ≡ 6 → result ≡ 6 }
    ensures failed { result ≡ 6 → (status_of answer ≡ 6) ⊎ RisesBy (E.faults err.old) (E.faults err.new) }
    ensures other { result ≢ 6 → E.faults err.new ≡ E.faults err.old }
{
    if answer.status() == 6 {
        return 6;
    }
    match line(alloc, file, &answer) {
        Ok(text) => put_answer(err, file, answer, text.as_slice()),
        Err(_) => put_memory(err),
    }
}

/// Puts the text of an answer.
fn put_answer<E: Sink>(err: &mut E, file: &[u8], answer: Answer, text: &[u8]) -> u8
    requires { text.now ≡ line_of file.now answer }
    ensures status { (result ≡ status_of answer) ⊎ (result ≡ 6) }
    ensures own { result ≢ 6 → Takes E.agrees err.old err.new (line_of file.now answer) }
    ensures memory { result ≡ 8 → Takes E.agrees err.old err.new (codes "out of memory\n") }
    ensures part { result ≡ 6 → TakesPrefix E.agrees err.old err.new (line_of file.now answer) }
    ensures failed { result ≡ 6 → (status_of answer ≡ 6) ⊎ RisesBy (E.faults err.old) (E.faults err.new) }
    ensures other { result ≢ 6 → E.faults err.new ≡ E.faults err.old }
{
    put_line(err, text, answer.status())
}

/// Puts the line of want of memory in the place of an answer's.
fn put_memory<E: Sink>(err: &mut E) -> u8
    ensures status { (result ≡ 8) ⊎ (result ≡ 6) }
    ensures memory { result ≡ 8 → Takes E.agrees err.old err.new (codes "out of memory\n") }
    ensures part { result ≡ 6 → TakesPrefix E.agrees err.old err.new (codes "out of memory\n") }
    ensures failed { result ≡ 6 → RisesBy (E.faults err.old) (E.faults err.new) }
    ensures other { result ≢ 6 → E.faults err.new ≡ E.faults err.old }
{
    put_line(err, b"out of memory\n", 8)
}

/// Puts a text that is not empty. The status, or 6 where it cannot be put.
fn put_line<E: Sink>(err: &mut E, text: &[u8], status: u8) -> u8
    ensures status { (result ≡ status) ⊎ (result ≡ 6) }
    ensures taken { result ≢ 6 → Takes E.agrees err.old err.new text.now }
    ensures part { result ≡ 6 → TakesPrefix E.agrees err.old err.new text.now }
    ensures failed { result ≡ 6 → (status ≡ 6) ⊎ RisesBy (E.faults err.old) (E.faults err.new) }
    ensures other { result ≢ 6 → E.faults err.new ≡ E.faults err.old }
{
    if text.is_empty() {
        return status;
    }
    match err.put(text) {
        Ok(()) => sent(err, status),
        Err(_) => 6,
    }
}

/// Sends on what was put. The status, or 6 where that fails.
fn sent<E: Sink>(err: &mut E, status: u8) -> u8
    ensures status { (result ≡ status) ⊎ (result ≡ 6) }
    ensures nothing { TakesNothing E.agrees err.old err.new }
    ensures failed { result ≡ 6 → (status ≡ 6) ⊎ RisesBy (E.faults err.old) (E.faults err.new) }
    ensures other { result ≢ 6 → E.faults err.new ≡ E.faults err.old }
{
    match err.flush() {
        Ok(()) => status,
        Err(_) => 6,
    }
}
