//! What a batch comes to, its status, and its line.

ghost use Rattle.std.specs.Prelude.{◌≡◌, ◌≢◌, ◌⊎◌, OnErr, OnOk};
ghost use Rattle.cstar_io.specs.Faults.{RisesBy};
ghost use Rattle.cstar_io.specs.Output.{Takes, TakesNothing, TakesPrefix};
ghost use Rattle.batch_top.specs.Endings.{line_of, status_of, unread_line};

use cstar_io::{Failed, Sink, put_line};

/// What a batch comes to.
#[derive(Clone, Copy)]
pub enum Ending<'a> {
    Done,
    Usage,
    CannotRead { name: &'a str },
    WriteFault,
    Memory,
}

impl<'a> Ending<'a> {
    /// The status that the command ends with.
    pub fn status(&self) -> u8
        ensures { result ≡ status_of self.now }
    {
        match self {
            Ending::Done => 0,
            Ending::Usage => 2,
            Ending::CannotRead { .. } => 5,
            Ending::WriteFault => 6,
            Ending::Memory => 8,
        }
    }

    /// Puts the line on the error output and sends it on. Answers the status, or 6 where the output
    /// fails.
    pub fn tell<E: Sink>(&self, err: &mut E) -> u8
        ensures status { (result ≡ status_of self.now) ⊎ (result ≡ 6) }
        ensures own { result ≢ 6 → Takes E.agrees err.old err.new (line_of self.now) }
        ensures part { TakesPrefix E.agrees err.old err.new (line_of self.now) }
        ensures failed { result ≡ 6 → (status_of self.now ≡ 6) ⊎ RisesBy (E.faults err.old) (E.faults err.new) }
        ensures other { result ≢ 6 → E.faults err.new ≡ E.faults err.old }
    {
        match self.put(err) {
            Ok(()) => self.sent(err),
            Err(_) => 6,
        }
    }

    /// The status, once the error output is sent on, or 6 where that fails.
    fn sent<E: Sink>(&self, err: &mut E) -> u8
        ensures status { (result ≡ status_of self.now) ⊎ (result ≡ 6) }
        ensures nothing { TakesNothing E.agrees err.old err.new }
        ensures failed { result ≡ 6 → (status_of self.now ≡ 6) ⊎ RisesBy (E.faults err.old) (E.faults err.new) }
        ensures other { result ≢ 6 → E.faults err.new ≡ E.faults err.old }
    {
        match err.flush() {
            Ok(()) => self.status(),
            Err(_) => 6,
        }
    }

    /// Puts the line.
    fn put<E: Sink>(&self, err: &mut E) -> Result<(), Failed>
        ensures taken { OnOk result (Takes E.agrees err.old err.new (line_of self.now)) }
        ensures part { OnErr result (TakesPrefix E.agrees err.old err.new (line_of self.now)) }
        ensures failed { OnErr result (RisesBy (E.faults err.old) (E.faults err.new)) }
        ensures other { OnOk result (E.faults err.new ≡ E.faults err.old) }
    {
        match self {
            Ending::Done | Ending::WriteFault => Ok(()),
            Ending::Usage => err.put(b"usage: cstar batch CALLERS FILE...\n"),
            Ending::CannotRead { name } => put_unread(err, name.as_bytes()),
            Ending::Memory => err.put(b"out of memory\n"),
        }
    }
}

/// `cannot read NAME`
fn put_unread<E: Sink>(err: &mut E, name: &[u8]) -> Result<(), Failed>
    ensures taken { OnOk result (Takes E.agrees err.old err.new (unread_line name.now)) }
    ensures part { OnErr result (TakesPrefix E.agrees err.old err.new (unread_line name.now)) }
    ensures failed { OnErr result (RisesBy (E.faults err.old) (E.faults err.new)) }
    ensures other { OnOk result (E.faults err.new ≡ E.faults err.old) }
{
    match err.put(b"cannot read ") {
        Ok(()) => put_line(err, name),
        Err(failed) => Err(failed),
    }
}
