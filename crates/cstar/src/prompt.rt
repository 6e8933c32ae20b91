ghost use Rattle.std.specs.Prelude.{◌≡◌, OnOk, OnErr};
ghost use Rattle.cstar_io.specs.Faults.{RisesBy};
ghost use Rattle.cstar_io.specs.Output.{Takes, TakesPrefix, TakesNothing};

use cstar_io::{Failed, Sink};

/// When what is gathered is sent on.
#[derive(Clone, Copy)]
pub enum Sending {
    /// Where a person types the input, at once: a prompt is seen before an answer to it is waited for.
    AtOnce,
    /// Where a person reads the output, at the end of each line.
    ByLines,
    /// Where both are files or pipes, as it fits.
    ByPieces,
}

impl Sending {
    /// How output is sent on, by whether the input and the output are terminals.
    pub fn towards(is_typed: bool, is_read: bool) -> Sending {
        match (is_typed, is_read) {
            (true, _) => Sending::AtOnce,
            (false, true) => Sending::ByLines,
            (false, false) => Sending::ByPieces,
        }
    }

    /// Whether what is gathered is to be sent on behind these bytes.
    fn is_due(self, bytes: &[u8]) -> bool {
        match self {
            Sending::AtOnce => true,
            Sending::ByLines => bytes.contains(&b'\n'),
            Sending::ByPieces => false,
        }
    }
}

/// A sink that sends on what it is given as a person wants to see it.
#[derive(Drop)]
pub struct Prompt<S: Sink> {
    sink: S,
    sending: Sending,
}

impl<S: Sink> Prompt<S> {
    pub fn new(sink: S, sending: Sending) -> Prompt<S>
    where
        S: Drop,
        ensures { (result.sink ≡ sink) × (result.sending ≡ sending) }
    {
        Prompt { sink, sending }
    }
}

impl<S: Sink> Sink for Prompt<S> {
    ghost faults = { λ prompt. S.faults prompt.sink };

    ghost agrees = { λ prompt. S.agrees prompt.sink };

    #[tactic(auto, using(crate::proofs::Sent::all_of, crate::proofs::Sent::then_nothing))]
    fn put(&mut self, bytes: &[u8]) -> Result<(), Failed> {
        self.sink.put(bytes)?;
        if self.sending.is_due(bytes) {
            self.sink.flush()
        } else {
            Ok(())
        }
    }

    fn flush(&mut self) -> Result<(), Failed> {
        self.sink.flush()
    }
}
