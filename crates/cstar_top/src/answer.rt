//! What a command comes to, and its status.

ghost use Rattle.std.specs.Prelude.{◌≡◌};
ghost use Rattle.cstar_top.specs.Answers.{status_of};

use cstar_base::{Fault, Place, RunFault};

/// What a command comes to.
#[derive(Clone, Copy)]
pub enum Answer {
    Done,
    Fault {
        fault: RunFault,
        place: Place,
        position: Option<u32>,
    },
    Usage,
    Refused {
        fault: Fault,
        place: Place,
    },
    Stopped {
        turns: u32,
    },
    CannotRead,
    WriteFault,
    InputFault,
    Memory,
    CannotSave,
}

impl Answer {
    /// The status that the command ends with.
    pub fn status(&self) -> u8
        ensures { result ≡ status_of self.now }
    {
        match self {
            Answer::Done => 0,
            Answer::Fault { .. } => 1,
            Answer::Usage => 2,
            Answer::Refused { .. } => 3,
            Answer::Stopped { .. } => 4,
            Answer::CannotRead => 5,
            Answer::WriteFault => 6,
            Answer::InputFault => 7,
            Answer::Memory => 8,
            Answer::CannotSave => 9,
        }
    }
}
