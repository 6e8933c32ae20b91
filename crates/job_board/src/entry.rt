ghost use Rattle.std.specs.Prelude.{◌≡◌};
ghost use Rattle.job_board.specs.History.{draws, posts};

use crate::report::Report;

/// What happened to a job.
#[derive(Drop)]
pub enum Entry {
    Drawn { number: u32 },
    Posted { number: u32, report: Report },
}

impl Entry {
    /// Whether this number was drawn here.
    pub(crate) fn draws(&self, wanted: u32) -> bool
        ensures { result ≡ draws wanted self.now }
    {
        match self {
            Entry::Drawn { number } => wanted == *number,
            Entry::Posted { .. } => false,
        }
    }

    /// Whether a report for this number was posted here.
    pub(crate) fn posts(&self, wanted: u32) -> bool
        ensures { result ≡ posts wanted self.now }
    {
        match self {
            Entry::Drawn { .. } => false,
            Entry::Posted { number, .. } => wanted == *number,
        }
    }
}
