use std::marker::Brand;

/// How many jobs there are, and what answers each of them. Both belong to the type, so all who
/// share a lock agree on them; who calls a function over a judge picks them for this call, by
/// `Brand`.
pub trait Judge {
    ghost use Rattle.std.specs.Prelude.{ℕ};
    ghost use Rattle.job_board.specs.declared.report.Report.{Report};

    /// The number of jobs.
    ghost jobs: { ℕ };
    /// This report answers the job of this number.
    ghost answers: { ℕ → Report → Type 0 };
}

impl Judge for Brand {
    ghost jobs = { 0 };

    ghost answers = { λ _ _. Unit {0} };
}
