//! The law of saved runs, which readers find here by name.
#![tactic(auto)]

ghost use Rattle.std.specs.Prelude.{ℕ, List};
ghost use Rattle.point_laws.specs.Joined.{ResumesWell};

/// A run that stopped and was kept as bytes, and one that goes on from these, are together the run
/// with the sum of the turns.
pub fn kept_run_goes_on()
    ensures { (bytes : List ℕ) → ResumesWell bytes }
{}
