//! The law of runs with more turns, which readers find here by name.
#![tactic(auto)]

ghost use Rattle.paris_code.specs.Sound.{IsSound};
ghost use Rattle.point_runs.specs.Starts.{Origin};
ghost use Rattle.turn_laws.specs.Turns.{PrintsOn};

/// What a run of a sound image prints with some turns is the beginning of what it prints with more on
/// the same input, and a run that did not stop is the same with more, which it leaves.
pub fn more_turns_print_on()
    ensures { (from : Origin) → IsSound from.image → PrintsOn from }
{}
