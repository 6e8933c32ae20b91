//! The program of a file: which instances it has, and what their bodies call.
//! Readers find the laws here by name.
#![tactic(auto)]

ghost use Rattle.program_laws.specs.Bodies.{BlocksCallWhatIsCalled, BodiesCallWhatIsCalled};
ghost use Rattle.program_laws.specs.MetInstances.{MetInstancesAreThePrograms};

/// The instances of a program are those that are met from `main` on, where the bodies of those met are
/// walked over one behind the other until none is left.
pub fn met_instances_are_the_programs()
    ensures { MetInstancesAreThePrograms }
{}

/// Each expression in the body of a function of the file names functions that are known there, and the
/// function calls those that the expression calls.
pub fn bodies_call_what_is_called()
    ensures { BodiesCallWhatIsCalled }
{}

/// A function of the file calls those that its body calls, under whatever shape it is reached.
pub fn blocks_call_what_is_called()
    ensures { BlocksCallWhatIsCalled }
{}
