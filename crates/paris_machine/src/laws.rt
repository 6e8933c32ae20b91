//! Laws of the runs of images, which readers find here by name.

ghost use Rattle.paris_code.specs.declared.program.Image.{Image};
ghost use Rattle.paris_code.specs.Sound.{IsSound};
ghost use Rattle.paris_machine.specs.Cut.{CodeInTwo, RunsInTwo};

/// Code that stopped and goes on from there with new turns comes to the same as with those turns more
/// from the start, its outputs joined.
pub fn code_in_two()
    ensures { (image : Image) → CodeInTwo image }
{}

/// The same of runs of the machine, as `resume` and `run` give them.
pub fn runs_in_two()
    ensures { (image : Image) → IsSound image → RunsInTwo image }
{}
