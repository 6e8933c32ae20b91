//! Compiled images keep the image rules on where control goes: those on targets and those on ways back. So the
//! units do before they are placed and linked. Readers find the laws here by name.
#![tactic(auto)]

ghost use Rattle.proper_code.specs.Control.{UnitsKeepControl};
ghost use Rattle.proper_code.specs.Links.{CompiledKeepWays, LinksKeepWays};
ghost use Rattle.proper_code.specs.Loops.{TypedFilesStayInLoops};

/// In the unit of each instance that has code every jump leads to an instruction of the unit, and to a turn
/// where it does not lead forward. A call is of a unit of the program and stands directly behind a turn, and
/// no jump leads to it. What does not end the unit and is no jump that is always taken has an instruction
/// behind it; `main` alone halts, and all others return.
pub fn units_keep_control()
    ensures { UnitsKeepControl }
{}

/// The link of units that do so is an image that keeps the rules on targets and on ways back, at each of its
/// instructions.
pub fn links_keep_ways()
    ensures { LinksKeepWays }
{}

/// So does the image of each typed program with an instance, whose instances have code and whose `break` and
/// `continue` stand in loops: lowering makes units that keep control, placing leaves it as it is, and the image
/// is their link.
pub fn compiled_images_keep_ways()
    ensures { CompiledKeepWays }
{}

/// What the rules of typing make of a file has each `break` and each `continue` in a loop, as these laws ask.
pub fn typed_files_stay_in_loops()
    ensures { TypedFilesStayInLoops }
{}
