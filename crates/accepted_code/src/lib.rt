//! The program of each accepted text has code, and its image has all of it and keeps control within its units.
//! Readers find the laws here by name.
#![tactic(auto)]

ghost use Rattle.accepted_code.specs.Laws.{AcceptedImagesKeepWays, AcceptedProgramsHaveCode, ImagesHaveEveryUnit, ScalarImagesMeanTheirText};

/// The program of each accepted text has code: that of each function that it reaches, whichever numbers
/// stand in registers.
pub fn accepted_program_has_code()
    ensures { AcceptedProgramsHaveCode }
{}

/// An image that the compiler makes of an accepted text has a unit for each instance of the text's program:
/// none is left out.
pub fn image_has_every_unit()
    ensures { ImagesHaveEveryUnit }
{}

/// An image that the compiler makes of an accepted text keeps the image rules on targets and on ways back:
/// jumps stay in their unit and go back to turns alone, and what may go on has an instruction behind it.
pub fn accepted_image_keeps_ways()
    ensures { AcceptedImagesKeepWays }
{}

/// An image that the compiler makes of an accepted text comes, on every input and with every number of
/// turns, to the end of the text's meaning, with its turns and its output: so far where the text declares no
/// shape.
pub fn scalar_image_means_its_text()
    ensures { ScalarImagesMeanTheirText }
{}
