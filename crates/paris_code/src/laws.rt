//! Small computed cases of the instructions' meaning, and laws of the definitions, which readers find
//! here by name.

ghost use Rattle.std.specs.Prelude.{◌≡◌, ℕ, List, map};
ghost use Rattle.paris_code.specs.declared.instr.Instr.{Instr};
ghost use Rattle.paris_code.specs.declared.program.Image.{Image};
ghost use Rattle.paris_code.specs.declared.program.Program.{Program};
ghost use Rattle.paris_code.specs.Ends.{EndsAreStacks, HeightsHoldEntries};
ghost use Rattle.paris_code.specs.Examples.{Remainders, WideShifts, Communication, FrontSteps};
ghost use Rattle.paris_code.specs.Memory.{BitMemory};
ghost use Rattle.paris_code.specs.Moving.{IsMoved, moved};
ghost use Rattle.paris_code.specs.Spans.{fields_of};

/// Remainders and quotients of negative numbers on four bits, and by 0.
pub fn remainders()
    ensures { Remainders }
{}

/// Shifts by at least the width leave 0, or the sign.
pub fn wide_shifts()
    ensures { WideShifts }
{}

/// A segment that begins at an inactive position, a colliding send under both winners, a get without
/// a processor, folds of a field with a sign and without one, a minimum over nothing, the least processor that passes.
pub fn communication()
    ensures { Communication }
{}

/// A turn with none left, a call and its return, and reads behind the last byte of the input.
pub fn front_steps()
    ensures { (image : Image) (memory : BitMemory) → FrontSteps image memory }
{}

/// The ends of a unit's own entries, each above the greatest end of those below, are the heights of
/// the highest stacks.
pub fn ends_are_stacks()
    ensures { (program : Program) → EndsAreStacks program }
{}

/// A bound on the height of a set says of each own entry that it is no longer.
pub fn heights_hold_entries()
    ensures { (program : Program) → HeightsHoldEntries program }
{}

/// Moving an instruction's fields moves each field that its row has, and makes no other.
pub fn rows_move()
    ensures { (places : List ℕ) (instr over : Instr) → IsMoved places instr over → fields_of over ≡ map (moved places) (fields_of instr) }
{}
