//! What follows from where placing puts the bits of a program.

ghost use Rattle.paris_code.specs.declared.program.Program.{Program};
ghost use Rattle.field_alloc.specs.Placed.{AreCallersBelow, IsPlaced};

/// The bits in use of a unit are below those of every unit to which calls lead from it, also through
/// units between them.
pub fn callers_lie_below()
    ensures { (before after : Program) (placed : IsPlaced before after) → AreCallersBelow before placed.places }
{}
