//! What typing an expression comes to by the rules: a type, a fault in it, or a faulty declaration.
//! Readers find the laws here by name.
#![tactic(auto)]

ghost use Rattle.expression_outcomes.specs.Laws.{ExpressionsAreTypedOrFaulty, FaultlessConstantsAreTypedOrUntold};

/// Each expression has a type, or a fault stands in it, or it rests on a variable or a function whose
/// declaration has a fault. What is named at its place is there, and its calls within a function are of
/// instances of the program.
pub fn expressions_are_typed_or_faulty()
    ensures { ExpressionsAreTypedOrFaulty }
{}

/// Outside all functions, where no variable has a faulty declaration, an expression in which no fault
/// stands has a type, or it is told to be no constant: it calls a function whose header has a fault.
pub fn faultless_constants_are_typed_or_untold()
    ensures { FaultlessConstantsAreTypedOrUntold }
{}
