//! Laws of the meaning of programs, which readers find here by name.
#![tactic(auto)]

ghost use Rattle.meaning_laws.specs.Turns.{MoreTurnsPrintOn, TurnsNeverRise};

/// The meaning of a program leaves no more turns than it is given.
pub fn turns_never_rise()
    ensures { TurnsNeverRise }
{}

/// What a program prints with some turns is the beginning of what it prints with more, by its meaning,
/// and where the turns suffice more of them change nothing but how many are left.
pub fn more_turns_print_on()
    ensures { MoreTurnsPrintOn }
{}
