//! The typed programs that the rules of typing give have no cycle of calls, so that the room of `main`
//! is that of the deepest chain of its calls.
//! Readers find the law here by name.
#![tactic(auto)]

ghost use Rattle.typed_calls.specs.Laws.{TypedProgramsHaveNoCycle};

/// An instance that another calls by the rules never leads back to it, where each function calls what
/// its body names.
pub fn typed_programs_have_no_cycle()
    ensures { TypedProgramsHaveNoCycle }
{}
