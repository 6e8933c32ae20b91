//! A quiet expression changes nothing, and one that ignores the context has one value. Readers find the laws here by name.
#![tactic(auto)]

ghost use Rattle.quiet_operands.specs.Quiet.{ContextsAreIgnored, QuietExpressionsChangeNothing, QuietListsChangeNothing};

/// The evaluation of a quiet expression, under any active sets, leaves the variables, the turns, the
/// input and the output as they were, whether it gives a value or ends the run.
pub fn quiet_expression_changes_nothing()
    ensures { QuietExpressionsChangeNothing }
{}

/// So does that of a list of quiet expressions, as the indexes of a left index.
pub fn quiet_list_changes_nothing()
    ensures { QuietListsChangeNothing }
{}

/// An expression that ignores the context has the same value under any active sets: it ends in no fault
/// and leaves the state as it was. So the right operand of a parallel `&&` or `||` may be evaluated
/// without a narrower context.
pub fn context_is_ignored()
    ensures { ContextsAreIgnored }
{}
