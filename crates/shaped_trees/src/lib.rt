//! The typed trees that the rules of typing give have the shapes on which the lengths of code rely, and
//! their values stand where the code of each node reads them.
//! Readers find the laws here by name.
#![tactic(auto)]

ghost use Rattle.shaped_trees.specs.Laws.{SpelledTreesNameShapes, TypedDeclarationsAreLowerable, TypedDeclarationsAreShaped, TypedExpressionsAreLowerable, TypedExpressionsAreShaped, TypedExpressionsNameVariables, TypedFilesAreLowerable, TypedFilesAreShaped, TypedFilesHaveCode, TypedStatementsAreLowerable, TypedStatementsAreShaped, TypedStatementsNameVariables};

/// What an expression becomes by the rules is shaped, at a place that knows no array without a shape,
/// and can be assigned to where the rules take it as a target. Its value is kept in a register exactly
/// where it has no shape.
pub fn typed_expression_is_shaped()
    ensures { TypedExpressionsAreShaped }
{}

/// What an expression becomes by the rules is lowerable, in a function of a program whose instances the
/// typed program has. It gives a value where the rules say so, but for a send that is a whole statement.
pub fn typed_expression_is_lowerable()
    ensures { TypedExpressionsAreLowerable }
{}

/// What an expression becomes by the rules names variables of the program and of the instance in which it
/// stands alone, with their types, where those that its place knows are such.
pub fn typed_expression_names_variables()
    ensures { TypedExpressionsNameVariables }
{}

/// The variables of declarations have shaped initialisers, scalar exactly where the variable is, and no
/// array without a shape is known behind them.
pub fn typed_declarations_are_shaped()
    ensures { TypedDeclarationsAreShaped }
{}

/// The variables of declarations have lowerable initialisers, each a value for its variable.
pub fn typed_declarations_are_lowerable()
    ensures { TypedDeclarationsAreLowerable }
{}

/// What a statement becomes by the rules is shaped.
pub fn typed_statement_is_shaped()
    ensures { TypedStatementsAreShaped }
{}

/// What a statement becomes by the rules is lowerable, in a function with the result that they give it.
pub fn typed_statement_is_lowerable()
    ensures { TypedStatementsAreLowerable }
{}

/// What a statement becomes by the rules names variables of the program and of its instance alone, where
/// those that it declares have the numbers of the instance's variables that its place counts on with.
pub fn typed_statement_names_variables()
    ensures { TypedStatementsNameVariables }
{}

/// What a file becomes by the rules has shaped bodies, so that the laws of code lengths hold of each of
/// its units.
pub fn typed_file_is_shaped()
    ensures { TypedFilesAreShaped }
{}

/// What a file becomes by the rules has lowerable bodies.
pub fn typed_file_is_lowerable()
    ensures { TypedFilesAreLowerable }
{}

/// The instances of what a file becomes by the rules have code, as the laws of code lengths ask for it, where
/// no name of its variables and shapes is declared twice.
pub fn typed_file_has_code()
    ensures { TypedFilesHaveCode }
{}

/// In a tree that tokens spell each parallel cast names a shape, as the laws above ask.
pub fn spelled_tree_names_shapes()
    ensures { SpelledTreesNameShapes }
{}
