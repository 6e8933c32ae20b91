//! Of the variables that blocks declare, a typed program names only those that are open: of the blocks around the
//! place, and declared before it or just there.
//! Readers find the laws here by name.
#![tactic(auto)]

ghost use Rattle.open_names.specs.Laws.{TypedExpressionsNameOpen, TypedFilesNameOpen, TypedStatementsNameOpen};

/// What an expression becomes by the rules names only variables that are open, where those that its place knows
/// are.
pub fn typed_expression_names_open_variables()
    ensures { TypedExpressionsNameOpen }
{}

/// What a statement becomes by the rules names no others either, but in each of its blocks those that are
/// declared there.
pub fn typed_statement_names_open_variables()
    ensures { TypedStatementsNameOpen }
{}

/// The bodies of what a file becomes by the rules name variables of their open blocks alone, beside those of the
/// file and parameters.
pub fn typed_file_names_open_variables()
    ensures { TypedFilesNameOpen }
{}
