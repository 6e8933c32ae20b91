//! What is constant by its form in the text is constant in the typed tree, with the same number.
//! Readers find the laws here by name.
#![tactic(auto)]

ghost use Rattle.constant_trees.specs.Laws.{TypedConstantsAreTheWrittenOnes, TypedConstantsHaveTheWrittenNumbers};

/// What an expression becomes by the rules is the constant that the expression is by its form, and is
/// none where the expression is none. The numbers of the expression and of the shapes that are known at
/// its place are below 2^32.
pub fn typed_constant_is_the_written_one()
    ensures { TypedConstantsAreTheWrittenOnes }
{}

/// So the number of a constant expression, and whether it has one, can be read from its typed tree.
pub fn typed_constant_has_the_written_number()
    ensures { TypedConstantsHaveTheWrittenNumbers }
{}
