//! The typed program of a file without shapes is a scalar one: what it is made of are the forms of which it is
//! proved that their code means them.
//! Readers find the law here by name.
#![tactic(auto)]

ghost use Rattle.scalar_texts.specs.Laws.{FilesWithoutShapesAreScalar};

/// What a file without shapes becomes by the rules of typing is a scalar program.
pub fn file_without_shapes_is_scalar()
    ensures { FilesWithoutShapesAreScalar }
{}
