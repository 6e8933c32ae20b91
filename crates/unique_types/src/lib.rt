//! An expression that the rules of typing give a type has one type and no fault.
//! Readers find the laws here by name.
#![tactic(auto)]

ghost use Rattle.unique_types.specs.Laws.{ConstantsHaveTypes, FaultsAtANodeAreOne, TypedExpressionsAreNotUntold, TypedExpressionsHaveNoFault, TypedValuesHaveNoFault, TypesAreUnique, TypesOfIndexesAreUnique, TypesOfListsAreUnique};

/// The typed trees that the rules give an expression at a place have one type, are one as targets, and
/// all have a value or none has.
pub fn types_are_unique()
    ensures { TypesAreUnique }
{}

/// So it is of expressions that stand behind one another as values.
pub fn types_of_lists_are_unique()
    ensures { TypesOfListsAreUnique }
{}

/// So it is of the indexes before a name.
pub fn types_of_indexes_are_unique()
    ensures { TypesOfIndexesAreUnique }
{}

/// An expression that is constant by its form has a scalar type, the one of the constant, and a value.
pub fn constants_have_types()
    ensures { ConstantsHaveTypes }
{}

/// No fault stands in an expression that the rules give a type.
pub fn typed_expressions_have_no_fault()
    ensures { TypedExpressionsHaveNoFault }
{}

/// None stands in one that needs a value, where it has a type and a value.
pub fn typed_values_have_no_fault()
    ensures { TypedValuesHaveNoFault }
{}

/// An expression outside all functions that the rules give a type does not rest on a call of a function
/// whose header has a fault.
pub fn typed_expressions_are_not_untold()
    ensures { TypedExpressionsAreNotUntold }
{}

/// At most one fault stands at a node, but at a call, a scan, an enumerate, a `dimof` and a `printf`: one
/// number, at one place.
pub fn faults_at_a_node_are_one()
    ensures { FaultsAtANodeAreOne }
{}
