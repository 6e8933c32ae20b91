//! What the rules of typing type has no fault, and a file that they type is accepted.
//! Readers find the laws here by name.
#![tactic(auto)]

ghost use Rattle.faultless_files.specs.Laws.{AcceptedFilesAreWellFormed, FilesWithoutRoomAreRefused, TypedBlocksHaveNoFault, TypedDeclarationsHaveNoFault, TypedFilesAreAccepted, TypedFilesHaveNoFault, TypedProgramsNeedTheSameRoom, TypedStatementListsHaveNoFault, TypedStatementsHaveNoFault};

/// No fault stands in declarations of a block that have types.
pub fn typed_declarations_have_no_fault()
    ensures { TypedDeclarationsHaveNoFault }
{}

/// No fault stands in a statement that has a type, with all statements in it.
pub fn typed_statements_have_no_fault()
    ensures { TypedStatementsHaveNoFault }
{}

/// No fault stands in statements one behind the other that have types.
pub fn typed_statement_lists_have_no_fault()
    ensures { TypedStatementListsHaveNoFault }
{}

/// No fault stands in a block that has a type.
pub fn typed_blocks_have_no_fault()
    ensures { TypedBlocksHaveNoFault }
{}

/// No fault stands in a file that has a type and is well formed.
pub fn typed_files_have_no_fault()
    ensures { TypedFilesHaveNoFault }
{}

/// The typed programs that a file has need the same room.
pub fn typed_programs_need_the_same_room()
    ensures { TypedProgramsNeedTheSameRoom }
{}

/// A file that has a type and is well formed is accepted where it has room.
pub fn typed_files_are_accepted()
    ensures { TypedFilesAreAccepted }
{}

/// A file that has a type and is well formed is refused for want of room where it has none.
pub fn files_without_room_are_refused()
    ensures { FilesWithoutRoomAreRefused }
{}

/// A file that is accepted is well formed, so that nothing is asked there that is not needed.
pub fn accepted_files_are_well_formed()
    ensures { AcceptedFilesAreWellFormed }
{}
