//! What the machine's scans, messages and checks of indexes do is what those of the language do.
#![tactic(auto)]

ghost use Rattle.communication_laws.specs.Elements.{ElementsAreNumberedByWords, ChecksOfElementsAreTheLanguages, MissingElementsAreRefused};
ghost use Rattle.communication_laws.specs.Gets.{GetsAreTheLanguages};
ghost use Rattle.communication_laws.specs.Indexes.{IndexesWithinNamePositions, AddressesAreTheLanguages, ChecksOfIndexesAreTheLanguages};
ghost use Rattle.communication_laws.specs.KnownPositions.{KnownPositionsAreTheLanguages};
ghost use Rattle.communication_laws.specs.OnePosition.{ScalarAddressesAreTheLanguages, ScalarChecksAreTheLanguages, ReadsOfPositionsAreTheLanguages, WritesOfPositionsStore};
ghost use Rattle.communication_laws.specs.Scans.{ScansAreTheLanguages};
ghost use Rattle.communication_laws.specs.Sends.{SentTargetsAreTheLanguages, OverwritingSendsAreTheLanguages, CombiningSendsAreTheLanguages, OverwritingSendsStore, CombiningSendsStore};
ghost use Rattle.communication_laws.specs.Steps.{SumsWithStepsAreRead, StepsWithinMove, ChecksOfStepsAreTheLanguages};

/// A scan of a field that has the values gives at active positions what the scan of the values gives.
pub fn scans_are_the_languages()
    ensures { ScansAreTheLanguages }
{}

/// A send writes at the positions that active senders name, and nowhere else.
pub fn sent_targets_are_the_languages()
    ensures { SentTargetsAreTheLanguages }
{}

/// Without a combiner each of them takes the value of its winner, be that the greatest sender or the least.
pub fn overwriting_sends_are_the_languages()
    ensures { OverwritingSendsAreTheLanguages }
{}

/// With a combiner it takes the fold of the values from its old one, converted to its type.
pub fn combining_sends_are_the_languages()
    ensures { CombiningSendsAreTheLanguages }
{}

/// A field that has what a variable has before a send without a combiner has what it has behind the send.
pub fn overwriting_sends_store()
    ensures { OverwritingSendsStore }
{}

/// So it does with a combiner.
pub fn combining_sends_store()
    ensures { CombiningSendsStore }
{}

/// A get by the router reads at each position that has a target the number of the variable there.
pub fn gets_are_the_languages()
    ensures { GetsAreTheLanguages }
{}

/// The number that indexes within their extents name is that of a position.
pub fn indexes_within_name_positions()
    ensures { IndexesWithinNamePositions }
{}

/// The address that is made of coordinates is that number.
pub fn addresses_are_the_languages()
    ensures { AddressesAreTheLanguages }
{}

/// A check of coordinates finds the least active position at which an index is not within its extent.
pub fn checks_of_indexes_are_the_languages()
    ensures { ChecksOfIndexesAreTheLanguages }
{}

/// The word of the sum of a coordinate and a step to a neighbour is read as their sum.
pub fn sums_with_steps_are_read()
    ensures { SumsWithStepsAreRead }
{}

/// Where it lies within the extent it is the coordinate to which the step leads.
pub fn steps_within_move()
    ensures { StepsWithinMove }
{}

/// A check of steps finds the least active position from which an index does not lead to one within its extent.
pub fn checks_of_steps_are_the_languages()
    ensures { ChecksOfStepsAreTheLanguages }
{}

/// The address that the front end makes of scalar indexes within their extents is the number that they name.
pub fn scalar_addresses_are_the_languages()
    ensures { ScalarAddressesAreTheLanguages }
{}

/// Its check of them fails where one is not within its extent.
pub fn scalar_checks_are_the_languages()
    ensures { ScalarChecksAreTheLanguages }
{}

/// The position that lowering knows of scalar indexes that are constants is the one that they name.
pub fn known_positions_are_the_languages()
    ensures { KnownPositionsAreTheLanguages }
{}

/// What is read of one position is the number of the variable there.
pub fn reads_of_positions_are_the_languages()
    ensures { ReadsOfPositionsAreTheLanguages }
{}

/// A field that has what a variable has before a write to one position has what it has behind the write.
pub fn writes_of_positions_store()
    ensures { WritesOfPositionsStore }
{}

/// The word of the index of an array is the number of the element that it names.
pub fn elements_are_numbered_by_words()
    ensures { ElementsAreNumberedByWords }
{}

/// An unsigned comparison of the word with the length tells whether there is such an element.
pub fn checks_of_elements_are_the_languages()
    ensures { ChecksOfElementsAreTheLanguages }
{}

/// The check that code makes where there is none fails.
pub fn missing_elements_are_refused()
    ensures { MissingElementsAreRefused }
{}
