//! The places of a text rise: those of its tokens, and those of the tree that its tokens spell. Readers
//! find the laws here by name.
#![tactic(auto)]

ghost use Rattle.tree_places.specs.Laws.{FaultsFollowPlaces, ItemsStandBeforeWhatFollows, PlacesStandInOneOrder, TextsRise, TreesOfRisingTokensAreInOrder, TreesOfTextsAreInOrder};

/// Places stand in one order: of any two, one is not behind the other, and two of which neither is
/// behind the other are the same.
pub fn places_stand_in_one_order()
    ensures { PlacesStandInOneOrder }
{}

/// The order of faults is that of their places first: a fault that comes before another is not behind
/// it, and one that stands at an earlier place comes before.
pub fn faults_follow_places()
    ensures { FaultsFollowPlaces }
{}

/// The places of the tokens of a text rise, and none is behind the place of the text's end.
pub fn tokens_of_a_text_rise()
    ensures { TextsRise }
{}

/// The tree that tokens spell whose places rise is in order: no place in an item stands before the
/// item's own, behind one in a later item, or behind the tree's end.
pub fn tree_of_rising_tokens_is_in_order()
    ensures { TreesOfRisingTokensAreInOrder }
{}

/// The tree that the tokens of a text spell is in order.
pub fn tree_of_a_text_is_in_order()
    ensures { TreesOfTextsAreInOrder }
{}

/// In a tree in order no place in an item or in those behind it stands before the item's own.
pub fn items_stand_before_what_follows()
    ensures { ItemsStandBeforeWhatFollows }
{}
