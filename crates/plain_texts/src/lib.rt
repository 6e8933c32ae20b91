//! What a text of fewer than 2^32 bytes can name and count: the numbers in its tree have 32 bits, and so
//! has the count of its names. Readers find the laws here by name.
#![tactic(auto)]

ghost use Rattle.plain_texts.specs.Laws.{TextsHaveWords, TreesOfWordsArePlain, TreesOfWordsHaveFewNames};

/// The numbers of the tokens of a text have 32 bits.
pub fn texts_have_words()
    ensures { TextsHaveWords }
{}

/// The tree that such tokens spell is plain.
pub fn trees_of_words_are_plain()
    ensures { TreesOfWordsArePlain }
{}

/// Its file has fewer than 2^32 names.
pub fn trees_of_words_have_few_names()
    ensures { TreesOfWordsHaveFewNames }
{}
