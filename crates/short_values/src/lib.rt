//! A field of few bits has the lowest bits of a word. Readers find here by name what that is, which
//! operators keep it, when a narrow type has the whole word, and that folds of such fields are folds of the
//! words.
#![tactic(auto)]

ghost use Rattle.short_values.specs.Short.{FewerBitsAgree, ModularOperatorsAgree, LeftShiftsAgree, NegativesAgree, ComplementsAgree, NarrowComparisonsAreWide, NarrowNumbersAreWords, ZeroTestsAgree, NegationsAgree, ExtendedNumbersAgree, ShortFoldsAgree, WiderTypesHaveWords};

/// The lowest bits of a field that agrees with a word agree with it.
pub fn fewer_bits_agree()
    ensures { FewerBitsAgree }
{}

/// A relation of two numbers of a narrow type is the relation of the words that they are converted to.
pub fn narrow_comparisons_are_wide()
    ensures { NarrowComparisonsAreWide }
{}

/// A field that agrees with a word which its type has is the word, read as the type is.
pub fn narrow_numbers_are_words()
    ensures { NarrowNumbersAreWords }
{}

/// It is 0 where the word is.
pub fn zero_tests_agree()
    ensures { ZeroTestsAgree }
{}

/// The complement of one bit that agrees with a truth value agrees with what `!` gives of it.
pub fn negations_agree()
    ensures { NegationsAgree }
{}

/// Extended as the type is read, it agrees with the word at any number of bits.
pub fn extended_numbers_agree()
    ensures { ExtendedNumbersAgree }
{}

/// A type that has all numbers of another one has every word that the other one has.
pub fn wider_types_have_words()
    ensures { WiderTypesHaveWords }
{}

/// Fields of which the lowest bits agree give a modular operator's lowest bits.
pub fn modular_operators_agree()
    ensures { ModularOperatorsAgree }
{}

/// They give those of a shift to the left by fewer places than the field has bits.
pub fn left_shifts_agree()
    ensures { LeftShiftsAgree }
{}

/// They give those of the negative.
pub fn negatives_agree()
    ensures { NegativesAgree }
{}

/// They give those of the complement.
pub fn complements_agree()
    ensures { ComplementsAgree }
{}

/// A fold of values of a narrow type at their own length is the fold of their words.
pub fn short_folds_agree()
    ensures { ShortFoldsAgree }
{}
