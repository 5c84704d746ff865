//! A law of the grammar, as the contract of a function that does no work.

ghost use Rattle.pf_words.specs.Pairs.{PairsKeepTheirMeaning};

/// A law, and no work: words that ask for something by the older and narrower form, plain words and
/// then pairs of an option's name and its value, ask for the same by the grammar.
pub fn pairs_keep_their_meaning()
    ensures { PairsKeepTheirMeaning }
{}
