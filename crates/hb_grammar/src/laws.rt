//! Laws of the definitions alone.
ghost use Rattle.hb_grammar.specs.Places.{OneReading, EachHasAnswer};

/// A list of tokens has at most one list of sentences, with one nesting for each token.
pub fn one_reading()
    ensures { OneReading }
{}

/// A list of tokens reads as sentences within the limits, or has a first token without a way on,
/// or a first one that passes a limit.
pub fn each_has_answer()
    ensures { EachHasAnswer }
{}
