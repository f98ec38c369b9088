//! Laws of the definitions alone.
ghost use Rattle.hb_lex.specs.Places.{OneReading};

/// A text has at most one list of tokens.
pub fn one_reading()
    ensures { OneReading }
{}
