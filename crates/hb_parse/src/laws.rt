//! Laws of the definitions alone.
ghost use Rattle.hb_parse.specs.Signs.{NumberingExists};

/// The names of a session have a numbering that agrees with them.
pub fn numbering_exists()
    ensures { NumberingExists }
{}
