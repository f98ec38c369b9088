//! Laws of conversion where variables are lifted or substituted.
ghost use Rattle.hb_calculus.specs.MovedLaws.{ConvertibleLifts, BelowLifts, ConvertibleSubstitutes, BelowSubstitutes};

/// Conversion and cumulativity are kept by lifting and by substitution, where definitions are closed.
pub fn conversion_moves()
    ensures lifts { ConvertibleLifts }
    ensures below_lifts { BelowLifts }
    ensures substitutes { ConvertibleSubstitutes }
    ensures below_substitutes { BelowSubstitutes }
{}
