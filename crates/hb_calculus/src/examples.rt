//! Small terms worked by hand: what the definitions say of them.
ghost use Rattle.hb_calculus.specs.Examples.{LiftsUnderTwo, SubstitutesUnderTwo, MakerType, Projects, ProjectsNoLess, ProjectsNoMore};
ghost use Rattle.hb_calculus.specs.Examples.{FiveTerms, FiveTermsAreAll, EtaNested, EtaOfRecord, EtaMakesEta};

/// Lifting, substitution, and the type of a maker.
pub fn example_terms()
    ensures lifts { LiftsUnderTwo }
    ensures substitutes { SubstitutesUnderTwo }
    ensures maker { MakerType }
{}

/// Steps of projections, whole sequences, and both eta contractions.
pub fn example_sequences()
    ensures projects { Projects }
    ensures less { ProjectsNoLess }
    ensures more { ProjectsNoMore }
    ensures five { FiveTerms }
    ensures all { FiveTermsAreAll }
    ensures nested { EtaNested }
    ensures record_eta { EtaOfRecord }
    ensures eta_after_eta { EtaMakesEta }
{}
