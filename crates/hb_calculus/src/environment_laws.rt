//! Laws of environments.
ghost use Rattle.hb_calculus.specs.EnvironmentLaws.{StepInLonger, ConvertibleInLonger, BelowInLonger, TypedInLonger, InferredInLonger};
ghost use Rattle.hb_calculus.specs.EnvironmentLaws.{EmptyIsWellFormed, PrefixIsWellFormed, PushIsWellFormed};
ghost use Rattle.hb_calculus.specs.EnvironmentLaws.{WellFormedIsSettled, WellFormedIsDeclared, WellFormedIsClosed};

/// A derivation in an environment is one in every longer environment.
pub fn longer_environment_laws()
    ensures step { StepInLonger }
    ensures convertible { ConvertibleInLonger }
    ensures below { BelowInLonger }
    ensures typed { TypedInLonger }
    ensures inferred { InferredInLonger }
{}

/// How well formed environments grow and shrink, and what they declare.
pub fn well_formed_laws()
    ensures empty { EmptyIsWellFormed }
    ensures prefix { PrefixIsWellFormed }
    ensures push { PushIsWellFormed }
    ensures settled { WellFormedIsSettled }
    ensures declared { WellFormedIsDeclared }
    ensures closed { WellFormedIsClosed }
{}
