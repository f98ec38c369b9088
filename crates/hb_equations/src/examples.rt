//! Small equations worked by hand.
ghost use Rattle.hb_equations.specs.Examples.{HoleGets, HoleStandsInside, DeeperGets, VariableFalls, VariableIsOut, GivenLifts, JoinShares, HeirIsStuck, LaterUnfolds, StaysStuck};

/// Values of holes, joins, and forms.
pub fn equations_are_as_worked()
    ensures gets { HoleGets }
    ensures inside { HoleStandsInside }
    ensures deeper { DeeperGets }
    ensures falls { VariableFalls }
    ensures out { VariableIsOut }
    ensures lifts { GivenLifts }
    ensures shares { JoinShares }
    ensures heir { HeirIsStuck }
    ensures later { LaterUnfolds }
    ensures stuck { StaysStuck }
{}
