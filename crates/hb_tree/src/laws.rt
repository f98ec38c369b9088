//! The laws of lifting and substitution.
ghost use Rattle.hb_tree.specs.Laws.{LiftByZero, LiftsAdd, LiftsCommute, LiftOfSubst, SubstOfLift, SubstsCommute, ClosedTermsStay};

/// Lifting and substitution with de Bruijn numbers are what the calculus takes them for. It does
/// nothing: its contract is the laws.
pub fn lift_laws()
    ensures lift_by_zero { LiftByZero }
    ensures lifts_add { LiftsAdd }
    ensures lifts_commute { LiftsCommute }
    ensures lift_of_subst { LiftOfSubst }
    ensures subst_of_lift { SubstOfLift }
    ensures substs_commute { SubstsCommute }
    ensures closed_stay { ClosedTermsStay }
{}
