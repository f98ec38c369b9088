//! Laws of steps and of reduction sequences.
ghost use Rattle.hb_calculus.specs.Laws.{ContractIsRule, EtaIsRule, SameTreeTells, NextIsStep, NoNextIsNormal, HeadStepIsNext};
ghost use Rattle.hb_calculus.specs.Laws.{SequenceConverts, HeadSequenceSteps, HeadSequenceIsPrefix};
ghost use Rattle.hb_calculus.specs.Laws.{HeadFormIsFirst, NormalFormIsOne, HeadFormIsOne, OrderedIsBelow};

/// The functions that contract give what the rules give, and find a step where there is one.
pub fn rule_laws()
    ensures contract { ContractIsRule }
    ensures eta { EtaIsRule }
    ensures same { SameTreeTells }
    ensures next { NextIsStep }
    ensures normal { NoNextIsNormal }
    ensures head { HeadStepIsNext }
{}

/// The terms of a sequence are convertible; those on the way to the weak head form come first.
pub fn sequence_laws()
    ensures converts { SequenceConverts }
    ensures steps { HeadSequenceSteps }
    ensures prefix { HeadSequenceIsPrefix }
{}

/// Normal forms and weak head forms are single, and ordered as cumulativity orders them.
pub fn form_laws()
    ensures first { HeadFormIsFirst }
    ensures normal { NormalFormIsOne }
    ensures head { HeadFormIsOne }
    ensures ordered { OrderedIsBelow }
{}
