//! The ask of two types.
ghost use Rattle.std.specs.Prelude.{◌≡◌, OnOk, IfOk, IfErr};
ghost use Rattle.hb_term.specs.Meaning.{tree};
ghost use Rattle.hb_calculus.specs.Budget.{budget};
ghost use Rattle.hb_calculus.specs.Conversion.{Below, Ordered};
ghost use Rattle.hb_calculus.specs.Sequence.{IsNormalForm, Exceeds};
ghost use Rattle.hb_convert.specs.Answers.{AreApart};
ghost use Rattle.hb_kernel.specs.Asks.{NotBelowAt};
ghost use Rattle.hb_kernel.specs.Faults.{FaultOf};

use crate::fault::{Ask, Fault};
use hb_base::Limits;
use hb_convert::{Verdict, below};
use hb_env::Env;
use hb_reduce::{ReduceRefused, nf};
use hb_term::Scoped;
use std::alloc::{AllocError, Global};

/// Asks that the first type is below the second.
pub(crate) fn ask_below(
    alloc: Global,
    env: &Env,
    limits: &Limits,
    a: &Scoped,
    b: &Scoped,
) -> Result<(), Fault>
    requires { b.now.depth ≡ a.now.depth }
    ensures below { OnOk result (Below env.now (tree a.now.term) (tree b.now.term)) }
    ensures fault { IfErr result (FaultOf (NotBelowAt env.now (budget limits.now) a.now b.now)) }
{
    match below(alloc, env, a, b, limits) {
        Ok(Verdict::Yes) => Ok(()),
        Ok(Verdict::No) => Err(apart(alloc, env, limits, a, b)),
        Err(refused) => match refused {
            ReduceRefused::Spent(kept) => Err(Fault::Kept(Ask::Spent, kept)),
            ReduceRefused::NoMemory => Err(Fault::NoMemory),
        },
    }
}

/// The refusal that keeps the normal forms of two types that are not in order.
fn apart(alloc: Global, env: &Env, limits: &Limits, a: &Scoped, b: &Scoped) -> Fault
    requires apart { AreApart Ordered env.now (budget limits.now) (tree a.now.term) (tree b.now.term) }
    requires depth { b.now.depth ≡ a.now.depth }
    ensures { FaultOf (NotBelowAt env.now (budget limits.now) a.now b.now) result }
{
    match normal(alloc, env, limits, a) {
        Err(_) => Fault::NoMemory,
        Ok(x) => match normal(alloc, env, limits, b) {
            Err(_) => Fault::NoMemory,
            Ok(y) => Fault::Apart(x, y),
        },
    }
}

/// The normal form of a type that doesn't exceed the limits on the way to it.
fn normal(alloc: Global, env: &Env, limits: &Limits, t: &Scoped) -> Result<Scoped, AllocError>
    requires { ¬ Exceeds env.now (budget limits.now) (tree t.now.term) }
    ensures form { IfOk result (λ u. IsNormalForm env.now (tree t.now.term) (tree u.term)) }
    ensures depth { IfOk result (λ u. u.depth ≡ t.now.depth) }
{
    match nf(alloc, env, t, limits) {
        Ok(form) => Ok(form),
        Err(ReduceRefused::NoMemory) => Err(AllocError),
        Err(ReduceRefused::Spent(_)) => unreachable!(),
    }
}
