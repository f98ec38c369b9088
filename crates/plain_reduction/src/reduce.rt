//! Weak head forms and normal forms, step by step on whole terms.
ghost use Rattle.std.specs.Prelude.{◌≡◌, ◌≤◌, ◌↔◌, IfOk, IsTrue};
ghost use Rattle.hb_tree.specs.Tree.{loose};
ghost use Rattle.hb_term.specs.Meaning.{tree};
ghost use Rattle.hb_calculus.specs.Budget.{budget, TooLarge};
ghost use Rattle.hb_calculus.specs.Scope.{AreBodiesClosed};
ghost use Rattle.hb_reduce.specs.Answers.{HeadAnswer, NormalAnswer};

use crate::stage::{Phase, head_step, next_stage};
use hb_base::Limits;
use hb_env::Env;
use hb_reduce::ReduceRefused;
use hb_term::{Part, Scoped, Term};
use std::alloc::{AllocError, Global};

/// The weak head form, as `hb_reduce::whnf`.
pub fn whnf(alloc: Global, env: &Env, t: &Scoped, limits: &Limits) -> Result<Scoped, ReduceRefused>
    ensures { HeadAnswer env.now (budget limits.now) t.now result }
{
    definitions_are_closed(env);
    let mut now = Part::new(alloc, t.term().copy()?)?;
    let most = limits.steps;
    let mut taken: u64 = 0;
    loop {
        if too_large(limits, &now) {
            return Err(ReduceRefused::Spent(scoped(t.term(), t.depth())?));
        }
        match head_step(alloc, env, &now)? {
            None => return Ok(scoped(now.as_ref(), t.depth())?),
            Some(next) => {
                if taken == most {
                    return Err(ReduceRefused::Spent(scoped(t.term(), t.depth())?));
                }
                taken += 1;
                now = next;
            }
        }
    }
}

/// The normal form, as `hb_reduce::nf`.
pub fn nf(alloc: Global, env: &Env, t: &Scoped, limits: &Limits) -> Result<Scoped, ReduceRefused>
    ensures { NormalAnswer env.now (budget limits.now) t.now result }
{
    let mut phase = Phase::Stepping;
    definitions_are_closed(env);
    let mut now = Part::new(alloc, t.term().copy()?)?;
    let most = limits.steps;
    let mut taken: u64 = 0;
    loop {
        if too_large(limits, &now) {
            return Err(ReduceRefused::Spent(scoped(t.term(), t.depth())?));
        }
        match next_stage(alloc, env, phase, &now)? {
            None => return Ok(scoped(now.as_ref(), t.depth())?),
            Some((after, next)) => {
                if taken == most {
                    return Err(ReduceRefused::Spent(scoped(t.term(), t.depth())?));
                }
                taken += 1;
                phase = after;
                now = next;
            }
        }
    }
}

/// Whether the term has too many nodes or is too deep.
fn too_large(limits: &Limits, part: &Part) -> bool
    ensures { IsTrue result ↔ TooLarge (budget limits.now) part.now }
{
    part.nodes() > limits.nodes || part.depth() > limits.depth
}

/// The term once more, in a scope that it fits.
fn scoped(term: &Term, depth: u32) -> Result<Scoped, AllocError>
    requires { loose (tree term.now) ≤ depth }
    ensures { IfOk result (λ s. (s.term ≡ term.now) × (s.depth ≡ depth)) }
{
    Scoped::new(term.copy()?, depth).ok_or(AllocError)
}

/// Tells that definitions are closed, so that steps keep terms in their scope. It does nothing.
fn definitions_are_closed(env: &Env)
    ensures { AreBodiesClosed env.now }
{
    let _count = env.len();
}
