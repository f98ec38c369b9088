//! Reduction of terms in their scopes.
ghost use Rattle.std.specs.Prelude.{◌≡◌, ◌≤◌, IfOk};
ghost use Rattle.hb_tree.specs.Tree.{loose};
ghost use Rattle.hb_term.specs.Meaning.{tree};
ghost use Rattle.hb_calculus.specs.Budget.{budget};
ghost use Rattle.hb_calculus.specs.Scope.{AreBodiesClosed};
ghost use Rattle.hb_reduce.specs.Answers.{HeadAnswer, NormalAnswer};

use crate::error::ReduceRefused;
use crate::head::head_form;
use crate::normal::normal_form;
use hb_base::Limits;
use hb_env::Env;
use hb_term::{Part, Scoped, Term};
use std::alloc::{AllocError, Global};

/// The weak head form: the first term of the reduction sequence with no step at its head (Rocq manual,
/// "Conversion rules"). `Spent`, with the term, exactly where the sequence up to it takes more steps than
/// the limits allow, or has a term that is too large for them.
pub fn whnf(alloc: Global, env: &Env, t: &Scoped, limits: &Limits) -> Result<Scoped, ReduceRefused>
    ensures { HeadAnswer env.now (budget limits.now) t.now result }
{
    definitions_are_closed(env);
    let part = Part::new(alloc, t.term().copy()?)?;
    match head_form(alloc, env, limits, part)? {
        Some(form) => Ok(scoped(form.as_ref(), t.depth())?),
        None => Err(ReduceRefused::Spent(scoped(t.term(), t.depth())?)),
    }
}

/// The normal form: the last term of the reduction sequence, which takes leftmost outermost steps and
/// then eta contractions. `Spent`, with the term, exactly where the sequence takes more steps than the
/// limits allow, or has a term that is too large for them.
pub fn nf(alloc: Global, env: &Env, t: &Scoped, limits: &Limits) -> Result<Scoped, ReduceRefused>
    ensures { NormalAnswer env.now (budget limits.now) t.now result }
{
    definitions_are_closed(env);
    let part = Part::new(alloc, t.term().copy()?)?;
    match normal_form(alloc, env, limits, part)? {
        Some(form) => Ok(scoped(form.as_ref(), t.depth())?),
        None => Err(ReduceRefused::Spent(scoped(t.term(), t.depth())?)),
    }
}

/// The term once more, in a scope that it fits.
fn scoped(term: &Term, depth: u32) -> Result<Scoped, AllocError>
    requires { loose (tree term.now) ≤ depth }
    ensures { IfOk result (λ s. (s.term ≡ term.now) × (s.depth ≡ depth)) }
{
    Scoped::new(term.copy()?, depth).ok_or(AllocError)
}

/// Tells that definitions are closed, so that steps keep terms in their scope. It does nothing.
fn definitions_are_closed(env: &Env)
    ensures { AreBodiesClosed env.now }
{
    let _count = env.len();
}
