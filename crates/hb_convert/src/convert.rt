//! Comparison of terms.
ghost use Rattle.std.specs.Prelude.{◌≡◌, ◌↔◌, IfOk, IsTrue};
ghost use Rattle.hb_tree.specs.Tree.{Tree};
ghost use Rattle.hb_term.specs.Meaning.{tree};
ghost use Rattle.hb_calculus.specs.Budget.{budget};
ghost use Rattle.hb_calculus.specs.Conversion.{Convertible, IsSortBelow, Ordered};
ghost use Rattle.hb_convert.specs.Answers.{ConvertAnswer, BelowAnswer, IsYes};

use crate::verdict::Verdict;
use hb_base::Limits;
use hb_env::Env;
use hb_quick::looks_convertible;
use hb_reduce::{ReduceRefused, nf};
use hb_term::{Scoped, Sort, Term};
use std::alloc::{AllocError, Global};

/// With a budget of fewer steps normal forms are made at once: they cost no more than a look, and such a
/// budget is given to see what spends it.
const FEWEST_STEPS: u64 = 1_000;

/// Whether the terms are convertible (Rocq manual, "Conversion rules"). Yes only where they are; No only
/// where neither exceeds the limits on the way to its normal form and the normal forms differ. `Spent`
/// keeps the first term that exceeds them. The same term is Yes, whatever the limits.
pub fn convertible(
    alloc: Global,
    env: &Env,
    a: &Scoped,
    b: &Scoped,
    limits: &Limits,
) -> Result<Verdict, ReduceRefused>
    ensures answer { ConvertAnswer env.now (budget limits.now) a.now b.now result }
    ensures same { tree a.now.term ≡ tree b.now.term → IsYes result }
{
    if are_same(a, b) {
        return Ok(Verdict::Yes);
    }
    let found = are_alike(alloc, env, a, b, limits)?;
    if found {
        return Ok(Verdict::Yes);
    }
    let x = nf(alloc, env, a, limits)?;
    let y = nf(alloc, env, b, limits)?;
    if x.term().same(y.term()) {
        return Ok(Verdict::Yes);
    }
    Ok(Verdict::No)
}

/// Whether the first type is below the second by cumulativity (Rocq manual, "Subtyping rules"). Yes only
/// where it is; No only where neither exceeds the limits on the way to its normal form and the normal
/// forms are not in order. `Spent` keeps the first term that exceeds them. The same term is Yes,
/// whatever the limits.
pub fn below(
    alloc: Global,
    env: &Env,
    a: &Scoped,
    b: &Scoped,
    limits: &Limits,
) -> Result<Verdict, ReduceRefused>
    ensures answer { BelowAnswer env.now (budget limits.now) a.now b.now result }
    ensures same { tree a.now.term ≡ tree b.now.term → IsYes result }
{
    if are_same(a, b) {
        return Ok(Verdict::Yes);
    }
    let found = are_alike(alloc, env, a, b, limits)?;
    if found {
        return Ok(Verdict::Yes);
    }
    let x = nf(alloc, env, a, limits)?;
    let y = nf(alloc, env, b, limits)?;
    if ordered(x.term(), y.term()) {
        return Ok(Verdict::Yes);
    }
    Ok(Verdict::No)
}

/// Whether a cheap look finds the terms convertible, where the budget is large enough for one.
fn are_alike(
    alloc: Global,
    env: &Env,
    a: &Scoped,
    b: &Scoped,
    limits: &Limits,
) -> Result<bool, AllocError>
    ensures { IfOk result (λ y. IsTrue y → Convertible env.now (tree a.now.term) (tree b.now.term)) }
{
    if limits.steps < FEWEST_STEPS {
        return Ok(false);
    }
    looks_convertible(alloc, env, a, b, limits)
}

/// Whether both are the same term.
fn are_same(a: &Scoped, b: &Scoped) -> bool
    ensures { IsTrue result ↔ (tree a.now.term ≡ tree b.now.term) }
{
    a.term().same(b.term())
}

/// Whether two normal forms are in order: the same, sorts in their order, or products with the same domain
/// and codomains in order.
fn ordered(a: &Term, b: &Term) -> bool
    ensures { IsTrue result ↔ Ordered (tree a.now) (tree b.now) }
{
    match (a, b) {
        (Term::Sort(s), Term::Sort(t)) => sort_below(*s, *t),
        (Term::Pi(a, b), Term::Pi(c, d)) => a.same(c) && ordered(b.as_ref(), d.as_ref()),
        _ => a.same(b),
    }
}

/// Whether the first sort is at most the second.
fn sort_below(s: Sort, t: Sort) -> bool
    ensures { IsTrue result ↔ IsSortBelow s t }
{
    match (s, t) {
        (Sort::Prop, _) => true,
        (Sort::Level(_), Sort::Prop) => false,
        (Sort::Level(j), Sort::Level(k)) => j <= k,
    }
}
