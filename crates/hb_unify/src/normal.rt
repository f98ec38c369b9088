//! Sides without holes.
ghost use Rattle.std.specs.Prelude.{◌≡◌, ◌↔◌, ◌≤◌, false, IsTrue, IfOk};
ghost use Rattle.hb_calculus.specs.Budget.{budget};
ghost use Rattle.hb_calculus.specs.Conversion.{IsSortBelow, Ordered};
ghost use Rattle.hb_found.specs.Plain.{setting};
ghost use Rattle.hb_holes.specs.Holes.{Place};
ghost use Rattle.hb_term.specs.Meaning.{tree};
ghost use Rattle.hb_equations.specs.Machine.{Fit, is_open};
ghost use Rattle.hb_unify.specs.Plain.{ActsOf, HeadsOf, NormalIs, SpentAt};
ghost use Rattle.std.specs.Prelude.{List};

use crate::act::{Act, Cause, Sides, Taken};
use hb_base::Limits;
use hb_env::Env;
use hb_equations::Relation;
use hb_found::Reads;
use hb_reduce::{ReduceRefused, nf};
use hb_term::{Scoped, Sort, Term};
use std::alloc::{AllocError, Global};

/// Sides without holes: their normal forms are the same, or in order; or the equation is stuck, or a side exceeds
/// the limits.
pub fn closed_act(
    alloc: Global,
    reads: Reads<'_>,
    of: Sides<'_>,
    moves: u64,
) -> Result<Taken, AllocError>
    requires heads { HeadsOf (setting reads) of }
    requires closed { is_open (tree of.left.now) (tree of.right.now) ≡ false }
    ensures acts { IfOk result (λ t. (H : List Place) → ActsOf (setting reads.entry) H of.entry moves t) }
    ensures after { IfOk result (λ t. moves ≤ t.moves) }
{
    let Some(x) = normal_form(alloc, reads.env, reads.limits, of.left)? else {
        return spent(of.depth, of.left, moves);
    };
    let Some(y) = normal_form(alloc, reads.env, reads.limits, of.right)? else {
        return spent(of.depth, of.right, moves);
    };
    if fit(of.relation, &x, &y) {
        let act = Act::Becomes(Vec::new(alloc));
        return Ok(Taken { act, moves });
    }
    let act = Act::Stays;
    Ok(Taken { act, moves })
}

/// The normal form; none where the term exceeds the limits on the way to it.
fn normal_form(
    alloc: Global,
    env: &Env,
    limits: &Limits,
    t: &Term,
) -> Result<Option<Term>, AllocError>
    ensures { IfOk result (λ o. NormalIs env.now (budget limits.now) (tree t.now) o) }
{
    let Some(scoped) = Scoped::new(t.copy()?, u32::MAX) else {
        return Err(AllocError);
    };
    match nf(alloc, env, &scoped, limits) {
        Ok(form) => Ok(Some(form.into_term())),
        Err(ReduceRefused::Spent(_)) => Ok(None),
        Err(ReduceRefused::NoMemory) => Err(AllocError),
    }
}

/// The side exceeds the limits.
fn spent(depth: u32, t: &Term, moves: u64) -> Result<Taken, AllocError>
    ensures { IfOk result (λ r. SpentAt depth (tree t.now) moves r) }
{
    Ok(Taken {
        act: Act::Ends(Cause::Spent(depth, t.copy()?)),
        moves,
    })
}

/// Whether normal forms are the same, or in order.
fn fit(relation: Relation, x: &Term, y: &Term) -> bool
    ensures { IsTrue result ↔ Fit relation (tree x.now) (tree y.now) }
{
    match relation {
        Relation::Equal => x.same(y),
        Relation::Below => ordered(x, y),
    }
}

/// Whether two normal forms are in order: the same, sorts in their order, or products with the same domain
/// and codomains in order.
fn ordered(a: &Term, b: &Term) -> bool
    ensures { IsTrue result ↔ Ordered (tree a.now) (tree b.now) }
{
    match (a, b) {
        (Term::Sort(s), Term::Sort(t)) => sort_below(*s, *t),
        (Term::Pi(a, b), Term::Pi(c, d)) => a.same(c) && ordered(b.as_ref(), d.as_ref()),
        _ => a.same(b),
    }
}

/// Whether the first sort is at most the second.
fn sort_below(s: Sort, t: Sort) -> bool
    ensures { IsTrue result ↔ IsSortBelow s t }
{
    match (s, t) {
        (Sort::Prop, _) => true,
        (Sort::Level(_), Sort::Prop) => false,
        (Sort::Level(j), Sort::Level(k)) => j <= k,
    }
}
