//! Asks for the form of a type.
ghost use Rattle.std.specs.Prelude.{◌≡◌, ◌+◌, ◌≤◌, IfOk, IfErr, MatchOption};
ghost use Rattle.hb_tree.specs.Tree.{sort, pi, loose};
ghost use Rattle.hb_term.specs.Meaning.{tree};
ghost use Rattle.hb_calculus.specs.Budget.{budget};
ghost use Rattle.hb_calculus.specs.Inference.{HeadIs, IsSort, IsProduct, not_sort, not_function};
ghost use Rattle.hb_kernel.specs.Asks.{HeadFault, NotOfFormAt};
ghost use Rattle.hb_kernel.specs.Faults.{FaultOf};

use crate::fault::{Ask, Fault};
use hb_base::Limits;
use hb_env::Env;
use hb_reduce::{ReduceRefused, whnf};
use hb_term::{Part, Scoped, Sort, Term};
use std::alloc::Global;

/// A product: its domain, and its codomain under one variable more.
#[derive(Drop)]
pub(crate) struct Product {
    pub(crate) domain: Scoped,
    pub(crate) codomain: Part,
}

/// The weak head form of a type.
pub(crate) fn head_of(
    alloc: Global,
    env: &Env,
    limits: &Limits,
    ty: &Scoped,
) -> Result<Scoped, Fault>
    ensures form { IfOk result (λ w. HeadIs env.now (budget limits.now) (tree ty.now.term) (tree w.term)) }
    ensures depth { IfOk result (λ w. w.depth ≡ ty.now.depth) }
    ensures fault { IfErr result (FaultOf (HeadFault env.now (budget limits.now) ty.now)) }
{
    match whnf(alloc, env, ty, limits) {
        Ok(form) => Ok(form),
        Err(ReduceRefused::Spent(kept)) => Err(Fault::Kept(Ask::Spent, kept)),
        Err(ReduceRefused::NoMemory) => Err(Fault::NoMemory),
    }
}

/// The sort that the type is.
pub(crate) fn sort_of(alloc: Global, env: &Env, limits: &Limits, ty: &Scoped) -> Result<Sort, Fault>
    ensures sort { IfOk result (λ s. HeadIs env.now (budget limits.now) (tree ty.now.term) (sort s)) }
    ensures fault { IfErr result (FaultOf (NotOfFormAt env.now (budget limits.now) IsSort not_sort ty.now)) }
{
    let form = match head_of(alloc, env, limits, ty) {
        Ok(form) => form,
        Err(fault) => return Err(fault),
    };
    match as_sort(form.term()) {
        Some(s) => Ok(s),
        None => Err(Fault::Kept(Ask::NotSort, form)),
    }
}

/// The product that the type is.
pub(crate) fn product_of(
    alloc: Global,
    env: &Env,
    limits: &Limits,
    ty: &Scoped,
) -> Result<Product, Fault>
    ensures product { IfOk result (λ p. HeadIs env.now (budget limits.now) (tree ty.now.term) (pi (tree p.domain.term) p.codomain)) }
    ensures depth { IfOk result (λ p. p.domain.depth ≡ ty.now.depth) }
    ensures in_scope { IfOk result (λ p. loose p.codomain ≤ ty.now.depth + 1) }
    ensures fault { IfErr result (FaultOf (NotOfFormAt env.now (budget limits.now) IsProduct not_function ty.now)) }
{
    let form = match head_of(alloc, env, limits, ty) {
        Ok(form) => form,
        Err(fault) => return Err(fault),
    };
    match as_product(form.term()) {
        Some((a, b)) => Ok(Product {
            domain: in_scope(a.as_ref().copy()?, ty.depth()),
            codomain: b.share()?,
        }),
        None => Err(Fault::Kept(Ask::NotFunction, form)),
    }
}

/// The sort that the term is.
fn as_sort(term: &Term) -> Option<Sort>
    ensures { MatchOption result (¬ IsSort (tree term.now)) (λ s. tree term.now ≡ sort s) }
{
    match term {
        Term::Sort(s) => Some(*s),
        _ => None,
    }
}

/// The domain and the codomain of the product that the term is.
fn as_product(term: &Term) -> Option<(&Part, &Part)>
    ensures { MatchOption result (¬ IsProduct (tree term.now)) (λ p. tree term.now ≡ pi p.0.now p.1.now) }
{
    match term {
        Term::Pi(a, b) => Some((a, b)),
        _ => None,
    }
}

/// The term in a scope that it fits.
pub(crate) fn in_scope(term: Term, depth: u32) -> Scoped
    requires { loose (tree term) ≤ depth }
    ensures term { result.term ≡ term }
    ensures depth { result.depth ≡ depth }
{
    match Scoped::new(term, depth) {
        Some(scoped) => scoped,
        None => unreachable!(),
    }
}
