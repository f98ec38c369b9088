//! The ask for a record.
ghost use Rattle.std.specs.Prelude.{◌≡◌, ◌≢◌, ◌↔◌, ◌≤◌, Some, length, slice_get, IfOk, IfErr, IsTrue, MatchOption};
ghost use Rattle.hb_tree.specs.Tree.{Tree, app, apply};
ghost use Rattle.hb_term.specs.Meaning.{tree};
ghost use Rattle.hb_calculus.specs.Budget.{budget};
ghost use Rattle.hb_calculus.specs.Declarations.{Record, record_in};
ghost use Rattle.hb_calculus.specs.Telescopes.{former};
ghost use Rattle.hb_calculus.specs.Inference.{HeadIs, IsRecord, not_record};
ghost use Rattle.hb_env.specs.Plain.{trees};
ghost use Rattle.hb_record.specs.Records as place;
ghost use Rattle.hb_kernel.specs.Asks.{NotOfFormAt};
ghost use Rattle.hb_kernel.specs.Applied.{IsApplied, AreLoose};
ghost use Rattle.hb_kernel.specs.Faults.{FaultOf};

use crate::ask::head_of;
use crate::fault::{Ask, Fault};
use hb_base::Limits;
use hb_env::{Decl, Env};
use hb_term::{Part, RecId, Scoped, Term};
use std::alloc::{AllocError, Global};
use std::vec::Vec;

/// The parameters of the record that the type is.
pub(crate) fn record_of(
    alloc: Global,
    env: &Env,
    limits: &Limits,
    rec: RecId,
    ty: &Scoped,
) -> Result<Vec<Term>, Fault>
    requires { place.IsRecord env.now rec.0 }
    ensures form { IfOk result (λ qs. HeadIs env.now (budget limits.now) (tree ty.now.term) (apply (former rec.0) (trees qs.items))) }
    ensures count { IfOk
        result
        (λ qs. (R : Record) → record_in (slice_get env.now rec.0) ≡ Some R → length (trees qs.items) ≡ length R.params) }
    ensures in_scope { IfOk result (λ qs. AreLoose ty.now.depth (trees qs.items)) }
    ensures fault { IfErr result (FaultOf (NotOfFormAt env.now (budget limits.now) (IsRecord env.now rec.0) not_record ty.now)) }
{
    let form = match head_of(alloc, env, limits, ty) {
        Ok(form) => form,
        Err(fault) => return Err(fault),
    };
    let count = param_count(env, rec);
    let found = arguments(alloc, form.term(), rec, count)?;
    match found {
        Some(params) => Ok(params),
        None => Err(Fault::Kept(Ask::NotRecord, form)),
    }
}

/// How many parameters the record has.
fn param_count(env: &Env, rec: RecId) -> usize
    requires { place.IsRecord env.now rec.0 }
    ensures { (R : Record) → record_in (slice_get env.now rec.0) ≡ Some R → result ≡ length R.params }
{
    match env.decl(rec.0) {
        Some(Decl::Record { params, .. }) => params.len(),
        _ => unreachable!(),
    }
}

/// The arguments of the term, where it is the record's former with `count` of them.
fn arguments(
    alloc: Global,
    term: &Term,
    rec: RecId,
    count: usize,
) -> Result<Option<Vec<Term>>, AllocError>
    ensures { IfOk
        result
        (λ o. MatchOption o (¬ IsApplied rec.0 count (tree term.now)) (λ v. (tree term.now ≡ apply (former rec.0) (trees v.items)) × (length (trees v.items) ≡ count))) }
{
    match as_application(term) {
        None => {
            if count == 0 && is_former(term, rec) {
                Ok(Some(Vec::new(alloc)))
            } else {
                Ok(None)
            }
        }
        Some((f, a)) => {
            if count == 0 {
                return Ok(None);
            }
            match arguments(alloc, f.as_ref(), rec, count - 1)? {
                None => Ok(None),
                Some(before) => {
                    let mut params = before;
                    params.push(a.as_ref().copy()?)?;
                    Ok(Some(params))
                }
            }
        }
    }
}

/// The function and the argument of the application that the term is.
fn as_application(term: &Term) -> Option<(&Part, &Part)>
    ensures { MatchOption result ((f a : Tree) → tree term.now ≢ app f a) (λ p. tree term.now ≡ app p.0.now p.1.now) }
{
    match term {
        Term::App(f, a) => Some((f, a)),
        _ => None,
    }
}

/// Whether the term is the record's type former.
fn is_former(term: &Term, rec: RecId) -> bool
    ensures { IsTrue result ↔ (tree term.now ≡ former rec.0) }
{
    match term {
        Term::Const(c) => c.decl == rec.0 && !c.maker,
        _ => false,
    }
}
