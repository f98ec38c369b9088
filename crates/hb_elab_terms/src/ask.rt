//! What rules ask of types.

use crate::desk::Desk;
use crate::fault::ElabFault;
use crate::scene::Scene;
use crate::terms::scoped;
use hb_base::Limits;
use hb_env::{Decl, Env};
use hb_reduce::{ReduceRefused, whnf};
use hb_term::{ConstId, RecId, Term, View};
use std::alloc::{AllocError, Global};

/// The weak head form of a type as it is now.
pub fn head(alloc: Global, scene: Scene<'_>, desk: &Desk, ty: &Term) -> Result<Term, ElabFault> {
    let now = scoped(desk.seen(alloc, ty)?, desk.depth())?;
    match whnf(alloc, scene.env, &now, scene.limits) {
        Ok(form) => Ok(form.into_term()),
        Err(refused) => Err(of_reduction(refused)),
    }
}

/// The fault of a reduction.
pub(crate) fn of_reduction(refused: ReduceRefused) -> ElabFault {
    match refused {
        ReduceRefused::Spent(spent) => ElabFault::Spent(spent),
        ReduceRefused::NoMemory => ElabFault::NoMemory,
    }
}

/// The parts of a product.
pub fn product_parts(ty: &Term) -> Result<Option<(Term, Term)>, AllocError> {
    match ty.view() {
        View::Pi(a, b) => Ok(Some((a.copy()?, b.copy()?))),
        _ => Ok(None),
    }
}

/// A term that is too large, or else its type, which is.
pub fn size_fault(
    alloc: Global,
    limits: &Limits,
    desk: &Desk,
    t: &Term,
    ty: &Term,
) -> Result<Option<ElabFault>, AllocError> {
    let t = desk.seen(alloc, t)?;
    if is_large(limits, &t) {
        return Ok(Some(ElabFault::Spent(scoped(t, desk.depth())?)));
    }
    let ty = desk.seen(alloc, ty)?;
    if is_large(limits, &ty) {
        return Ok(Some(ElabFault::Spent(scoped(ty, desk.depth())?)));
    }
    Ok(None)
}

/// Whether the term passes the limits.
fn is_large(limits: &Limits, t: &Term) -> bool {
    t.nodes() > limits.nodes || t.depth() > limits.depth
}

/// The parameters of the record's type. None where the type isn't the record at all its parameters.
pub fn record_params(
    alloc: Global,
    env: &Env,
    rec: RecId,
    ty: &Term,
) -> Result<Option<Vec<Term>>, AllocError> {
    let Some(count) = param_count(env, rec) else {
        return Ok(None);
    };
    let mut params = Vec::new(alloc);
    let mut now = ty;
    while let View::App(function, argument) = now.view() {
        params.push(argument.copy()?)?;
        now = function;
    }
    if !is_former(now, rec) || params.len() != count {
        return Ok(None);
    }
    params.reverse();
    Ok(Some(params))
}

/// Whether the term is the former of the record.
fn is_former(t: &Term, rec: RecId) -> bool {
    match t.view() {
        View::Const(ConstId { decl, maker }) => decl == rec.0 && !maker,
        _ => false,
    }
}

/// How many parameters the record has.
fn param_count(env: &Env, rec: RecId) -> Option<usize> {
    match env.decl(rec.0) {
        Some(Decl::Record { params, .. }) => Some(params.len()),
        Some(Decl::Axiom { .. }) => None,
        Some(Decl::Def { .. }) => None,
        None => None,
    }
}
