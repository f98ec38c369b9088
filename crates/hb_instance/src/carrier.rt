//! What can be a carrier outside a section.
ghost use Rattle.std.specs.Prelude.{◌≡◌, IfOk, Some};
ghost use Rattle.hb_env.specs.Naming.{name_in};
ghost use Rattle.hb_env.specs.declared.named.Named.TheVariants.{Const};

use hb_base::{Limits, NameId};
use hb_env::{Env, Named, What};
use hb_reduce::{ReduceRefused, whnf};
use hb_term::{ConstId, Scoped, Sort, Term, View};
use std::alloc::Global;

/// The constant of the name, whose type is, by weak head forms, so many products over `Type`, and then a
/// sort of types: `Prop` or `Type`.
pub(crate) fn carrier_of(
    alloc: Global,
    env: &Env,
    name: NameId,
    count: usize,
    limits: &Limits,
) -> Result<ConstId, What>
    ensures { IfOk result (λ k. name_in env.now (Const k) ≡ Some name.0) }
{
    let Ok(count) = u32::try_from(count) else {
        return Err(What::NotCarrier(name));
    };
    let Some(Named::Const(c)) = env.lookup(name) else {
        return Err(What::NotCarrier(name));
    };
    match env.type_of(c) {
        Ok(Some(ty)) => {
            if is_carrier_type(alloc, env, ty, count, limits)? {
                Ok(c)
            } else {
                Err(What::NotCarrier(name))
            }
        }
        Ok(None) => Err(What::NotCarrier(name)),
        Err(_) => Err(What::NoMemory),
    }
}

/// Whether the closed type is that of such a carrier.
fn is_carrier_type(
    alloc: Global,
    env: &Env,
    ty: Term,
    count: u32,
    limits: &Limits,
) -> Result<bool, What> {
    let mut ty = ty;
    for at in 0..count {
        match codomain_over_types(alloc, env, ty, at, limits)? {
            Some(codomain) => ty = codomain,
            None => return Ok(false),
        }
    }
    let form = head(alloc, env, ty, count, limits)?;
    Ok(is_small_sort(form.term()))
}

/// The codomain of a product over `Type`.
fn codomain_over_types(
    alloc: Global,
    env: &Env,
    ty: Term,
    depth: u32,
    limits: &Limits,
) -> Result<Option<Term>, What> {
    let form = head(alloc, env, ty, depth, limits)?;
    let View::Pi(domain, codomain) = form.term().view() else {
        return Ok(None);
    };
    let (Ok(domain), Ok(codomain)) = (domain.copy(), codomain.copy()) else {
        return Err(What::NoMemory);
    };
    let domain = head(alloc, env, domain, depth, limits)?;
    match domain.term().view() {
        View::Sort(Sort::Level(0)) => Ok(Some(codomain)),
        _ => Ok(None),
    }
}

/// The weak head form of a type in a context of so many variables.
fn head(alloc: Global, env: &Env, ty: Term, depth: u32, limits: &Limits) -> Result<Scoped, What> {
    let Some(ty) = Scoped::new(ty, depth) else {
        return Err(What::NoMemory);
    };
    match whnf(alloc, env, &ty, limits) {
        Ok(form) => Ok(form),
        Err(ReduceRefused::Spent(t)) => Err(What::Spent(t)),
        Err(ReduceRefused::NoMemory) => Err(What::NoMemory),
    }
}

/// Whether the term is `Prop` or `Type` of the lowest level.
fn is_small_sort(t: &Term) -> bool {
    match t.view() {
        View::Sort(Sort::Prop) => true,
        View::Sort(Sort::Level(level)) => level == 0,
        _ => false,
    }
}
