//! Chains of types: to a weak head form, and from a type over normal forms to another.
use crate::fault::{Fault, scoped};
use crate::recipe::Setting;
use hb_reduce::{ReduceRefused, head_step, nf, whnf};
use hb_strict::Link;
use hb_term::{Part, Term};
use plain_reduction::{eta_step, step};
use std::alloc::AllocError;
use std::vec::Vec;

/// The types after the type, of a context of `size` variables, as far as its weak head form.
pub(crate) fn head_chain(
    setting: Setting<'_>,
    size: u32,
    ty: &Term,
) -> Result<Vec<(Link, Term)>, Fault> {
    match whnf(
        setting.alloc,
        setting.env,
        &scoped(ty.copy()?, size)?,
        setting.limits,
    ) {
        Ok(_form) => {}
        Err(ReduceRefused::Spent(_)) => return Err(Fault::Spent(size, ty.copy()?)),
        Err(ReduceRefused::NoMemory) => return Err(Fault::NoMemory),
    }
    Ok(head_steps(setting, ty)?)
}

/// The steps at the head.
fn head_steps(setting: Setting<'_>, ty: &Term) -> Result<Vec<(Link, Term)>, AllocError> {
    let mut chain = Vec::new(setting.alloc);
    let mut now = Part::new(setting.alloc, ty.copy()?)?;
    for _step in 0..setting.limits.steps {
        match head_step(setting.alloc, setting.env, &now)? {
            None => return Ok(chain),
            Some(next) => {
                chain.push((Link::Step, next.as_ref().copy()?))?;
                now = next;
            }
        }
    }
    Ok(chain)
}

/// The types after the first one, of a context of `size` variables, over both normal forms to the second.
pub(crate) fn whole_chain(
    setting: Setting<'_>,
    size: u32,
    from: &Term,
    to: &Term,
) -> Result<Vec<(Link, Term)>, Fault> {
    within(setting, size, from)?;
    within(setting, size, to)?;
    let mut chain = sequence(setting, from)?;
    let back = sequence(setting, to)?;
    let same = match (chain.last(), back.last()) {
        (Some(x), Some(y)) => x.1.same(&y.1),
        (Some(x), None) => x.1.same(to),
        (None, Some(y)) => from.same(&y.1),
        (None, None) => false,
    };
    if !same {
        let form = match back.last() {
            Some(y) => y.1.copy()?,
            None => to.copy()?,
        };
        chain.push((Link::Order, form)).map_err(AllocError::from)?;
    }
    go_back(&mut chain, &back, to)?;
    Ok(chain)
}

/// Refuses a type that passes the limits on the way to its normal form.
fn within(setting: Setting<'_>, size: u32, ty: &Term) -> Result<(), Fault> {
    match nf(
        setting.alloc,
        setting.env,
        &scoped(ty.copy()?, size)?,
        setting.limits,
    ) {
        Ok(_form) => Ok(()),
        Err(ReduceRefused::Spent(_)) => Err(Fault::Spent(size, ty.copy()?)),
        Err(ReduceRefused::NoMemory) => Err(Fault::NoMemory),
    }
}

/// The types after the type, as far as its normal form: steps, and then eta contractions.
fn sequence(setting: Setting<'_>, ty: &Term) -> Result<Vec<(Link, Term)>, AllocError> {
    let mut chain = Vec::new(setting.alloc);
    let mut stepping = true;
    let mut now = Part::new(setting.alloc, ty.copy()?)?;
    for _step in 0..setting.limits.steps {
        let mut next = None;
        if stepping {
            next = step(setting.alloc, setting.env, &now)?;
        }
        if next.is_none() {
            stepping = false;
            next = eta_step(setting.alloc, setting.env, &now)?;
        }
        let Some(next) = next else {
            return Ok(chain);
        };
        let link = if stepping { Link::Step } else { Link::Eta };
        chain.push((link, next.as_ref().copy()?))?;
        now = next;
    }
    Ok(chain)
}

/// Goes back along the sequence of the last type, which begins with `to`.
fn go_back(
    chain: &mut Vec<(Link, Term)>,
    back: &[(Link, Term)],
    to: &Term,
) -> Result<(), AllocError> {
    for at in (0..back.len()).rev() {
        let Some(link) = back.get(at) else {
            return Err(AllocError);
        };
        let before = match at.checked_sub(1) {
            None => to.copy()?,
            Some(before) => match back.get(before) {
                None => return Err(AllocError),
                Some(before) => before.1.copy()?,
            },
        };
        let reverse = match link.0 {
            Link::Eta => Link::EtaBack,
            _ => Link::StepBack,
        };
        chain.push((reverse, before))?;
    }
    Ok(())
}
