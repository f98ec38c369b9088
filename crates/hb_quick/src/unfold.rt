//! Steps at the heads of two terms, in the order of declaration.
ghost use Rattle.std.specs.Prelude.{IfOk, IfSome};
ghost use Rattle.hb_calculus.specs.Conversion.{Convertible};
ghost use Rattle.hb_quick.specs.Looks.{AreReached};

use crate::allowance::Allowance;
use hb_env::Env;
use hb_reduce::head_step;
use hb_term::{Part, Term};
use std::alloc::{AllocError, Global};

/// When a head is to have its step: the greater comes first. Beta and projection come before all
/// constants, a later constant before an earlier one, and what has no step last.
fn rank(env: &Env, part: &Part) -> u64 {
    let mut now = part;
    let mut first = 0;
    loop {
        match now.as_ref() {
            Term::App(f, _) => now = f,
            Term::Proj(_, _, t) => now = t,
            _ => return head_rank(env, now, first),
        }
        first = u64::MAX;
    }
}

/// The rank of a head; `first` where it stands in an application or a projection, else 0.
fn head_rank(env: &Env, head: &Part, first: u64) -> u64 {
    match head.as_ref() {
        Term::Const(c) => {
            if c.maker {
                first
            } else if env.body_of(*c).is_some() {
                u64::from(c.decl) + 1
            } else {
                0
            }
        }
        Term::Lam(_, _) => first,
        _ => 0,
    }
}

/// The term after a step at its head, if it has one and the allowance suffices.
fn stepped(
    alloc: Global,
    env: &Env,
    part: &Part,
    left: &mut Allowance,
) -> Result<Option<Part>, AllocError>
    ensures { IfOk result (λ o. IfSome o (λ u. Convertible env.now part.now u)) }
{
    match head_step(alloc, env, part)? {
        Some(next) => {
            if left.take_step() && left.holds(&next) {
                Ok(Some(next))
            } else {
                Ok(None)
            }
        }
        None => Ok(None),
    }
}

/// The two terms after a step of the first.
fn step_first(
    alloc: Global,
    env: &Env,
    a: &Part,
    b: &Part,
    left: &mut Allowance,
) -> Result<Option<(Part, Part)>, AllocError>
    ensures { IfOk result (λ o. IfSome o (λ p. AreReached env.now a.now b.now p)) }
{
    match stepped(alloc, env, a, left)? {
        Some(x) => Ok(Some((x, b.share()?))),
        None => Ok(None),
    }
}

/// The two terms after a step of the second.
fn step_second(
    alloc: Global,
    env: &Env,
    a: &Part,
    b: &Part,
    left: &mut Allowance,
) -> Result<Option<(Part, Part)>, AllocError>
    ensures { IfOk result (λ o. IfSome o (λ p. AreReached env.now a.now b.now p)) }
{
    match stepped(alloc, env, b, left)? {
        Some(y) => Ok(Some((a.share()?, y))),
        None => Ok(None),
    }
}

/// The two terms after one step, of the one whose head comes first, or else of the other. `None` where no
/// step is left.
pub(crate) fn unfold(
    alloc: Global,
    env: &Env,
    a: &Part,
    b: &Part,
    left: &mut Allowance,
) -> Result<Option<(Part, Part)>, AllocError>
    ensures { IfOk result (λ o. IfSome o (λ p. AreReached env.now a.now b.now p)) }
{
    if rank(env, a) >= rank(env, b) {
        if let Some(pair) = step_first(alloc, env, a, b, left)? {
            return Ok(Some(pair));
        }
        step_second(alloc, env, a, b, left)
    } else {
        if let Some(pair) = step_second(alloc, env, a, b, left)? {
            return Ok(Some(pair));
        }
        step_first(alloc, env, a, b, left)
    }
}
