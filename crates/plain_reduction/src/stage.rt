//! One step of a whole term, from its root.
ghost use Rattle.std.specs.Prelude.{◌≡◌, IfOk, option_map};
ghost use Rattle.hb_calculus.specs.Contraction.{leftmost, head_step, next, next_eta};
ghost use Rattle.hb_calculus.specs.Sequence.{move};
ghost use Rattle.plain_reduction.specs.Plain.{rule_of, stage};

use crate::contract::contract;
use crate::eta::contract_eta;
use hb_env::Env;
use hb_term::{Part, Term};
use std::alloc::{AllocError, Global};

/// The two phases of a reduction: steps, and then eta contractions.
#[derive(Clone, Copy)]
pub(crate) enum Phase {
    Stepping,
    Contracting,
}

/// The next term of the reduction sequence, with its phase; `None` at the last.
pub(crate) fn next_stage(
    alloc: Global,
    env: &Env,
    phase: Phase,
    part: &Part,
) -> Result<Option<(Phase, Part)>, AllocError>
    ensures { IfOk result (λ o. option_map (λ p. stage p.0 p.1) o ≡ move env.now (stage phase part.now)) }
{
    if let Phase::Stepping = phase {
        if let Some(made) = leftmost(alloc, env, Phase::Stepping, part)? {
            return Ok(Some((Phase::Stepping, made)));
        }
    }
    match leftmost(alloc, env, Phase::Contracting, part)? {
        Some(made) => Ok(Some((Phase::Contracting, made))),
        None => Ok(None),
    }
}

/// What the phase's rules make of the part itself; `None` where they give nothing.
fn contract_in(
    alloc: Global,
    env: &Env,
    phase: Phase,
    part: &Part,
) -> Result<Option<Part>, AllocError>
    ensures { IfOk result (λ o. o ≡ rule_of phase env.now part.now) }
{
    match phase {
        Phase::Stepping => contract(alloc, env, part),
        Phase::Contracting => contract_eta(alloc, env, part),
    }
}

/// The part after the contraction at its leftmost outermost place; `None` where there is none.
fn leftmost(alloc: Global, env: &Env, phase: Phase, part: &Part) -> Result<Option<Part>, AllocError>
    ensures { IfOk result (λ o. o ≡ leftmost (rule_of phase env.now) part.now) }
{
    if let Some(made) = contract_in(alloc, env, phase, part)? {
        return Ok(Some(made));
    }
    match part.as_ref() {
        Term::Pi(a, b) => {
            if let Some(x) = leftmost(alloc, env, phase, a)? {
                return Ok(Some(Part::new(alloc, Term::Pi(x, b.share()?))?));
            }
            match leftmost(alloc, env, phase, b)? {
                Some(x) => Ok(Some(Part::new(alloc, Term::Pi(a.share()?, x))?)),
                None => Ok(None),
            }
        }
        Term::Lam(a, b) => {
            if let Some(x) = leftmost(alloc, env, phase, a)? {
                return Ok(Some(Part::new(alloc, Term::Lam(x, b.share()?))?));
            }
            match leftmost(alloc, env, phase, b)? {
                Some(x) => Ok(Some(Part::new(alloc, Term::Lam(a.share()?, x))?)),
                None => Ok(None),
            }
        }
        Term::App(f, a) => {
            if let Some(x) = leftmost(alloc, env, phase, f)? {
                return Ok(Some(Part::new(alloc, Term::App(x, a.share()?))?));
            }
            match leftmost(alloc, env, phase, a)? {
                Some(x) => Ok(Some(Part::new(alloc, Term::App(f.share()?, x))?)),
                None => Ok(None),
            }
        }
        Term::Proj(r, i, t) => match leftmost(alloc, env, phase, t)? {
            Some(x) => Ok(Some(Part::new(alloc, Term::Proj(*r, *i, x))?)),
            None => Ok(None),
        },
        Term::Sort(_) | Term::Rel(_) | Term::Const(_) | Term::Hole(_) => Ok(None),
    }
}

/// The part after the step at its head; `None` where there is none.
pub(crate) fn head_step(alloc: Global, env: &Env, part: &Part) -> Result<Option<Part>, AllocError>
    ensures { IfOk result (λ o. o ≡ head_step env.now part.now) }
{
    if let Some(made) = contract(alloc, env, part)? {
        return Ok(Some(made));
    }
    match part.as_ref() {
        Term::App(f, a) => match head_step(alloc, env, f)? {
            Some(x) => Ok(Some(Part::new(alloc, Term::App(x, a.share()?))?)),
            None => Ok(None),
        },
        Term::Proj(r, i, t) => match head_step(alloc, env, t)? {
            Some(x) => Ok(Some(Part::new(alloc, Term::Proj(*r, *i, x))?)),
            None => Ok(None),
        },
        _ => Ok(None),
    }
}

/// The term after the leftmost outermost step; `None` where there is none.
pub fn step(alloc: Global, env: &Env, part: &Part) -> Result<Option<Part>, AllocError>
    ensures { IfOk result (λ o. o ≡ next env.now part.now) }
{
    leftmost(alloc, env, Phase::Stepping, part)
}

/// The term after the leftmost outermost eta contraction; `None` where there is none.
pub fn eta_step(alloc: Global, env: &Env, part: &Part) -> Result<Option<Part>, AllocError>
    ensures { IfOk result (λ o. o ≡ next_eta env.now part.now) }
{
    leftmost(alloc, env, Phase::Contracting, part)
}
