//! One step at the head.
ghost use Rattle.std.specs.Prelude.{◌≡◌, IfOk};
ghost use Rattle.hb_calculus.specs.Contraction.{contract, head_step};

use crate::contract::contract;
use crate::rule::Rule;
use hb_env::Env;
use hb_term::{Part, Term};
use std::alloc::{AllocError, Global};

/// The part after the step at its head; `None` where there is none. The head is reached through functions
/// of applications and projected terms, and the parts beside it are shared.
pub fn head_step(alloc: Global, env: &Env, part: &Part) -> Result<Option<Part>, AllocError>
    ensures { IfOk result (λ o. o ≡ head_step env.now part.now) }
{
    if let Some(made) = contract(alloc, env, Rule::Step, part)? {
        return Ok(Some(made));
    }
    match part.as_ref() {
        Term::App(f, a) => match head_step(alloc, env, f)? {
            Some(function) => Ok(Some(Part::new(alloc, Term::App(function, a.share()?))?)),
            None => Ok(None),
        },
        Term::Proj(r, i, t) => match head_step(alloc, env, t)? {
            Some(of) => Ok(Some(Part::new(alloc, Term::Proj(*r, *i, of))?)),
            None => Ok(None),
        },
        _ => Ok(None),
    }
}
