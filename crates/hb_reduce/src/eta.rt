//! Eta contractions of a term itself.
ghost use Rattle.std.specs.Prelude.{◌≡◌, IfOk};
ghost use Rattle.hb_tree.specs.Tree.{Tree, app};
ghost use Rattle.hb_calculus.specs.Contraction.{eta_of, eta_of_body};

use crate::spine::{ends_with, is_built, sizes};
use hb_env::Env;
use hb_term::{Part, Sort, Term};
use std::alloc::{AllocError, Global};

/// What the eta rules make of the part itself; `None` where they give nothing.
pub(crate) fn contract_eta(
    alloc: Global,
    env: &Env,
    part: &Part,
) -> Result<Option<Part>, AllocError>
    ensures { IfOk result (λ o. o ≡ eta_of env.now part.now) }
{
    match part.as_ref() {
        Term::Lam(_, body) => function_eta(alloc, body),
        Term::App(_, last) => record_eta(env, part, last),
        _ => Ok(None),
    }
}

/// The function that a body applies to its variable, where that stands nowhere else.
fn function_eta(alloc: Global, body: &Part) -> Result<Option<Part>, AllocError>
    ensures { IfOk result (λ o. o ≡ eta_of_body body.now) }
{
    let Term::App(f, a) = body.as_ref() else {
        return Ok(None);
    };
    let Term::Rel(0) = a.as_ref() else {
        return Ok(None);
    };
    if f.occurs(0) {
        return Ok(None);
    }
    let prop = Part::new(alloc, Term::Sort(Sort::Prop))?;
    Ok(Some(f.subst(alloc, &prop, 0)?))
}

/// The value whose projections a maker is applied to; `last` is the last argument.
fn record_eta(env: &Env, part: &Part, last: &Part) -> Result<Option<Part>, AllocError>
    requires { (f : Tree) × (part.now ≡ app f last.now) }
    ensures { IfOk result (λ o. o ≡ eta_of env.now part.now) }
{
    let Term::Proj(rec, _, of) = last.as_ref() else {
        return Ok(None);
    };
    let Some((params, fields)) = sizes(env, *rec) else {
        return Ok(None);
    };
    if fields == 0 {
        return Ok(None);
    }
    if !is_built(part, *rec, params + fields) {
        return Ok(None);
    }
    if !ends_with(part, *rec, fields, of) {
        return Ok(None);
    }
    Ok(Some(of.share()?))
}
