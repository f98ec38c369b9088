//! Eta of functions and of records, of a term itself.
ghost use Rattle.std.specs.Prelude.{◌≡◌, ◌+◌, ◌<◌, ◌^◌, IfOk, length, option_map};
ghost use Rattle.hb_tree.specs.Tree.{Tree, app, proj};
ghost use Rattle.hb_calculus.specs.Contraction.{eta_of, eta_of_body, same_tree, same_trees, projected_of};
ghost use Rattle.hb_calculus.specs.Telescopes.{projections};

use crate::spine::{arguments, behind, head};
use hb_env::Env;
use hb_reduce::sizes;
use hb_term::{Part, RecId, Sort, Term};
use std::alloc::{AllocError, Global};

/// What the eta rules make of the part itself; `None` where they give nothing.
pub(crate) fn contract_eta(
    alloc: Global,
    env: &Env,
    part: &Part,
) -> Result<Option<Part>, AllocError>
    ensures { IfOk result (λ o. o ≡ eta_of env.now part.now) }
{
    match part.as_ref() {
        Term::Lam(_, body) => function_eta(alloc, body),
        Term::App(_, _) => record_eta(alloc, env, part),
        _ => Ok(None),
    }
}

/// The function that a body applies to its variable, where that stands nowhere else.
fn function_eta(alloc: Global, body: &Part) -> Result<Option<Part>, AllocError>
    ensures { IfOk result (λ o. o ≡ eta_of_body body.now) }
{
    let Term::App(f, a) = body.as_ref() else {
        return Ok(None);
    };
    let Term::Rel(0) = a.as_ref() else {
        return Ok(None);
    };
    if f.occurs(0) {
        return Ok(None);
    }
    let prop = Part::new(alloc, Term::Sort(Sort::Prop))?;
    Ok(Some(f.subst(alloc, &prop, 0)?))
}

/// The value whose projections are all the fields of a maker.
fn record_eta(alloc: Global, env: &Env, part: &Part) -> Result<Option<Part>, AllocError>
    requires { (f : Tree) × (a : Tree) × (part.now ≡ app f a) }
    ensures { IfOk result (λ o. o ≡ eta_of env.now part.now) }
{
    let Term::Const(c) = head(part).as_ref() else {
        return Ok(None);
    };
    if !c.maker {
        return Ok(None);
    }
    let rec = RecId(c.decl);
    let Some((params, fields)) = sizes(env, rec) else {
        return Ok(None);
    };
    let given = arguments(alloc, part)?;
    if given.len() != params + fields {
        return Ok(None);
    }
    let made = behind(given.as_slice(), params);
    match projected(made) {
        Some(of) => {
            if are_projections(made, 0, rec, of) {
                Ok(Some(of.share()?))
            } else {
                Ok(None)
            }
        }
        None => Ok(None),
    }
}

/// What the first of the parts projects.
fn projected(parts: &[Part]) -> Option<&Part>
    ensures { option_map (λ p. p.now) result ≡ projected_of parts.now }
{
    match parts.first()?.as_ref() {
        Term::Proj(_, _, t) => Some(t),
        _ => None,
    }
}

/// Whether the parts are the projections of `of` to the fields from `field` on.
fn are_projections(parts: &[Part], field: usize, rec: RecId, of: &Part) -> bool
    requires { field + length parts.now < 2 ^ 64 }
    ensures { result ≡ same_trees parts.now (projections rec field (length parts.now) of.now) }
{
    match parts.split_first() {
        None => true,
        Some((first, rest)) => {
            is_projection(first, rec, field, of) && are_projections(rest, field + 1, rec, of)
        }
    }
}

/// Whether the part is the projection of `of` to the field.
fn is_projection(part: &Part, rec: RecId, field: usize, of: &Part) -> bool
    ensures { result ≡ same_tree part.now (proj rec field of.now) }
{
    let Term::Proj(r, i, t) = part.as_ref() else {
        return false;
    };
    if *r != rec || usize::from(*i) != field {
        return false;
    }
    t.same(of)
}
