//! Unfolding, and sides that are functions.
ghost use Rattle.std.specs.Prelude.{◌≡◌, ◌∷◌, [], Some, IfOk};
ghost use Rattle.std.specs.Option.{option_map};
ghost use Rattle.hb_term.specs.Meaning.{tree};
ghost use Rattle.hb_equations.specs.Forms as forms;
ghost use Rattle.hb_unify.specs.Plain.{unfolded_of, goals};

use crate::act::{Goal, Unfolded};
use hb_env::Env;
use hb_equations::Relation;
use hb_term::{Term, View};
use std::alloc::{AllocError, Global};

/// The term whose head, through functions and projected terms, is unfolded.
pub fn unfolded(alloc: Global, env: &Env, t: &Term) -> Result<Option<Unfolded>, AllocError>
    ensures { IfOk result (λ o. option_map unfolded_of o ≡ forms.unfolded env.now (tree t.now)) }
{
    match t.view() {
        View::Const(c) => match env.body_of(c) {
            None => Ok(None),
            Some(body) => Ok(Some(Unfolded {
                declared: c.decl,
                term: body.copy()?,
            })),
        },
        View::App(f, a) => match unfolded(alloc, env, f)? {
            None => Ok(None),
            Some(u) => Ok(Some(Unfolded {
                declared: u.declared,
                term: Term::app(alloc, u.term, a.copy()?)?,
            })),
        },
        View::Proj(r, i, t) => match unfolded(alloc, env, t)? {
            None => Ok(None),
            Some(u) => Ok(Some(Unfolded {
                declared: u.declared,
                term: Term::proj(alloc, r, i, u.term)?,
            })),
        },
        _ => Ok(None),
    }
}

/// One equation.
fn only(
    alloc: Global,
    depth: u32,
    relation: Relation,
    left: Term,
    right: Term,
) -> Result<Option<Vec<Goal>>, AllocError>
    ensures { IfOk result (λ o. option_map (λ qs. goals qs.items) o ≡ Some (forms.goal depth relation (tree left) (tree right) ∷ [])) }
{
    let mut out = Vec::new(alloc);
    out.push(Goal {
        depth,
        relation,
        left,
        right,
    })?;
    Ok(Some(out))
}

/// The side whose constant was declared later unfolds, or both.
pub fn unfolds(
    alloc: Global,
    depth: u32,
    relation: Relation,
    a: &Term,
    b: &Term,
    left: Option<Unfolded>,
    right: Option<Unfolded>,
) -> Result<Option<Vec<Goal>>, AllocError>
    ensures { IfOk result (λ o. option_map (λ qs. goals qs.items) o ≡ forms.unfolds depth relation (tree a.now) (tree b.now) (option_map unfolded_of left) (option_map unfolded_of right)) }
{
    let Some(left) = left else {
        let Some(right) = right else {
            return Ok(None);
        };
        return only(alloc, depth, relation, a.copy()?, right.term);
    };
    let Some(right) = right else {
        return only(alloc, depth, relation, left.term, b.copy()?);
    };
    if left.declared == right.declared {
        return only(alloc, depth, relation, left.term, right.term);
    }
    if right.declared < left.declared {
        return only(alloc, depth, relation, left.term, b.copy()?);
    }
    only(alloc, depth, relation, a.copy()?, right.term)
}

/// A side is a function: the other is applied to the new variable.
pub fn opened(
    alloc: Global,
    depth: u32,
    a: &Term,
    b: &Term,
) -> Result<Option<Vec<Goal>>, AllocError>
    ensures { IfOk result (λ o. option_map (λ qs. goals qs.items) o ≡ forms.opened depth (tree a.now) (tree b.now)) }
{
    let under = depth.checked_add(1).ok_or(AllocError)?;
    if let View::Lam(_, body) = a.view() {
        let other = Term::app(alloc, b.try_lift(alloc, 1, 0)?, Term::Rel(0))?;
        return only(alloc, under, Relation::Equal, body.copy()?, other);
    }
    if let View::Lam(_, body) = b.view() {
        let other = Term::app(alloc, a.try_lift(alloc, 1, 0)?, Term::Rel(0))?;
        return only(alloc, under, Relation::Equal, other, body.copy()?);
    }
    Ok(None)
}
