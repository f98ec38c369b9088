//! Beta, delta and projection of a term itself.
ghost use Rattle.std.specs.Prelude.{◌≡◌, IfOk};
ghost use Rattle.hb_tree.specs.Tree.{const, proj};
ghost use Rattle.hb_calculus.specs.Contraction.{contract, beta_of, is_maker};

use crate::spine::{arguments, behind, head};
use hb_env::Env;
use hb_reduce::sizes;
use hb_term::{ConstId, Part, RecId, Term};
use std::alloc::{AllocError, Global};

/// What beta, delta or projection makes of the part itself; `None` where they give nothing.
pub(crate) fn contract(alloc: Global, env: &Env, part: &Part) -> Result<Option<Part>, AllocError>
    ensures { IfOk result (λ o. o ≡ contract env.now part.now) }
{
    match part.as_ref() {
        Term::App(f, a) => beta(alloc, f, a),
        Term::Const(c) => delta(alloc, env, *c),
        Term::Proj(r, i, t) => projection(alloc, env, *r, *i, t),
        _ => Ok(None),
    }
}

/// The body of a function with the argument put in.
fn beta(alloc: Global, f: &Part, a: &Part) -> Result<Option<Part>, AllocError>
    ensures { IfOk result (λ o. o ≡ beta_of f.now a.now) }
{
    match f.as_ref() {
        Term::Lam(_, body) => Ok(Some(body.subst(alloc, a, 0)?)),
        _ => Ok(None),
    }
}

/// The body of a definition.
fn delta(alloc: Global, env: &Env, c: ConstId) -> Result<Option<Part>, AllocError>
    ensures { IfOk result (λ o. o ≡ contract env.now (const c)) }
{
    match env.body_of(c) {
        Some(body) => Ok(Some(Part::new(alloc, body.copy()?)?)),
        None => Ok(None),
    }
}

/// The field of a maker with all its arguments.
fn projection(
    alloc: Global,
    env: &Env,
    rec: RecId,
    field: u16,
    of: &Part,
) -> Result<Option<Part>, AllocError>
    ensures { IfOk result (λ o. o ≡ contract env.now (proj rec field of.now)) }
{
    let Some((params, fields)) = sizes(env, rec) else {
        return Ok(None);
    };
    let given = arguments(alloc, of)?;
    if !is_maker(head(of), rec) || given.len() != params + fields {
        return Ok(None);
    }
    match behind(given.as_slice(), params).get(usize::from(field)) {
        Some(part) => Ok(Some(part.share()?)),
        None => Ok(None),
    }
}

/// Whether the part is the maker of the record.
fn is_maker(part: &Part, rec: RecId) -> bool
    ensures { result ≡ is_maker rec.0 part.now }
{
    match part.as_ref() {
        Term::Const(c) => c.maker && c.decl == rec.0,
        _ => false,
    }
}
