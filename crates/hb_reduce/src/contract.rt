//! Contractions of a term itself.
ghost use Rattle.std.specs.Prelude.{◌≡◌, IfOk};
ghost use Rattle.hb_tree.specs.Tree.{const, proj};
ghost use Rattle.hb_calculus.specs.Contraction.{contract, beta_of};
ghost use Rattle.hb_reduce.specs.Rules.{rule_of};

use crate::eta::contract_eta;
use crate::rule::Rule;
use crate::spine::{argument, is_built, sizes};
use hb_env::Env;
use hb_term::{ConstId, Part, RecId, Term};
use std::alloc::{AllocError, Global};

/// What the rule makes of the part itself; `None` where it gives nothing.
pub(crate) fn contract(
    alloc: Global,
    env: &Env,
    rule: Rule,
    part: &Part,
) -> Result<Option<Part>, AllocError>
    ensures { IfOk result (λ o. o ≡ rule_of rule env.now part.now) }
{
    match rule {
        Rule::Step => contract_step(alloc, env, part),
        Rule::Eta => contract_eta(alloc, env, part),
    }
}

/// The same of beta, delta and projection.
fn contract_step(alloc: Global, env: &Env, part: &Part) -> Result<Option<Part>, AllocError>
    ensures { IfOk result (λ o. o ≡ contract env.now part.now) }
{
    match part.as_ref() {
        Term::App(f, a) => beta(alloc, f, a),
        Term::Const(c) => delta(alloc, env, *c),
        Term::Proj(r, i, t) => projection(env, *r, *i, t),
        _ => Ok(None),
    }
}

/// The body of a function with the argument put in; `None` where the term is no function.
pub fn beta(alloc: Global, f: &Part, a: &Part) -> Result<Option<Part>, AllocError>
    ensures { IfOk result (λ o. o ≡ beta_of f.now a.now) }
{
    match f.as_ref() {
        Term::Lam(_, body) => Ok(Some(body.subst(alloc, a, 0)?)),
        _ => Ok(None),
    }
}

/// The body of a definition.
fn delta(alloc: Global, env: &Env, c: ConstId) -> Result<Option<Part>, AllocError>
    ensures { IfOk result (λ o. o ≡ contract env.now (const c)) }
{
    match env.body_of(c) {
        Some(body) => Ok(Some(Part::new(alloc, body.copy()?)?)),
        None => Ok(None),
    }
}

/// The field of a maker with all its arguments; `None` where the term is none.
pub fn projection(env: &Env, rec: RecId, field: u16, of: &Part) -> Result<Option<Part>, AllocError>
    ensures { IfOk result (λ o. o ≡ contract env.now (proj rec field of.now)) }
{
    let Some((params, fields)) = sizes(env, rec) else {
        return Ok(None);
    };
    let field = usize::from(field);
    if field >= fields {
        return Ok(None);
    }
    if !is_built(of, rec, params + fields) {
        return Ok(None);
    }
    match argument(of, fields - 1 - field) {
        Some(part) => Ok(Some(part.share()?)),
        None => Ok(None),
    }
}
