//! The types of projections.
ghost use Rattle.std.specs.Prelude.{◌≡◌, ◌+◌, ◌<◌, ◌++◌, ℕ, List, length, Some, IfOk, slice_get};
ghost use Rattle.hb_tree.specs.Tree.{Tree};
ghost use Rattle.hb_term.specs.Meaning.{tree};
ghost use Rattle.hb_calculus.specs.Declarations.{Record, record_in};
ghost use Rattle.hb_calculus.specs.Telescopes as telescopes;
ghost use Rattle.hb_calculus.specs.Telescopes.{filled, projections};
ghost use Rattle.hb_env.specs.Plain.{trees};
ghost use Rattle.hb_record.specs.Records.{IsField};

use hb_env::{Decl, Env};
use hb_term::{Part, RecId, Term};
use std::alloc::{AllocError, Global};

/// The type of the field of the number `field` of `value`, a value of the record `rec` at the
/// parameters, of which there are as many as the record has: the field's type, with the parameters and the projections of `value` to the earlier
/// fields put in (Rocq manual, "Primitive projections").
pub fn projection_type(
    alloc: Global,
    env: &Env,
    rec: RecId,
    field: u16,
    params: &[Term],
    value: &Term,
) -> Result<Term, AllocError>
    requires { IsField env.now rec.0 field }
    ensures { IfOk
        result
        (λ t.
        (R : Record) (T : Tree) → record_in (slice_get env.now rec.0) ≡ Some R → slice_get R.fields field ≡ Some T
        → tree t ≡ telescopes.projection_type rec T (trees params.now) field (tree value.now)) }
{
    let ty = field_type(env, rec, field);
    let part = Part::new(alloc, ty.copy()?)?;
    let part = with_params(alloc, part, params, field)?;
    let part = with_projections(alloc, part, rec, field, value)?;
    Ok(part.as_ref().copy()?)
}

/// The declared type of the field, under the record's parameters and earlier fields.
fn field_type(env: &Env, rec: RecId, field: u16) -> &Term
    requires { IsField env.now rec.0 field }
    ensures { (R : Record) (T : Tree) → record_in (slice_get env.now rec.0) ≡ Some R → slice_get R.fields field ≡ Some T
        → tree result.now ≡ T }
{
    match env.decl(rec.0) {
        Some(Decl::Record { fields, .. }) => &fields[usize::from(field)].1,
        _ => unreachable!(),
    }
}

/// The part with the parameters for the variables outside the innermost `inside`.
fn with_params(alloc: Global, part: Part, params: &[Term], inside: u16) -> Result<Part, AllocError>
    ensures { IfOk result (λ p. (vs : List Tree) → length vs ≡ inside → filled p vs ≡ filled part (trees params.now ++ vs)) }
{
    let mut part = part;
    let mut left = params.len() as u64 + u64::from(inside);
    for param in params {
        left -= 1;
        let value = Part::new(alloc, param.copy()?)?;
        part = part.subst(alloc, &value, left)?;
    }
    Ok(part)
}

/// The part with the first projections of `value` for its `fields` innermost variables.
fn with_projections(
    alloc: Global,
    part: Part,
    rec: RecId,
    fields: u16,
    value: &Term,
) -> Result<Part, AllocError>
    ensures { IfOk result (λ p. p ≡ filled part (projections rec 0 fields (tree value.now))) }
{
    let mut part = part;
    for field in 0..fields {
        let projected = Part::new(alloc, Term::proj(alloc, rec, field, value.copy()?)?)?;
        part = part.subst(alloc, &projected, u64::from(fields - field - 1))?;
    }
    Ok(part)
}
