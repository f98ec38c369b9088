//! A side that is a maker with all its arguments.
ghost use Rattle.std.specs.Prelude.{◌≡◌, ◌≤◌, map, length, IfOk};
ghost use Rattle.std.specs.Option.{option_map};
ghost use Rattle.hb_calculus.specs.Telescopes as telescopes;
ghost use Rattle.hb_term.specs.Meaning.{tree};
ghost use Rattle.hb_equations.specs.Forms as forms;
ghost use Rattle.hb_unify.specs.Plain.{goals, made_of};
ghost use Rattle.hb_tree.specs.Tree.{args_of};
ghost use Rattle.std.specs.Prelude.{drop};

use crate::act::{Goal, Made};
use crate::parts::{arguments, head, pairs};
use hb_env::Env;
use hb_reduce::sizes;
use hb_term::{RecId, Term, View};
use std::alloc::{AllocError, Global};

/// The fields of a full application of a maker with fields.
pub fn made(alloc: Global, env: &Env, t: &Term) -> Result<Option<Made>, AllocError>
    ensures { IfOk result (λ o. option_map made_of o ≡ forms.made env.now (tree t.now)) }
{
    let View::Const(c) = head(t).view() else {
        return Ok(None);
    };
    if !c.maker {
        return Ok(None);
    }
    let Some((params, fields)) = sizes(env, RecId(c.decl)) else {
        return Ok(None);
    };
    let args = arguments(alloc, t)?;
    if fields == 0 || args.len() != params + fields {
        return Ok(None);
    }
    Ok(Some(Made {
        made_by: RecId(c.decl),
        fields: from(alloc, &args, params)?,
    }))
}

/// The terms from a place on.
fn from(alloc: Global, terms: &[Term], start: usize) -> Result<Vec<Term>, AllocError>
    requires { start ≤ length terms.now }
    ensures { IfOk result (λ ts. ts.items ≡ drop start terms.now) }
{
    let mut out = Vec::new(alloc);
    for t in &terms[start..] {
        out.push(t.copy()?)?;
    }
    Ok(out)
}

/// The first projections of the term.
fn projections(alloc: Global, rec: RecId, count: usize, of: &Term) -> Result<Vec<Term>, AllocError>
    ensures { IfOk result (λ ts. map tree ts.items ≡ telescopes.projections rec 0 count (tree of.now)) }
{
    let count = u16::try_from(count).map_err(|_| AllocError)?;
    let mut out = Vec::new(alloc);
    for field in 0..count {
        out.push(Term::proj(alloc, rec, field, of.copy()?)?)?;
    }
    Ok(out)
}

/// A side is a maker with all its arguments: its fields are those of the other.
pub fn fielded(
    alloc: Global,
    depth: u32,
    a: &Term,
    b: &Term,
    left: Option<Made>,
    right: Option<Made>,
) -> Result<Option<Vec<Goal>>, AllocError>
    ensures { IfOk result (λ o. option_map (λ qs. goals qs.items) o ≡ forms.fielded depth (tree a.now) (tree b.now) (option_map made_of left) (option_map made_of right)) }
{
    if let Some(m) = left {
        let ps = projections(alloc, m.made_by, m.fields.len(), b)?;
        return pairs(alloc, depth, &m.fields, &ps);
    }
    if let Some(m) = right {
        let ps = projections(alloc, m.made_by, m.fields.len(), a)?;
        return pairs(alloc, depth, &ps, &m.fields);
    }
    Ok(None)
}
