//! What an equation becomes by the forms of its sides.
ghost use Rattle.std.specs.Prelude.{◌≡◌, IfOk};
ghost use Rattle.hb_term.specs.Meaning.{tree};
ghost use Rattle.hb_equations.specs.Forms as forms;
ghost use Rattle.hb_unify.specs.Plain.{act_of, stuck_at};

use crate::act::{Act, Sides};
use crate::fields::{fielded, made};
use crate::parts::parts;
use crate::unfold::{opened, unfolded, unfolds};
use hb_env::Env;
use std::alloc::{AllocError, Global};

/// The first rule that fits: the parts of the same form, unfolding, functions and makers; else it stays.
pub fn form_act(alloc: Global, env: &Env, of: Sides<'_>) -> Result<Act, AllocError>
    ensures { IfOk result (λ act. act_of (stuck_at of.entry) act ≡ forms.form_act env.now of.entry.depth of.entry.relation (tree of.entry.left.now) (tree of.entry.right.now)) }
{
    if let Some(qs) = parts(alloc, of.depth, of.relation, of.left, of.right)? {
        return Ok(Act::Becomes(qs));
    }
    let left = unfolded(alloc, env, of.left)?;
    let right = unfolded(alloc, env, of.right)?;
    if let Some(qs) = unfolds(alloc, of.depth, of.relation, of.left, of.right, left, right)? {
        return Ok(Act::Becomes(qs));
    }
    if let Some(qs) = opened(alloc, of.depth, of.left, of.right)? {
        return Ok(Act::Becomes(qs));
    }
    let left = made(alloc, env, of.left)?;
    let right = made(alloc, env, of.right)?;
    if let Some(qs) = fielded(alloc, of.depth, of.left, of.right, left, right)? {
        return Ok(Act::Becomes(qs));
    }
    Ok(Act::Stays)
}
