//! Terms with the values of their holes put in.
ghost use Rattle.std.specs.Prelude.{◌≡◌, ◌+◌, IfOk};
ghost use Rattle.hb_term.specs.Meaning.{tree};
ghost use Rattle.hb_holes.specs.Holes.{filled, stands_for};
ghost use Rattle.hb_holes.specs.Places.{places};
ghost use Rattle.std.specs.Prelude.{slice_get};

use crate::slot::Slot;
use hb_term::{Term, View};
use std::alloc::{AllocError, Global};

/// A term of depth `depth` with the values of its holes put in. What has no hole is shared, and a term with one
/// that is so deep that the stack doesn't hold a walk of it is out of memory.
#[tactic(auto, using(crate::proofs::Sharing::filled_shared))]
pub fn fill(alloc: Global, holes: &[Slot], depth: u32, t: &Term) -> Result<Term, AllocError>
    ensures { IfOk result (λ u. tree u ≡ filled (places holes.now) depth (tree t.now)) }
{
    if !t.has_hole() {
        return t.copy();
    }
    shallow(t)?;
    put(alloc, holes, depth, t)
}

/// The greatest depth of a term that is walked. Elaborated terms are far from it.
const DEEPEST: u32 = 8_000;

/// Out of memory, where the stack doesn't hold a walk of the term.
pub fn shallow(t: &Term) -> Result<(), AllocError> {
    if t.depth() > DEEPEST {
        Err(AllocError)
    } else {
        Ok(())
    }
}

/// The same in a walk of the term, whose parts without holes are shared.
#[tactic(auto, using(crate::proofs::Sharing::filled_shared))]
fn put(alloc: Global, holes: &[Slot], depth: u32, t: &Term) -> Result<Term, AllocError>
    ensures { IfOk result (λ u. tree u ≡ filled (places holes.now) depth (tree t.now)) }
{
    if !t.has_hole() {
        return t.copy();
    }
    match t.view() {
        View::Sort(s) => Ok(Term::Sort(s)),
        View::Rel(v) => Ok(Term::Rel(v)),
        View::Const(c) => Ok(Term::Const(c)),
        View::Pi(a, b) => {
            let under = deeper(depth)?;
            let a = put(alloc, holes, depth, a)?;
            let b = put(alloc, holes, under, b)?;
            Term::pi(alloc, a, b)
        }
        View::Lam(a, b) => {
            let under = deeper(depth)?;
            let a = put(alloc, holes, depth, a)?;
            let b = put(alloc, holes, under, b)?;
            Term::lam(alloc, a, b)
        }
        View::App(f, a) => {
            let f = put(alloc, holes, depth, f)?;
            let a = put(alloc, holes, depth, a)?;
            Term::app(alloc, f, a)
        }
        View::Proj(r, i, t) => {
            let t = put(alloc, holes, depth, t)?;
            Term::proj(alloc, r, i, t)
        }
        View::Hole(h) => stand(alloc, holes, depth, h),
    }
}

/// One binder deeper.
pub(crate) fn deeper(depth: u32) -> Result<u32, AllocError>
    ensures { IfOk result (λ d. d ≡ depth + 1) }
{
    depth.checked_add(1).ok_or(AllocError)
}

/// What stands for a hole.
fn stand(alloc: Global, holes: &[Slot], depth: u32, h: u32) -> Result<Term, AllocError>
    ensures { IfOk result (λ u. tree u ≡ stands_for h depth (slice_get (places holes.now) h)) }
{
    let Some(slot) = holes.get(h as usize) else {
        return Ok(Term::Hole(h));
    };
    match &slot.value {
        None => Ok(Term::Hole(h)),
        Some(value) => {
            if value.loose() > 0 {
                shallow(value)?;
            }
            value.try_lift(alloc, depth.saturating_sub(slot.depth), 0)
        }
    }
}
