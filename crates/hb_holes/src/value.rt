//! Whether a term can be the value of a hole.
ghost use Rattle.std.specs.Prelude.{◌≡◌, ℕ, List, Some, IfOk, IsTrue, slice_get};
ghost use Rattle.std.specs.Option.{option_map};
ghost use Rattle.hb_term.specs.Meaning.{tree};
ghost use Rattle.hb_holes.specs.Holes as spec;
ghost use Rattle.hb_holes.specs.Holes.{Place, as_value, may_stand, lowered_at, depth_in};
ghost use Rattle.hb_holes.specs.Places.{places};

use crate::filling::{deeper, shallow};
use crate::slot::Slot;
use hb_term::{Term, View};
use std::alloc::{AllocError, Global};

/// The value that a term of depth `depth` would be for the hole. None where it has the hole itself, a
/// variable beyond the hole's depth, or a deeper hole. A term so deep that the stack doesn't hold a walk of it is
/// out of memory.
pub fn value_for(
    alloc: Global,
    holes: &[Slot],
    depth: u32,
    hole: u32,
    t: &Term,
) -> Result<Option<Term>, AllocError>
    ensures { IfOk result (λ o. option_map tree o ≡ spec.value_for (places holes.now) depth hole (tree t.now)) }
{
    let at = depth_of(holes, hole);
    let cut = depth.saturating_sub(at);
    if stays(t, cut, 0) {
        return Ok(Some(t.copy()?));
    }
    shallow(t)?;
    value_at(alloc, holes, hole, at, cut, 0, t)
}

/// How deep the hole is.
pub fn depth_of(holes: &[Slot], hole: u32) -> u32
    ensures { result ≡ depth_in (slice_get (places holes.now) hole) }
{
    match holes.get(hole as usize) {
        None => 0,
        Some(slot) => slot.depth,
    }
}

/// The value, `inside` binders deep in the term. What stays as it is is shared.
fn value_at(
    alloc: Global,
    holes: &[Slot],
    hole: u32,
    depth: u32,
    cut: u32,
    inside: u32,
    t: &Term,
) -> Result<Option<Term>, AllocError>
    ensures { IfOk result (λ o. option_map tree o ≡ as_value (places holes.now) hole depth cut inside (tree t.now)) }
{
    if stays(t, cut, inside) {
        return Ok(Some(t.copy()?));
    }
    match t.view() {
        View::Sort(s) => Ok(Some(Term::Sort(s))),
        View::Rel(v) => lowered(inside, cut, v),
        View::Const(c) => Ok(Some(Term::Const(c))),
        View::Pi(a, b) => {
            let under = deeper(inside)?;
            let Some(a) = value_at(alloc, holes, hole, depth, cut, inside, a)? else {
                return Ok(None);
            };
            let Some(b) = value_at(alloc, holes, hole, depth, cut, under, b)? else {
                return Ok(None);
            };
            Ok(Some(Term::pi(alloc, a, b)?))
        }
        View::Lam(a, b) => {
            let under = deeper(inside)?;
            let Some(a) = value_at(alloc, holes, hole, depth, cut, inside, a)? else {
                return Ok(None);
            };
            let Some(b) = value_at(alloc, holes, hole, depth, cut, under, b)? else {
                return Ok(None);
            };
            Ok(Some(Term::lam(alloc, a, b)?))
        }
        View::App(f, a) => {
            let Some(f) = value_at(alloc, holes, hole, depth, cut, inside, f)? else {
                return Ok(None);
            };
            let Some(a) = value_at(alloc, holes, hole, depth, cut, inside, a)? else {
                return Ok(None);
            };
            Ok(Some(Term::app(alloc, f, a)?))
        }
        View::Proj(r, i, t) => {
            let Some(t) = value_at(alloc, holes, hole, depth, cut, inside, t)? else {
                return Ok(None);
            };
            Ok(Some(Term::proj(alloc, r, i, t)?))
        }
        View::Hole(h) => Ok(standing(holes, hole, depth, h)),
    }
}

/// Whether the term has no hole, and no variable that falls.
#[tactic(auto, using(crate::proofs::Sharing::closed_value, crate::proofs::Sharing::uncut_value))]
fn stays(t: &Term, cut: u32, inside: u32) -> bool
    ensures { IsTrue result → (H : List Place) (i d : ℕ) → as_value H i d cut inside (tree t.now) ≡ Some (tree t.now) }
{
    !t.has_hole() && (cut == 0 || t.loose() <= u64::from(inside))
}

/// A hole in the value of a hole.
fn standing(holes: &[Slot], hole: u32, depth: u32, h: u32) -> Option<Term>
    ensures { option_map tree result ≡ may_stand hole depth h (slice_get (places holes.now) h) }
{
    let Some(slot) = holes.get(h as usize) else {
        return None;
    };
    if h == hole {
        return None;
    }
    if slot.depth <= depth {
        Some(Term::Hole(h))
    } else {
        None
    }
}

/// A variable without the `cut` that stand just outside the innermost `inside`.
fn lowered(inside: u32, cut: u32, v: u32) -> Result<Option<Term>, AllocError>
    ensures { IfOk result (λ o. option_map tree o ≡ lowered_at inside cut v) }
{
    if v < inside {
        return Ok(Some(Term::Rel(v)));
    }
    let first = inside.checked_add(cut).ok_or(AllocError)?;
    if v < first {
        return Ok(None);
    }
    Ok(Some(Term::Rel(v - cut)))
}
