//! Values of holes.
ghost use Rattle.std.specs.Prelude.{◌≡◌, ◌<◌, map, length, slice_get, IfOk, IsTrue};
ghost use Rattle.hb_term.specs.Meaning.{tree};
ghost use Rattle.hb_holes.specs.Holes.{given, written, refilled};
ghost use Rattle.hb_holes.specs.Places.{place, places};
ghost use Rattle.hb_equations.specs.Machine.{with_shared};
ghost use Rattle.hb_unify.specs.Settled.{AreSettled, is_unsettled};

use hb_holes::{Slot, fill};
use hb_term::{ConstId, Term};
use std::alloc::{AllocError, Global};

/// The holes where one gets a value.
pub fn give(alloc: Global, holes: Vec<Slot>, at: u32, value: Term) -> Result<Vec<Slot>, AllocError>
    ensures { IfOk result (λ hs. places hs.items ≡ given (places holes.items) at (tree value)) }
{
    let holes = write(holes, at, value);
    settled(alloc, holes)
}

/// The value is written at the hole.
fn write(holes: Vec<Slot>, at: u32, value: Term) -> Vec<Slot>
    ensures { places result.items ≡ written (places holes.items) at (tree value) (slice_get (places holes.items) at) }
{
    if at as usize >= holes.len() {
        return holes;
    }
    write_at(holes, at as usize, value)
}

/// The same at a hole that is there.
fn write_at(holes: Vec<Slot>, at: usize, value: Term) -> Vec<Slot>
    requires { at < length holes.items }
    ensures { places result.items ≡ written (places holes.items) at (tree value) (slice_get (places holes.items) at) }
{
    let mut holes = holes;
    let depth = holes[at].depth;
    holes[at] = Slot {
        depth,
        value: Some(value),
    };
    holes
}

/// The holes, with the values of all put into each. They stay as they are where no value has a hole.
#[tactic(auto, using(crate::proofs::GivingLemmas::settled_stay))]
fn settled(alloc: Global, holes: Vec<Slot>) -> Result<Vec<Slot>, AllocError>
    ensures { IfOk result (λ hs. places hs.items ≡ map (refilled (places holes.items)) (places holes.items)) }
{
    if are_settled(&holes) {
        return Ok(holes);
    }
    settle(alloc, &holes)
}

/// Whether no value has a hole.
fn are_settled(holes: &[Slot]) -> bool
    ensures { IsTrue result → AreSettled (places holes.now) }
{
    for slot in holes {
        if has_hole(slot) {
            return false;
        }
    }
    true
}

/// Whether the value has a hole.
fn has_hole(slot: &Slot) -> bool
    ensures { result ≡ is_unsettled (place slot.now) }
{
    match &slot.value {
        None => false,
        Some(value) => value.has_hole(),
    }
}

/// The same, where some value may have a hole.
fn settle(alloc: Global, holes: &[Slot]) -> Result<Vec<Slot>, AllocError>
    ensures { IfOk result (λ hs. places hs.items ≡ map (refilled (places holes.now)) (places holes.now)) }
{
    let mut out = Vec::new(alloc);
    for slot in holes {
        out.push(refill(alloc, holes, slot)?)?;
    }
    Ok(out)
}

fn refill(alloc: Global, holes: &[Slot], slot: &Slot) -> Result<Slot, AllocError>
    ensures { IfOk result (λ s. place s ≡ refilled (places holes.now) (place slot.now)) }
{
    match &slot.value {
        None => Ok(Slot {
            depth: slot.depth,
            value: None,
        }),
        Some(value) => {
            let value = fill(alloc, holes, slot.depth, value)?;
            Ok(Slot {
                depth: slot.depth,
                value: Some(value),
            })
        }
    }
}

/// The holes where two get coercions of a new hole of this depth.
pub fn share(
    alloc: Global,
    holes: Vec<Slot>,
    first: u32,
    to_first: ConstId,
    second: u32,
    to_second: ConstId,
    depth: u32,
) -> Result<Vec<Slot>, AllocError>
    ensures { IfOk result (λ hs. places hs.items ≡ with_shared (places holes.items) first to_first second to_second depth) }
{
    let new = u32::try_from(holes.len()).map_err(|_| AllocError)?;
    let mut holes = holes;
    holes.push(Slot { depth, value: None })?;
    let left = Term::app(alloc, Term::Const(to_first), Term::Hole(new))?;
    let right = Term::app(alloc, Term::Const(to_second), Term::Hole(new))?;
    let holes = give(alloc, holes, first, left)?;
    give(alloc, holes, second, right)
}
