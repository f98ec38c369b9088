//! A side that is a hole.
ghost use Rattle.std.specs.Prelude.{◌≡◌, IfOk};
ghost use Rattle.std.specs.Option.{option_map};
ghost use Rattle.hb_term.specs.Meaning.{tree};
ghost use Rattle.hb_holes.specs.Holes as holes_spec;
ghost use Rattle.hb_holes.specs.Places.{places};
ghost use Rattle.hb_equations.specs.Forms as forms;
ghost use Rattle.hb_unify.specs.Plain.{value_of, valued};

use crate::act::Value;
use hb_holes::{Slot, depth_of, value_for};
use hb_term::{Term, View};
use std::alloc::{AllocError, Global};

/// The value that a side gives to the other side, a hole. Of two holes the deeper gets one, else the later born.
pub fn hole_value(
    alloc: Global,
    holes: &[Slot],
    depth: u32,
    a: &Term,
    b: &Term,
) -> Result<Option<Value>, AllocError>
    ensures { IfOk result (λ o. option_map value_of o ≡ forms.hole_value (places holes.now) depth (tree a.now) (tree b.now)) }
{
    if let View::Hole(i) = a.view() {
        if let View::Hole(j) = b.view() {
            if comes_first(holes, i, j) {
                return value_to(alloc, holes, depth, i, b);
            }
            return value_to(alloc, holes, depth, j, a);
        }
        return value_to(alloc, holes, depth, i, b);
    }
    if let View::Hole(j) = b.view() {
        return value_to(alloc, holes, depth, j, a);
    }
    Ok(None)
}

/// Whether the first hole is deeper, or as deep and born later.
fn comes_first(holes: &[Slot], i: u32, j: u32) -> bool
    ensures { result ≡ forms.comes_first (places holes.now) i j }
{
    let d = depth_of(holes, i);
    let e = depth_of(holes, j);
    e < d || (d == e && j < i)
}

/// The hole with the term as its value, where it fits.
fn value_to(
    alloc: Global,
    holes: &[Slot],
    depth: u32,
    at: u32,
    t: &Term,
) -> Result<Option<Value>, AllocError>
    ensures { IfOk result (λ o. option_map value_of o ≡ valued at (holes_spec.value_for (places holes.now) depth at (tree t.now))) }
{
    match value_for(alloc, holes, depth, at, t)? {
        None => Ok(None),
        Some(value) => Ok(Some(Value { at, value })),
    }
}
