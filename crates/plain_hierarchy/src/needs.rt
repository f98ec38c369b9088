//! What a carrier needs of its arguments, to have the mixins of a set.
ghost use Rattle.std.specs.Prelude.{◌≡◌, ℕ, ◌≤◌, ◌↔◌, length, IsTrue, IsNone, IfSome};
ghost use Rattle.hb_order.specs.Needs.{Takes, HoldsAsked, IsNeeded};
ghost use Rattle.hb_hier.specs.Hierarchy.{MOST};
ghost use Rattle.hb_givings.specs.Givings.{givings_at};
ghost use Rattle.plain_hierarchy.specs.Scans.{IsAsked, IsAskedFor, HoldsFor, IsPastHolder, IsBelowHolders, HasNeed};

use crate::givings::{Giving, asked_at, given, width};
use crate::heirs::is_heir;
use hb_order::{MixinId, StructId};
use hb_sets::MixSet;
use hb_tree::ConstId;

/// Whether the carrier was given the set, and there is a need for it at each place: no structure was
/// asked there for these mixins, or a declared one has the least set that holds those that were.
pub fn takes(structures: &[MixSet], givings: &[Giving], carrier: ConstId, set: &MixSet) -> bool
    requires few { length structures.now ≤ MOST }
    ensures { IsTrue result ↔ Takes structures.now (givings_at givings.now carrier) set.now }
{
    if !set.subset(&given(givings, carrier)) {
        return false;
    }
    for at in 0..width(givings, carrier) {
        if !has_need(structures, givings, carrier, set, at) {
            return false;
        }
    }
    true
}

/// The first structure with the least set that holds those that were asked at the place for the mixins
/// of the set. None exactly where none was asked, or no structure is such.
pub fn need(
    structures: &[MixSet],
    givings: &[Giving],
    carrier: ConstId,
    set: &MixSet,
    at: usize,
) -> Option<StructId>
    requires few { length structures.now ≤ MOST }
    ensures found { IfSome result
        (λ s. IsNeeded structures.now (givings_at givings.now carrier) set.now at s.0) }
    ensures none { IsNone result
        → (s : ℕ) → ¬ (IsNeeded structures.now (givings_at givings.now carrier) set.now at s) }
{
    for place in 0..structures.len() {
        let id = StructId(place as u16);
        if is_needed(structures, givings, carrier, set, at, id) {
            return Some(id);
        }
    }
    None
}

/// Whether there is a need at the place.
fn has_need(
    structures: &[MixSet],
    givings: &[Giving],
    carrier: ConstId,
    set: &MixSet,
    at: usize,
) -> bool
    requires few { length structures.now ≤ MOST }
    ensures { IsTrue result ↔ HasNeed structures.now (givings_at givings.now carrier) set.now at }
{
    match need(structures, givings, carrier, set, at) {
        Some(_s) => true,
        None => !is_asked(givings, carrier, set, at),
    }
}

/// Whether the structure is the need at the place.
fn is_needed(
    structures: &[MixSet],
    givings: &[Giving],
    carrier: ConstId,
    set: &MixSet,
    at: usize,
    s: StructId,
) -> bool
    requires few { length structures.now ≤ MOST }
    ensures { IsTrue result ↔ IsNeeded structures.now (givings_at givings.now carrier) set.now at s.0 }
{
    is_asked(givings, carrier, set, at)
        && holds_asked(structures, givings, carrier, set, at, s)
        && is_below_holders(structures, givings, carrier, set, at, s)
}

/// Whether a structure was asked at the place for a mixin of the set.
fn is_asked(givings: &[Giving], carrier: ConstId, set: &MixSet, at: usize) -> bool
    ensures { IsTrue result ↔ IsAsked (givings_at givings.now carrier) set.now at }
{
    set.members_are_small();
    for m in 0..1024u16 {
        if is_asked_for(givings, carrier, set, at, MixinId(m)) {
            return true;
        }
    }
    false
}

/// Whether one was asked there for `m`, and the set has it.
fn is_asked_for(givings: &[Giving], carrier: ConstId, set: &MixSet, at: usize, m: MixinId) -> bool
    ensures { IsTrue result ↔ IsAskedFor (givings_at givings.now carrier) set.now at m.0 }
{
    set.has(m.0) && asked_at(givings, carrier, m, at).is_some()
}

/// Whether the structure is declared, and an heir of each that was asked at the place for a mixin of the
/// set.
fn holds_asked(
    structures: &[MixSet],
    givings: &[Giving],
    carrier: ConstId,
    set: &MixSet,
    at: usize,
    s: StructId,
) -> bool
    ensures { IsTrue result ↔ HoldsAsked structures.now (givings_at givings.now carrier) set.now at s.0 }
{
    if usize::from(s.0) >= structures.len() {
        return false;
    }
    set.members_are_small();
    for m in 0..1024u16 {
        if set.has(m) && !holds_for(structures, givings, carrier, at, s, MixinId(m)) {
            return false;
        }
    }
    true
}

/// Whether it is an heir of what was asked there for `m`.
fn holds_for(
    structures: &[MixSet],
    givings: &[Giving],
    carrier: ConstId,
    at: usize,
    s: StructId,
    m: MixinId,
) -> bool
    ensures { IsTrue result ↔ HoldsFor structures.now (givings_at givings.now carrier) at s.0 m.0 }
{
    match asked_at(givings, carrier, m, at) {
        Some(t) => is_heir(structures, s, t),
        None => true,
    }
}

/// Whether each structure that holds what was asked has the mixins of `s`.
fn is_below_holders(
    structures: &[MixSet],
    givings: &[Giving],
    carrier: ConstId,
    set: &MixSet,
    at: usize,
    s: StructId,
) -> bool
    requires few { length structures.now ≤ MOST }
    ensures { IsTrue result ↔ IsBelowHolders structures.now (givings_at givings.now carrier) set.now at s.0 }
{
    for place in 0..structures.len() {
        if !is_past_holder(
            structures,
            givings,
            carrier,
            set,
            at,
            s,
            StructId(place as u16),
        ) {
            return false;
        }
    }
    true
}

/// Whether `k` has the mixins of `s`, where it holds what was asked.
fn is_past_holder(
    structures: &[MixSet],
    givings: &[Giving],
    carrier: ConstId,
    set: &MixSet,
    at: usize,
    s: StructId,
    k: StructId,
) -> bool
    ensures { IsTrue result ↔ IsPastHolder structures.now (givings_at givings.now carrier) set.now at s.0 k.0 }
{
    !holds_asked(structures, givings, carrier, set, at, k) || is_heir(structures, k, s)
}
