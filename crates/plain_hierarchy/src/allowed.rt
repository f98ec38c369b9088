//! Which set a new structure may have, and the first part that fails.
ghost use Rattle.std.specs.Prelude.{◌≡◌, ℕ, ◌<◌, ◌≤◌, ◌↔◌, length, IsTrue, IsNone, IfSome, IfErr, OnOk};
ghost use Rattle.hb_order.specs.Allowed.{IsAllowed, IsMissing, IsFirstSame, NoneSame, IsFirstAbove, NoneAbove, NoneMissingWith, IsFirstMissing};
ghost use Rattle.hb_hier.specs.Hierarchy.{MOST};
ghost use Rattle.hb_hier.specs.Declaring.{SetRefusal};
ghost use Rattle.plain_hierarchy.specs.Scans.{NoneMissing, IsFirstWith};

use crate::heirs::{is_join, mix};
use hb_base::Count;
use hb_hier::HierRefused;
use hb_order::StructId;
use hb_sets::MixSet;

/// Whether a structure with the set may be declared after these. The refusals come in the order of
/// `HierRefused`.
pub fn check_set(structures: &[MixSet], set: &MixSet) -> Result<(), HierRefused>
    requires few { length structures.now ≤ MOST }
    ensures allowed { OnOk result (IsAllowed structures.now set.now) }
    ensures room { OnOk result (length structures.now < MOST) }
    ensures refused { IfErr result (λ e. SetRefusal structures.now set.now e) }
{
    if set.same(&MixSet::empty()) {
        return Err(HierRefused::EmptyStructure);
    }
    if let Some(s) = first_same(structures, set) {
        return Err(HierRefused::SameStructure(s));
    }
    if let Some(s) = first_above(structures, set) {
        return Err(HierRefused::AboveDeclared(s));
    }
    if let Some((a, b, j)) = first_missing(structures, set) {
        return Err(HierRefused::MissingJoin(a, b, j));
    }
    if structures.len() == 1024 {
        return Err(HierRefused::TooMany(Count::Structures));
    }
    Ok(())
}

/// The first structure that has the set.
fn first_same(structures: &[MixSet], set: &MixSet) -> Option<StructId>
    requires few { length structures.now ≤ MOST }
    ensures found { IfSome result (λ s. IsFirstSame structures.now set.now s.0) }
    ensures none { IsNone result → NoneSame structures.now set.now }
{
    for at in 0..structures.len() {
        let id = StructId(at as u16);
        if mix(structures, id).same(set) {
            return Some(id);
        }
    }
    None
}

/// The first structure whose set the given one is inside.
fn first_above(structures: &[MixSet], set: &MixSet) -> Option<StructId>
    requires few { length structures.now ≤ MOST }
    ensures found { IfSome result (λ s. IsFirstAbove structures.now set.now s.0) }
    ensures none { IsNone result → NoneAbove structures.now set.now }
{
    for at in 0..structures.len() {
        let id = StructId(at as u16);
        if set.subset(&mix(structures, id)) {
            return Some(id);
        }
    }
    None
}

/// The first two structures, in the order of the first and then of the second, whose join the set
/// misses, with the join.
fn first_missing(structures: &[MixSet], set: &MixSet) -> Option<(StructId, StructId, StructId)>
    requires few { length structures.now ≤ MOST }
    ensures found { IfSome result (λ r. IsFirstMissing structures.now set.now r.0.0 r.1.0 r.2.0) }
    ensures none { IsNone result → NoneMissing structures.now set.now (length structures.now) }
{
    for at in 0..structures.len() {
        let id = StructId(at as u16);
        if let Some((b, j)) = first_missing_with(structures, id, set) {
            return Some((id, b, j));
        }
    }
    None
}

/// The first structure after `a` whose join with it the set misses, with the join.
fn first_missing_with(
    structures: &[MixSet],
    a: StructId,
    set: &MixSet,
) -> Option<(StructId, StructId)>
    requires few { length structures.now ≤ MOST }
    requires declared { a.0 < length structures.now }
    ensures found { IfSome result (λ r. IsFirstWith structures.now set.now a.0 r.0.0 r.1.0) }
    ensures none { IsNone result → NoneMissingWith structures.now set.now a.0 (length structures.now) }
{
    for at in usize::from(a.0) + 1..structures.len() {
        let b = StructId(at as u16);
        if let Some(j) = missing_join(structures, a, b, set) {
            return Some((b, j));
        }
    }
    None
}

/// The first join of `a` and `b` that the set misses, where it holds both.
fn missing_join(structures: &[MixSet], a: StructId, b: StructId, set: &MixSet) -> Option<StructId>
    requires few { length structures.now ≤ MOST }
    ensures found { IfSome result (λ j. IsMissing structures.now set.now a.0 b.0 j.0) }
    ensures none { IsNone result → (j : ℕ) → ¬ (IsMissing structures.now set.now a.0 b.0 j) }
{
    for at in 0..structures.len() {
        let j = StructId(at as u16);
        if is_missing(structures, a, b, j, set) {
            return Some(j);
        }
    }
    None
}

/// Whether the set holds `a` and `b`, and not their join `j`.
fn is_missing(structures: &[MixSet], a: StructId, b: StructId, j: StructId, set: &MixSet) -> bool
    requires few { length structures.now ≤ MOST }
    ensures { IsTrue result ↔ IsMissing structures.now set.now a.0 b.0 j.0 }
{
    mix(structures, a).subset(set)
        && mix(structures, b).subset(set)
        && !mix(structures, j).subset(set)
        && is_join(structures, a, b, j)
}
