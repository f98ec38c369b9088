//! Heirs and joins of structures (after Sakaguchi, "Validating Mathematical Structures", IJCAR 2020). A
//! structure is the place of its set in the list; one that isn't declared has no mixins.
ghost use Rattle.std.specs.Prelude.{◌≡◌, ℕ, ◌≤◌, ◌↔◌, length, IsTrue, IsNone, IfSome};
ghost use Rattle.hb_order.specs.Heirs.{mix, IsHeir, IsCommonHeir, IsJoin};
ghost use Rattle.hb_hier.specs.Hierarchy.{MOST};
ghost use Rattle.plain_hierarchy.specs.Scans.{IsPast, IsBelowHeirs};

use hb_order::StructId;
use hb_sets::MixSet;

/// Whether `a` is an heir of `b`: it has each mixin that `b` has.
pub fn is_heir(structures: &[MixSet], a: StructId, b: StructId) -> bool
    ensures { IsTrue result ↔ IsHeir structures.now a.0 b.0 }
{
    mix(structures, b).subset(&mix(structures, a))
}

/// The first join of `a` and `b`: a common heir whose mixins every common heir has. None exactly where
/// there is none.
pub fn join_of(structures: &[MixSet], a: StructId, b: StructId) -> Option<StructId>
    requires few { length structures.now ≤ MOST }
    ensures found { IfSome result (λ j. IsJoin structures.now a.0 b.0 j.0) }
    ensures none { IsNone result → (j : ℕ) → ¬ (IsJoin structures.now a.0 b.0 j) }
{
    for at in 0..structures.len() {
        let id = StructId(at as u16);
        if is_join(structures, a, b, id) {
            return Some(id);
        }
    }
    None
}

/// Whether `j` is the join of `a` and `b`.
pub(crate) fn is_join(structures: &[MixSet], a: StructId, b: StructId, j: StructId) -> bool
    requires few { length structures.now ≤ MOST }
    ensures { IsTrue result ↔ IsJoin structures.now a.0 b.0 j.0 }
{
    is_common_heir(structures, a, b, j) && is_below_heirs(structures, a, b, j)
}

/// Whether `k` is declared, and an heir of both.
fn is_common_heir(structures: &[MixSet], a: StructId, b: StructId, k: StructId) -> bool
    ensures { IsTrue result ↔ IsCommonHeir structures.now a.0 b.0 k.0 }
{
    usize::from(k.0) < structures.len() && is_heir(structures, k, a) && is_heir(structures, k, b)
}

/// Whether each common heir of `a` and `b` has the mixins of `j`.
fn is_below_heirs(structures: &[MixSet], a: StructId, b: StructId, j: StructId) -> bool
    requires few { length structures.now ≤ MOST }
    ensures { IsTrue result ↔ IsBelowHeirs structures.now a.0 b.0 j.0 }
{
    for at in 0..structures.len() {
        if !is_past(structures, a, b, j, StructId(at as u16)) {
            return false;
        }
    }
    true
}

/// Whether `k` has the mixins of `j`, where it is a common heir.
fn is_past(structures: &[MixSet], a: StructId, b: StructId, j: StructId, k: StructId) -> bool
    ensures { IsTrue result ↔ IsPast structures.now a.0 b.0 j.0 k.0 }
{
    !is_common_heir(structures, a, b, k) || is_heir(structures, k, j)
}

/// The mixins of structure `s`.
pub(crate) fn mix(structures: &[MixSet], s: StructId) -> MixSet
    ensures { result ≡ mix structures.now s.0 }
{
    let at = usize::from(s.0);
    if at < structures.len() {
        structures[at].copy()
    } else {
        MixSet::empty()
    }
}
