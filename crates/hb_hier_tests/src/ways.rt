//! The questions in both ways.
ghost use Rattle.std.specs.Prelude.{◌≡◌, ◌<◌, ◌-◌, ◌^◌, IsTrue, length};
ghost use Rattle.std.specs.Option.{ForSome};
ghost use Rattle.hb_order.specs.Givings.{width};
ghost use Rattle.hb_givings.specs.Givings.{givings_at, binder_count};
ghost use Rattle.hb_hier.specs.Giving.{BindersBelow};

use crate::both::{Both, agree};
use hb_hier::{Hier, HierRefused, MixinId, StructId};
use hb_sets::MixSet;
use hb_tree::ConstId;
use plain_hierarchy::{
    Giving, are_declared, check_set, condition, given, is_heir, join_of, need, takes,
};

/// Why the structure is refused in the plain way, if it is.
pub fn plain_check(structures: &[MixSet], set: &MixSet) -> Option<HierRefused> {
    if structures.len() > 1024 {
        return None;
    }
    match check_set(structures, set) {
        Ok(()) => None,
        Err(why) => Some(why),
    }
}

/// The join in the plain way.
fn plain_join(structures: &[MixSet], a: StructId, b: StructId) -> Option<StructId> {
    if structures.len() > 1024 {
        return None;
    }
    join_of(structures, a, b)
}

/// The join of two structures, none where one of them isn't declared.
pub fn join(h: &Hier, a: u16, b: u16) -> Option<StructId> {
    if a < h.structures() && b < h.structures() {
        h.join_of(StructId(a), StructId(b))
    } else {
        None
    }
}

/// Whether one is an heir of the other.
fn heir(h: &Hier, a: u16, b: u16) -> bool {
    a < h.structures() && b < h.structures() && h.heir(StructId(a), StructId(b))
}

/// Compares heirs and joins of all pairs.
pub fn compare_joins(both: &mut Both) {
    let count = both.hier.structures();
    for a in 0..count {
        for b in 0..count {
            compare_pair(both, a, b);
        }
    }
}

/// Compares the two ways at one pair.
fn compare_pair(both: &mut Both, a: u16, b: u16) {
    let plain = plain_join(&both.structures, StructId(a), StructId(b));
    let joined = join(&both.hier, a, b) == plain;
    let inherited = heir(&both.hier, a, b) == is_heir(&both.structures, StructId(a), StructId(b));
    agree(both, joined && inherited);
}

/// Whether the call of `Hier::give` is allowed.
pub fn can_give(h: &Hier, carrier: ConstId, binders: &[Option<StructId>]) -> bool
    ensures room { IsTrue result → length h.now.givings < 2 ^ 32 - 1 }
    ensures declared { IsTrue result → BindersBelow (length h.now.structures) binders.now }
    ensures alike { IsTrue result
        → ForSome (binder_count (givings_at h.now.givings carrier)) (λ n. n ≡ length binders.now) }
    ensures few { IsTrue result → length binders.now < 2 ^ 16 }
{
    has_room(h) && are_declared(binders, h.structures()) && are_alike(h, carrier, binders)
}

/// Whether there is room for one more instance.
fn has_room(h: &Hier) -> bool
    ensures { IsTrue result → length h.now.givings < 2 ^ 32 - 1 }
{
    h.mark().givings < u32::MAX
}

/// Whether there are as many binders as the carrier has.
fn are_alike(h: &Hier, carrier: ConstId, binders: &[Option<StructId>]) -> bool
    ensures alike { IsTrue result
        → ForSome (binder_count (givings_at h.now.givings carrier)) (λ n. n ≡ length binders.now) }
    ensures few { IsTrue result → length binders.now < 2 ^ 16 }
{
    if binders.len() > 65535 {
        return false;
    }
    match h.binders(carrier) {
        Some(n) => usize::from(n) == binders.len(),
        None => true,
    }
}

/// What the carrier was given, in the plain way.
pub fn plain_given(givings: &[Giving], carrier: ConstId) -> MixSet {
    given(givings, carrier)
}

/// Compares what the carrier was given, and the condition of each mixin.
pub fn compare_given(both: &mut Both, carrier: ConstId) {
    let same = both
        .hier
        .given(carrier)
        .same(&given(&both.givings, carrier));
    agree(both, same);
    for m in 0..both.hier.mixins() {
        let same = same_condition(both, carrier, MixinId(m));
        agree(both, same);
    }
}

/// Whether both ways have the same condition.
fn same_condition(both: &Both, carrier: ConstId, m: MixinId) -> bool {
    let plain = condition(&both.givings, carrier, m);
    let kept = both.hier.condition(carrier, m);
    if plain.len() != kept.len() {
        return false;
    }
    for at in 0..plain.len() {
        if plain.get(at) != kept.get(at) {
            return false;
        }
    }
    true
}

/// Compares whether the carrier takes the set, and what it needs for it at its first two places.
pub fn compare_needs(both: &mut Both, carrier: ConstId, set: &MixSet) {
    if both.structures.len() > 1024 {
        return;
    }
    let taken = both.hier.takes(carrier, set);
    let same = taken == takes(&both.structures, &both.givings, carrier, set);
    agree(both, same);
    if taken {
        for at in 0..width(&both.hier, carrier) {
            compare_need(both, carrier, set, at);
        }
    }
}

/// Compares what it needs at one place.
fn compare_need(both: &mut Both, carrier: ConstId, set: &MixSet, at: u16) {
    if both.structures.len() <= 1024 {
        let plain = need(
            &both.structures,
            &both.givings,
            carrier,
            set,
            usize::from(at),
        );
        let same = needed(&both.hier, carrier, set, at) == plain;
        agree(both, same);
    }
}

/// The need at the place, none where the carrier doesn't take the set.
pub fn needed(h: &Hier, carrier: ConstId, set: &MixSet, at: u16) -> Option<StructId> {
    if at < width(h, carrier) && h.takes(carrier, set) {
        h.need(carrier, set, at)
    } else {
        None
    }
}

/// How many binders the instances at the carrier have.
pub fn width(h: &Hier, carrier: ConstId) -> u16
    ensures { result ≡ width (givings_at h.now.givings carrier) }
{
    h.binders(carrier).unwrap_or(0)
}
