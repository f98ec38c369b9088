//! What was given to the carriers.
ghost use Rattle.std.specs.Prelude.{◌≡◌, ◌<◌, ◌&&◌, ◌↔◌, length, IsTrue, if◌then◌else◌, slice_index_or};
ghost use Rattle.std.specs.Option.{option_map};
ghost use Rattle.hb_sets.specs.Set.{contains, union};
ghost use Rattle.hb_order.specs.Givings.{given, condition, width, binder};
ghost use Rattle.hb_givings.specs.Givings.{ungiven};
ghost use Rattle.hb_givings.specs.Givings.{same_const, givings_at, binder_count};
ghost use Rattle.hb_hier.specs.Giving.{BindersBelow};
ghost use Rattle.plain_hierarchy.specs.Scans.{IsBinderBelow};

use hb_order::{MixinId, StructId};
use hb_sets::MixSet;
use hb_tree::ConstId;
use std::marker::Model;
use std::vec::Vec;

/// An instance at a carrier: what it asks of the carrier's arguments, and the mixins that it gives.
#[derive(Drop)]
pub struct Giving {
    pub carrier: ConstId,
    pub binders: Vec<Option<StructId>>,
    pub gives: MixSet,
}

impl Model for Giving {
    ghost use Rattle.hb_givings.specs.Givings.{Given};
    ghost use Rattle.std.specs.Coded.{codes};
    ghost use Rattle.hb_sets.specs.Set.{set_code};

    ghost Value = { Given };

    ghost coded = { Prim.hlevel (codes, set_code) };

    ghost view = { λ g.
        record { carrier = g.carrier; giving = record { binders = g.binders.items; gives = g.gives } } };
}

/// The mixins that the carrier was given.
pub fn given(givings: &[Giving], carrier: ConstId) -> MixSet
    ensures { result ≡ given (givings_at givings.now carrier) }
{
    let mut all = MixSet::empty();
    for at in 0..givings.len() {
        all = given_and(all, givings, at, carrier);
    }
    all
}

/// The mixins, and those that the instance at the place gives, where it is at the carrier.
fn given_and(all: MixSet, givings: &[Giving], at: usize, carrier: ConstId) -> MixSet
    requires { at < length givings.now }
    ensures { result
        ≡ (if same_const (slice_index_or givings.now at ungiven).carrier carrier
        then union all (slice_index_or givings.now at ungiven).giving.gives
        else all) }
{
    if is_at(givings, at, carrier) {
        let g = &givings[at];
        all.union(&g.gives)
    } else {
        all
    }
}

/// The binders of the first instance at the carrier that gave `m`. Empty where none did.
pub fn condition(givings: &[Giving], carrier: ConstId, m: MixinId) -> &[Option<StructId>]
    ensures { result.now ≡ condition (givings_at givings.now carrier) m.0 }
{
    for at in 0..givings.len() {
        if gives_at(givings, at, carrier, m) {
            return binders_at(givings, at);
        }
    }
    &[]
}

/// How many binders the instances at the carrier have. None exactly where nothing was given.
pub fn binder_count(givings: &[Giving], carrier: ConstId) -> Option<usize>
    ensures { result ≡ binder_count (givings_at givings.now carrier) }
{
    for at in 0..givings.len() {
        if is_at(givings, at, carrier) {
            return Some(binders_at(givings, at).len());
        }
    }
    None
}

/// The same, 0 where nothing was given.
pub(crate) fn width(givings: &[Giving], carrier: ConstId) -> usize
    ensures { result ≡ width (givings_at givings.now carrier) }
{
    binder_count(givings, carrier).unwrap_or(0)
}

/// The structure that was asked at the place where `m` was given.
pub(crate) fn asked_at(
    givings: &[Giving],
    carrier: ConstId,
    m: MixinId,
    at: usize,
) -> Option<StructId>
    ensures { option_map (λ s. s.0) result ≡ binder (condition (givings_at givings.now carrier) m.0) at }
{
    let asked = condition(givings, carrier, m);
    binder_of(asked, at)
}

/// Whether the binders ask only structures that are declared before the n-th.
pub fn are_declared(binders: &[Option<StructId>], count: u16) -> bool
    ensures { IsTrue result ↔ BindersBelow count binders.now }
{
    for at in 0..binders.len() {
        if !is_declared_at(binders, at, count) {
            return false;
        }
    }
    true
}

/// Whether that at the place is.
fn is_declared_at(binders: &[Option<StructId>], at: usize, count: u16) -> bool
    ensures { IsTrue result ↔ IsBinderBelow count binders.now at }
{
    match binder_of(binders, at) {
        Some(s) => s.0 < count,
        None => true,
    }
}

/// The structure that the binders ask at the place.
fn binder_of(binders: &[Option<StructId>], at: usize) -> Option<StructId>
    ensures { option_map (λ s. s.0) result ≡ binder binders.now at }
{
    match binders.get(at) {
        Some(Some(s)) => Some(*s),
        _ => None,
    }
}

/// Whether the instance at the place is at the carrier.
fn is_at(givings: &[Giving], at: usize, carrier: ConstId) -> bool
    requires { at < length givings.now }
    ensures { result ≡ same_const (slice_index_or givings.now at ungiven).carrier carrier }
{
    let g = &givings[at];
    is_same(g.carrier, carrier)
}

/// Whether it is at the carrier, and gives `m`.
fn gives_at(givings: &[Giving], at: usize, carrier: ConstId, m: MixinId) -> bool
    requires { at < length givings.now }
    ensures { result
        ≡ (same_const (slice_index_or givings.now at ungiven).carrier carrier
        && contains (slice_index_or givings.now at ungiven).giving.gives m.0) }
{
    let g = &givings[at];
    is_same(g.carrier, carrier) && g.gives.has(m.0)
}

/// Its binders.
fn binders_at(givings: &[Giving], at: usize) -> &[Option<StructId>]
    requires { at < length givings.now }
    ensures { result.now ≡ (slice_index_or givings.now at ungiven).giving.binders }
{
    let g = &givings[at];
    &g.binders
}

/// Whether two constants are the same.
fn is_same(a: ConstId, b: ConstId) -> bool
    ensures { result ≡ same_const a b }
{
    a.decl == b.decl && a.maker == b.maker
}
