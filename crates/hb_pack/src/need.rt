//! What the arguments of carriers need.
ghost use Rattle.std.specs.Prelude.{◌≡◌, ◌<◌, length, slice_index_or, IsTrue, IfOk};
ghost use Rattle.hb_order.specs.Givings.{width};
ghost use Rattle.hb_order.specs.Heirs.{mix};
ghost use Rattle.hb_order.specs.Needs.{Takes};
ghost use Rattle.hb_givings.specs.Givings.{givings_at};
ghost use Rattle.hb_hier.specs.Hierarchy.{sets, ungrouped};
ghost use Rattle.hb_generated.specs.Reading.{numbers, needs_of, takes_of};

use hb_hier::{Hier, StructId};
use hb_sets::MixSet;
use hb_term::ConstId;
use std::alloc::{AllocError, Global};
use std::vec::Vec;

/// What each argument of the carrier, which takes the set, needs for it.
pub(crate) fn needs(
    alloc: Global,
    hier: &Hier,
    carrier: ConstId,
    set: &MixSet,
) -> Result<Vec<Option<StructId>>, AllocError>
    requires { Takes (sets hier.now) (givings_at hier.now.givings carrier) set.now }
    ensures { IfOk result
        (λ us. numbers us.items ≡ needs_of (sets hier.now) (givings_at hier.now.givings carrier) set.now) }
{
    hier.structures_are_allowed();
    hier.asked_are_declared(carrier);
    set.members_are_small();
    let mut needs = Vec::new(alloc);
    for at in 0..width_of(hier, carrier) {
        needs.push(hier.need(carrier, set, at))?;
    }
    Ok(needs)
}

/// Whether the carrier takes the set of the structure.
pub(crate) fn takes(hier: &Hier, carrier: ConstId, t: StructId) -> bool
    requires { t.0 < length hier.now.structures }
    ensures value { result
        ≡ takes_of (sets hier.now) (givings_at hier.now.givings carrier) (slice_index_or hier.now.structures t.0 ungrouped).mixins }
    ensures takes { IsTrue result
        → Takes (sets hier.now) (givings_at hier.now.givings carrier) (mix (sets hier.now) t.0) }
{
    let set = hier.mix(t);
    hier.structures_are_allowed();
    hier.asked_are_declared(carrier);
    set.members_are_small();
    hier.takes(carrier, set)
}

/// How many binders the instances at the carrier have.
fn width_of(hier: &Hier, carrier: ConstId) -> u16
    ensures { result ≡ width (givings_at hier.now.givings carrier) }
{
    hier.binders(carrier).unwrap_or(0)
}
