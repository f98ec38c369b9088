//! Small hierarchies that were worked out by hand.
use crate::both::{Both, give, mixin, mixin_name, mixins, nothing, structure, structure_name};
use crate::ways::{can_give, compare_given, compare_joins, compare_needs, join, needed};
use hb_base::NameId;
use hb_hier::{Hier, HierRefused, MixinId, StructId};
use hb_sets::MixSet;
use hb_tree::ConstId;
use std::alloc::Global;

/// The carrier of the worked instances.
fn carrier() -> ConstId {
    ConstId {
        decl: 7,
        maker: false,
    }
}

/// Whether it was refused for this.
fn is_refused(found: Option<HierRefused>, why: HierRefused) -> bool {
    found == Some(why)
}

/// Whether the join of two structures is this one.
fn is_join(h: &Hier, a: u16, b: u16, j: u16) -> bool {
    join(h, a, b) == Some(StructId(j))
}

/// Mixins 0 to 3, and structures {0}, {1}, {0, 1, 2} and {0, 3}.
fn small(pair: &mut Both) -> Result<(), HierRefused> {
    mixins(pair, 4)?;
    structure(pair, &[mixin_name(0)])?;
    structure(pair, &[mixin_name(1)])?;
    structure(pair, &[structure_name(0), mixin_name(1), mixin_name(2)])?;
    structure(pair, &[mixin_name(0), mixin_name(3)])?;
    Ok(())
}

/// Whether the joins of the small hierarchy are the least common heirs.
fn joins(alloc: Global) -> Result<bool, HierRefused> {
    let mut pair = nothing(alloc)?;
    small(&mut pair)?;
    compare_joins(&mut pair);
    Ok(pair.different == 0 && are_least(&pair.hier))
}

/// Whether these are.
fn are_least(h: &Hier) -> bool {
    is_join(h, 0, 1, 2) && is_join(h, 0, 0, 0) && join(h, 2, 3).is_none()
}

/// Whether a structure that holds the first two without their join is refused in both ways.
fn misses_a_join(alloc: Global) -> Result<bool, HierRefused> {
    let mut pair = nothing(alloc)?;
    small(&mut pair)?;
    let refused = structure(&mut pair, &[structure_name(3), structure_name(1)])?;
    let missing = HierRefused::MissingJoin(StructId(0), StructId(1), StructId(2));
    Ok(pair.different == 0 && is_refused(refused, missing))
}

/// Whether a structure is refused in both ways that is strictly inside a declared one.
fn is_above(alloc: Global) -> Result<bool, HierRefused> {
    let mut pair = nothing(alloc)?;
    small(&mut pair)?;
    let refused = structure(&mut pair, &[mixin_name(2), mixin_name(0)])?;
    Ok(pair.different == 0 && is_refused(refused, HierRefused::AboveDeclared(StructId(2))))
}

#[test]
fn structures_hold_the_joins_of_what_they_hold(rt: HostRuntime) -> Result<(), HierRefused> {
    let alloc = rt.alloc();
    assert!(rt; joins(alloc)? && misses_a_join(alloc)? && is_above(alloc)?);
    Ok(())
}

/// Mixins a, b, p, q, and r that requires q; structures {a} and {b}; p and q are given to the carrier,
/// under the first structure and under the second.
fn needing(pair: &mut Both) -> Result<(), HierRefused> {
    mixins(pair, 4)?;
    mixin(pair, &[mixin_name(3)])?;
    structure(pair, &[mixin_name(0)])?;
    structure(pair, &[mixin_name(1)])?;
    give(pair, carrier(), &[Some(StructId(0))], 2)?;
    give(pair, carrier(), &[Some(StructId(1))], 3)?;
    Ok(())
}

/// Whether p and q are taken together from the structure {a, b} on, which they need.
fn needs_a_common_heir(alloc: Global) -> Result<bool, HierRefused> {
    let mut pair = nothing(alloc)?;
    needing(&mut pair)?;
    let set = MixSet::empty().with(2).with(3);
    let before = pair.hier.takes(carrier(), &set);
    compare_needs(&mut pair, carrier(), &set);
    structure(&mut pair, &[mixin_name(0), mixin_name(1)])?;
    compare_needs(&mut pair, carrier(), &set);
    compare_given(&mut pair, carrier());
    let after = needed(&pair.hier, carrier(), &set, 0) == Some(StructId(2));
    Ok(!before && after && pair.different == 0)
}

/// Whether r is refused where q was given under another structure.
fn misses_a_mixin(alloc: Global) -> Result<bool, HierRefused> {
    let mut pair = nothing(alloc)?;
    needing(&mut pair)?;
    let refused = give(&mut pair, carrier(), &[Some(StructId(0))], 4)?;
    Ok(is_refused(refused, HierRefused::MissingMixin(MixinId(3))))
}

/// Declares a factory that provides q and r, and gives it to the carrier under the first structure.
fn give_factory(h: &mut Hier) -> Result<(), HierRefused> {
    let name = NameId(1500);
    if h.known(name).is_some() {
        return Err(HierRefused::Finished(name));
    }
    let f = h.add_factory(name, &[], &[])?;
    h.finish_factory(f, &MixSet::empty().with(3).with(4))?;
    let at = carrier();
    let binders = [Some(StructId(0))];
    if can_give(h, at, &binders) {
        h.give(at, &binders, name)?;
    }
    Ok(())
}

/// Whether that is refused, since r requires q, which was given under another structure.
fn leaves_unmet(alloc: Global) -> Result<bool, HierRefused> {
    let mut pair = nothing(alloc)?;
    needing(&mut pair)?;
    match give_factory(&mut pair.hier) {
        Ok(()) => Ok(false),
        Err(why) => Ok(is_refused(Some(why), HierRefused::Unmet(MixinId(4), MixinId(3)))),
    }
}

#[test]
fn instances_ask_what_they_need(rt: HostRuntime) -> Result<(), HierRefused> {
    let alloc = rt.alloc();
    assert!(rt; needs_a_common_heir(alloc)? && misses_a_mixin(alloc)? && leaves_unmet(alloc)?);
    Ok(())
}
