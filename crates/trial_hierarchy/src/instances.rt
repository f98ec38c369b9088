//! Instances at many carriers, under binders.
use crate::build::mixin_name;
use crate::subsets;
use hb_hier::{Hier, HierRefused, StructId};
use hb_sets::MixSet;
use hb_tree::ConstId;
use std::alloc::Global;

/// How many carriers there are, and how many mixins each is given.
const CARRIERS: u16 = 100;

const EACH: u16 = 100;

/// The carrier of the number.
fn carrier(number: u16) -> ConstId {
    ConstId {
        decl: u32::from(number),
        maker: false,
    }
}

/// What the carrier's first argument is asked for mixin `m`: one property. Its second is asked for the
/// structure of the mixin's number.
fn first(number: u16, m: u16) -> u16 {
    1 << (number.wrapping_add(m) % subsets::PROPERTIES)
}

/// Gives each carrier its mixins.
fn give_all(h: &mut Hier) -> Result<(), HierRefused> {
    for m in 0..EACH {
        for number in 0..CARRIERS {
            give_one(h, number, m)?;
        }
    }
    Ok(())
}

/// Gives one mixin to one carrier.
fn give_one(h: &mut Hier, number: u16, m: u16) -> Result<(), HierRefused> {
    let asked = StructId(first(number, m));
    let other = StructId(m);
    let name = mixin_name(m);
    let at = carrier(number);
    let alike = match h.binders(at) {
        Some(n) => n == 2,
        None => true,
    };
    let declared = asked.0 < h.structures() && other.0 < h.structures();
    if !alike || !declared || h.mark().givings == u32::MAX {
        return Err(HierRefused::Finished(name));
    }
    h.give(at, &[Some(asked), Some(other)], name)?;
    Ok(())
}

/// The mixins that each carrier was given.
fn each() -> MixSet {
    let mut all = MixSet::empty();
    for m in 0..EACH {
        all = all.with(m);
    }
    all
}

/// How many carriers have what they were given, and need what is asked.
fn right_carriers(h: &Hier) -> u32 {
    let all = each();
    let mut right: u32 = 0;
    for number in 0..CARRIERS {
        if is_right(h, carrier(number), &all) {
            right = right.saturating_add(1);
        }
    }
    right
}

/// Whether the carrier has the set, and needs all properties of its first argument, and of its second those
/// of the structures that it was asked.
fn is_right(h: &Hier, at: ConstId, set: &MixSet) -> bool {
    h.given(at).same(set)
        && needs(h, at, set, 0) == subsets::COUNT - 1
        && needs(h, at, set, 1) == asked_together()
}

/// The properties of all structures that a second argument is asked.
fn asked_together() -> u16 {
    let mut all: u16 = 0;
    for m in 0..EACH {
        all |= m;
    }
    all
}

/// The structure that the argument needs, 1,024 for none.
fn needs(h: &Hier, at: ConstId, set: &MixSet, place: u16) -> u16 {
    if h.binders(at) != Some(2) || place >= 2 || !h.takes(at, set) {
        return 1024;
    }
    match h.need(at, set, place) {
        Some(s) => s.0,
        None => 1024,
    }
}

/// Undoes the instances, and says whether they are gone.
fn back(h: &mut Hier) -> bool {
    let mut mark = h.mark();
    mark.givings = 0;
    h.undo(mark);
    h.carriers().is_empty()
}

/// Whether the carriers have what they were given and need what is asked, and again after the instances
/// were undone.
pub(crate) fn are_right(alloc: Global) -> bool {
    match subsets::built(alloc) {
        Ok(mut h) => are_given(&mut h) && back(&mut h) && are_given(&mut h),
        Err(_refused) => false,
    }
}

/// Gives all, and says whether each carrier has what it should have.
fn are_given(h: &mut Hier) -> bool {
    give_all(h).is_ok() && right_carriers(h) == u32::from(CARRIERS)
}
