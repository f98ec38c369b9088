//! Structures for all sets of ten properties: each two have a join, that of the properties of both.
use crate::build::{is_heir, is_join, mixin_name, mixins, structure, structure_name};
use hb_base::NameId;
use hb_hier::{Hier, HierRefused};
use std::alloc::Global;
use std::vec::Vec;

/// How many properties there are.
pub(crate) const PROPERTIES: u16 = 10;

/// How many structures: a structure is a number whose bits are its properties. Mixin `m` is in each
/// structure that has the properties of `m`.
pub(crate) const COUNT: u16 = 1 << PROPERTIES;

/// How many pairs of them there are.
const PAIRS: u32 = 1 << (2 * PROPERTIES);

/// Declares all structures.
pub(crate) fn declare(alloc: Global, h: &mut Hier) -> Result<(), HierRefused> {
    for s in 0..COUNT {
        let items = items(alloc, s)?;
        structure(h, s, &items)?;
    }
    Ok(())
}

/// The structures with one property less, and the mixin of the same number.
fn items(alloc: Global, s: u16) -> Result<Vec<NameId>, HierRefused> {
    let mut names = Vec::new(alloc);
    for bit in 0..PROPERTIES {
        if (s >> bit) & 1 == 1 {
            names.push(structure_name(s & !(1 << bit)))?;
        }
    }
    names.push(mixin_name(s))?;
    Ok(names)
}

/// The hierarchy of all sets of properties.
pub(crate) fn built(alloc: Global) -> Result<Hier, HierRefused> {
    let mut h = Hier::new(alloc)?;
    mixins(&mut h, COUNT)?;
    declare(alloc, &mut h)?;
    Ok(h)
}

/// How many pairs have the heirs and the join that they should have.
fn right_pairs(h: &Hier) -> u32 {
    let mut right: u32 = 0;
    for a in 0..COUNT {
        for b in 0..COUNT {
            if is_right(h, a, b) {
                right = right.saturating_add(1);
            }
        }
    }
    right
}

/// Whether the join has the properties of both, and an heir those of the other.
fn is_right(h: &Hier, a: u16, b: u16) -> bool {
    is_join(h, a, b, a | b) && is_heir(h, a, b) == (a & b == b)
}

/// Whether all structures are declared, with the heirs and the joins that they should have, and again
/// after they were undone.
pub(crate) fn are_right(alloc: Global) -> bool {
    match built(alloc) {
        Ok(mut h) => right_pairs(&h) == PAIRS && are_right_again(alloc, &mut h),
        Err(_refused) => false,
    }
}

/// Whether they can be undone and declared again, with the same joins.
fn are_right_again(alloc: Global, h: &mut Hier) -> bool {
    back(h) && declare(alloc, h).is_ok() && right_pairs(h) == PAIRS
}

/// Undoes the structures, and says whether they are gone.
fn back(h: &mut Hier) -> bool {
    let mut mark = h.mark();
    if mark.givings != 0 {
        return false;
    }
    mark.structures = 0;
    h.undo(mark);
    h.structures() == 0
}
