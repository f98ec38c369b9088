//! Structures each with one mixin more than the one before.
use crate::build::{is_heir, is_join, mixin_name, mixins, structure, structure_name};
use hb_hier::{Hier, HierRefused};
use std::alloc::Global;

/// How many mixins and structures there are.
const COUNT: u16 = 1024;

/// How many pairs of them there are.
const PAIRS: u32 = COUNT as u32 * COUNT as u32;

/// The chain.
fn built(alloc: Global) -> Result<Hier, HierRefused> {
    let mut h = Hier::new(alloc)?;
    mixins(&mut h, COUNT)?;
    structure(&mut h, 0, &[mixin_name(0)])?;
    for s in 1..COUNT {
        structure(&mut h, s, &[structure_name(s - 1), mixin_name(s)])?;
    }
    Ok(h)
}

/// How many pairs have the heirs and the join that they should have.
fn right_pairs(h: &Hier) -> u32 {
    let mut right: u32 = 0;
    for a in 0..COUNT {
        for b in 0..COUNT {
            if is_join(h, a, b, a.max(b)) && is_heir(h, a, b) == (a >= b) {
                right = right.saturating_add(1);
            }
        }
    }
    right
}

/// Whether the chain is declared, and all its pairs have the heirs and the join that they should have.
pub(crate) fn is_right(alloc: Global) -> bool {
    match built(alloc) {
        Ok(h) => right_pairs(&h) == PAIRS,
        Err(_refused) => false,
    }
}
