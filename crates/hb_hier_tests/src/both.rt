//! A hierarchy, and the lists that it should keep.
use crate::ways::{can_give, plain_check, plain_given};
use hb_base::NameId;
use hb_hier::{Hier, HierRefused, StructId};
use hb_sets::MixSet;
use hb_tree::ConstId;
use plain_hierarchy::Giving;
use std::alloc::Global;
use std::vec::Vec;

/// The name of the first structure; mixin `m` has the name `m`.
const STRUCTURES: u16 = 2000;

/// A hierarchy beside its mixins with what each requires, its structures and its givings. What both ways
/// answered differently is counted.
#[derive(Drop)]
pub struct Both {
    pub alloc: Global,
    pub hier: Hier,
    pub mixins: Vec<MixSet>,
    pub structures: Vec<MixSet>,
    pub givings: Vec<Giving>,
    pub different: u32,
}

/// The hierarchy in which nothing was declared.
pub fn nothing(alloc: Global) -> Result<Both, HierRefused> {
    Ok(Both {
        alloc,
        hier: Hier::new(alloc)?,
        mixins: Vec::new(alloc),
        structures: Vec::new(alloc),
        givings: Vec::new(alloc),
        different: 0,
    })
}

/// The name of mixin `m`.
pub fn mixin_name(m: u16) -> NameId {
    NameId(m)
}

/// The name of structure `s`.
pub fn structure_name(s: u16) -> NameId {
    NameId(STRUCTURES.saturating_add(s))
}

/// Counts a difference, unless both ways agree.
pub fn agree(both: &mut Both, same: bool) {
    if !same {
        both.different = both.different.saturating_add(1);
    }
}

/// The first of the names under which nothing was declared.
fn unknown(both: &Both, items: &[NameId]) -> Option<NameId> {
    for name in items {
        if !is_declared(both, *name) {
            return Some(*name);
        }
    }
    None
}

/// Whether a mixin or a structure was declared under the name.
fn is_declared(both: &Both, name: NameId) -> bool {
    if name.0 < STRUCTURES {
        usize::from(name.0) < both.mixins.len()
    } else {
        usize::from(name.0 - STRUCTURES) < both.structures.len()
    }
}

/// The mixins that a name brings.
fn named(both: &Both, name: NameId) -> MixSet {
    if name.0 < STRUCTURES {
        member(&both.mixins, name.0)
    } else {
        member(&both.structures, name.0 - STRUCTURES)
    }
}

/// The set of the number, empty beyond the last.
fn member(sets: &[MixSet], at: u16) -> MixSet {
    match sets.get(usize::from(at)) {
        Some(set) => set.copy(),
        None => MixSet::empty(),
    }
}

/// The mixins that the names bring.
fn brought(both: &Both, items: &[NameId]) -> MixSet {
    let mut all = MixSet::empty();
    for name in items {
        all = all.union(&named(both, *name));
    }
    all
}

/// Declares one more mixin, which requires what the items bring.
pub fn mixin(both: &mut Both, items: &[NameId]) -> Result<(), HierRefused> {
    let name = mixin_name(both.hier.mixins());
    if both.hier.known(name).is_some() {
        return Err(HierRefused::Finished(name));
    }
    let required = brought(both, items);
    let m = both.hier.add_mixin(name, items, &[])?;
    if m.0 < 1024 {
        both.mixins.push(required.with(m.0))?;
    }
    Ok(())
}

/// Declares so many mixins that require nothing.
pub fn mixins(both: &mut Both, count: u16) -> Result<(), HierRefused> {
    for _m in 0..count {
        mixin(both, &[])?;
    }
    Ok(())
}

/// Declares one more structure in both ways, and answers why it was refused, if it was.
pub fn structure(both: &mut Both, items: &[NameId]) -> Result<Option<HierRefused>, HierRefused> {
    let name = structure_name(both.hier.structures());
    if both.hier.known(name).is_some() {
        return Err(HierRefused::Finished(name));
    }
    let set = brought(both, items);
    let plain = match unknown(both, items) {
        Some(other) => Some(HierRefused::UnknownFactory(other)),
        None => plain_check(&both.structures, &set),
    };
    match both.hier.add_structure(name, items) {
        Ok(s) => {
            let same = plain.is_none() && usize::from(s.0) == both.structures.len();
            agree(both, same);
            both.structures.push(set)?;
            Ok(None)
        }
        Err(why) => {
            agree(both, plain == Some(why));
            Ok(Some(why))
        }
    }
}

/// Gives the mixin to the carrier in both ways, and answers why it was refused, if it was.
pub fn give(
    both: &mut Both,
    carrier: ConstId,
    binders: &[Option<StructId>],
    m: u16,
) -> Result<Option<HierRefused>, HierRefused> {
    let name = mixin_name(m);
    if !can_give(&both.hier, carrier, binders) || m >= 1024 {
        return Err(HierRefused::Finished(name));
    }
    let gives = MixSet::empty().with(m);
    let expected = gives.minus(&plain_given(&both.givings, carrier));
    match both.hier.give(carrier, binders, name) {
        Ok(fresh) => {
            agree(both, fresh.same(&expected));
            let binders = Vec::from_slice(both.alloc, binders)?;
            both.givings.push(Giving {
                carrier,
                binders,
                gives,
            })?;
            Ok(None)
        }
        Err(why) => Ok(Some(why)),
    }
}
