//! How much a hierarchy holds at most, and what its names are.
use hb_base::{Count, NameId};
use hb_hier::{Hier, HierRefused, Known, MixinId};
use std::alloc::Global;

/// Declares so many mixins that require nothing.
fn declare(h: &mut Hier, count: u16) -> Result<(), HierRefused> {
    for m in 0..count {
        declare_one(h, NameId(m))?;
    }
    Ok(())
}

/// Declares one of them.
fn declare_one(h: &mut Hier, name: NameId) -> Result<(), HierRefused> {
    if h.known(name).is_some() {
        return Err(HierRefused::Finished(name));
    }
    h.add_mixin(name, &[], &[])?;
    Ok(())
}

/// Whether one mixin more is refused.
fn is_full(h: &mut Hier) -> bool {
    declare_one(h, NameId(1024)) == Err(HierRefused::TooMany(Count::Mixins))
}

/// Whether the last mixin has its name and its number, and the next name is free.
fn is_known(h: &Hier) -> bool {
    let last = Known::Mixin(MixinId(1023));
    h.known(NameId(1023)) == Some(last)
        && h.name(last) == Some(NameId(1023))
        && h.known_at(1023) == Some(last)
        && h.known(NameId(1024)).is_none()
}

/// Declares 1,024 mixins, and one more.
fn full(alloc: Global) -> Result<bool, HierRefused> {
    let mut h = Hier::new(alloc)?;
    declare(&mut h, 1024)?;
    Ok(is_full(&mut h) && is_known(&h))
}

#[test]
fn the_1025th_mixin_is_refused(rt: HostRuntime) -> Result<(), HierRefused> {
    assert!(rt; full(rt.alloc())?);
    Ok(())
}
