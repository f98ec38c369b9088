//! Mixins and structures by number.
use hb_base::NameId;
use hb_hier::{Hier, HierRefused, StructId};

/// The name of the first structure; mixin `m` has the name `m`.
const STRUCTURES: u16 = 2000;

/// The name of mixin `m`.
pub(crate) fn mixin_name(m: u16) -> NameId {
    NameId(m)
}

/// The name of structure `s`.
pub(crate) fn structure_name(s: u16) -> NameId {
    NameId(STRUCTURES.saturating_add(s))
}

/// Declares so many mixins that require nothing.
pub(crate) fn mixins(h: &mut Hier, count: u16) -> Result<(), HierRefused> {
    for m in 0..count {
        mixin(h, mixin_name(m))?;
    }
    Ok(())
}

/// Declares one of them.
fn mixin(h: &mut Hier, name: NameId) -> Result<(), HierRefused> {
    if h.known(name).is_some() {
        return Err(HierRefused::Finished(name));
    }
    h.add_mixin(name, &[], &[])?;
    Ok(())
}

/// Declares structure `s` with what the names bring.
pub(crate) fn structure(h: &mut Hier, s: u16, items: &[NameId]) -> Result<(), HierRefused> {
    let name = structure_name(s);
    if h.known(name).is_some() {
        return Err(HierRefused::Finished(name));
    }
    h.add_structure(name, items)?;
    Ok(())
}

/// Whether the join of two declared structures is the third.
pub(crate) fn is_join(h: &Hier, a: u16, b: u16, j: u16) -> bool {
    a < h.structures()
        && b < h.structures()
        && h.join_of(StructId(a), StructId(b)) == Some(StructId(j))
}

/// Whether one declared structure is an heir of the other.
pub(crate) fn is_heir(h: &Hier, a: u16, b: u16) -> bool {
    a < h.structures() && b < h.structures() && h.heir(StructId(a), StructId(b))
}
