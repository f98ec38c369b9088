//! The roles of a structure's declarations.
use crate::coercions::is_inside;
use crate::lists::listed;
use crate::operations::is_held;
use crate::roles::Role;
use hb_hier::{Hier, Known, MixinId, StructId};
use hb_sets::MixSet;
use std::alloc::{AllocError, Global};
use std::vec::Vec;

/// What the records, the operations and the coercions of a new structure with the set are to the tables.
pub fn shape_roles(alloc: Global, hier: &Hier, set: &MixSet) -> Result<Vec<Role>, AllocError> {
    let s = StructId(hier.structures());
    let mut roles = Vec::new(alloc);
    roles.push(Role::Plain)?;
    roles.push(Role::Pack(s))?;
    for m in &listed(alloc, set)? {
        for _field in 0..new_fields(hier, *m) {
            roles.push(Role::Operation(s))?;
        }
    }
    for t in 0..hier.structures() {
        if is_inside(hier.mix(StructId(t)), set) {
            roles.push(Role::Coercion(s, StructId(t)))?;
        }
    }
    Ok(roles)
}

/// How many fields the mixin has, if no declared structure has it.
fn new_fields(hier: &Hier, m: u16) -> usize {
    if is_held(hier, m) || m >= hier.mixins() {
        return 0;
    }
    hier.fields(Known::Mixin(MixinId(m))).len()
}
