//! The names of a structure's records.
ghost use Rattle.std.specs.Prelude.{◌≡◌, ℕ, ◌<◌, List, length, map, IfOk};
ghost use Rattle.hb_generated.specs.Generating.{class_field};
ghost use Rattle.hb_generated.specs.Session.{IsPrefix};
ghost use Rattle.hb_pack.specs.Packing.{AreNamesOf};

use crate::error::PackRefused;
use crate::look::name_of;
use crate::naming::{between, followed};
use hb_base::{NameId, Names};
use hb_hier::{Hier, Known, MixinId};
use std::alloc::Global;
use std::vec::Vec;

/// The names of the class record, of the package record, of their makers and their fields: for each
/// mixin a field of the class record, the carrier and the class of the package record.
#[derive(Drop)]
pub struct StructureNames {
    pub class: NameId,
    pub class_maker: NameId,
    pub class_fields: Vec<NameId>,
    pub pack: NameId,
    pub pack_maker: NameId,
    pub carrier: NameId,
    pub class_field: NameId,
}

/// The names of the fields for the mixins in the class record of the structure of the name.
fn class_field_names(
    alloc: Global,
    names: &mut Names,
    hier: &Hier,
    name: NameId,
    mixins: &[u16],
) -> Result<Vec<NameId>, PackRefused>
    ensures fields { IfOk result
        (λ fs. (N : List (List ℕ)) → IsPrefix names.new N
        → map (λ n. n.0) fs.items ≡ map (class_field N hier.now name.0) mixins.now) }
    ensures count { IfOk result (λ fs. length fs.items ≡ length mixins.now) }
    ensures kept { IsPrefix names.old names.new }
{
    let mut fields = Vec::new(alloc);
    for m in mixins {
        let mixin = name_of(hier, Known::Mixin(MixinId(*m)));
        let field = between(alloc, names, name, ".", mixin)?;
        fields.push(field)?;
    }
    Ok(fields)
}

/// The names of the records of the structure of the name, which has the mixins.
pub(crate) fn structure_names(
    alloc: Global,
    names: &mut Names,
    hier: &Hier,
    name: NameId,
    mixins: &[u16],
) -> Result<StructureNames, PackRefused>
    ensures names { IfOk result
        (λ r. (N : List (List ℕ)) → IsPrefix names.new N
        → AreNamesOf N hier.now name.0 mixins.now r) }
    ensures count { IfOk result (λ r. length r.class_fields.items ≡ length mixins.now) }
    ensures kept { IsPrefix names.old names.new }
{
    let class_fields = class_field_names(alloc, names, hier, name, mixins)?;
    let class = followed(alloc, names, name, ".axioms_")?;
    let class_maker = followed(alloc, names, name, ".Class")?;
    let pack = followed(alloc, names, name, ".type")?;
    let pack_maker = followed(alloc, names, name, ".Pack")?;
    let carrier = followed(alloc, names, name, ".sort")?;
    let class_field = followed(alloc, names, name, ".class")?;
    Ok(StructureNames {
        class,
        class_maker,
        class_fields,
        pack,
        pack_maker,
        carrier,
        class_field,
    })
}
