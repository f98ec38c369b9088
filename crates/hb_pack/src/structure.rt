//! The declarations of structures.
ghost use Rattle.std.specs.Prelude.{◌≡◌, ℕ, ◌<◌, ◌≤◌, List, length, IfOk};
ghost use Rattle.hb_env.specs.Plain.{plains};
ghost use Rattle.hb_generated.specs.State.{State, decls};
ghost use Rattle.hb_generated.specs.Reading as reading;
ghost use Rattle.hb_generated.specs.Generating.{gen_shape};
ghost use Rattle.hb_generated.specs.Session.{IsPrefix};
ghost use Rattle.hb_pack.specs.Packing.{IsOver};

use crate::coercions::coercions;
use crate::error::PackRefused;
use crate::layout::Layout;
use crate::lists::listed;
use crate::names::structure_names;
use crate::operations::operations;
use crate::records::{class_record, pack_record};
use hb_base::{NameId, Names};
use hb_env::{Decl, Env};
use hb_hier::Hier;
use hb_sets::MixSet;
use hb_tables::Tables;
use hb_term::RecId;
use std::alloc::Global;
use std::vec::Vec;

/// The declarations of a new structure with the set: its records, the operations of its new mixins, and
/// the coercions to the structures that lie strictly inside. Its instances come after it was declared.
pub fn shape_decls(
    alloc: Global,
    env: &Env,
    names: &mut Names,
    hier: &Hier,
    tables: &Tables,
    name: NameId,
    set: &MixSet,
) -> Result<Vec<Decl>, PackRefused>
    ensures declarations { IfOk result
        (λ ds. (N : List (List ℕ)) (S : State) → IsPrefix names.new N → IsOver S env.now hier.now tables.now
        → plains ds.items ≡ decls (gen_shape N S name.0 set.now)) }
    ensures kept { IsPrefix names.old names.new }
{
    let mixins = listed(alloc, set)?;
    let made = shape_over(alloc, env, names, hier, tables, name, set, &mixins)?;
    Ok(made)
}

/// The same, where the mixins of the set are listed.
fn shape_over(
    alloc: Global,
    env: &Env,
    names: &mut Names,
    hier: &Hier,
    tables: &Tables,
    name: NameId,
    set: &MixSet,
    mixins: &[u16],
) -> Result<Vec<Decl>, PackRefused>
    requires listed { mixins.now ≡ reading.listed set.now }
    requires few { length mixins.now ≤ 1024 }
    ensures declarations { IfOk result
        (λ ds. (N : List (List ℕ)) (S : State) → IsPrefix names.new N → IsOver S env.now hier.now tables.now
        → plains ds.items ≡ decls (gen_shape N S name.0 set.now)) }
    ensures kept { IsPrefix names.old names.new }
{
    let own = structure_names(alloc, names, hier, name, mixins)?;
    let class = class_record(alloc, env, hier, &own, mixins)?;
    let pack = pack_record(alloc, env, hier, &own, mixins)?;
    let at = env.len();
    let members = listed(alloc, set)?;
    let layout = Layout {
        class: RecId(at),
        pack: RecId(at + 1),
        mixins: members,
    };
    let mut new_operations = operations(alloc, env, hier, &layout, mixins)?;
    let mut new_coercions = coercions(alloc, names, hier, tables, name, &layout, set)?;
    let mut made = Vec::new(alloc);
    made.push(class)?;
    made.push(pack)?;
    made.append(&mut new_operations)?;
    made.append(&mut new_coercions)?;
    Ok(made)
}
