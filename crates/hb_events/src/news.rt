//! The structures that a carrier newly has.
ghost use Rattle.std.specs.Prelude.{◌≡◌, IfOk};
ghost use Rattle.std.specs.Option.{option_map};
ghost use Rattle.hb_world.specs.Worlds.{background, opened};
ghost use Rattle.hb_events.specs.Events.{new_in_section, AreNew};
ghost use Rattle.hb_tables.specs.Maps.{entry_of};
ghost use Rattle.hb_events.specs.Listing.{is_late, is_new_in, new_at, new_in, struct_id, structure_names};

use crate::event::Had;
use crate::listing::push_name;
use hb_base::NameId;
use hb_env::{Env, Named};
use hb_hier::{Hier, Known};
use hb_order::StructId;
use hb_sets::MixSet;
use hb_tables::Tables;
use hb_tree::ConstId;
use hb_world::{Section, World};
use std::alloc::{AllocError, Global};

/// The structures that the carrier newly has.
pub(crate) fn new_structures(
    alloc: Global,
    world: &World,
    env: &Env,
    carrier: NameId,
    had: &Had,
) -> Result<Vec<NameId>, AllocError>
    ensures { IfOk result (λ list. AreNew env.now (background world.now) carrier.0 had.now list.items) }
{
    match had {
        Had::Declared(before) => {
            let named = env.lookup(carrier);
            new_at(alloc, &world.hier, &world.tables, named, *before)
        }
        Had::Local(before) => new_in_section(alloc, &world.hier, before, &world.section),
    }
}

/// The structures with instances at what the name stands for that were declared behind the first so many
/// declarations.
fn new_at(
    alloc: Global,
    hier: &Hier,
    tables: &Tables,
    named: Option<Named>,
    before: u32,
) -> Result<Vec<NameId>, AllocError>
    ensures { IfOk result (λ list. list.items ≡ new_at hier.now tables.now named before) }
{
    match named {
        Some(Named::Const(carrier)) => new_at_constant(alloc, hier, tables, carrier, before),
        Some(Named::Proj(_, _)) => Ok(Vec::new(alloc)),
        None => Ok(Vec::new(alloc)),
    }
}

/// The structures with instances at the constant that were declared behind the first so many declarations.
fn new_at_constant(
    alloc: Global,
    hier: &Hier,
    tables: &Tables,
    carrier: ConstId,
    before: u32,
) -> Result<Vec<NameId>, AllocError>
    ensures { IfOk result (λ list. list.items ≡ structure_names hier.now
        (λ s. is_late (entry_of tables.now (struct_id s) carrier) before)) }
{
    let mut list = Vec::new(alloc);
    for s in 0..hier.structures() {
        if is_late(tables.entry(StructId(s), carrier), before) {
            push_name(hier, Known::Structure(StructId(s)), &mut list)?;
        }
    }
    Ok(list)
}

/// Whether a constant was declared behind the first so many declarations.
fn is_late(constant: Option<ConstId>, before: u32) -> bool
    ensures { result ≡ is_late constant before }
{
    match constant {
        Some(constant) => before <= constant.decl,
        None => false,
    }
}

/// The structures whose mixins the carrier of the open section has now, and hadn't all before.
fn new_in_section(
    alloc: Global,
    hier: &Hier,
    before: &MixSet,
    section: &Option<Section>,
) -> Result<Vec<NameId>, AllocError>
    ensures { IfOk result (λ list. list.items ≡ new_in_section hier.now before.now (option_map opened section.now)) }
{
    match section {
        Some(section) => new_in(alloc, hier, before, &before.union(&section.provided)),
        None => Ok(Vec::new(alloc)),
    }
}

/// The structures whose mixins are held now, and weren't all held before.
fn new_in(
    alloc: Global,
    hier: &Hier,
    before: &MixSet,
    now: &MixSet,
) -> Result<Vec<NameId>, AllocError>
    ensures { IfOk result (λ list. list.items ≡ new_in hier.now before.now now.now) }
{
    let mut list = Vec::new(alloc);
    for s in 0..hier.structures() {
        if is_new_in(before, now, hier.mix(StructId(s))) {
            push_name(hier, Known::Structure(StructId(s)), &mut list)?;
        }
    }
    Ok(list)
}

/// Whether mixins are all held now, and weren't before.
fn is_new_in(before: &MixSet, now: &MixSet, mixins: &MixSet) -> bool
    ensures { result ≡ is_new_in before.now now.now mixins.now }
{
    mixins.subset(now) && !mixins.subset(before)
}
