//! What an instance leaves in the section where it stands.
ghost use Rattle.std.specs.Prelude.{◌≡◌, ◌++◌, List, OnOk};
ghost use Rattle.std.specs.Option.{option_map};
ghost use Rattle.hb_base.specs.declared.name_id.NameId as name_ids;
ghost use Rattle.hb_tree.specs.Tree.{Tree};
ghost use Rattle.hb_world.specs.Worlds.{opened, value_of};
ghost use Rattle.hb_step.specs.Marks.{SectionGrew, OpenedGrew};
ghost use Rattle.hb_instance.specs.Giving.{HasGiven, Keeps};
ghost use Rattle.hb_instance.specs.Growing.{HasMore};

use hb_base::{NameId, Span};
use hb_env::{Decl, Refusal, What};
use hb_hier::{FactoryId, Hier, MixinId};
use hb_pack::{Made, Place, Role, term_at};
use hb_sets::MixSet;
use hb_step::refused;
use hb_tables::Tables;
use hb_term::Term;
use hb_world::Section;
use std::alloc::{AllocError, Global};
use std::vec::Vec;

/// The section, if one is open, with what its carrier has, what it provides, and the names of the constants.
pub(crate) fn grown_section(
    alloc: Global,
    hier: &Hier,
    tables: &Tables,
    section: Option<Section>,
    gives: &MixSet,
    own: &Made,
    place: Span,
) -> (Option<Section>, Result<(), Refusal>)
    ensures grew { SectionGrew (option_map opened section) (option_map opened result.0) }
    ensures kept { OnOk result.1
        (Keeps gives.now (option_map opened section) (option_map opened result.0)) }
{
    match section {
        None => (None, Ok(())),
        Some(section) => {
            let mut section = section;
            match grow(alloc, hier, tables, &mut section, gives, own) {
                Ok(()) => (Some(section), Ok(())),
                Err(_) => (Some(section), Err(refused(place, What::NoMemory))),
            }
        }
    }
}

/// The same of the open section.
fn grow(
    alloc: Global,
    hier: &Hier,
    tables: &Tables,
    section: &mut Section,
    gives: &MixSet,
    own: &Made,
) -> Result<(), AllocError>
    ensures grew { OpenedGrew (opened section.old) (opened section.new) }
    ensures gave { OnOk result (HasGiven gives.now (opened section.old) (opened section.new)) }
{
    add_names(&mut section.definitions, &own.decls)?;
    let factory = section.factory;
    add_terms(
        alloc,
        hier,
        tables,
        factory,
        &section.context,
        &mut section.own.given,
        &own.roles,
    )?;
    section.provided = section.provided.union(gives);
    Ok(())
}

/// Adds the names of the constants.
fn add_names(names: &mut Vec<NameId>, decls: &[Decl]) -> Result<(), AllocError>
    ensures { HasMore names.old.items names.new.items }
{
    for decl in decls {
        names.push(decl_name(decl))?;
    }
    Ok(())
}

/// The name of the declaration.
pub(crate) fn decl_name(decl: &Decl) -> NameId {
    match decl {
        Decl::Axiom { name, .. } | Decl::Def { name, .. } | Decl::Record { name, .. } => *name,
    }
}

/// Adds what the carrier has for the mixins that were built.
fn add_terms(
    alloc: Global,
    hier: &Hier,
    tables: &Tables,
    factory: FactoryId,
    context: &[Term],
    given: &mut Vec<(MixinId, Term)>,
    roles: &[Role],
) -> Result<(), AllocError>
    ensures { HasMore given.old.items given.new.items }
{
    for role in roles {
        if let Role::Builder(_, m) = role {
            let term = term_at(alloc, hier, tables, Place::Local(factory, context), m.0)?;
            given.push((*m, term))?;
        }
    }
    Ok(())
}
