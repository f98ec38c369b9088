//! Taking an entry of a library.
ghost use Rattle.std.specs.Prelude.{◌≡◌, None, IfErr, OnOk, OnErr};
ghost use Rattle.hb_calculus.specs.Budget.{budget};
ghost use Rattle.hb_env.specs.Plain.{plains};
ghost use Rattle.hb_world.specs.Worlds.{background, IsAsBefore};
ghost use Rattle.hb_hier.specs.Declaring.{with_structure};
ghost use Rattle.hb_world.specs.Taking.{Extends, HasAdded};
ghost use Rattle.hb_structure.specs.Grouping.{HasStructureOf};
ghost use Rattle.hb_structure.specs.Making.{IsMade, HasMadeOf};
ghost use Rattle.hb_structure.specs.Refusing.{CompareCause, LoadCause, LoadRefuses};

use crate::checking::{check_name, check_set};
use crate::declaring::{accept, made};
use hb_base::{Limits, NameId};
use hb_env::{Decl, Entry, Head, Places, Refusal, What};
use hb_items::{bad_library, check_names, not_made};
use hb_kernel::Theory;
use hb_sets::MixSet;
use hb_step::{Mark, refused};
use hb_world::World;
use std::alloc::Global;
use std::vec::Vec;

/// Takes the entry of a structure, as `apply` takes the command. A refusal stands at the entry; where its
/// declarations aren't those that the structure makes it is `BadLibrary`, at their count, or at the first
/// that differs.
pub fn replay(
    alloc: Global,
    theory: &mut Theory,
    world: &mut World,
    entry: &Entry,
    places: &Places,
    limits: &Limits,
) -> Result<(), Refusal>
    ensures unchanged { OnErr result (theory.new ≡ theory.old) }
    ensures as_before { OnErr result (IsAsBefore (background world.old) (background world.new)) }
    ensures grown { OnOk result (HasAdded theory.old theory.new entry.now) }
    ensures names { Extends world.old.names world.new.names }
    ensures hier { OnOk result (HasStructureOf entry.now.head world.old.hier world.new.hier) }
    ensures outside { OnOk result (world.old.section ≡ None) }
    ensures section { OnOk result (world.new.section ≡ world.old.section) }
    ensures made { OnOk result
        (HasMadeOf world.new.names theory.old (background world.old) entry.now.head (plains entry.now.decls.items)) }
    ensures refused { IfErr result
        (LoadRefuses theory.old (background world.old) (budget limits.now) places.now entry.now.head
        (plains entry.now.decls.items)) }
{
    let Head::Structure { name, items } = &entry.head else {
        return Err(refused(places.span, What::NotYet));
    };
    let span = places.span;
    check_name(theory, world, span, *name, span)?;
    check_names(&world.hier, items, span)?;
    let set = world.hier.brought(items);
    check_set(&world.hier, &set, *name, span)?;
    match taken(
        alloc, theory, world, entry, places, *name, items, &set, limits,
    ) {
        Ok(()) => Ok(()),
        Err(refusal) => Err(refusal),
    }
}

/// Declares the entry's structure and adds its declarations, which are what the structure makes, or takes
/// all back but the names.
fn taken(
    alloc: Global,
    theory: &mut Theory,
    world: &mut World,
    entry: &Entry,
    places: &Places,
    name: NameId,
    items: &[NameId],
    set: &MixSet,
    limits: &Limits,
) -> Result<(), Refusal>
    ensures unchanged { OnErr result (theory.new ≡ theory.old) }
    ensures as_before { OnErr result (IsAsBefore (background world.old) (background world.new)) }
    ensures grown { OnOk result (HasAdded theory.old theory.new entry.now) }
    ensures names { Extends world.old.names world.new.names }
    ensures hier { OnOk result (world.new.hier ≡ with_structure world.old.hier name items.now) }
    ensures section { OnOk result (world.new.section ≡ world.old.section) }
    ensures made { OnOk result
        (IsMade world.new.names theory.old (background world.old) name items.now set.now
        (plains entry.now.decls.items)) }
    ensures refused { IfErr result
        (LoadCause theory.old (background world.old) (budget limits.now) name items.now set.now places.now
        (plains entry.now.decls.items)) }
{
    let mark = Mark::new(theory, world);
    match made(alloc, theory, world, name, items, set, places.span) {
        Ok(decls) => match compared(alloc, theory, world, entry, places, decls, name, limits) {
            Ok(()) => Ok(()),
            Err(refusal) => {
                mark.undo(theory, world);
                Err(refusal)
            }
        },
        Err(refusal) => {
            mark.undo(theory, world);
            Err(refusal)
        }
    }
}

/// Adds the declarations, which are the entry's.
fn compared(
    alloc: Global,
    theory: &mut Theory,
    world: &World,
    entry: &Entry,
    places: &Places,
    decls: Vec<Decl>,
    name: NameId,
    limits: &Limits,
) -> Result<(), Refusal>
    ensures unchanged { OnErr result (theory.new ≡ theory.old) }
    ensures grown { OnOk result (HasAdded theory.old theory.new entry.now) }
    ensures same { OnOk result (plains entry.now.decls.items ≡ plains decls.items) }
    ensures refused { IfErr result
        (CompareCause (budget limits.now) theory.old world.now.hier name places.now
        (plains entry.now.decls.items) (plains decls.items)) }
{
    match not_made(entry, places, &decls) {
        Some(at) => Err(bad_library(places, at)),
        None => match accept(alloc, theory, world, decls, name, limits, places.span) {
            Ok(_decls) => Ok(()),
            Err(refusal) => Err(refusal),
        },
    }
}
