//! Taking a command.
ghost use Rattle.std.specs.Prelude.{◌≡◌, ◌++◌, ◌⊎◌, ℕ, List, map, None, IfOk, IfErr, OnOk, OnErr};
ghost use Rattle.hb_calculus.specs.Budget.{Budget, budget};
ghost use Rattle.hb_env.specs.Plain.{plains};
ghost use Rattle.hb_raw.specs.Views.{act, field};
ghost use Rattle.hb_step.specs.Elaborating.{IsOfElaboration};
ghost use Rattle.hb_world.specs.Worlds.{background, IsAsBefore};
ghost use Rattle.hb_world.specs.Taking.{factory_names, Extends, HasGrown, HasAdded, HasHead};
ghost use Rattle.hb_mixin.specs.Adding.{with_kind};
ghost use Rattle.hb_mixin.specs.Declaring.{HasDeclared};
ghost use Rattle.hb_mixin.specs.Heads.{HasNames, head_for};
ghost use Rattle.hb_mixin.specs.Refusing.{FirstKept, IsAdmitted, MayHaveNames, NoneKept, NotDeclared, NotTaken, Refuses};
ghost use Rattle.hb_mixin.specs.Steps.{family, writing};

use crate::declaring::{Kind, Naming, declare};
use crate::fields::{elaborate, full_names, short_names};
use hb_base::{Limits, NameId, Names, Span};
use hb_env::{Entry, Head, Refusal, What};
use hb_items::{check_items, item_names};
use hb_kernel::Theory;
use hb_raw::{Command, CommandKind, Field, Item, Word};
use hb_step::{not_reserved, not_reserved_part, not_taken, outside_section, refused};
use hb_world::{Done, World};
use std::alloc::Global;
use std::vec::Vec;

/// A mixin or a factory as it is written.
#[derive(Clone, Copy)]
pub(crate) struct Written<'a> {
    pub kind: Kind,
    pub name: Word,
    pub carrier: Word,
    pub items: &'a [Item],
    pub fields: &'a [Field],
}

/// Takes a mixin or a factory. Refused in this order: `SectionOpen`; `ReservedName` of its name and of its
/// fields'; `Redeclared` of its name; for each item `UnknownFactory`, `Unfinished`, `NotCarrier`; the faults
/// of its fields' types; `Redeclared` of the names of its record; `TooMany`; and what the kernel refuses.
/// Where it is refused, nothing changes but names.
pub fn apply(
    alloc: Global,
    theory: &mut Theory,
    world: &mut World,
    taken: &Command,
    limits: &Limits,
) -> Result<Done, Refusal>
    ensures unchanged { OnErr result (theory.new ≡ theory.old) }
    ensures as_before { OnErr result (IsAsBefore (background world.old) (background world.new)) }
    ensures grown { IfOk result (HasGrown theory.old theory.new) }
    ensures names { Extends world.old.names world.new.names }
    ensures head { IfOk result (HasHead (act taken.now.kind)) }
    ensures hier { OnOk result (HasDeclared (act taken.now.kind) world.old.hier world.new.hier) }
    ensures outside { OnOk result (world.old.section ≡ None) }
    ensures section { OnOk result (world.new.section ≡ world.old.section) }
    ensures refused { IfErr result
        (Refuses theory.old (background world.old) world.new.names (budget limits.now) (act taken.now.kind)
        taken.now.span) }
{
    match &taken.kind {
        CommandKind::Mixin {
            name,
            carrier,
            items,
            fields,
        } => {
            let written = Written {
                kind: Kind::Mixin,
                name: *name,
                carrier: *carrier,
                items,
                fields,
            };
            match take(alloc, theory, world, taken.span, written, limits) {
                Ok(entry) => Ok(Done::Entry(entry)),
                Err(refusal) => Err(refusal),
            }
        }
        CommandKind::Factory {
            name,
            carrier,
            items,
            fields,
        } => {
            let written = Written {
                kind: Kind::Factory,
                name: *name,
                carrier: *carrier,
                items,
                fields,
            };
            match take(alloc, theory, world, taken.span, written, limits) {
                Ok(entry) => Ok(Done::Entry(entry)),
                Err(refusal) => Err(refusal),
            }
        }
        CommandKind::Axiom { .. }
        | CommandKind::Definition { .. }
        | CommandKind::Builders { .. }
        | CommandKind::End
        | CommandKind::Structure { .. }
        | CommandKind::Instance { .. }
        | CommandKind::Join { .. }
        | CommandKind::Find { .. }
        | CommandKind::Require { .. }
        | CommandKind::Howto { .. }
        | CommandKind::About { .. } => Err(refused(taken.span, What::NotYet)),
    }
}

/// Takes what is written.
fn take(
    alloc: Global,
    theory: &mut Theory,
    world: &mut World,
    span: Span,
    written: Written<'_>,
    limits: &Limits,
) -> Result<Entry, Refusal>
    ensures unchanged { OnErr result (theory.new ≡ theory.old) }
    ensures as_before { OnErr result (IsAsBefore (background world.old) (background world.new)) }
    ensures grown { IfOk result (HasAdded theory.old theory.new) }
    ensures names { Extends world.old.names world.new.names }
    ensures head { IfOk result (λ e. HasNames written.entry.kind written.entry.items.now e.head) }
    ensures hier { OnOk result
        (world.new.hier ≡ with_kind written.entry.kind world.old.hier written.entry.name.name
        (factory_names written.entry.items.now) (map (λ f. f.name.name) written.entry.fields.now)) }
    ensures outside { OnOk result (world.old.section ≡ None) }
    ensures section { OnOk result (world.new.section ≡ world.old.section) }
    ensures refused { IfErr result
        (NotTaken theory.old (background world.old) world.new.names (budget limits.now)
        (writing written.entry.kind written.entry.name written.entry.carrier written.entry.items.now
        written.entry.fields.now) span) }
{
    match admit(theory, world, span, written) {
        Ok(()) => declare_written(alloc, theory, world, written, limits),
        Err(refusal) => Err(refusal),
    }
}

/// No section is open, the names may be declared, and the items may stand in the list.
fn admit(theory: &Theory, world: &World, span: Span, written: Written<'_>) -> Result<(), Refusal>
    ensures admitted { OnOk result
        (IsAdmitted theory.now (background world.now)
        (writing written.entry.kind written.entry.name written.entry.carrier written.entry.items.now
        written.entry.fields.now)) }
    ensures refused { IfErr result
        (λ r. (N : List (List ℕ)) (L : Budget) → NotTaken theory.now (background world.now) N L
        (writing written.entry.kind written.entry.name written.entry.carrier written.entry.items.now
        written.entry.fields.now) span r) }
{
    outside_section(world, span)?;
    check_names(theory, world, written)?;
    check_items(&world.hier, written.items, written.carrier)
}

/// Its name and its fields' aren't kept, and its name is new.
fn check_names(theory: &Theory, world: &World, written: Written<'_>) -> Result<(), Refusal>
    ensures names { OnOk result
        (MayHaveNames theory.now (background world.now)
        (writing written.entry.kind written.entry.name written.entry.carrier written.entry.items.now
        written.entry.fields.now)) }
    ensures refused { IfErr result
        (λ r. (N : List (List ℕ)) (L : Budget) (s : _) → world.now.section ≡ None
        → NotTaken theory.now (background world.now) N L
        (writing written.entry.kind written.entry.name written.entry.carrier written.entry.items.now
        written.entry.fields.now) s r) }
{
    let name = written.name;
    not_reserved(&world.names, name.name, name.span)?;
    not_reserved_part(&world.names, name.name, name.span)?;
    check_field_names(&world.names, written.fields)?;
    not_taken(theory.env(), &world.hier, name.name, name.span)
}

/// The names of the fields aren't kept.
fn check_field_names(names: &Names, fields: &[Field]) -> Result<(), Refusal>
    ensures free { OnOk result (NoneKept names.now (map field fields.now)) }
    ensures refused { IfErr result (FirstKept names.now (map field fields.now)) }
{
    for field in fields {
        not_reserved_part(names, field.name.name, field.name.span)?;
    }
    Ok(())
}

/// Declares what is written, which is admitted.
fn declare_written(
    alloc: Global,
    theory: &mut Theory,
    world: &mut World,
    written: Written<'_>,
    limits: &Limits,
) -> Result<Entry, Refusal>
    ensures unchanged { OnErr result (theory.new ≡ theory.old) }
    ensures as_before { OnErr result (IsAsBefore (background world.old) (background world.new)) }
    ensures grown { IfOk result (HasAdded theory.old theory.new) }
    ensures names { Extends world.old.names world.new.names }
    ensures head { IfOk result (λ e. HasNames written.entry.kind written.entry.items.now e.head) }
    ensures hier { OnOk result
        (world.new.hier ≡ with_kind written.entry.kind world.old.hier written.entry.name.name
        (factory_names written.entry.items.now) (map (λ f. f.name.name) written.entry.fields.now)) }
    ensures section { OnOk result (world.new.section ≡ world.old.section) }
    ensures refused { IfErr result
        (λ r. IsOfElaboration r.what
        ⊎ NotDeclared world.new.names theory.old world.old.hier (budget limits.now)
        (family written.entry.kind) written.entry.name.name (factory_names written.entry.items.now)
        (map (λ f. f.name.name) written.entry.fields.now) written.entry.name.span r) }
{
    let place = written.name.span;
    let Ok(items) = item_names(alloc, written.items) else {
        return Err(refused(place, What::NoMemory));
    };
    let types = elaborate(alloc, theory, world, written, &items, limits)?;
    let Ok(shorts) = short_names(alloc, written.fields) else {
        return Err(refused(place, What::NoMemory));
    };
    let fields = full_names(alloc, &mut world.names, written.name, &shorts, types)?;
    let naming = Naming {
        kind: written.kind,
        name: written.name.name,
        items: &items,
        shorts: &shorts,
    };
    let decls = declare(alloc, theory, world, naming, fields, None, place, limits)?;
    Ok(Entry {
        head: head_of(written.kind, items),
        decls,
    })
}

/// The head of its entry.
fn head_of(kind: Kind, items: Vec<NameId>) -> Head
    ensures { result ≡ head_for kind items }
{
    match kind {
        Kind::Mixin => Head::Mixin { items },
        Kind::Factory => Head::Factory { items },
    }
}
