//! Taking a command.
ghost use Rattle.std.specs.Prelude.{◌≡◌, None, IfOk, IfErr, OnOk, OnErr};
ghost use Rattle.hb_calculus.specs.Budget.{budget};
ghost use Rattle.hb_env.specs.Plain.{plains};
ghost use Rattle.hb_raw.specs.Views.{act};
ghost use Rattle.hb_raw.specs.Sentence.{structure};
ghost use Rattle.hb_world.specs.Worlds.{background, IsAsBefore};
ghost use Rattle.hb_hier.specs.Declaring.{with_structure};
ghost use Rattle.hb_hier.specs.Hierarchy.{brought};
ghost use Rattle.hb_world.specs.Taking.{Extends, HasGrown, HasAdded, HasHead, IsHeadOf, factory_names};
ghost use Rattle.hb_structure.specs.Grouping.{HasStructure};
ghost use Rattle.hb_structure.specs.Making.{IsMade, HasMade};
ghost use Rattle.hb_structure.specs.Refusing.{StructureCause, Refuses};

use crate::checking::{check_name, check_set};
use crate::declaring::declared;
use hb_base::{Limits, Span};
use hb_env::{Entry, Head, Refusal, What};
use hb_items::{check_items, item_names};
use hb_kernel::Theory;
use hb_raw::{Command, CommandKind, Item, Word};
use hb_step::refused;
use hb_world::{Done, World};
use std::alloc::Global;

/// Takes a structure, which also serves the carriers that came before it. Refused in this order:
/// `SectionOpen`; `ReservedName` and `Redeclared` of its name; for each item `UnknownFactory`,
/// `Unfinished`, `NotCarrier`; `EmptyStructure`, `SameStructure`, `AboveDeclared`, `MissingJoin`;
/// `Redeclared` of the names that it makes; `TooMany`; and what the kernel refuses. Where it is refused,
/// nothing changes but names.
pub fn apply(
    alloc: Global,
    theory: &mut Theory,
    world: &mut World,
    taken: &Command,
    limits: &Limits,
) -> Result<Done, Refusal>
    ensures unchanged { OnErr result (theory.new ≡ theory.old) }
    ensures as_before { OnErr result (IsAsBefore (background world.old) (background world.new)) }
    ensures grown { IfOk result (λ done. HasGrown theory.old theory.new done) }
    ensures names { Extends world.old.names world.new.names }
    ensures head { IfOk result (λ done. HasHead (act taken.now.kind) done) }
    ensures hier { OnOk result (HasStructure (act taken.now.kind) world.old.hier world.new.hier) }
    ensures outside { OnOk result (world.old.section ≡ None) }
    ensures section { OnOk result (world.new.section ≡ world.old.section) }
    ensures made { IfOk result
        (HasMade world.new.names theory.old (background world.old) (act taken.now.kind)) }
    ensures refused { IfErr result
        (Refuses theory.old (background world.old) (budget limits.now) taken.now.span (act taken.now.kind)) }
{
    match &taken.kind {
        CommandKind::Structure {
            name,
            carrier,
            items,
        } => match take(
            alloc, theory, world, taken.span, *name, *carrier, items, limits,
        ) {
            Ok(entry) => Ok(Done::Entry(entry)),
            Err(refusal) => Err(refusal),
        },
        CommandKind::Axiom { .. }
        | CommandKind::Definition { .. }
        | CommandKind::Mixin { .. }
        | CommandKind::Factory { .. }
        | CommandKind::Builders { .. }
        | CommandKind::End
        | CommandKind::Instance { .. }
        | CommandKind::Join { .. }
        | CommandKind::Find { .. }
        | CommandKind::Require { .. }
        | CommandKind::Howto { .. }
        | CommandKind::About { .. } => Err(refused(taken.span, What::NotYet)),
    }
}

/// Takes what is written.
fn take(
    alloc: Global,
    theory: &mut Theory,
    world: &mut World,
    span: Span,
    name: Word,
    carrier: Word,
    items: &[Item],
    limits: &Limits,
) -> Result<Entry, Refusal>
    ensures unchanged { OnErr result (theory.new ≡ theory.old) }
    ensures as_before { OnErr result (IsAsBefore (background world.old) (background world.new)) }
    ensures grown { IfOk result (λ e. HasAdded theory.old theory.new e) }
    ensures names { Extends world.old.names world.new.names }
    ensures head { IfOk result (λ e. IsHeadOf (structure name carrier items.now) e.head) }
    ensures hier { OnOk result (world.new.hier ≡ with_structure world.old.hier name.name (factory_names items.now)) }
    ensures outside { OnOk result (world.old.section ≡ None) }
    ensures section { OnOk result (world.new.section ≡ world.old.section) }
    ensures made { IfOk result
        (λ e. IsMade world.new.names theory.old (background world.old) name.name (factory_names items.now)
        (brought world.old.hier (factory_names items.now)) (plains e.decls.items)) }
    ensures refused { IfErr result
        (StructureCause theory.old (background world.old) (budget limits.now) span name carrier items.now) }
{
    check_name(theory, world, span, name.name, name.span)?;
    check_items(&world.hier, items, carrier)?;
    let Ok(items) = item_names(alloc, items) else {
        return Err(refused(name.span, What::NoMemory));
    };
    let set = world.hier.brought(&items);
    check_set(&world.hier, &set, name.name, name.span)?;
    match declared(
        alloc, theory, world, name.name, &items, &set, limits, name.span,
    ) {
        Ok(decls) => Ok(Entry {
            head: Head::Structure {
                name: name.name,
                items,
            },
            decls,
        }),
        Err(refusal) => Err(refusal),
    }
}
