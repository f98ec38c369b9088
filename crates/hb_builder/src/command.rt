//! Taking a command.
ghost use Rattle.std.specs.Prelude.{◌≡◌, ◌++◌, [], IfOk, IfErr, OnOk, OnErr};
ghost use Rattle.hb_env.specs.Plain.{plains};
ghost use Rattle.hb_raw.specs.Views.{act};
ghost use Rattle.hb_world.specs.Worlds.{background, IsAsBefore};
ghost use Rattle.hb_world.specs.Taking.{Extends, HasGrown, HasHead, word_name};
ghost use Rattle.std.specs.Option.{option_map};
ghost use Rattle.hb_env.specs.declared.entry.Head.TheVariants as heads;
ghost use Rattle.hb_builder.specs.Refusing.{BeginCause, Refuses};
ghost use Rattle.hb_builder.specs.Sections.{DeclaresNothing, HasBegun, HasSection};

use crate::begin::{begin, check_factory};
use crate::end::end;
use hb_base::{Limits, NameId, Span};
use hb_env::{Entry, Head, Refusal, What};
use hb_kernel::Theory;
use hb_raw::{Command, CommandKind, Item, Word};
use hb_step::{outside_section, refused};
use hb_world::{Done, World};
use std::alloc::Global;
use std::vec::Vec;

/// Takes the begin or the end of a section of builders. A begin is refused in this order: `SectionOpen`;
/// `UnknownFactory` and `Finished` of the factory; `NotCarrier`. An end is refused as `NoSection`. Neither
/// declares anything; where it is refused, nothing changes.
#[tactic(auto, using(crate::proofs::SameLemmas::as_before_same, crate::proofs::SameLemmas::extends_same, crate::proofs::SameLemmas::nothing_more))]
pub fn apply(
    alloc: Global,
    theory: &mut Theory,
    world: &mut World,
    taken: &Command,
    _limits: &Limits,
) -> Result<Done, Refusal>
    ensures unchanged { OnErr result (theory.new ≡ theory.old) }
    ensures as_before { OnErr result (IsAsBefore (background world.old) (background world.new)) }
    ensures grown { IfOk result (HasGrown theory.old theory.new) }
    ensures names { Extends world.old.names world.new.names }
    ensures head { IfOk result (HasHead (act taken.now.kind)) }
    ensures section { OnOk result
        (HasSection (act taken.now.kind) (background world.old) (background world.new)) }
    ensures none { IfOk result DeclaresNothing }
    ensures refused { IfErr result (Refuses (background world.old) taken.now.span (act taken.now.kind)) }
{
    match &taken.kind {
        CommandKind::Builders { carrier, var, item } => {
            match open(alloc, theory, world, taken.span, *carrier, *var, *item) {
                Ok(entry) => Ok(Done::Entry(entry)),
                Err(refusal) => Err(refusal),
            }
        }
        CommandKind::End => match end(world, taken.span) {
            Ok(()) => Ok(Done::Entry(ended(alloc))),
            Err(refusal) => Err(refusal),
        },
        CommandKind::Axiom { .. }
        | CommandKind::Definition { .. }
        | CommandKind::Mixin { .. }
        | CommandKind::Factory { .. }
        | CommandKind::Structure { .. }
        | CommandKind::Instance { .. }
        | CommandKind::Join { .. }
        | CommandKind::Find { .. }
        | CommandKind::Require { .. }
        | CommandKind::Howto { .. }
        | CommandKind::About { .. } => Err(refused(taken.span, What::NotYet)),
    }
}

/// The entry of the end of a section.
fn ended(alloc: Global) -> Entry
    ensures head { result.head ≡ heads.End }
    ensures decls { result.decls.items ≡ [] }
{
    Entry {
        head: Head::End,
        decls: Vec::new(alloc),
    }
}

/// Opens the section of the factory.
#[tactic(auto, using(crate::proofs::SameLemmas::as_before_same, crate::proofs::SameLemmas::extends_same, crate::proofs::SameLemmas::nothing_more))]
fn open(
    alloc: Global,
    theory: &Theory,
    world: &mut World,
    span: Span,
    carrier: Word,
    var: Option<Word>,
    item: Item,
) -> Result<Entry, Refusal>
    ensures as_before { OnErr result (IsAsBefore (background world.old) (background world.new)) }
    ensures names { world.new.names ≡ world.old.names }
    ensures head { IfOk result
        (λ e. e.head ≡ heads.Builders item.factory.name carrier.name (option_map word_name var)) }
    ensures decls { IfOk result (λ e. e.decls.items ≡ []) }
    ensures begun { OnOk result
        (HasBegun item.factory.name carrier.name (option_map word_name var) (background world.old) (background world.new)) }
    ensures refused { IfErr result (BeginCause (background world.old) span carrier item) }
{
    outside_section(world, span)?;
    let place = item.factory.span;
    let factory = check_factory(&world.hier, item.factory.name, place)?;
    if item.carrier.name.0 != carrier.name.0 {
        return Err(refused(item.carrier.span, What::NotCarrier(item.carrier.name)));
    }
    let var = name_of(var);
    begin(alloc, theory, world, factory, carrier.name, var, place)?;
    Ok(entry_of(alloc, item.factory.name, carrier.name, var))
}

/// The name of the word, if there is one.
fn name_of(word: Option<Word>) -> Option<NameId>
    ensures { result ≡ option_map word_name word }
{
    match word {
        Some(word) => Some(word.name),
        None => None,
    }
}

/// The entry of the begin of a section.
fn entry_of(alloc: Global, factory: NameId, carrier: NameId, var: Option<NameId>) -> Entry
    ensures head { result.head ≡ heads.Builders factory carrier var }
    ensures decls { result.decls.items ≡ [] }
{
    Entry {
        head: Head::Builders {
            factory,
            carrier,
            var,
        },
        decls: Vec::new(alloc),
    }
}
