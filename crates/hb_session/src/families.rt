//! The families of commands.
ghost use Rattle.std.specs.Prelude.{◌≡◌, IfOk, OnOk, OnErr};
ghost use Rattle.hb_raw.specs.Views.{act};
ghost use Rattle.hb_world.specs.Taking.{Extends, HasAdded, HasGrown, HasHead};
ghost use Rattle.hb_world.specs.Worlds.{background, IsAsBefore};
ghost use Rattle.hb_env.specs.Plain.{plains};
ghost use Rattle.hb_session.specs.Growing.{Grows, GrowsBy, Leaves, LeavesBy};
ghost use Rattle.hb_session.specs.Taking.{HasFamily};

use crate::refusing::at;
use hb_base::Limits;
use hb_env::{Entry, Head, Places, Refusal, What};
use hb_kernel::Theory;
use hb_raw::{Command, CommandKind};
use hb_world::{Done, World};
use std::alloc::Global;

/// Takes a command by its family: its entry or its answer, or a refusal, which changes nothing but the
/// names. What has no family, as a required file, is `NotYet`.
pub(crate) fn apply(
    alloc: Global,
    theory: &mut Theory,
    world: &mut World,
    taken: &Command,
    limits: &Limits,
) -> Result<Done, Refusal>
    ensures unchanged { OnErr result (theory.new ≡ theory.old) }
    ensures as_before { OnErr result (IsAsBefore (background world.old) (background world.new)) }
    ensures grown { IfOk result (λ done. HasGrown theory.old theory.new done) }
    ensures names { Extends world.old.names world.new.names }
    ensures head { IfOk result (λ done. HasHead (act taken.now.kind) done) }
    ensures grows { OnOk result (Grows (act taken.now.kind) theory.old (background world.old)
        (background world.new)) }
    ensures leaves { OnOk result (Leaves (act taken.now.kind) world.old.hier
        (background world.old).section (background world.new).section) }
{
    match &taken.kind {
        CommandKind::Axiom { .. }
        | CommandKind::Definition { .. }
        | CommandKind::Join { .. }
        | CommandKind::Find { .. } => hb_plain::apply(alloc, theory, world, taken, limits),
        CommandKind::Mixin { .. } | CommandKind::Factory { .. } => {
            hb_mixin::apply(alloc, theory, world, taken, limits)
        }
        CommandKind::Structure { .. } => {
            hb_structure::apply(alloc, theory, world, taken, limits)
        }
        CommandKind::Instance { .. } => hb_instance::apply(alloc, theory, world, taken, limits),
        CommandKind::Builders { .. } | CommandKind::End => {
            hb_builder::apply(alloc, theory, world, taken, limits)
        }
        CommandKind::Require { .. } | CommandKind::Howto { .. } | CommandKind::About { .. } => Err(
            at(taken.span, What::NotYet),
        ),
    }
}

/// Takes an entry of a library or of a core text by its family: its declarations are added, or it is
/// refused, which changes nothing but the names. A required file's has no family.
pub(crate) fn replay(
    alloc: Global,
    theory: &mut Theory,
    world: &mut World,
    entry: &Entry,
    places: &Places,
    limits: &Limits,
) -> Result<(), Refusal>
    ensures unchanged { OnErr result (theory.new ≡ theory.old) }
    ensures as_before { OnErr result (IsAsBefore (background world.old) (background world.new)) }
    ensures grown { OnOk result (HasAdded theory.old theory.new entry.now) }
    ensures names { Extends world.old.names world.new.names }
    ensures grows { OnOk result (GrowsBy entry.now.head (plains entry.now.decls.items) theory.old
        (background world.old) (background world.new)) }
    ensures leaves { OnOk result (LeavesBy entry.now.head (plains entry.now.decls.items)
        world.old.hier (background world.old).section (background world.new).section) }
{
    match &entry.head {
        Head::Core | Head::Axiom | Head::Definition => {
            hb_plain::replay(alloc, theory, world, entry, places, limits)
        }
        Head::Mixin { .. } | Head::Factory { .. } => {
            hb_mixin::replay(alloc, theory, world, entry, places, limits)
        }
        Head::Structure { .. } => {
            hb_structure::replay(alloc, theory, world, entry, places, limits)
        }
        Head::Instance { .. } => hb_instance::replay(alloc, theory, world, entry, places, limits),
        Head::Builders { .. } | Head::End => {
            hb_builder::replay(alloc, theory, world, entry, places, limits)
        }
        Head::Require { .. } => Err(at(places.span, What::NotYet)),
    }
}
