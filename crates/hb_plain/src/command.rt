//! Taking a command.
ghost use Rattle.std.specs.Prelude.{◌≡◌, IfOk, IfErr, OnOk, OnErr};
ghost use Rattle.hb_calculus.specs.Budget.{budget};
ghost use Rattle.hb_raw.specs.Views.{act, command};
ghost use Rattle.hb_env.specs.declared.entry.Head.TheVariants as head;
ghost use Rattle.hb_world.specs.Worlds.{IsAsBefore, background};
ghost use Rattle.hb_world.specs.Taking.{HasAdded, HasGrown, HasHead, Extends};
ghost use Rattle.hb_plain.specs.Declaring.{Declares};
ghost use Rattle.hb_plain.specs.Refusing.{Refuses};
ghost use Rattle.hb_plain.specs.Sections.{section_after};

use crate::axiom::axiom;
use crate::definition::{Written, definition};
use crate::query::{find, join_of};
use hb_base::Limits;
use hb_env::{Entry, Refusal, What};
use hb_kernel::Theory;
use hb_raw::{Command, CommandKind};
use hb_step::refused;
use hb_world::{Done, World};
use std::alloc::Global;

/// Takes an axiom, a definition, or a query for a join or an instance. Refused in this order: `SectionOpen`
/// for an axiom in a section; `ReservedName` and `Redeclared` of the declared name, or `UnknownName` of a
/// query's structures; the faults of elaboration; `TooMany`; and what the kernel refuses. Where it is
/// refused, nothing changes but names.
pub fn apply(
    alloc: Global,
    theory: &mut Theory,
    world: &mut World,
    taken: &Command,
    limits: &Limits,
) -> Result<Done, Refusal>
    ensures grown { IfOk result (λ done. HasGrown theory.old theory.new done) }
    ensures head { IfOk result (λ done. HasHead (act taken.now.kind) done) }
    ensures unchanged { OnErr result (theory.new ≡ theory.old) }
    ensures as_before { OnErr result (IsAsBefore (background world.old) (background world.new)) }
    ensures names { Extends world.old.names world.new.names }
    ensures hier { world.new.hier ≡ world.old.hier }
    ensures declared { OnOk result
        (Declares (act taken.now.kind) theory.old (background world.old) theory.new) }
    ensures section { OnOk result
        ((background world.new).section ≡ section_after (act taken.now.kind) (background world.old).section) }
    ensures refused { IfErr result
        (Refuses theory.old (background world.old) (budget limits.now) (command taken.now)) }
{
    match &taken.kind {
        CommandKind::Axiom { name, ty } => {
            match axiom(alloc, theory, world, taken.span, *name, ty, limits) {
                Ok(entry) => Ok(Done::Entry(entry)),
                Err(refusal) => Err(refusal),
            }
        }
        CommandKind::Definition {
            name,
            binders,
            ty,
            body,
        } => {
            let written = Written {
                name: *name,
                binders,
                ty: ty.as_ref(),
                body,
            };
            match definition(alloc, theory, world, written, limits) {
                Ok(entry) => Ok(Done::Entry(entry)),
                Err(refusal) => Err(refusal),
            }
        }
        CommandKind::Join { a, b } => match join_of(&world.hier, *a, *b) {
            Ok(join) => Ok(Done::Join(join)),
            Err(refusal) => Err(refusal),
        },
        CommandKind::Find { structure, carrier } => {
            find(alloc, theory, world, *structure, carrier, limits)
        }
        CommandKind::Mixin { .. }
        | CommandKind::Factory { .. }
        | CommandKind::Builders { .. }
        | CommandKind::End
        | CommandKind::Structure { .. }
        | CommandKind::Instance { .. }
        | CommandKind::Require { .. }
        | CommandKind::Howto { .. }
        | CommandKind::About { .. } => Err(refused(taken.span, What::NotYet)),
    }
}
