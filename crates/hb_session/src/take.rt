//! Taking a command.
ghost use Rattle.std.specs.Prelude.{◌≡◌, IfOk, OnErr, is_some, string_bytes};
ghost use Rattle.hb_raw.specs.Preterm.{Preterm};
ghost use Rattle.hb_raw.specs.Sentence.{find, require};
ghost use Rattle.hb_raw.specs.Views.{act};
ghost use Rattle.hb_hier.specs.Hierarchy.{name_of};
ghost use Rattle.hb_hier.specs.declared.known.Known.TheVariants as known;
ghost use Rattle.hb_events.specs.declared.event.Event.TheVariants as event;
ghost use Rattle.hb_session.specs.Reporting.{IsEventOf, TellsEnd, had_in, local_mixins, source_name};
ghost use Rattle.hb_session.specs.State.{state};
ghost use Rattle.hb_world.specs.Worlds.{opened};
ghost use Rattle.hb_session.specs.Taking.{HasFamily, OnlyNames, Takes};

use crate::families::apply;
use crate::queries::{about, howto, join};
use crate::refusing::at;
use crate::session::Session;
use hb_base::{Limits, NameId};
use hb_env::{Entry, Head, Refusal, What};
use hb_events::{Event, Had};
use hb_hier::{Hier, Known};
use hb_order::{FactoryId, StructId};
use hb_raw::{Command, CommandKind, Word};
use hb_report::name_text;
use hb_sets::MixSet;
use hb_world::{Done, Section};
use std::alloc::AllocError;

impl Session {
    /// Takes a command, and answers what it reports. Where it is refused, names may be more, and nothing
    /// else changes. `Require` is `take_require`'s.
    pub fn take(&mut self, taken: &Command, limits: &Limits) -> Result<Event, Refusal>
        ensures taken { IfOk result (λ e. Takes (state self.old) (act taken.now.kind) e (state self.new)) }
        ensures refused { OnErr result (OnlyNames (state self.old) (state self.new)) }
        ensures lines { self.new.files.lines ≡ self.old.files.lines }
    {
        match &taken.kind {
            CommandKind::Howto { structure, carrier } => howto(
                self.alloc,
                &self.theory,
                &self.world,
                *structure,
                *carrier,
                limits,
            ),
            CommandKind::About { name } => about(&self.world, *name),
            CommandKind::Axiom { name, .. } => self.keep(taken, limits, Event::Axiom(name.name)),
            CommandKind::Definition { name, .. } => {
                self.keep(taken, limits, Event::Definition(name.name))
            }
            CommandKind::Mixin { name, .. } => self.keep(taken, limits, Event::Mixin(name.name)),
            CommandKind::Factory { name, .. } => {
                self.keep(taken, limits, Event::Factory(name.name))
            }
            CommandKind::Builders { item, .. } => {
                self.keep(taken, limits, Event::Builders(item.factory.name))
            }
            CommandKind::End => {
                let ended = Event::End(self.open_factory());
                self.keep(taken, limits, ended)
            }
            CommandKind::Structure { .. } => {
                let next = StructId(self.world.hier.structures());
                self.keep(taken, limits, Event::Structure(next))
            }
            CommandKind::Instance {
                factory,
                carrier,
                ..
            } => {
                let given = Event::Instance {
                    factory: factory.name,
                    carrier: carrier.name,
                    had: self.had(),
                };
                self.keep(taken, limits, given)
            }
            CommandKind::Join { a, b } => join(&self.world, *a, *b),
            CommandKind::Find { structure, .. } => self.find(taken, limits, *structure),
            CommandKind::Require { name } => Err(at(name.span, What::NotYet)),
        }
    }

    /// Takes a command that leaves an entry, which is kept; the room for it is made before.
    fn keep(&mut self, taken: &Command, limits: &Limits, event: Event) -> Result<Event, Refusal>
        requires family { HasFamily (act taken.now.kind) }
        requires event { IsEventOf (state self.old).env (state self.old).back (act taken.now.kind) event }
        ensures taken { IfOk result (λ e. Takes (state self.old) (act taken.now.kind) e (state self.new)) }
        ensures refused { OnErr result (OnlyNames (state self.old) (state self.new)) }
        ensures lines { self.new.files.lines ≡ self.old.files.lines }
    {
        match self.entries.reserve(1) {
            Ok(()) => {}
            Err(_) => return Err(at(taken.span, What::NoMemory)),
        }
        match apply(self.alloc, &mut self.theory, &mut self.world, taken, limits) {
            Ok(Done::Entry(entry)) => {
                self.entries.push_reserved(entry);
                Ok(event)
            }
            Ok(Done::Join(_)) => Err(at(taken.span, What::NoMemory)),
            Ok(Done::Find(_)) => Err(at(taken.span, What::NoMemory)),
            Err(refusal) => Err(refusal),
        }
    }
}

impl Session {
    /// The key of a type for a structure.
    fn find(&mut self, taken: &Command, limits: &Limits, structure: Word) -> Result<Event, Refusal>
        requires { (c : Preterm) × (act taken.now.kind ≡ find structure c) }
        ensures taken { IfOk result (λ e. Takes (state self.old) (act taken.now.kind) e (state self.new)) }
        ensures refused { OnErr result (OnlyNames (state self.old) (state self.new)) }
        ensures lines { self.new.files.lines ≡ self.old.files.lines }
    {
        match apply(self.alloc, &mut self.theory, &mut self.world, taken, limits) {
            Ok(Done::Find(key)) => Ok(Event::Find {
                structure: structure.name,
                key,
            }),
            Ok(Done::Entry(_)) => Err(at(taken.span, What::NoMemory)),
            Ok(Done::Join(_)) => Err(at(taken.span, What::NoMemory)),
            Err(refusal) => Err(refusal),
        }
    }

    /// Takes the end of a required file: its entry has no declarations.
    pub fn take_require(&mut self, name: Word) -> Result<Event, Refusal>
        ensures taken { IfOk result (λ e. Takes (state self.old) (require name) e (state self.new)) }
        ensures refused { OnErr result (state self.new ≡ state self.old) }
        ensures lines { self.new.files.lines ≡ self.old.files.lines }
    {
        match self.entries.reserve(1) {
            Ok(()) => {}
            Err(_) => return Err(at(name.span, What::NoMemory)),
        }
        self.entries.push_reserved(Entry {
            head: Head::Require { name: name.name },
            decls: Vec::new(self.alloc),
        });
        Ok(Event::Require(name.name))
    }

    /// The name of the source that a required name stands for: the name with `.v`. Out of memory is the
    /// one error.
    pub fn source_name(&self, name: NameId) -> Result<String, AllocError>
        ensures { IfOk result (λ s. string_bytes s ≡ source_name (state self.now).back.names name.0) }
    {
        let text = name_text(self.alloc, &self.world.names, name)?;
        format!(in self.alloc; "{text}.v")
    }

    /// Whether a section of builders is open.
    pub fn is_in_section(&self) -> bool
        ensures { result ≡ is_some (state self.now).back.section }
    {
        self.world.section.is_some()
    }

    /// The factory of the open section; without one the first factory.
    fn open_factory(&self) -> FactoryId
        ensures { TellsEnd (state self.now).back.section (event.End result) }
    {
        match &self.world.section {
            Some(section) => section.factory,
            None => FactoryId(0),
        }
    }

    /// What carriers have before an instance: in a section its local carrier.
    fn had(&self) -> Had
        ensures { result ≡ had_in (state self.now).env (state self.now).back.hier (state self.now).back.section }
    {
        match &self.world.section {
            Some(section) => Had::Local(local_set(&self.world.hier, section)),
            None => Had::Declared(self.theory.env().len()),
        }
    }
}

/// The mixins of a section's local carrier.
fn local_set(hier: &Hier, section: &Section) -> MixSet
    ensures { result ≡ local_mixins hier.now (opened section.now)
        (name_of hier.now (known.Factory section.now.factory)) }
{
    let known = Known::Factory(section.factory);
    match hier.name(known) {
        Some(_) => hier.req(known).union(&section.provided),
        None => section.provided.copy(),
    }
}
