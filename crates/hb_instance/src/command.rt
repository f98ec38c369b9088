//! Taking a command.
ghost use Rattle.std.specs.Prelude.{◌≡◌, ◌++◌, IfOk, OnOk, OnErr};
ghost use Rattle.std.specs.Option.{option_map};
ghost use Rattle.hb_env.specs.Plain.{plains};
ghost use Rattle.hb_raw.specs.Views.{act};
ghost use Rattle.hb_step.specs.Marks.{Since};
ghost use Rattle.hb_world.specs.Worlds.{background, IsAsBefore};
ghost use Rattle.hb_world.specs.Taking.{Extends, HasGrown, HasAdded, HasHead, binder_names, word_name};
ghost use Rattle.hb_instance.specs.Giving.{after, Gives, HasInstance, HasKept, IsKept, Keeps};
ghost use Rattle.hb_instance.specs.Heads.{HasNames};

use crate::allowing::allowed_by_text;
use crate::giving::{Prepared, Spots, prepare, settle};
use crate::target::{Allowed, Target};
use hb_base::{Limits, NameId, Span};
use hb_elab::{Local, Work, elab};
use hb_env::{Decl, Entry, Head, Refusal, What};
use hb_kernel::Theory;
use hb_pack::{asked_types, wanted_at};
use hb_raw::{Command, CommandKind, Raw, Word};
use hb_step::{Mark, not_reserved, not_taken, of_elaboration, refused};
use hb_term::Term;
use hb_world::{Done, Typed, World};
use std::alloc::{AllocError, Global};
use std::vec::Vec;

/// An instance as it is written.
#[derive(Clone, Copy)]
pub(crate) struct Written<'a> {
    pub name: Option<Word>,
    pub binders: &'a [(Word, Option<Word>)],
    pub factory: Word,
    pub carrier: Word,
    pub args: &'a [Word],
    pub value: &'a Raw,
}

/// Takes an instance. Refused in this order: `ReservedName` and `Redeclared` of its name; `UnknownName` of
/// the binders' structures; `UnknownFactory` and `Unfinished`; `NotCarrier`; `MissingMixin` and `Unmet`; the
/// faults of its value; `Incoherent`; `Redeclared` of the names that it makes; `TooMany`; and what the kernel
/// refuses. Where it is refused, nothing changes but names.
pub fn apply(
    alloc: Global,
    theory: &mut Theory,
    world: &mut World,
    taken: &Command,
    limits: &Limits,
) -> Result<Done, Refusal>
    ensures unchanged { OnErr result (theory.new ≡ theory.old) }
    ensures as_before { OnErr result (IsAsBefore (background world.old) (background world.new)) }
    ensures grown { IfOk result (HasGrown theory.old theory.new) }
    ensures names { Extends world.old.names world.new.names }
    ensures head { IfOk result (HasHead (act taken.now.kind)) }
    ensures hier { OnOk result
        (HasInstance (act taken.now.kind) (background world.old).section theory.old world.old.hier
        world.new.hier) }
    ensures section { OnOk result
        (HasKept (act taken.now.kind) world.old.hier (background world.old).section
        (background world.new).section) }
{
    match &taken.kind {
        CommandKind::Instance {
            name,
            binders,
            factory,
            carrier,
            args,
            value,
        } => {
            let written = Written {
                name: *name,
                binders,
                factory: *factory,
                carrier: *carrier,
                args,
                value,
            };
            match take(alloc, theory, world, written, limits) {
                Ok(entry) => Ok(Done::Entry(entry)),
                Err(refusal) => Err(refusal),
            }
        }
        CommandKind::Axiom { .. }
        | CommandKind::Definition { .. }
        | CommandKind::Mixin { .. }
        | CommandKind::Factory { .. }
        | CommandKind::Builders { .. }
        | CommandKind::End
        | CommandKind::Structure { .. }
        | CommandKind::Join { .. }
        | CommandKind::Find { .. }
        | CommandKind::Require { .. }
        | CommandKind::Howto { .. }
        | CommandKind::About { .. } => Err(refused(taken.span, What::NotYet)),
    }
}

/// Takes what is written.
fn take(
    alloc: Global,
    theory: &mut Theory,
    world: &mut World,
    written: Written<'_>,
    limits: &Limits,
) -> Result<Entry, Refusal>
    ensures unchanged { OnErr result (theory.new ≡ theory.old) }
    ensures as_before { OnErr result (IsAsBefore (background world.old) (background world.new)) }
    ensures grown { IfOk result (HasAdded theory.old theory.new) }
    ensures names { Extends world.old.names world.new.names }
    ensures head { IfOk result
        (λ e. HasNames written.entry.factory.name written.entry.carrier.name
        written.entry.binders.now e.head) }
    ensures hier { OnOk result
        (Gives (background world.old).section theory.old written.entry.factory.name
        written.entry.carrier.name (binder_names written.entry.binders.now) world.old.hier
        world.new.hier) }
    ensures section { OnOk result
        (IsKept world.old.hier written.entry.factory.name (background world.old).section
        (background world.new).section) }
{
    check_name(theory, world, written)?;
    let allowed = allowed_by_text(alloc, theory, world, written, limits)?;
    let value = value_of(alloc, theory, world, written, &allowed, limits)?;
    let head = head_of(alloc, written)?;
    let name = written_name(written);
    let spots = Spots {
        place: name_span(written),
        factory: written.factory.span,
    };
    let decls = finish(alloc, theory, world, &allowed, name, value, spots, limits)?;
    Ok(Entry { head, decls })
}

/// The written name, if there is one.
fn written_name(written: Written<'_>) -> Option<NameId> {
    match written.name {
        Some(word) => Some(word.name),
        None => None,
    }
}

/// The place of the written name, or of the factory where none is written.
fn name_span(written: Written<'_>) -> Span {
    match written.name {
        Some(name) => name.span,
        None => written.factory.span,
    }
}

/// Declares the instance and gives what it gives, or neither.
fn finish(
    alloc: Global,
    theory: &mut Theory,
    world: &mut World,
    allowed: &Allowed,
    name: Option<NameId>,
    value: Term,
    spots: Spots,
    limits: &Limits,
) -> Result<Vec<Decl>, Refusal>
    ensures unchanged { OnErr result (theory.new ≡ theory.old) }
    ensures as_before { OnErr result (IsAsBefore (background world.old) (background world.new)) }
    ensures grown { IfOk result (λ ds. theory.new ≡ theory.old ++ plains ds.items) }
    ensures names { Extends world.old.names world.new.names }
    ensures gave { OnOk result (world.new.hier ≡ after world.old.hier allowed.now.target
        allowed.now.factory) }
    ensures section { OnOk result (Keeps allowed.now.gives (background world.old).section
        (background world.new).section) }
{
    let mark = Mark::new(theory, world);
    match both(alloc, theory, world, allowed, name, value, spots, limits) {
        Ok(decls) => Ok(decls),
        Err(refusal) => {
            mark.undo(theory, world);
            Err(refusal)
        }
    }
}

/// The same, but a part may be left behind where it is refused.
fn both(
    alloc: Global,
    theory: &mut Theory,
    world: &mut World,
    allowed: &Allowed,
    name: Option<NameId>,
    value: Term,
    spots: Spots,
    limits: &Limits,
) -> Result<Vec<Decl>, Refusal>
    ensures since { Since theory.old (background world.old) theory.new (background world.new) }
    ensures grown { IfOk result (λ ds. theory.new ≡ theory.old ++ plains ds.items) }
    ensures gave { OnOk result (world.new.hier ≡ after world.old.hier allowed.now.target
        allowed.now.factory) }
    ensures section { OnOk result (Keeps allowed.now.gives (background world.old).section
        (background world.new).section) }
{
    let prepared = prepare(alloc, theory.env(), world, allowed, name, value, spots)?;
    settle(
        alloc,
        theory,
        &world.hier,
        allowed.carrier,
        &prepared,
        spots,
        limits,
    )?;
    let Prepared {
        decls,
        own: _,
        roles: _,
    } = prepared;
    Ok(decls)
}

/// The written name isn't kept, and is new.
fn check_name(theory: &Theory, world: &World, written: Written<'_>) -> Result<(), Refusal> {
    match written.name {
        Some(name) => {
            not_reserved(&world.names, name.name, name.span)?;
            not_taken(theory.env(), &world.hier, name.name, name.span)
        }
        None => Ok(()),
    }
}

/// The value, in the context of the place.
fn value_of(
    alloc: Global,
    theory: &Theory,
    world: &World,
    written: Written<'_>,
    allowed: &Allowed,
    limits: &Limits,
) -> Result<Term, Refusal> {
    let place = allowed.place(&world.section);
    let wanted = wanted_at(
        alloc,
        theory.env(),
        &world.hier,
        &world.tables,
        place,
        allowed.known,
    );
    let (Ok(wanted), Ok(local)) = (wanted, local_of(alloc, world, written, allowed)) else {
        return Err(refused(written.factory.span, What::NoMemory));
    };
    let mut work = Work { moves: 0, holes: 0 };
    let made = elab(
        alloc,
        theory.env(),
        world,
        &local,
        written.value,
        Some(&wanted),
        &mut work,
        limits,
    );
    match made {
        Ok(Typed { term, ty: _ }) => Ok(term),
        Err(fault) => Err(of_elaboration(fault)),
    }
}

/// The names around the value: those of the section, or the binders.
fn local_of<'a>(
    alloc: Global,
    world: &'a World,
    written: Written<'_>,
    allowed: &Allowed,
) -> Result<Local<'a>, AllocError> {
    let binders = match &allowed.target {
        Target::Local(_) => return Local::new(alloc, world.section.as_ref()),
        Target::Constant(_, binders) => binders,
    };
    let mut scopes = Vec::new(alloc);
    let mut at = 0;
    for ty in asked_types(alloc, &world.tables, binders)? {
        let name = written.binders.get(at).map(|binder| binder.0.name);
        scopes.push((name, ty))?;
        at = at.saturating_add(1);
    }
    Ok(Local {
        scopes,
        carrier: None,
    })
}

/// The head of the entry.
fn head_of(alloc: Global, written: Written<'_>) -> Result<Head, Refusal>
    ensures { IfOk result
        (HasNames written.entry.factory.name written.entry.carrier.name written.entry.binders.now) }
{
    match structure_names(alloc, written.binders) {
        Ok(binders) => Ok(Head::Instance {
            factory: written.factory.name,
            carrier: written.carrier.name,
            binders,
        }),
        Err(_) => Err(refused(written.factory.span, What::NoMemory)),
    }
}

/// The names of the binders' structures.
fn structure_names(
    alloc: Global,
    binders: &[(Word, Option<Word>)],
) -> Result<Vec<Option<NameId>>, AllocError>
    ensures { IfOk result (λ ns. ns.items ≡ binder_names binders.now) }
{
    let mut names = Vec::new(alloc);
    for binder in binders {
        names.push(structure_name(binder.1))?;
    }
    Ok(names)
}

/// The name of the word, if there is one.
fn structure_name(word: Option<Word>) -> Option<NameId>
    ensures { result ≡ option_map word_name word }
{
    match word {
        Some(word) => Some(word.name),
        None => None,
    }
}
