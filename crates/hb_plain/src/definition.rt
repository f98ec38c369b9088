//! Definitions.
ghost use Rattle.std.specs.Prelude.{◌≡◌, ◌++◌, IfOk, IfErr, OnOk, OnErr};
ghost use Rattle.std.specs.Option.{option_map};
ghost use Rattle.hb_calculus.specs.Budget.{budget};
ghost use Rattle.hb_term.specs.Meaning.{tree};
ghost use Rattle.hb_env.specs.Plain.{plains};
ghost use Rattle.hb_env.specs.declared.entry.Head.TheVariants as head;
ghost use Rattle.hb_world.specs.Worlds.{IsAsBefore, background, opened};
ghost use Rattle.hb_world.specs.Taking.{HasAdded};
ghost use Rattle.hb_step.specs.Elaborating.{IsOfElaboration};
ghost use Rattle.hb_plain.specs.Declaring.{AddsOne, IsClosedIn, IsFree, IsDefinitionOf, IsOne};
ghost use Rattle.hb_plain.specs.Refusing.{NotDeclared, NotAddedAt, type_place};
ghost use Rattle.hb_plain.specs.Sections.{HasRoom, with_name};

use crate::axiom::{declare, is_free};
use hb_base::{Limits, NameId};
use hb_elab::{Local, Work, elab_definition};
use hb_env::{Decl, Entry, Head, Refusal, What};
use hb_kernel::Theory;
use hb_raw::{Binder, Raw, Word};
use hb_step::{closed_body, closed_type, of_elaboration, refused};
use hb_term::Term;
use hb_world::{Section, Typed, World};
use std::alloc::{AllocError, Global};

/// A definition as it is written.
#[derive(Clone, Copy)]
pub(crate) struct Written<'a> {
    pub name: Word,
    pub binders: &'a [Binder],
    pub ty: Option<&'a Raw>,
    pub body: &'a Raw,
}

/// Takes a definition. In a section it is closed over the section's context, and is one of its definitions.
pub(crate) fn definition(
    alloc: Global,
    theory: &mut Theory,
    world: &mut World,
    written: Written<'_>,
    limits: &Limits,
) -> Result<Entry, Refusal>
    ensures added { IfOk result (HasAdded theory.old theory.new) }
    ensures head { IfOk result (λ entry. entry.head ≡ head.Definition) }
    ensures unchanged { OnErr result (theory.new ≡ theory.old) }
    ensures as_before { OnErr result (IsAsBefore (background world.old) (background world.new)) }
    ensures names { world.new.names ≡ world.old.names }
    ensures hier { world.new.hier ≡ world.old.hier }
    ensures declared { OnOk result
        (AddsOne theory.old (background world.old) written.entry.name.name
        (IsDefinitionOf (background world.old).section written.entry.name.name) theory.new) }
    ensures section { OnOk result
        ((background world.new).section ≡ with_name written.entry.name.name (background world.old).section) }
    ensures refused { IfErr result
        (NotDeclared theory.old (background world.old) (budget limits.now) written.entry.name
        (IsDefinitionOf (background world.old).section written.entry.name.name)
        (type_place (option_map (λ t. t.now.span) written.entry.ty) written.entry.body.now.span) written.entry.body.now.span) }
{
    let entry = match definition_entry(alloc, theory, world, written, limits) {
        Ok(entry) => entry,
        Err(refusal) => return Err(refusal),
    };
    match define(alloc, theory, &mut world.section, &entry, written, limits) {
        Ok(()) => Ok(entry),
        Err(refusal) => Err(refusal),
    }
}

/// The entry of a definition that may be declared.
fn definition_entry(
    alloc: Global,
    theory: &Theory,
    world: &World,
    written: Written<'_>,
    limits: &Limits,
) -> Result<Entry, Refusal>
    ensures head { IfOk result (λ entry. entry.head ≡ head.Definition) }
    ensures free { OnOk result (IsFree theory.now (background world.now) written.entry.name.name) }
    ensures declared { IfOk result (λ entry. IsOne (IsDefinitionOf (background world.now).section written.entry.name.name) (plains entry.decls.items)) }
    ensures refused { IfErr result
        (NotDeclared theory.now (background world.now) (budget limits.now) written.entry.name
        (IsDefinitionOf (background world.now).section written.entry.name.name)
        (type_place (option_map (λ t. t.now.span) written.entry.ty) written.entry.body.now.span) written.entry.body.now.span) }
{
    let name = written.name;
    is_free(theory, world, name.name, name.span)?;
    let made = term_of(alloc, theory, world, written, limits)?;
    match entry_of(alloc, &world.section, name, made) {
        Ok(entry) => Ok(entry),
        Err(_) => Err(refused(name.span, What::NoMemory)),
    }
}

/// The term and the type of a definition, in the section's context.
fn term_of(
    alloc: Global,
    theory: &Theory,
    world: &World,
    written: Written<'_>,
    limits: &Limits,
) -> Result<Typed, Refusal>
    ensures refused { IfErr result (λ r. IsOfElaboration r.what) }
{
    let Ok(local) = Local::new(alloc, world.section.as_ref()) else {
        return Err(refused(written.body.span, What::NoMemory));
    };
    let mut work = Work { moves: 0, holes: 0 };
    let made = elab_definition(
        alloc,
        theory.env(),
        world,
        &local,
        written.binders,
        written.ty,
        written.body,
        &mut work,
        limits,
    );
    match made {
        Ok(made) => Ok(made),
        Err(fault) => Err(of_elaboration(fault)),
    }
}

/// The entry of a definition, closed over the section's context.
fn entry_of(
    alloc: Global,
    section: &Option<Section>,
    name: Word,
    made: Typed,
) -> Result<Entry, AllocError>
    ensures head { IfOk result (λ entry. entry.head ≡ head.Definition) }
    ensures declared { IfOk result (λ entry. IsOne (IsDefinitionOf (option_map opened section.now) name.name) (plains entry.decls.items)) }
{
    let (ty, body) = closed(alloc, section, made)?;
    let mut decls = Vec::new(alloc);
    decls.push(Decl::Def {
        name: name.name,
        ty,
        body,
    })?;
    Ok(Entry {
        head: Head::Definition,
        decls,
    })
}

/// The type and the term, closed over the section's context.
fn closed(alloc: Global, section: &Option<Section>, made: Typed) -> Result<(Term, Term), AllocError>
    ensures { IfOk result (λ m. IsClosedIn (option_map opened section.now) (tree m.0) (tree m.1)) }
{
    let Typed { term, ty } = made;
    match section {
        None => Ok((ty, term)),
        Some(section) => Ok((
            closed_type(alloc, &section.context, ty)?,
            closed_body(alloc, &section.context, term)?,
        )),
    }
}

/// Adds the declaration of a definition, and its name to the section.
fn define(
    alloc: Global,
    theory: &mut Theory,
    section: &mut Option<Section>,
    entry: &Entry,
    written: Written<'_>,
    limits: &Limits,
) -> Result<(), Refusal>
    ensures added { OnOk result (theory.new ≡ theory.old ++ plains entry.now.decls.items) }
    ensures unchanged { OnErr result (theory.new ≡ theory.old) }
    ensures named { OnOk result (option_map opened section.new ≡ with_name written.entry.name.name (option_map opened section.old)) }
    ensures same { OnErr result (option_map opened section.new ≡ option_map opened section.old) }
    ensures refused { IfErr result
        (NotAddedAt theory.old (budget limits.now) (plains entry.now.decls.items) written.entry.name.span
        (type_place (option_map (λ t. t.now.span) written.entry.ty) written.entry.body.now.span) written.entry.body.now.span) }
{
    let name = written.name;
    let body = written.body.span;
    let ty = match written.ty {
        Some(ty) => ty.span,
        None => body,
    };
    let Ok(()) = make_room(section) else {
        return Err(refused(name.span, What::NoMemory));
    };
    match declare(alloc, theory, entry, limits, name.span, ty, body) {
        Ok(()) => {
            keep_name(section, name.name);
            Ok(())
        }
        Err(refusal) => Err(refusal),
    }
}

/// Makes room for one definition more of the section, if there is one.
pub(crate) fn make_room(section: &mut Option<Section>) -> Result<(), AllocError>
    ensures room { OnOk result (HasRoom section.new) }
    ensures same { option_map opened section.new ≡ option_map opened section.old }
{
    match section {
        None => Ok(()),
        Some(section) => section.definitions.reserve(1),
    }
}

/// The name as the last of the section's definitions, if there is one.
pub(crate) fn keep_name(section: &mut Option<Section>, name: NameId)
    requires room { HasRoom section.old }
    ensures { option_map opened section.new ≡ with_name name (option_map opened section.old) }
{
    match section {
        None => {}
        Some(section) => section.definitions.push_reserved(name),
    }
}
