//! Taking an entry of a library or a core text.
ghost use Rattle.std.specs.Prelude.{◌≡◌, ◌++◌, ◌∷◌, [], length, None, IfOk, IfErr, OnOk, OnErr};
ghost use Rattle.std.specs.Option.{option_map};
ghost use Rattle.hb_calculus.specs.Budget.{Budget, budget};
ghost use Rattle.hb_base.specs.declared.name_id.NameId.{NameId};
ghost use Rattle.hb_env.specs.Plain.{plains};
ghost use Rattle.hb_world.specs.Worlds.{IsAsBefore, background, opened};
ghost use Rattle.hb_world.specs.Taking.{Extends};
ghost use Rattle.hb_plain.specs.Declaring.{IsFree, IsAxiomOf, IsDefinitionOf, IsOne};
ghost use Rattle.hb_plain.specs.Loading.{AreOf, IsBadAt, NoAxiomEntry, NotAll, NotLoaded, RefusesEntry};
ghost use Rattle.hb_plain.specs.Sections.{section_loaded, with_name};

use crate::axiom::is_free;
use crate::definition::{keep_name, make_room};
use hb_base::{Limits, NameId, Span};
use hb_env::{Decl, Entry, Head, Places, Refusal, What};
use hb_kernel::Theory;
use hb_step::{add_all, is_closed_over, outside_section, passed_count, refused};
use hb_world::{Section, World};
use std::alloc::Global;

/// Takes the entry of an axiom or a definition, as `apply` takes the command, or a declaration of a core
/// text, of which the kernel alone judges. A refusal stands at the entry; where its declarations aren't those
/// of its head it is `BadLibrary`, at their count, or at the declaration.
pub fn replay(
    alloc: Global,
    theory: &mut Theory,
    world: &mut World,
    entry: &Entry,
    places: &Places,
    limits: &Limits,
) -> Result<(), Refusal>
    ensures grown { OnOk result (theory.new ≡ theory.old ++ plains entry.now.decls.items) }
    ensures unchanged { OnErr result (theory.new ≡ theory.old) }
    ensures as_before { OnErr result (IsAsBefore (background world.old) (background world.new)) }
    ensures names { Extends world.old.names world.new.names }
    ensures hier { world.new.hier ≡ world.old.hier }
    ensures section { OnOk result
        ((background world.new).section ≡ section_loaded entry.now.head (plains entry.now.decls.items) (background world.old).section) }
    ensures declared { OnOk result (AreOf entry.now.head theory.old (background world.old) (plains entry.now.decls.items)) }
    ensures refused { IfErr result
        (RefusesEntry theory.old (background world.old) (budget limits.now) entry.now.head (plains entry.now.decls.items) places.now) }
{
    match &entry.head {
        Head::Core => match add_all(alloc, theory, &entry.decls, limits, places.span) {
            Ok(()) => Ok(()),
            Err(refusal) => Err(refusal),
        },
        Head::Axiom => replay_axiom(alloc, theory, world, entry, places, limits),
        Head::Definition => replay_definition(alloc, theory, world, entry, places, limits),
        Head::Mixin { .. }
        | Head::Factory { .. }
        | Head::Builders { .. }
        | Head::End
        | Head::Structure { .. }
        | Head::Instance { .. }
        | Head::Require { .. } => Err(refused(places.span, What::NotYet)),
    }
}

/// The entry isn't as the library's format says at this byte.
fn bad(places: &Places, at: u32) -> Refusal
    ensures { IsBadAt places.now at result }
{
    let span = Span {
        file: places.span.file,
        from: at,
        to: at,
    };
    refused(span, What::BadLibrary)
}

/// The one declaration of the entry, and its place.
fn only<'a>(entry: &'a Entry, places: &Places) -> Result<(&'a Decl, u32), Refusal>
    ensures one { IfOk result (λ d. (entry.now.decls.items ≡ d.0.now ∷ []) × (places.now.decls.items ≡ d.1 ∷ [])) }
    ensures refused { IfErr result (IsBadAt places.now places.now.count) }
    ensures not_one { OnErr result (¬ ((length entry.now.decls.items ≡ 1) × (length places.now.decls.items ≡ 1))) }
{
    match (entry.decls.as_slice(), places.decls.as_slice()) {
        ([decl], [at]) => Ok((decl, *at)),
        _ => Err(bad(places, places.count)),
    }
}

fn replay_axiom(
    alloc: Global,
    theory: &mut Theory,
    world: &World,
    entry: &Entry,
    places: &Places,
    limits: &Limits,
) -> Result<(), Refusal>
    ensures grown { OnOk result (theory.new ≡ theory.old ++ plains entry.now.decls.items) }
    ensures unchanged { OnErr result (theory.new ≡ theory.old) }
    ensures outside { OnOk result (world.now.section ≡ None) }
    ensures free { OnOk result ((n : NameId) × IsFree theory.old (background world.now) n × IsOne (IsAxiomOf n) (plains entry.now.decls.items)) }
    ensures refused { IfErr result
        (NoAxiomEntry theory.old (background world.now) (budget limits.now) (plains entry.now.decls.items) places.now) }
{
    match axiom_is_free(theory, world, entry, places) {
        Ok(_) => add(alloc, theory, entry, limits, places.span),
        Err(refusal) => Err(refusal),
    }
}

/// The name of the entry of an axiom that may be declared.
fn axiom_is_free(
    theory: &Theory,
    world: &World,
    entry: &Entry,
    places: &Places,
) -> Result<NameId, Refusal>
    ensures outside { OnOk result (world.now.section ≡ None) }
    ensures free { IfOk result (IsFree theory.now (background world.now)) }
    ensures declared { IfOk result (λ n. IsOne (IsAxiomOf n) (plains entry.now.decls.items)) }
    ensures refused { IfErr result
        (λ r. (L : Budget) → NoAxiomEntry theory.now (background world.now) L (plains entry.now.decls.items) places.now r) }
{
    outside_section(world, places.span)?;
    let (decl, at) = only(entry, places)?;
    let Decl::Axiom { name, .. } = decl else {
        return Err(bad(places, at));
    };
    is_free(theory, world, *name, places.span)?;
    Ok(*name)
}

fn replay_definition(
    alloc: Global,
    theory: &mut Theory,
    world: &mut World,
    entry: &Entry,
    places: &Places,
    limits: &Limits,
) -> Result<(), Refusal>
    ensures grown { OnOk result (theory.new ≡ theory.old ++ plains entry.now.decls.items) }
    ensures unchanged { OnErr result (theory.new ≡ theory.old) }
    ensures as_before { OnErr result (IsAsBefore (background world.old) (background world.new)) }
    ensures names { world.new.names ≡ world.old.names }
    ensures hier { world.new.hier ≡ world.old.hier }
    ensures declared { OnOk result ((n : NameId) × IsFree theory.old (background world.old) n
        × IsOne (IsDefinitionOf (background world.old).section n) (plains entry.now.decls.items)
        × ((background world.new).section ≡ with_name n (background world.old).section)) }
    ensures refused { IfErr result
        (NotLoaded theory.old (background world.old) (budget limits.now) (IsDefinitionOf (background world.old).section)
        (plains entry.now.decls.items) places.now) }
{
    match definition_is_free(theory, world, entry, places) {
        Ok(name) => define(
            alloc,
            theory,
            &mut world.section,
            entry,
            name,
            places.span,
            limits,
        ),
        Err(refusal) => Err(refusal),
    }
}

/// The name of the entry of a definition that may be declared, and is closed over the section's context.
fn definition_is_free(
    theory: &Theory,
    world: &World,
    entry: &Entry,
    places: &Places,
) -> Result<NameId, Refusal>
    ensures free { IfOk result (IsFree theory.now (background world.now)) }
    ensures declared { IfOk result (λ n. IsOne (IsDefinitionOf (background world.now).section n) (plains entry.now.decls.items)) }
    ensures refused { IfErr result
        (λ r. (L : Budget) → NotLoaded theory.now (background world.now) L (IsDefinitionOf (background world.now).section)
        (plains entry.now.decls.items) places.now r) }
{
    let (decl, at) = only(entry, places)?;
    let Decl::Def { name, ty, body } = decl else {
        return Err(bad(places, at));
    };
    is_free(theory, world, *name, places.span)?;
    if let Some(section) = &world.section {
        if !is_closed_over(&section.context, ty, body) {
            return Err(bad(places, at));
        }
    }
    Ok(*name)
}

/// Adds the declarations of the entry.
fn add(
    alloc: Global,
    theory: &mut Theory,
    entry: &Entry,
    limits: &Limits,
    span: Span,
) -> Result<(), Refusal>
    ensures grown { OnOk result (theory.new ≡ theory.old ++ plains entry.now.decls.items) }
    ensures unchanged { OnErr result (theory.new ≡ theory.old) }
    ensures place { IfErr result (λ r. r.span ≡ span) }
    ensures refused { IfErr result (λ r. NotAll theory.old (budget limits.now) (plains entry.now.decls.items) r.what) }
{
    if let Some(count) = passed_count(theory.env(), &entry.decls) {
        return Err(refused(span, What::TooMany(count)));
    }
    match add_all(alloc, theory, &entry.decls, limits, span) {
        Ok(()) => Ok(()),
        Err(refusal) => Err(refusal),
    }
}

/// Adds the declaration of a definition, and its name to the section.
fn define(
    alloc: Global,
    theory: &mut Theory,
    section: &mut Option<Section>,
    entry: &Entry,
    name: NameId,
    span: Span,
    limits: &Limits,
) -> Result<(), Refusal>
    ensures grown { OnOk result (theory.new ≡ theory.old ++ plains entry.now.decls.items) }
    ensures unchanged { OnErr result (theory.new ≡ theory.old) }
    ensures named { OnOk result (option_map opened section.new ≡ with_name name (option_map opened section.old)) }
    ensures same { OnErr result (option_map opened section.new ≡ option_map opened section.old) }
    ensures place { IfErr result (λ r. r.span ≡ span) }
    ensures refused { IfErr result (λ r. NotAll theory.old (budget limits.now) (plains entry.now.decls.items) r.what) }
{
    let Ok(()) = make_room(section) else {
        return Err(refused(span, What::NoMemory));
    };
    match add(alloc, theory, entry, limits, span) {
        Ok(()) => {
            keep_name(section, name);
            Ok(())
        }
        Err(refusal) => Err(refusal),
    }
}
