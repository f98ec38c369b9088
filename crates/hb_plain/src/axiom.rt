//! Axioms.
ghost use Rattle.std.specs.Prelude.{◌≡◌, ◌++◌, None, IfOk, IfErr, OnOk, OnErr};
ghost use Rattle.hb_calculus.specs.Budget.{budget};
ghost use Rattle.hb_env.specs.Plain.{plains};
ghost use Rattle.hb_env.specs.declared.entry.Head.TheVariants as head;
ghost use Rattle.hb_world.specs.Worlds.{background};
ghost use Rattle.hb_world.specs.Taking.{HasAdded};
ghost use Rattle.hb_step.specs.Elaborating.{IsOfElaboration};
ghost use Rattle.hb_plain.specs.Declaring.{AddsOne, IsFree, IsAxiomOf, IsOne};
ghost use Rattle.hb_plain.specs.Refusing.{NoAxiom, NotAddedAt, NotFree};

use hb_base::{Limits, NameId, Span};
use hb_elab::{Local, Work, elab_type};
use hb_env::{Decl, Entry, Head, Refusal, What};
use hb_kernel::Theory;
use hb_raw::{Raw, Word};
use hb_step::{
    add_definition, not_reserved, not_taken, of_elaboration, outside_section, passed_count, refused,
};
use hb_term::Term;
use hb_world::{Typed, World};
use std::alloc::{AllocError, Global};

/// Takes an axiom.
pub(crate) fn axiom(
    alloc: Global,
    theory: &mut Theory,
    world: &World,
    span: Span,
    name: Word,
    ty: &Raw,
    limits: &Limits,
) -> Result<Entry, Refusal>
    ensures added { IfOk result (HasAdded theory.old theory.new) }
    ensures head { IfOk result (λ entry. entry.head ≡ head.Axiom) }
    ensures unchanged { OnErr result (theory.new ≡ theory.old) }
    ensures outside { OnOk result (world.now.section ≡ None) }
    ensures declared { OnOk result (AddsOne theory.old (background world.now) name.name (IsAxiomOf name.name) theory.new) }
    ensures refused { IfErr result (NoAxiom theory.old (background world.now) (budget limits.now) span name ty.now.span) }
{
    let entry = match axiom_entry(alloc, theory, world, span, name, ty, limits) {
        Ok(entry) => entry,
        Err(refusal) => return Err(refusal),
    };
    match declare(alloc, theory, &entry, limits, name.span, ty.span, ty.span) {
        Ok(()) => Ok(entry),
        Err(refusal) => Err(refusal),
    }
}

/// The entry of an axiom that may be declared.
fn axiom_entry(
    alloc: Global,
    theory: &Theory,
    world: &World,
    span: Span,
    name: Word,
    ty: &Raw,
    limits: &Limits,
) -> Result<Entry, Refusal>
    ensures head { IfOk result (λ entry. entry.head ≡ head.Axiom) }
    ensures outside { OnOk result (world.now.section ≡ None) }
    ensures free { OnOk result (IsFree theory.now (background world.now) name.name) }
    ensures declared { IfOk result (λ entry. IsOne (IsAxiomOf name.name) (plains entry.decls.items)) }
    ensures refused { IfErr result (NoAxiom theory.now (background world.now) (budget limits.now) span name ty.now.span) }
{
    outside_section(world, span)?;
    is_free(theory, world, name.name, name.span)?;
    let ty = type_of(alloc, theory, world, ty, limits)?;
    match entry_of(alloc, name, ty) {
        Ok(entry) => Ok(entry),
        Err(_) => Err(refused(name.span, What::NoMemory)),
    }
}

/// A declared name at its place is new, and not kept for generated ones.
pub(crate) fn is_free(
    theory: &Theory,
    world: &World,
    name: NameId,
    span: Span,
) -> Result<(), Refusal>
    ensures free { OnOk result (IsFree theory.now (background world.now) name) }
    ensures refused { IfErr result (NotFree theory.now (background world.now) name span) }
{
    not_reserved(&world.names, name, span)?;
    not_taken(theory.env(), &world.hier, name, span)
}

/// The written type of an axiom.
fn type_of(
    alloc: Global,
    theory: &Theory,
    world: &World,
    ty: &Raw,
    limits: &Limits,
) -> Result<Term, Refusal>
    ensures refused { IfErr result (λ r. IsOfElaboration r.what) }
{
    let Ok(local) = Local::new(alloc, None) else {
        return Err(refused(ty.span, What::NoMemory));
    };
    let mut work = Work { moves: 0, holes: 0 };
    match elab_type(alloc, theory.env(), world, &local, ty, &mut work, limits) {
        Ok(Typed { term, ty: _ }) => Ok(term),
        Err(fault) => Err(of_elaboration(fault)),
    }
}

/// The entry of an axiom.
fn entry_of(alloc: Global, name: Word, ty: Term) -> Result<Entry, AllocError>
    ensures head { IfOk result (λ entry. entry.head ≡ head.Axiom) }
    ensures declared { IfOk result (λ entry. IsOne (IsAxiomOf name.name) (plains entry.decls.items)) }
{
    let mut decls = Vec::new(alloc);
    decls.push(Decl::Axiom {
        name: name.name,
        ty,
    })?;
    Ok(Entry {
        head: Head::Axiom,
        decls,
    })
}

/// Adds the one declaration of an entry, whose name, written type and body stand at these places.
pub(crate) fn declare(
    alloc: Global,
    theory: &mut Theory,
    entry: &Entry,
    limits: &Limits,
    name: Span,
    ty: Span,
    body: Span,
) -> Result<(), Refusal>
    ensures added { OnOk result (theory.new ≡ theory.old ++ plains entry.now.decls.items) }
    ensures unchanged { OnErr result (theory.new ≡ theory.old) }
    ensures refused { IfErr result (NotAddedAt theory.old (budget limits.now) (plains entry.now.decls.items) name ty body) }
{
    if let Some(count) = passed_count(theory.env(), &entry.decls) {
        return Err(refused(name, What::TooMany(count)));
    }
    match entry.decls.as_slice() {
        [decl] => add_definition(alloc, theory, decl, limits, ty, body),
        _ => Err(refused(name, What::NoMemory)),
    }
}
