//! Taking an entry of a library.
ghost use Rattle.std.specs.Prelude.{◌≡◌, ◌++◌, map, IfOk, OnOk, OnErr};
ghost use Rattle.hb_env.specs.Plain.{plains};
ghost use Rattle.hb_world.specs.Worlds.{background, IsAsBefore};
ghost use Rattle.hb_world.specs.Taking.{Extends};
ghost use Rattle.hb_step.specs.Marks.{Since};
ghost use Rattle.hb_hier.specs.Giving.{provided_or_none};
ghost use Rattle.hb_hier.specs.Hierarchy.{known_as};
ghost use Rattle.hb_instance.specs.Giving.{after, asked, asked_by, HasInstanceOf, HasKeptOf, IsTarget, Keeps};

use crate::allowing::{at_constant, in_section, known_factory, structure_named};
use crate::carrier::carrier_of;
use crate::giving::{Spots, prepare, settle};
use crate::keeping::decl_name;
use crate::target::{Allowed, Target};
use hb_base::{Limits, NameId, Names};
use hb_env::{Decl, Entry, Head, Places, Refusal, What};
use hb_hier::{Hier, StructId};
use hb_items::{bad_library, not_made};
use hb_kernel::Theory;
use hb_pack::context_at;
use hb_step::{Mark, not_taken, refused};
use hb_term::{Term, View};
use hb_world::World;
use std::alloc::{AllocError, Global};
use std::vec::Vec;

/// The names of an entry's head.
#[derive(Clone, Copy)]
struct Heading<'a> {
    factory: NameId,
    carrier: NameId,
    binders: &'a [Option<NameId>],
}

/// Takes the entry of an instance, as `apply` takes the command. A refusal stands at the entry; where its
/// declarations aren't those that the instance makes it is `BadLibrary`, at their count, or at the first
/// that differs.
#[tactic(auto, using(crate::proofs::GiveLemmas::gives_at))]
pub fn replay(
    alloc: Global,
    theory: &mut Theory,
    world: &mut World,
    entry: &Entry,
    places: &Places,
    limits: &Limits,
) -> Result<(), Refusal>
    ensures unchanged { OnErr result (theory.new ≡ theory.old) }
    ensures as_before { OnErr result (IsAsBefore (background world.old) (background world.new)) }
    ensures grown { OnOk result (theory.new ≡ theory.old ++ plains entry.now.decls.items) }
    ensures names { Extends world.old.names world.new.names }
    ensures hier { OnOk result
        (HasInstanceOf entry.now.head (background world.old).section theory.old world.old.hier
        world.new.hier) }
    ensures section { OnOk result
        (HasKeptOf entry.now.head world.old.hier (background world.old).section
        (background world.new).section) }
{
    let Head::Instance {
        factory,
        carrier,
        binders,
    } = &entry.head
    else {
        return Err(refused(places.span, What::NotYet));
    };
    let heading = Heading {
        factory: *factory,
        carrier: *carrier,
        binders,
    };
    let name = written_name(&world.names, entry);
    check_name(theory, world, name, places)?;
    let allowed = allowed_by_head(alloc, theory, world, heading, places, limits)?;
    let value = value_in(alloc, world, &allowed, entry, places)?;
    let mark = Mark::new(theory, world);
    match both(
        alloc, theory, world, &allowed, name, value, entry, places, limits,
    ) {
        Ok(()) => Ok(()),
        Err(refusal) => {
            mark.undo(theory, world);
            Err(refusal)
        }
    }
}

/// Makes the declarations of the instance, which are the entry's, and adds them. A part may be left behind
/// where it is refused.
fn both(
    alloc: Global,
    theory: &mut Theory,
    world: &mut World,
    allowed: &Allowed,
    name: Option<NameId>,
    value: Term,
    entry: &Entry,
    places: &Places,
    limits: &Limits,
) -> Result<(), Refusal>
    ensures since { Since theory.old (background world.old) theory.new (background world.new) }
    ensures grown { OnOk result (theory.new ≡ theory.old ++ plains entry.now.decls.items) }
    ensures gave { OnOk result (world.new.hier ≡ after world.old.hier allowed.now.target
        allowed.now.factory) }
    ensures section { OnOk result (Keeps allowed.now.gives (background world.old).section
        (background world.new).section) }
{
    let spots = Spots {
        place: places.span,
        factory: places.span,
    };
    let prepared = prepare(alloc, theory.env(), world, allowed, name, value, spots)?;
    if let Some(at) = not_made(entry, places, &prepared.decls) {
        return Err(bad_library(places, at));
    }
    settle(
        alloc,
        theory,
        &world.hier,
        allowed.carrier,
        &prepared,
        spots,
        limits,
    )?;
    Ok(())
}

/// The name, if there is one, is new.
fn check_name(
    theory: &Theory,
    world: &World,
    name: Option<NameId>,
    places: &Places,
) -> Result<(), Refusal> {
    match name {
        Some(name) => not_taken(theory.env(), &world.hier, name, places.span),
        None => Ok(()),
    }
}

/// The name of the entry's first declaration, unless it begins as made up ones do.
fn written_name(names: &Names, entry: &Entry) -> Option<NameId> {
    let decl = entry.decls.first()?;
    let name = decl_name(decl);
    if (name.0 as usize) < names.len() && names.text(name).as_bytes().starts_with(b"HB_") {
        return None;
    }
    Some(name)
}

/// What the names and the sets of the head allow.
fn allowed_by_head(
    alloc: Global,
    theory: &Theory,
    world: &World,
    heading: Heading<'_>,
    places: &Places,
    limits: &Limits,
) -> Result<Allowed, Refusal>
    ensures target { IfOk result (λ a. IsTarget (background world.now).section theory.now
        heading.entry.carrier
        (asked world.now.hier heading.entry.binders.now) a.target) }
    ensures factory { IfOk result (λ a. a.factory ≡ heading.entry.factory) }
    ensures gives { IfOk result
        (λ a. a.gives ≡ provided_or_none world.now.hier (known_as world.now.hier heading.entry.factory)) }
{
    let span = places.span;
    let asked = asked_structures(alloc, &world.hier, heading.binders, places)?;
    let known = known_factory(&world.hier, heading.factory, span)?;
    match &world.section {
        Some(section) => {
            if !heading.binders.is_empty() || section.carrier.0 != heading.carrier.0 {
                return Err(refused(span, What::NotCarrier(heading.carrier)));
            }
            in_section(world, section, heading.factory, known, span)
        }
        None => {
            let found = carrier_of(alloc, theory.env(), heading.carrier, asked.len(), limits);
            let k = match found {
                Ok(k) => k,
                Err(what) => return Err(refused(span, what)),
            };
            let target = Target::Constant(k, asked);
            at_constant(world, target, heading.factory, known, heading.carrier, span)
        }
    }
}

/// The structures that the binders ask.
fn asked_structures(
    alloc: Global,
    hier: &Hier,
    binders: &[Option<NameId>],
    places: &Places,
) -> Result<Vec<Option<StructId>>, Refusal>
    ensures { IfOk result (λ v. v.items ≡ asked hier.now binders.now) }
{
    let mut asked = Vec::new(alloc);
    for binder in binders {
        let structure = asked_structure(hier, *binder, places)?;
        let Ok(()) = asked.push(structure) else {
            return Err(refused(places.span, What::NoMemory));
        };
    }
    Ok(asked)
}

/// The structure that one binder asks.
fn asked_structure(
    hier: &Hier,
    binder: Option<NameId>,
    places: &Places,
) -> Result<Option<StructId>, Refusal>
    ensures { IfOk result (λ s. s ≡ asked_by hier.now binder) }
{
    match binder {
        None => Ok(None),
        Some(name) => Ok(Some(structure_named(hier, name, places.span)?)),
    }
}

/// The value of the entry's first declaration, taken out of the functions over the variables of the place.
fn value_in(
    alloc: Global,
    world: &World,
    allowed: &Allowed,
    entry: &Entry,
    places: &Places,
) -> Result<Term, Refusal> {
    let Ok(context) = context_at(alloc, &world.tables, allowed.place(&world.section)) else {
        return Err(refused(places.span, What::NoMemory));
    };
    let body = match entry.decls.first() {
        Some(Decl::Def { body, .. }) => body,
        Some(_) => return Err(bad_library(places, first_place(places))),
        None => return Err(bad_library(places, places.count)),
    };
    match taken_out(&context, body) {
        Ok(Some(value)) => Ok(value),
        Ok(None) => Err(bad_library(places, first_place(places))),
        Err(_) => Err(refused(places.span, What::NoMemory)),
    }
}

/// The first byte of the entry's first declaration.
fn first_place(places: &Places) -> u32 {
    match places.decls.first() {
        Some(at) => *at,
        None => places.count,
    }
}

/// The body of the function over exactly these types. None where it isn't one.
fn taken_out(context: &[Term], body: &Term) -> Result<Option<Term>, AllocError> {
    let mut inner = body;
    for ty in context {
        let View::Lam(domain, under) = inner.view() else {
            return Ok(None);
        };
        if !domain.same(ty) {
            return Ok(None);
        }
        inner = under;
    }
    Ok(Some(inner.copy()?))
}
