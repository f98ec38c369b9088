//! What the names and the sets of an instance allow.
ghost use Rattle.std.specs.Prelude.{◌≡◌, map, IfOk, Some};
ghost use Rattle.std.specs.Option.{option_map};
ghost use Rattle.hb_hier.specs.Giving.{provided_or_none};
ghost use Rattle.hb_hier.specs.Hierarchy.{known_as, provided, IsDeclared};
ghost use Rattle.hb_order.specs.declared.ids.FactoryId.{FactoryId};
ghost use Rattle.hb_world.specs.Taking.{word_name};
ghost use Rattle.hb_world.specs.Worlds.{background};
ghost use Rattle.hb_instance.specs.Giving.{asked_by, structure_as, IsTarget};
ghost use Rattle.hb_instance.specs.declared.target.Target.TheVariants as targets;

use crate::carrier::carrier_of;
use crate::command::Written;
use crate::target::{Allowed, Target, are_structures};
use hb_base::{Limits, NameId, Span};
use hb_env::{Refusal, What};
use hb_hier::{Hier, HierRefused, Known, MixinId, StructId};
use hb_items::{mixin_name, of_hierarchy};
use hb_kernel::Theory;
use hb_pack::{Place, has_at, provided_by, required_by};
use hb_raw::Word;
use hb_sets::MixSet;
use hb_step::refused;
use hb_world::{Section, World};
use std::alloc::Global;
use std::vec::Vec;

/// What the names and the sets of the text allow.
pub(crate) fn allowed_by_text(
    alloc: Global,
    theory: &Theory,
    world: &World,
    written: Written<'_>,
    limits: &Limits,
) -> Result<Allowed, Refusal>
    ensures target { IfOk result (λ a. IsTarget (background world.now).section theory.now
        written.entry.carrier.name
        (map (λ b. asked_by world.now.hier (option_map word_name b.1)) written.entry.binders.now)
        a.target) }
    ensures factory { IfOk result (λ a. a.factory ≡ written.entry.factory.name) }
    ensures gives { IfOk result
        (λ a. a.gives ≡ provided_or_none world.now.hier (known_as world.now.hier written.entry.factory.name)) }
{
    let asked = asked_structures(alloc, &world.hier, written)?;
    let known = known_factory(&world.hier, written.factory.name, written.factory.span)?;
    match &world.section {
        Some(section) => {
            let is_plain = written.binders.is_empty() && written.args.is_empty();
            let is_own = section.carrier.0 == written.carrier.name.0;
            if !is_plain || !is_own {
                return Err(not_carrier(written.carrier));
            }
            let place = written.factory;
            in_section(world, section, place.name, known, place.span)
        }
        None => {
            if !are_arguments(written) {
                return Err(not_carrier(written.carrier));
            }
            let k = match carrier_of(
                alloc,
                theory.env(),
                written.carrier.name,
                asked.len(),
                limits,
            ) {
                Ok(k) => k,
                Err(what) => return Err(refused(written.carrier.span, what)),
            };
            let place = written.factory;
            let target = Target::Constant(k, asked);
            at_constant(
                world,
                target,
                place.name,
                known,
                written.carrier.name,
                place.span,
            )
        }
    }
}

/// The refusal of the carrier.
fn not_carrier(carrier: Word) -> Refusal {
    refused(carrier.span, What::NotCarrier(carrier.name))
}

/// The structures that the binders ask.
fn asked_structures(
    alloc: Global,
    hier: &Hier,
    written: Written<'_>,
) -> Result<Vec<Option<StructId>>, Refusal>
    ensures { IfOk result
        (λ v. v.items ≡ map (λ b. asked_by hier.now (option_map word_name b.1))
        written.entry.binders.now) }
{
    let mut asked = Vec::new(alloc);
    for binder in written.binders {
        let structure = asked_structure(hier, binder.1)?;
        let Ok(()) = asked.push(structure) else {
            return Err(refused(written.factory.span, What::NoMemory));
        };
    }
    Ok(asked)
}

/// The structure that one binder asks.
fn asked_structure(hier: &Hier, word: Option<Word>) -> Result<Option<StructId>, Refusal>
    ensures { IfOk result (λ s. s ≡ asked_by hier.now (option_map word_name word)) }
{
    match word {
        None => Ok(None),
        Some(word) => Ok(Some(structure_named(hier, word.name, word.span)?)),
    }
}

/// The structure of the name.
pub(crate) fn structure_named(hier: &Hier, name: NameId, span: Span) -> Result<StructId, Refusal>
    ensures { IfOk result (λ s. Some s ≡ structure_as (known_as hier.now name)) }
{
    match hier.known(name) {
        Some(Known::Structure(s)) => Ok(s),
        Some(Known::Mixin(_)) => Err(refused(span, What::UnknownName(name))),
        Some(Known::Factory(_)) => Err(refused(span, What::UnknownName(name))),
        None => Err(refused(span, What::UnknownName(name))),
    }
}

/// The mixin or ended factory of the name.
pub(crate) fn known_factory(hier: &Hier, name: NameId, span: Span) -> Result<Known, Refusal>
    ensures known { IfOk result (λ k. known_as hier.now name ≡ Some k) }
    ensures declared { IfOk result (IsDeclared hier.now) }
{
    match hier.known(name) {
        Some(Known::Mixin(m)) => Ok(Known::Mixin(m)),
        Some(Known::Factory(f)) => {
            if hier.ended(f) {
                Ok(Known::Factory(f))
            } else {
                Err(refused(span, What::Unfinished(name)))
            }
        }
        Some(Known::Structure(_)) => Err(refused(span, What::UnknownFactory(name))),
        None => Err(refused(span, What::UnknownFactory(name))),
    }
}

/// Whether the arguments are the binders' names in order, which all differ.
fn are_arguments(written: Written<'_>) -> bool {
    if written.args.len() != written.binders.len() {
        return false;
    }
    for at in 0..written.args.len() {
        if !is_argument(written, at) {
            return false;
        }
    }
    true
}

/// Whether the argument at the place is the binder's name, which no binder before has.
fn is_argument(written: Written<'_>, at: usize) -> bool {
    let (Some(arg), Some(binder)) = (written.args.get(at), written.binders.get(at)) else {
        return false;
    };
    let name = binder.0.name.0;
    arg.name.0 == name
        && written
            .binders
            .iter()
            .take(at)
            .all(|other| other.0.name.0 != name)
}

/// An instance at a constant that the sets allow.
pub(crate) fn at_constant(
    world: &World,
    target: Target,
    factory: NameId,
    known: Known,
    carrier: NameId,
    span: Span,
) -> Result<Allowed, Refusal>
    ensures target { IfOk result (λ a. a.target ≡ target) }
    ensures factory { IfOk result (λ a. a.factory ≡ factory) }
    ensures gives { IfOk result
        (λ a. a.gives ≡ provided_or_none world.now.hier (known_as world.now.hier factory)) }
{
    let checked = match &target {
        Target::Constant(k, binders) => {
            if are_structures(&world.hier, binders) {
                world.hier.check_giving(*k, binders, factory)
            } else {
                Err(HierRefused::NoMemory)
            }
        }
        Target::Local(_) => Err(HierRefused::NoMemory),
    };
    match checked {
        Ok(gives) => Ok(Allowed {
            target,
            factory,
            known,
            carrier,
            gives,
        }),
        Err(fault) => Err(refused(span, of_hierarchy(&world.hier, carrier, fault))),
    }
}

/// An instance at the section's carrier that the sets allow.
pub(crate) fn in_section(
    world: &World,
    section: &Section,
    factory: NameId,
    known: Known,
    span: Span,
) -> Result<Allowed, Refusal>
    requires { IsDeclared world.now.hier known }
    ensures target { IfOk result (λ a. (f : FactoryId) × (a.target ≡ targets.Local f)) }
    ensures factory { IfOk result (λ a. a.factory ≡ factory) }
    ensures gives { IfOk result (λ a. a.gives ≡ provided world.now.hier known) }
{
    let required = required_by(&world.hier, known);
    if let Some(m) = first_missing(world, section, &required) {
        return Err(refused(span, What::MissingMixin(mixin_name(&world.hier, m))));
    }
    Ok(Allowed {
        target: Target::Local(section.factory),
        factory,
        known,
        carrier: section.carrier,
        gives: provided_by(&world.hier, known),
    })
}

/// The first of the set that the section's carrier hasn't.
fn first_missing(world: &World, section: &Section, set: &MixSet) -> Option<MixinId> {
    let place = Place::Local(section.factory, &section.context);
    for m in 0..1024u16 {
        if set.has(m) && !has_at(&world.hier, &world.tables, place, m) {
            return Some(MixinId(m));
        }
    }
    None
}
