//! Queries that change nothing.
ghost use Rattle.std.specs.Prelude.{◌≡◌, ◌<◌, ◌⊎◌, IfOk, Some, length};
ghost use Rattle.hb_env.specs.Naming.{name_in};
ghost use Rattle.hb_env.specs.declared.named.Named.TheVariants as named;
ghost use Rattle.hb_events.specs.declared.event.Event.{Event};
ghost use Rattle.hb_session.specs.Reporting.{IsGiven, IsHowto, TellsAbout, TellsHowto, TellsJoin};
ghost use Rattle.hb_world.specs.Worlds.{background};

use crate::refusing::at;
use hb_base::{Limits, NameId, Span};
use hb_env::{Env, Named, Refusal, What};
use hb_events::Event;
use hb_hier::Hier;
use hb_howto::{HowtoRefused, howto as lists_for};
use hb_kernel::Theory;
use hb_order::StructId;
use hb_plain::{join_of, structure_of};
use hb_raw::Word;
use hb_reduce::{ReduceRefused, whnf};
use hb_term::{ConstId, Scoped, Sort, View};
use hb_world::World;
use std::alloc::{AllocError, Global};

/// What gives a carrier a structure: the least lists of mixins and factories, or that it is given.
/// `UnknownName` where the name is no structure, `NotCarrier` where the carrier is no constant that is a
/// type, `TooMany` of factories where too many would have to be looked at.
pub(crate) fn howto(
    alloc: Global,
    theory: &Theory,
    world: &World,
    structure: Word,
    carrier: Word,
    limits: &Limits,
) -> Result<Event, Refusal>
    ensures { IfOk result (TellsHowto theory.now (background world.now).hier structure carrier) }
{
    let s = match structure_of(&world.hier, structure) {
        Ok(s) => s,
        Err(refusal) => return Err(refusal),
    };
    let constant = match carrier_of(alloc, theory.env(), carrier, limits) {
        Ok(constant) => constant,
        Err(refusal) => return Err(refusal),
    };
    ways(alloc, &world.hier, s, constant, structure, carrier)
}

/// What gives the carrier the structure.
fn ways(
    alloc: Global,
    hier: &Hier,
    s: StructId,
    constant: ConstId,
    structure: Word,
    carrier: Word,
) -> Result<Event, Refusal>
    requires { s.0 < length hier.now.structures }
    ensures { IfOk result (λ e. IsGiven hier.now s constant structure carrier e
        ⊎ IsHowto hier.now s constant structure carrier e) }
{
    let given = hier.given(constant);
    if hier.mix(s).subset(given) {
        return Ok(Event::Given {
            structure: structure.name,
            carrier: carrier.name,
        });
    }
    match lists_for(alloc, hier, s, given) {
        Ok(lists) => Ok(Event::Howto {
            structure: structure.name,
            carrier: carrier.name,
            lists,
        }),
        Err(HowtoRefused::TooMany(count)) => Err(at(structure.span, What::TooMany(count))),
        Err(HowtoRefused::NoMemory) => Err(at(structure.span, What::NoMemory)),
    }
}

/// The join of two structures: `UnknownName` at the first name that is none.
pub(crate) fn join(world: &World, a: Word, b: Word) -> Result<Event, Refusal>
    ensures { IfOk result (TellsJoin (background world.now).hier a b) }
{
    match join_of(&world.hier, a, b) {
        Ok(join) => Ok(Event::Join {
            a: a.name,
            b: b.name,
            join,
        }),
        Err(refusal) => Err(refusal),
    }
}

/// The constant of a name, whose type's weak head form has to be `Prop` or the sort of level 0.
fn carrier_of(alloc: Global, env: &Env, name: Word, limits: &Limits) -> Result<ConstId, Refusal>
    ensures { IfOk result (λ k. name_in env.now (named.Const k) ≡ Some name.name.0) }
{
    let Some(Named::Const(constant)) = env.lookup(name.name) else {
        return Err(not_carrier(name));
    };
    let form = match form_of(alloc, env, constant, limits) {
        Ok(form) => form,
        Err(what) => return Err(at(name.span, what)),
    };
    if is_small_sort(&form) {
        Ok(constant)
    } else {
        Err(not_carrier(name))
    }
}

/// The refusal of a name that is no carrier.
fn not_carrier(name: Word) -> Refusal {
    at(name.span, What::NotCarrier(name.name))
}

/// The weak head form of a constant's type.
fn form_of(alloc: Global, env: &Env, constant: ConstId, limits: &Limits) -> Result<Scoped, What> {
    let Some(ty) = env.type_of(constant)? else {
        return Err(What::NoMemory);
    };
    let Some(ty) = Scoped::new(ty, 0) else {
        return Err(What::NoMemory);
    };
    match whnf(alloc, env, &ty, limits) {
        Ok(form) => Ok(form),
        Err(ReduceRefused::Spent(term)) => Err(What::Spent(term)),
        Err(ReduceRefused::NoMemory) => Err(What::NoMemory),
    }
}

/// Whether a term is `Prop` or the sort of level 0.
fn is_small_sort(form: &Scoped) -> bool {
    match form.term().view() {
        View::Sort(Sort::Prop) => true,
        View::Sort(Sort::Level(level)) => level == 0,
        _ => false,
    }
}

/// What is declared under a name: `UnknownFactory` where it is no mixin, factory or structure.
pub(crate) fn about(world: &World, name: Word) -> Result<Event, Refusal>
    ensures { IfOk result (TellsAbout (background world.now).hier name) }
{
    match world.hier.known(name.name) {
        Some(known) => Ok(Event::About {
            name: name.name,
            known,
        }),
        None => Err(at(name.span, What::UnknownFactory(name.name))),
    }
}
