//! Where instances stand: at a constant under binders, or at the carrier of a section.
use crate::arguments::{asked_types, carrier_at, const_or_first, value_at};
use crate::dependent::{applied_at, parameters};
use crate::lists::{count_of, index_in, listed};
use crate::look::required_by;
use crate::roles::{Role, constant};
use crate::terms::{apply_to, variables};
use hb_env::Env;
use hb_hier::{FactoryId, Hier, Known, MixinId, StructId};
use hb_sets::MixSet;
use hb_tables::Tables;
use hb_term::{ConstId, Term};
use std::alloc::{AllocError, Global};
use std::vec::Vec;

/// Where an instance stands.
#[derive(Clone, Copy)]
pub enum Place<'a> {
    /// At a constant, under binders of which these structures are asked.
    Constant(ConstId, &'a [Option<StructId>]),
    /// At the carrier of the factory's section, whose variables have these types.
    Local(FactoryId, &'a [Term]),
}

/// The types of the variables at the place, outermost first.
pub fn context_at(
    alloc: Global,
    tables: &Tables,
    place: Place<'_>,
) -> Result<Vec<Term>, AllocError> {
    match place {
        Place::Constant(_carrier, binders) => asked_types(alloc, tables, binders),
        Place::Local(_factory, context) => copies(alloc, context),
    }
}

/// Copies of the terms.
fn copies(alloc: Global, terms: &[Term]) -> Result<Vec<Term>, AllocError> {
    let mut all = Vec::new(alloc);
    for t in terms {
        all.push(t.copy()?)?;
    }
    Ok(all)
}

/// How many variables there are at the place.
pub(crate) fn depth_at(place: Place<'_>) -> Result<u32, AllocError> {
    match place {
        Place::Constant(_carrier, binders) => count_of(binders.len()),
        Place::Local(_factory, context) => count_of(context.len()),
    }
}

/// The carrier, as a term at the place.
pub fn carrier_of(alloc: Global, tables: &Tables, place: Place<'_>) -> Result<Term, AllocError> {
    match place {
        Place::Constant(carrier, binders) => {
            let args = variables(alloc, count_of(binders.len())?)?;
            carrier_at(alloc, tables, carrier, binders, &args)
        }
        Place::Local(_factory, context) => {
            Ok(Term::Rel(count_of(context.len())?.saturating_sub(1)))
        }
    }
}

/// Whether the carrier has the mixin.
pub fn has_at(hier: &Hier, tables: &Tables, place: Place<'_>, m: u16) -> bool {
    match place {
        Place::Constant(carrier, _binders) => hier.given(carrier).has(m),
        Place::Local(factory, _context) => {
            required_by(hier, Known::Factory(factory)).has(m)
                || tables.builder(factory, MixinId(m)).is_some()
        }
    }
}

/// What the carrier has for the mixin, as a term at the place.
pub fn term_at(
    alloc: Global,
    hier: &Hier,
    tables: &Tables,
    place: Place<'_>,
    m: u16,
) -> Result<Term, AllocError> {
    match place {
        Place::Constant(carrier, binders) => {
            let args = variables(alloc, count_of(binders.len())?)?;
            value_at(alloc, hier, tables, carrier, binders, &args, m)
        }
        Place::Local(factory, context) => {
            local_term(alloc, hier, tables, factory, count_of(context.len())?, m)
        }
    }
}

/// What the carrier of the factory's section has for the mixin, where the context has so many variables.
fn local_term(
    alloc: Global,
    hier: &Hier,
    tables: &Tables,
    factory: FactoryId,
    depth: u32,
    m: u16,
) -> Result<Term, AllocError> {
    let required = required_by(hier, Known::Factory(factory));
    if required.has(m) {
        let all = listed(alloc, &required)?;
        let place = u32::from(index_in(&all, m));
        return Ok(Term::Rel(depth.saturating_sub(2).saturating_sub(place)));
    }
    let built = const_or_first(tables.builder(factory, MixinId(m)));
    let args = variables(alloc, depth)?;
    apply_to(alloc, Term::Const(built), &args)
}

/// What a new constant for the mixin is to the tables.
pub(crate) fn role_at(place: Place<'_>, m: u16) -> Role {
    match place {
        Place::Constant(carrier, _binders) => Role::Value(carrier, MixinId(m)),
        Place::Local(factory, _context) => Role::Builder(factory, MixinId(m)),
    }
}

/// The mixin or factory at the carrier, as a type at the place.
pub fn wanted_at(
    alloc: Global,
    env: &Env,
    hier: &Hier,
    tables: &Tables,
    place: Place<'_>,
    known: Known,
) -> Result<Term, AllocError> {
    wanted_with(alloc, env, hier, tables, place, known, &[])
}

/// The same, where the constants were made for mixins that the carrier hadn't.
pub(crate) fn wanted_with(
    alloc: Global,
    env: &Env,
    hier: &Hier,
    tables: &Tables,
    place: Place<'_>,
    known: Known,
    fresh: &[(u16, u32)],
) -> Result<Term, AllocError> {
    let carrier = carrier_of(alloc, tables, place)?;
    let terms = terms_for(alloc, hier, tables, place, &required_by(hier, known), fresh)?;
    applied_at(alloc, env, hier, known, carrier, &terms)
}

/// What the carrier has for each mixin of the set, where the constants were made for those that it hadn't.
pub(crate) fn terms_for(
    alloc: Global,
    hier: &Hier,
    tables: &Tables,
    place: Place<'_>,
    set: &MixSet,
    fresh: &[(u16, u32)],
) -> Result<Vec<Term>, AllocError> {
    let mut terms = Vec::new(alloc);
    for m in &listed(alloc, set)? {
        terms.push(term_with(alloc, hier, tables, place, *m, fresh)?)?;
    }
    Ok(terms)
}

/// What it has for one mixin.
fn term_with(
    alloc: Global,
    hier: &Hier,
    tables: &Tables,
    place: Place<'_>,
    m: u16,
    fresh: &[(u16, u32)],
) -> Result<Term, AllocError> {
    match made_for(fresh, m) {
        Some(at) => applied_to_all(alloc, at, depth_at(place)?),
        None => term_at(alloc, hier, tables, place, m),
    }
}

/// The place of the constant that was made for the mixin last.
fn made_for(fresh: &[(u16, u32)], m: u16) -> Option<u32> {
    let mut found = None;
    for (made, at) in fresh {
        if *made == m {
            found = Some(*at);
        }
    }
    found
}

/// The constant at the place, applied to all variables.
pub(crate) fn applied_to_all(alloc: Global, at: u32, depth: u32) -> Result<Term, AllocError> {
    let args = variables(alloc, depth)?;
    apply_to(alloc, Term::Const(constant(at)), &args)
}

/// The types of the variables of the factory's section: the carrier, what the factory requires, and the
/// factory's value.
pub fn section_context(
    alloc: Global,
    env: &Env,
    hier: &Hier,
    factory: FactoryId,
) -> Result<Vec<Term>, AllocError> {
    let known = Known::Factory(factory);
    let required = required_by(hier, known);
    let mut context = parameters(alloc, env, hier, &required)?;
    let count = count_of(context.len())?.saturating_sub(1);
    let values = variables(alloc, count)?;
    let value = applied_at(alloc, env, hier, known, Term::Rel(count), &values)?;
    context.push(value)?;
    Ok(context)
}
