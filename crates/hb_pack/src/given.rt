//! The declarations of instances: the value, and what it gives.
ghost use Rattle.std.specs.Prelude.{◌≡◌, ℕ, List, length, IfOk, OnOk};
ghost use Rattle.hb_generated.specs.Names as generated;
ghost use Rattle.hb_generated.specs.Session.{IsPrefix};

use crate::arguments::const_or_first;
use crate::error::PackRefused;
use crate::lists::{count_of, listed};
use crate::look::{provided_by, required_by};
use crate::place::{
    Place, applied_to_all, carrier_of, context_at, depth_at, has_at, role_at, terms_for, wanted_at,
    wanted_with,
};
use crate::roles::{Made, Role};
use crate::terms::{apply_to, functions_over, products_over};
use hb_base::{NameId, Names};
use hb_env::{Decl, Env};
use hb_hier::{FactoryId, Hier, Known, MixinId};
use hb_tables::Tables;
use hb_term::Term;
use std::alloc::{AllocError, Global};
use std::vec::Vec;

/// The constant of the instance's value, and those of the mixins of a factory that the carrier hadn't.
/// The value is a term at the place; without a name it gets the one that is made up with the number.
pub fn given_decls(
    alloc: Global,
    env: &Env,
    names: &mut Names,
    hier: &Hier,
    tables: &Tables,
    place: Place<'_>,
    made: u32,
    name: Option<NameId>,
    known: Known,
    value: Term,
) -> Result<Made, PackRefused>
    ensures alike { IfOk result (λ m. length m.roles.items ≡ length m.decls.items) }
    ensures kept { IsPrefix names.old names.new }
{
    let context = context_at(alloc, tables, place)?;
    let mut all = Made::new(alloc);
    let (own, next) = match name {
        Some(name) => (name, made),
        None => (made_up(alloc, names, made)?, made.saturating_add(1)),
    };
    let ty = wanted_at(alloc, env, hier, tables, place, known)?;
    let decl = closed(alloc, own, &context, ty, value)?;
    let role = value_role(hier, tables, place, known);
    all.push(role, decl)?;
    if let Known::Factory(f) = known {
        built(
            alloc, env, names, hier, tables, place, f, &context, next, &mut all,
        )?;
    }
    Ok(all)
}

/// What the value's constant is to the tables.
fn value_role(hier: &Hier, tables: &Tables, place: Place<'_>, known: Known) -> Role {
    match known {
        Known::Mixin(m) => {
            if has_at(hier, tables, place, m.0) {
                Role::Plain
            } else {
                role_at(place, m.0)
            }
        }
        Known::Factory(_) | Known::Structure(_) => Role::Plain,
    }
}

/// The definition, closed over the context.
fn closed(
    alloc: Global,
    name: NameId,
    context: &[Term],
    ty: Term,
    body: Term,
) -> Result<Decl, AllocError> {
    Ok(Decl::Def {
        name,
        ty: products_over(alloc, context, ty)?,
        body: functions_over(alloc, context, body)?,
    })
}

/// The number of the name that is made up with the number, also when more names follow.
fn made_up(alloc: Global, names: &mut Names, number: u32) -> Result<NameId, PackRefused>
    ensures number { IfOk result
        (λ id. (N : List (List ℕ)) → IsPrefix names.new N → generated.made_up N number ≡ id.0) }
    ensures kept { IsPrefix names.old names.new }
{
    let text = format!(in alloc; "HB_inst_{number}")?;
    Ok(names.number(&text)?)
}

/// The mixins that the factory provides and the carrier hasn't, each built of the value.
fn built(
    alloc: Global,
    env: &Env,
    names: &mut Names,
    hier: &Hier,
    tables: &Tables,
    place: Place<'_>,
    factory: FactoryId,
    context: &[Term],
    next: u32,
    all: &mut Made,
) -> Result<(), PackRefused>
    requires { length all.old.roles.items ≡ length all.old.decls.items }
    ensures alike { OnOk result (length all.new.roles.items ≡ length all.new.decls.items) }
    ensures kept { IsPrefix names.old names.new }
{
    let first = env.len();
    let value = applied_to_all(alloc, first, depth_at(place)?)?;
    let mut fresh = Vec::new(alloc);
    let mut number = next;
    for m in &listed(alloc, &provided_by(hier, Known::Factory(factory)))? {
        if has_at(hier, tables, place, *m) {
            continue;
        }
        let name = made_up(alloc, names, number)?;
        let decl = built_decl(
            alloc, env, hier, tables, place, factory, context, &value, &fresh, *m, name,
        )?;
        fresh.push((*m, first.saturating_add(count_of(all.decls.len())?)))?;
        all.push(role_at(place, *m), decl)?;
        number = number.saturating_add(1);
    }
    Ok(())
}

/// The constant of the mixin, built of the value by the factory's builder.
fn built_decl(
    alloc: Global,
    env: &Env,
    hier: &Hier,
    tables: &Tables,
    place: Place<'_>,
    factory: FactoryId,
    context: &[Term],
    value: &Term,
    fresh: &[(u16, u32)],
    m: u16,
    name: NameId,
) -> Result<Decl, AllocError> {
    let ty = wanted_with(
        alloc,
        env,
        hier,
        tables,
        place,
        Known::Mixin(MixinId(m)),
        fresh,
    )?;
    let builder = const_or_first(tables.builder(factory, MixinId(m)));
    let required = required_by(hier, Known::Factory(factory));
    let carrier = carrier_of(alloc, tables, place)?;
    let applied = Term::app(alloc, Term::Const(builder), carrier)?;
    let terms = terms_for(alloc, hier, tables, place, &required, fresh)?;
    let applied = apply_to(alloc, applied, &terms)?;
    let body = Term::app(alloc, applied, value.copy()?)?;
    closed(alloc, name, context, ty, body)
}
