//! What names stand for.
ghost use Rattle.std.specs.Prelude.{IsTrue};
ghost use Rattle.hb_record.specs.Records.{IsField};

use crate::desk::Desk;
use crate::scene::Scene;
use crate::terms::{apply_terms, type_after};
use hb_base::NameId;
use hb_env::{Decl, Env, Named};
use hb_hier::{Hier, Known};
use hb_order::{FactoryId, StructId};
use hb_record::projection_type;
use hb_reduce::sizes;
use hb_term::{ConstId, RecId, Term};
use hb_world::{Section, Typed};
use std::alloc::{AllocError, Global};

/// The constant of the name, wherever it stands.
pub fn constant_of(env: &Env, name: NameId) -> Option<ConstId> {
    match env.lookup(name) {
        Some(Named::Const(c)) => Some(c),
        Some(Named::Proj(_, _)) => None,
        None => None,
    }
}

/// What a name stands for in this scope before all others: a variable; in a section a field of its factory,
/// as the projection of its value, or a constant that the section declared, applied to its context.
pub fn name_of(
    alloc: Global,
    scene: Scene<'_>,
    desk: &Desk,
    name: NameId,
) -> Result<Option<Typed>, AllocError> {
    if let Some((term, ty)) = desk.variable(alloc, name)? {
        return Ok(Some(Typed { term, ty }));
    }
    let Some(section) = scene.section else {
        return Ok(None);
    };
    if let Some(made) = section_field(alloc, scene, section, desk.depth(), name)? {
        return Ok(Some(made));
    }
    if is_own(section, name) {
        return own_constant(alloc, scene.env, section, desk.depth(), name);
    }
    Ok(None)
}

/// Whether the section declared the name.
fn is_own(section: &Section, name: NameId) -> bool {
    section.definitions.iter().any(|own| own.0 == name.0)
}

/// A constant that the section declared, applied to its context.
fn own_constant(
    alloc: Global,
    env: &Env,
    section: &Section,
    depth: u32,
    name: NameId,
) -> Result<Option<Typed>, AllocError> {
    let Some(constant) = constant_of(env, name) else {
        return Ok(None);
    };
    let Some(ty) = env.type_of(constant)? else {
        return Ok(None);
    };
    let context = context_variables(alloc, section.context.len(), depth)?;
    let term = apply_terms(alloc, Term::Const(constant), &context)?;
    let ty = type_after(alloc, ty, &context)?;
    Ok(Some(Typed { term, ty }))
}

/// The first `count` variables of a scope of `depth`, the outermost first.
fn context_variables(alloc: Global, count: usize, depth: u32) -> Result<Vec<Term>, AllocError> {
    let mut variables = Vec::new(alloc);
    let mut inside = depth;
    for _ in 0..count {
        inside = inside.checked_sub(1).ok_or(AllocError)?;
        variables.push(Term::Rel(inside))?;
    }
    Ok(variables)
}

/// The name as a field of the section's factory: the projection of the factory's value.
fn section_field(
    alloc: Global,
    scene: Scene<'_>,
    section: &Section,
    depth: u32,
    name: NameId,
) -> Result<Option<Typed>, AllocError> {
    let Some(field) = field_place(scene.hier, section.factory, name) else {
        return Ok(None);
    };
    let Some(rec) = factory_record(scene, section.factory) else {
        return Ok(None);
    };
    let count = section.context.len();
    let params = context_variables(alloc, count.saturating_sub(1), depth)?;
    let size = u32::try_from(count).map_err(|_| AllocError)?;
    let value = Term::Rel(depth.checked_sub(size).ok_or(AllocError)?);
    projected(alloc, scene.env, rec, field, &params, value)
}

/// The place of the name among the factory's fields.
fn field_place(hier: &Hier, factory: FactoryId, name: NameId) -> Option<u16> {
    let known = Known::Factory(factory);
    hier.name(known)?;
    let mut at: u16 = 0;
    for field in hier.fields(known) {
        if field.0 == name.0 {
            return Some(at);
        }
        at = at.saturating_add(1);
    }
    None
}

/// The record of the factory.
fn factory_record(scene: Scene<'_>, factory: FactoryId) -> Option<RecId> {
    let name = scene.hier.name(Known::Factory(factory))?;
    let constant = constant_of(scene.env, name)?;
    Some(RecId(constant.decl))
}

/// The projection of the value to a field of the record with these parameters. None where there is no such
/// field, or the record hasn't so many parameters.
pub fn projected(
    alloc: Global,
    env: &Env,
    rec: RecId,
    field: u16,
    params: &[Term],
    value: Term,
) -> Result<Option<Typed>, AllocError> {
    if !has_field(env, rec, field, params.len()) {
        return Ok(None);
    }
    let ty = projection_type(alloc, env, rec, field, params, &value)?;
    let term = Term::proj(alloc, rec, field, value)?;
    Ok(Some(Typed { term, ty }))
}

/// Whether the record has the field, and so many parameters.
fn has_field(env: &Env, rec: RecId, field: u16, count: usize) -> bool
    ensures { IsTrue result → IsField env.now rec.0 field }
{
    let Some((params, fields)) = sizes(env, rec) else {
        return false;
    };
    if params != count {
        return false;
    }
    usize::from(field) < fields
}

/// The structure of which the constant is an operation.
pub fn operation_at(scene: Scene<'_>, constant: ConstId) -> Option<StructId> {
    scene.tables.operation(constant)
}

/// The mixin or factory whose record the constant forms or makes.
pub fn brings(scene: Scene<'_>, constant: ConstId) -> Option<Known> {
    match scene.env.decl(constant.decl) {
        Some(Decl::Record { name, .. }) => match scene.hier.known(*name) {
            Some(Known::Mixin(m)) => Some(Known::Mixin(m)),
            Some(Known::Factory(f)) => Some(Known::Factory(f)),
            Some(Known::Structure(_)) => None,
            None => None,
        },
        Some(Decl::Axiom { .. }) => None,
        Some(Decl::Def { .. }) => None,
        None => None,
    }
}
