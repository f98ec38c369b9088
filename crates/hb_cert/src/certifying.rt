//! Certificates of environments.
use crate::fault::{CertifyRefused, Fault, at_declaration};
use crate::recipe::{LEVELS, Recipes, Setting};
use hb_base::{Limits, NameId, Names};
use hb_env::{Decl, Env};
use hb_libfile::{Order, put_count, put_decl, put_names, put_number};
use hb_strict::is_below;
use hb_term::{Sort, Term};
use std::alloc::{AllocError, Global};
use std::vec::Vec;

/// A certificate, with the number of its lines.
#[derive(Drop)]
pub struct Certificate {
    pub bytes: Vec<u8>,
    pub lines: u64,
}

/// The certificate of the environment: each declaration with the lines of its terms, by strict typing. The first fault
/// of the lines, in their order, refuses it.
pub fn certify(
    alloc: Global,
    names: &Names,
    env: &Env,
    limits: &Limits,
) -> Result<Certificate, CertifyRefused> {
    let setting = Setting { alloc, env, limits };
    let mut order = Order::new(alloc)?;
    for at in 0..env.len() {
        if let Some(decl) = env.decl(at) {
            order.take_decl(decl)?;
        }
    }
    let mut lines: u64 = 0;
    let mut out = begin(alloc, names, &order, env.len())?;
    for at in 0..env.len() {
        if let Some(decl) = env.decl(at) {
            put_decl(&mut out, &order, decl)?;
            match declaration(setting, decl, &mut out) {
                Ok(count) => lines = lines.saturating_add(count),
                Err(fault) => return Err(at_declaration(at, fault)),
            }
        }
    }
    Ok(Certificate { bytes: out, lines })
}

/// The mark, the names and the count of declarations.
fn begin(alloc: Global, names: &Names, order: &Order, count: u32) -> Result<Vec<u8>, AllocError> {
    let mut out = Vec::new(alloc);
    out.extend_from_slice(b"HBCERT01")?;
    put_names(&mut out, names, order.names())?;
    put_number(&mut out, count)?;
    Ok(out)
}

/// The lines and the ending lines of a declaration: how many lines there are.
fn declaration(setting: Setting<'_>, decl: &Decl, out: &mut Vec<u8>) -> Result<u64, Fault> {
    let mut recipes = Recipes::new(setting.alloc);
    let mut ends = Vec::new(setting.alloc);
    match decl {
        Decl::Axiom { ty, .. } => {
            ends.push(closed_type(setting, &mut recipes, ty)?)
                .map_err(AllocError::from)?;
        }
        Decl::Def { ty, body, .. } => {
            ends.push(closed_type(setting, &mut recipes, ty)?)
                .map_err(AllocError::from)?;
            let line = recipes.recipe(setting, LEVELS, 0, body)?;
            let line = recipes.agree(setting, LEVELS, 0, line, ty)?;
            ends.push(line).map_err(AllocError::from)?;
        }
        Decl::Record {
            params,
            level,
            fields,
            ..
        } => record(setting, &mut recipes, params, *level, fields, &mut ends)?,
    }
    put_count(out, recipes.table.lines.len())?;
    out.extend_from_slice(&recipes.bytes)
        .map_err(AllocError::from)?;
    for end in &ends {
        put_number(out, *end)?;
    }
    Ok(recipes.table.lines.len() as u64)
}

/// The line of a type in no context.
fn closed_type(setting: Setting<'_>, recipes: &mut Recipes, ty: &Term) -> Result<u32, Fault> {
    type_in(setting, recipes, 0, ty)
}

/// The line of a type in the context, with a sort as its type.
fn type_in(
    setting: Setting<'_>,
    recipes: &mut Recipes,
    context: u32,
    ty: &Term,
) -> Result<u32, Fault> {
    let line = recipes.recipe(setting, LEVELS, context, ty)?;
    let line = recipes.as_sort(setting, LEVELS, context, line)?;
    match recipes.table.sort_of(line) {
        None => Err(recipes.untyped(context, ty)),
        Some(_) => Ok(line),
    }
}

/// The ending lines of parameters and fields, each in the context of those before it.
fn record(
    setting: Setting<'_>,
    recipes: &mut Recipes,
    params: &[Term],
    level: u8,
    fields: &[(NameId, Term)],
    ends: &mut Vec<u32>,
) -> Result<(), Fault> {
    let mut context = 0;
    let mut before: Option<(u32, &Term)> = None;
    for ty in params {
        context = after(setting, recipes, context, before)?;
        let line = type_in(setting, recipes, context, ty)?;
        ends.push(line).map_err(AllocError::from)?;
        before = Some((line, ty));
    }
    for field in fields {
        context = after(setting, recipes, context, before)?;
        let line = type_in(setting, recipes, context, &field.1)?;
        let fits = match recipes.table.sort_of(line) {
            None => false,
            Some(sort) => is_below(sort, Sort::Level(level)),
        };
        if !fits {
            return Err(recipes.untyped(context, &field.1));
        }
        ends.push(line).map_err(AllocError::from)?;
        before = Some((line, &field.1));
    }
    Ok(())
}

/// The context with the type before, if there is one.
fn after(
    setting: Setting<'_>,
    recipes: &mut Recipes,
    context: u32,
    before: Option<(u32, &Term)>,
) -> Result<u32, Fault> {
    match before {
        None => Ok(context),
        Some((line, ty)) => recipes.extend(setting, context, line, ty, ty),
    }
}
