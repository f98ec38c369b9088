//! Texts of declarations and entries.
ghost use Rattle.std.specs.Prelude.{◌≡◌, replicate, true, None, Some, IfOk, slice_get, string_bytes};
ghost use Rattle.hb_calculus.specs.Telescopes.{type_in};
ghost use Rattle.hb_env.specs.Plain.{plain, plains, plain_field, plain_fields, trees};
ghost use Rattle.hb_term.specs.Meaning.{tree};
ghost use Rattle.hb_writer.specs.Entries as spec;
ghost use Rattle.hb_writer.specs.Text.{bound_names};

use crate::kind::Kind;
use crate::names::{name_text, record_number};
use crate::term::text_under;
use hb_base::{NameId, Names};
use hb_env::{Decl, Entry, Env};
use hb_term::{ConstId, Term};
use std::alloc::{AllocError, Global};

/// The text of an entry: its declarations in order, of the kind. An entry without declarations has the
/// empty text. Out of memory is the one error.
pub fn entry_text(
    alloc: Global,
    names: &Names,
    env: &Env,
    entry: &Entry,
    kind: Kind,
) -> Result<String, AllocError>
    ensures { IfOk result (λ s. string_bytes s ≡ spec.entry_text kind names.now env.now (plains entry.now.decls.items)) }
{
    let mut out = String::new(alloc);
    for decl in &entry.decls {
        let text = decl_text(alloc, names, env, decl, kind)?;
        out.push_str(text.as_str())?;
    }
    Ok(out)
}

/// The text of a declaration.
fn decl_text(
    alloc: Global,
    names: &Names,
    env: &Env,
    decl: &Decl,
    kind: Kind,
) -> Result<String, AllocError>
    ensures { IfOk result (λ s. string_bytes s ≡ spec.decl_text kind names.now env.now (plain decl.now)) }
{
    match kind {
        Kind::Rocq => rocq_text(alloc, names, env, decl),
        Kind::Listing => listing_text(alloc, names, env, decl),
    }
}

/// The line of a declaration for Rocq.
fn rocq_text(alloc: Global, names: &Names, env: &Env, decl: &Decl) -> Result<String, AllocError>
    ensures { IfOk result (λ s. string_bytes s ≡ spec.rocq_text names.now env.now (plain decl.now)) }
{
    match decl {
        Decl::Axiom { name, ty } => {
            let name = name_text(alloc, names, *name)?;
            let ty = text_under(alloc, names, env, &[], 0, ty)?;
            format!(in alloc; "Axiom {name} : {ty}.\n")
        }
        Decl::Def { name, ty, body } => {
            let name = name_text(alloc, names, *name)?;
            let ty = text_under(alloc, names, env, &[], 0, ty)?;
            let body = text_under(alloc, names, env, &[], 0, body)?;
            format!(in alloc; "Definition {name} : {ty} := {body}.\n")
        }
        Decl::Record {
            name,
            maker,
            params,
            level,
            fields,
        } => {
            let name = name_text(alloc, names, *name)?;
            let maker = name_text(alloc, names, *maker)?;
            let header = params_text(alloc, names, env, params)?;
            let inner = fields_text(alloc, names, env, params.len(), fields)?;
            format!(in alloc; "Record {name}{header} : Type@{{{level}}} := {maker} {{{inner} }}.\n")
        }
    }
}

/// The parameters of a record, each behind a space.
fn params_text(
    alloc: Global,
    names: &Names,
    env: &Env,
    params: &[Term],
) -> Result<String, AllocError>
    ensures { IfOk result (λ s. string_bytes s ≡ spec.params_text names.now env.now 0 (trees params.now)) }
{
    let mut out = String::new(alloc);
    for (at, param) in params.iter().enumerate() {
        let depth = at as u64;
        let ty = text_under(alloc, names, env, &[], depth, param)?;
        let text = format!(in alloc; " (_{depth} : {ty})")?;
        out.push_str(text.as_str())?;
    }
    Ok(out)
}

/// The fields of a record, each behind a space and parted by semicolons. The earlier fields are written
/// by their names.
fn fields_text(
    alloc: Global,
    names: &Names,
    env: &Env,
    params: usize,
    fields: &[(NameId, Term)],
) -> Result<String, AllocError>
    ensures { IfOk result (λ s. string_bytes s ≡ spec.fields_text names.now env.now true (replicate params None) (plain_fields fields.now)) }
{
    let mut out = String::new(alloc);
    let mut bound = unnamed(alloc, params)?;
    let mut first = true;
    for field in fields {
        let text = field_text(alloc, names, env, first, bound.as_slice(), field)?;
        out.push_str(text.as_str())?;
        bound.push(Some(field.0))?;
        first = false;
    }
    Ok(out)
}

/// A field behind a space, or behind a semicolon where it isn't the first.
fn field_text(
    alloc: Global,
    names: &Names,
    env: &Env,
    first: bool,
    bound: &[Option<NameId>],
    field: &(NameId, Term),
) -> Result<String, AllocError>
    ensures { IfOk result (λ s. string_bytes s ≡ spec.field_text names.now env.now first (bound_names bound.now) (plain_field field.now)) }
{
    let name = name_text(alloc, names, field.0)?;
    let depth = bound.len() as u64;
    let ty = text_under(alloc, names, env, bound, depth, &field.1)?;
    if first {
        format!(in alloc; " {name} : {ty}")
    } else {
        format!(in alloc; "; {name} : {ty}")
    }
}

/// So many variables without names.
fn unnamed(alloc: Global, count: usize) -> Result<Vec<Option<NameId>>, AllocError>
    ensures { IfOk result (λ bound. bound_names bound.items ≡ replicate count None) }
{
    let mut bound = Vec::new(alloc);
    for _i in 0..count {
        bound.push(None)?;
    }
    Ok(bound)
}

/// The lines of a declaration in a listing: each constant with its type.
fn listing_text(alloc: Global, names: &Names, env: &Env, decl: &Decl) -> Result<String, AllocError>
    ensures { IfOk result (λ s. string_bytes s ≡ spec.listing_text names.now env.now (plain decl.now)) }
{
    match decl {
        Decl::Axiom { name, ty } | Decl::Def { name, ty, .. } => {
            constant_line(alloc, names, env, *name, ty)
        }
        Decl::Record { name, maker, .. } => {
            let number = record_number(env, *name);
            let former = type_line(alloc, names, env, *name, constant(number, false))?;
            let made = type_line(alloc, names, env, *maker, constant(number, true))?;
            format!(in alloc; "{former}{made}")
        }
    }
}

/// The constant of a declaration, or the maker of a record.
fn constant(decl: u32, maker: bool) -> ConstId
    ensures { result ≡ record { decl = decl; maker = maker } }
{
    ConstId { decl, maker }
}

/// The line of a constant, with the type that the environment has for it. A constant that the environment
/// doesn't have has no line.
fn type_line(
    alloc: Global,
    names: &Names,
    env: &Env,
    name: NameId,
    constant: ConstId,
) -> Result<String, AllocError>
    ensures { IfOk result (λ s. string_bytes s ≡ spec.constant_line names.now env.now name.0 (type_in (slice_get env.now constant.decl) constant)) }
{
    match env.type_of(constant)? {
        Some(ty) => constant_line(alloc, names, env, name, &ty),
        None => Ok(String::new(alloc)),
    }
}

/// The line of a constant with a type.
fn constant_line(
    alloc: Global,
    names: &Names,
    env: &Env,
    name: NameId,
    ty: &Term,
) -> Result<String, AllocError>
    ensures { IfOk result (λ s. string_bytes s ≡ spec.constant_line names.now env.now name.0 (Some (tree ty.now))) }
{
    let name = name_text(alloc, names, name)?;
    let ty = text_under(alloc, names, env, &[], 0, ty)?;
    format!(in alloc; "{name} : {ty}\n")
}
