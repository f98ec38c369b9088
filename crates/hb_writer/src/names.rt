//! The names of what is declared.
ghost use Rattle.std.specs.Prelude.{◌≡◌, IfOk, Some, slice_get, string_bytes};
ghost use Rattle.std.specs.Option.{option_map};
ghost use Rattle.hb_calculus.specs.Declarations.{field_names};
ghost use Rattle.hb_env.specs.Naming as spec;
ghost use Rattle.hb_env.specs.Plain.{plain, plain_fields};
ghost use Rattle.hb_writer.specs.Entries as entries;
ghost use Rattle.hb_writer.specs.Entries.{number_of, own_text};

use hb_base::{NameId, Names};
use hb_env::{Decl, Env};
use hb_term::{ConstId, RecId, Term};
use std::alloc::{AllocError, Global};

/// The name of a constant: that of its declaration, or of the record's maker. `None` where the
/// environment has none.
pub(crate) fn constant_name(env: &Env, constant: ConstId) -> Option<NameId>
    ensures { option_map (λ n. n.0) result ≡ spec.const_name (slice_get env.now constant.decl) constant }
{
    match env.decl(constant.decl) {
        Some(Decl::Axiom { name, .. }) | Some(Decl::Def { name, .. }) => {
            if constant.maker { None } else { Some(*name) }
        }
        Some(Decl::Record { name, maker, .. }) => {
            if constant.maker {
                Some(*maker)
            } else {
                Some(*name)
            }
        }
        None => None,
    }
}

/// The name of a record's field. `None` where the environment has none.
pub(crate) fn field_name(env: &Env, rec: RecId, field: u16) -> Option<NameId>
    ensures { option_map (λ n. n.0) result ≡ spec.field_name (slice_get env.now rec.0) field }
{
    match env.decl(rec.0) {
        Some(Decl::Record { fields, .. }) => name_at(fields, field as usize),
        _ => None,
    }
}

/// The name of the field at the place.
fn name_at(fields: &[(NameId, Term)], at: usize) -> Option<NameId>
    ensures { option_map (λ n. n.0) result ≡ slice_get (field_names (plain_fields fields.now)) at }
{
    if at < fields.len() {
        Some(fields[at].0)
    } else {
        None
    }
}

/// The place of the declaration of the name, or the number of all declarations where there is none. It is
/// looked for from the end.
pub(crate) fn record_number(env: &Env, name: NameId) -> u32
    ensures { result ≡ number_of env.now name.0 }
{
    let mut at = env.len();
    while at > 0 {
        at -= 1;
        if let Some(decl) = env.decl(at) {
            if is_own(decl, name) {
                return at;
            }
        }
    }
    env.len()
}

/// Whether a declaration is known by the name.
fn is_own(decl: &Decl, name: NameId) -> bool
    ensures { result ≡ entries.is_own (Some (plain decl.now)) name.0 }
{
    match decl {
        Decl::Axiom { name: own, .. }
        | Decl::Def { name: own, .. }
        | Decl::Record { name: own, .. } => own.0 == name.0,
    }
}

/// The text of a name, or its number where it isn't held.
pub(crate) fn name_text(alloc: Global, names: &Names, name: NameId) -> Result<String, AllocError>
    ensures { IfOk result (λ s. string_bytes s ≡ own_text names.now name.0) }
{
    if usize::from(name.0) < names.len() {
        String::from_str(alloc, names.text(name))
    } else {
        let number = name.0;
        format!(in alloc; "!{number}")
    }
}
