//! Names that a command declares.
ghost use Rattle.std.specs.Prelude.{◌≡◌, ◌↔◌, ◌≤◌, ◌++◌, ◌∷◌, [], false, length, map, slice_get, take, IsTrue, IfErr, IfSome, OnOk};
ghost use Rattle.hb_calculus.specs.Declarations.{names, names_of, IsIn};
ghost use Rattle.hb_env.specs.Plain.{plain, plains};
ghost use Rattle.hb_step.specs.Reserved.{is_kept, is_reserved as kept, is_reserved_part as kept_part};
ghost use Rattle.hb_step.specs.Naming.{IsReserved, IsStructure, IsTaken, IsRedeclared, IsUnfit};

use crate::refusals::refused;
use crate::reserved::{is_reserved, is_reserved_part};
use hb_base::{NameId, Names, Span};
use hb_env::{Decl, Env, Refusal, What};
use hb_hier::{Hier, Known};

/// A declared name at its place isn't kept for generated ones.
pub fn not_reserved(names: &Names, name: NameId, span: Span) -> Result<(), Refusal>
    ensures free { OnOk result (is_kept kept (slice_get names.now name.0) ≡ false) }
    ensures refused { IfErr result (IsReserved kept names.now name span) }
{
    if (name.0 as usize) < names.len() && is_reserved(names.text(name)) {
        return Err(refused(span, What::ReservedName(name)));
    }
    Ok(())
}

/// The name of a mixin, factory, structure or field at its place isn't kept for parts of generated ones.
pub fn not_reserved_part(names: &Names, name: NameId, span: Span) -> Result<(), Refusal>
    ensures free { OnOk result (is_kept kept_part (slice_get names.now name.0) ≡ false) }
    ensures refused { IfErr result (IsReserved kept_part names.now name span) }
{
    if (name.0 as usize) < names.len() && is_reserved_part(names.text(name)) {
        return Err(refused(span, What::ReservedName(name)));
    }
    Ok(())
}

/// A declared name at its place is new: neither declared nor a structure's.
pub fn not_taken(env: &Env, hier: &Hier, name: NameId, span: Span) -> Result<(), Refusal>
    ensures free { OnOk result (¬ IsTaken env.now hier.now name) }
    ensures refused { IfErr result (IsRedeclared env.now hier.now name span) }
{
    if is_taken(env, hier, name) {
        return Err(refused(span, What::Redeclared(name)));
    }
    Ok(())
}

/// Whether the name is declared, or a structure's.
fn is_taken(env: &Env, hier: &Hier, name: NameId) -> bool
    ensures { IsTrue result ↔ IsTaken env.now hier.now name }
{
    is_declared(env, name) || is_structure(hier, name)
}

/// Whether the name is declared.
fn is_declared(env: &Env, name: NameId) -> bool
    ensures { IsTrue result ↔ IsIn name.0 (names env.now) }
{
    match env.lookup(name) {
        Some(_) => true,
        None => false,
    }
}

/// Whether the name is a structure's.
fn is_structure(hier: &Hier, name: NameId) -> bool
    ensures { IsTrue result ↔ IsStructure hier.now name }
{
    match hier.known(name) {
        Some(Known::Structure(_)) => true,
        Some(Known::Mixin(_)) => false,
        Some(Known::Factory(_)) => false,
        None => false,
    }
}

/// The first name of the declarations, in their order, that is taken, is among `made`, or stands earlier in
/// them.
pub fn first_taken(env: &Env, hier: &Hier, made: &[NameId], decls: &[Decl]) -> Option<NameId>
    ensures taken { IfSome result (IsUnfit env.now hier.now (map (λ m. m.0) made.now) (plains decls.now)) }
{
    for at in 0..decls.len() {
        if let Some(name) = first_of(env, hier, made, &decls[..at], &decls[at]) {
            return Some(name);
        }
    }
    None
}

/// The first name of a declaration that is taken, is among `made`, or stands earlier in it or in those before
/// it.
fn first_of(env: &Env, hier: &Hier, made: &[NameId], before: &[Decl], decl: &Decl) -> Option<NameId>
    ensures { IfSome result (IsUnfit env.now hier.now (map (λ m. m.0) made.now) (plains before.now ++ plain decl.now ∷ [])) }
{
    for at in 0..decl.name_count() {
        let name = decl.name_at(at);
        if is_taken(env, hier, name)
            || is_made(made, name)
            || stands_before(decl, at, name)
            || stand_in(before, name)
        {
            return Some(name);
        }
    }
    None
}

/// Whether the name is one of those made before.
fn is_made(made: &[NameId], name: NameId) -> bool
    ensures { IsTrue result → IsIn name.0 (map (λ m. m.0) made.now) }
{
    for other in made {
        if *other == name {
            return true;
        }
    }
    false
}

/// Whether one of the first `end` names of the declaration is the name.
fn stands_before(decl: &Decl, end: usize, name: NameId) -> bool
    requires { end ≤ length (names_of (plain decl.now)) }
    ensures { IsTrue result → IsIn name.0 (take end (names_of (plain decl.now))) }
{
    for at in 0..end {
        if decl.name_at(at) == name {
            return true;
        }
    }
    false
}

/// Whether one of the declarations has the name.
fn stand_in(decls: &[Decl], name: NameId) -> bool
    ensures { IsTrue result → IsIn name.0 (names (plains decls.now)) }
{
    for decl in decls {
        if stands_before(decl, decl.name_count(), name) {
            return true;
        }
    }
    false
}
