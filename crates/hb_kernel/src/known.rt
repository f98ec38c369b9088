//! What a term may name: variables in scope, and what is declared.
ghost use Rattle.std.specs.Prelude.{◌≡◌, ◌↔◌, ◌+◌, ◌<◌, ◌^◌, ◌++◌, false, length, slice_get, IsTrue, IsSome};
ghost use Rattle.hb_tree.specs.Tree.{has_hole};
ghost use Rattle.hb_term.specs.Meaning.{tree};
ghost use Rattle.hb_calculus.specs.Declarations.{field_types};
ghost use Rattle.hb_calculus.specs.Telescopes.{type_in};
ghost use Rattle.hb_calculus.specs.Scope.{IsDeclared, IsField};
ghost use Rattle.hb_env.specs.Plain.{plain, trees, plain_fields};
ghost use Rattle.hb_kernel.specs.Scoping.{IsKnown, IsKnownDecl};
ghost use Rattle.hb_kernel.specs.Known.{AreKnownTypes};

use hb_base::NameId;
use hb_env::{Decl, Env};
use hb_term::{ConstId, RecId, Term};

/// Whether the variables of the term are among `depth`, it has no hole, and what it names is declared.
pub(crate) fn is_known(env: &Env, t: &Term, depth: u64) -> bool
    ensures { IsTrue result ↔ IsKnown env.now depth (tree t.now) }
{
    t.loose() <= depth && names_declared(env, t)
}

/// Whether the term has no hole, and names only what is declared.
fn names_declared(env: &Env, t: &Term) -> bool
    ensures { IsTrue result ↔ (IsDeclared env.now (tree t.now) × (has_hole (tree t.now) ≡ false)) }
{
    match t {
        Term::Sort(_) => true,
        Term::Rel(_) => true,
        Term::Pi(a, b) => names_declared(env, a.as_ref()) && names_declared(env, b.as_ref()),
        Term::Lam(a, b) => names_declared(env, a.as_ref()) && names_declared(env, b.as_ref()),
        Term::App(f, a) => names_declared(env, f.as_ref()) && names_declared(env, a.as_ref()),
        Term::Const(c) => is_constant(env, *c),
        Term::Proj(rec, field, of) => is_field(env, *rec, *field)
            && names_declared(env, of.as_ref()),
        Term::Hole(_) => false,
    }
}

/// Whether the constant is declared.
fn is_constant(env: &Env, c: ConstId) -> bool
    ensures { IsTrue result ↔ IsSome (type_in (slice_get env.now c.decl) c) }
{
    match env.decl(c.decl) {
        None => false,
        Some(Decl::Axiom { .. }) => !c.maker,
        Some(Decl::Def { .. }) => !c.maker,
        Some(Decl::Record { .. }) => true,
    }
}

/// Whether the record is declared and has the field.
fn is_field(env: &Env, rec: RecId, field: u16) -> bool
    ensures { IsTrue result ↔ IsField env.now rec.0 field }
{
    match env.decl(rec.0) {
        Some(Decl::Record { fields, .. }) => usize::from(field) < fields.len(),
        _ => false,
    }
}

/// The same of the terms of a declaration.
pub(crate) fn is_known_decl(env: &Env, decl: &Decl) -> bool
    ensures { IsTrue result ↔ IsKnownDecl env.now (plain decl.now) }
{
    match decl {
        Decl::Axiom { ty, .. } => is_known(env, ty, 0),
        Decl::Def { ty, body, .. } => is_known(env, ty, 0) && is_known(env, body, 0),
        Decl::Record { params, fields, .. } => types_known(env, params, fields, 0),
    }
}

/// The same of types, each under those before it: of parameters, and then of fields.
fn types_known(env: &Env, params: &[Term], fields: &[(NameId, Term)], under: u64) -> bool
    requires { under + length params.now + length fields.now < 2 ^ 64 }
    ensures { IsTrue result ↔ AreKnownTypes env.now under (trees params.now ++ field_types (plain_fields fields.now)) }
{
    match params {
        [] => fields_known(env, fields, under),
        [first, rest @ ..] => is_known(env, first, under)
            && types_known(env, rest, fields, under + 1),
    }
}

/// The same of the types of fields.
fn fields_known(env: &Env, fields: &[(NameId, Term)], under: u64) -> bool
    requires { under + length fields.now < 2 ^ 64 }
    ensures { IsTrue result ↔ AreKnownTypes env.now under (field_types (plain_fields fields.now)) }
{
    match fields {
        [] => true,
        [first, rest @ ..] => is_known(env, &first.1, under) && fields_known(env, rest, under + 1),
    }
}
