//! Terms of a declaration that are too large.
ghost use Rattle.std.specs.Prelude.{◌≡◌, ◌↔◌, ◌++◌, IsTrue, IfOk, MatchOption};
ghost use Rattle.hb_tree.specs.Tree.{loose};
ghost use Rattle.hb_term.specs.Meaning.{tree};
ghost use Rattle.hb_calculus.specs.Declarations.{field_types, terms_of};
ghost use Rattle.hb_calculus.specs.Budget.{budget, TooLarge};
ghost use Rattle.hb_calculus.specs.Scope.{AreScoped, IsScopedDecl};
ghost use Rattle.hb_env.specs.Plain.{plain, trees, plain_fields};
ghost use Rattle.hb_kernel.specs.Scoping.{AreFit, IsFirstTooLarge};
ghost use Rattle.hb_kernel.specs.Sizes.{IsFirstLarge};

use crate::ask::in_scope;
use crate::scope::deeper;
use hb_base::{Limits, NameId};
use hb_env::Decl;
use hb_term::{Scoped, Term};
use std::alloc::AllocError;

/// Whether the term itself has too many nodes or is too deep.
fn is_large(limits: &Limits, t: &Term) -> bool
    ensures { IsTrue result ↔ TooLarge (budget limits.now) (tree t.now) }
{
    t.nodes() > limits.nodes || t.depth() > limits.depth
}

/// The first term of the declaration that is too large, in its scope.
pub(crate) fn oversized(limits: &Limits, decl: &Decl) -> Result<Option<Scoped>, AllocError>
    requires { IsScopedDecl (plain decl.now) }
    ensures { IfOk
        result
        (λ o.
        MatchOption
        o
        (AreFit (budget limits.now) (terms_of (plain decl.now)))
        (λ t. IsFirstTooLarge (budget limits.now) (plain decl.now) t.depth (tree t.term))) }
{
    match decl {
        Decl::Axiom { ty, .. } => closed_large(limits, ty),
        Decl::Def { ty, body, .. } => match closed_large(limits, ty)? {
            Some(kept) => Ok(Some(kept)),
            None => closed_large(limits, body),
        },
        Decl::Record { params, fields, .. } => types_large(limits, params, fields, 0),
    }
}

/// The closed term, if it is too large.
fn closed_large(limits: &Limits, t: &Term) -> Result<Option<Scoped>, AllocError>
    requires { loose (tree t.now) ≡ 0 }
    ensures { IfOk
        result
        (λ o. MatchOption o (¬ TooLarge (budget limits.now) (tree t.now)) (λ s. (s.term ≡ t.now) × (s.depth ≡ 0) × TooLarge (budget limits.now) (tree t.now))) }
{
    if is_large(limits, t) {
        Ok(Some(in_scope(t.copy()?, 0)))
    } else {
        Ok(None)
    }
}

/// The first of the types that is too large: of parameters, and then of fields, each under those before it.
fn types_large(
    limits: &Limits,
    params: &[Term],
    fields: &[(NameId, Term)],
    under: u32,
) -> Result<Option<Scoped>, AllocError>
    requires { AreScoped under (trees params.now ++ field_types (plain_fields fields.now)) }
    ensures { IfOk
        result
        (λ o.
        MatchOption
        o
        (AreFit (budget limits.now) (trees params.now ++ field_types (plain_fields fields.now)))
        (IsFirstLarge (budget limits.now) (trees params.now ++ field_types (plain_fields fields.now)) under)) }
{
    match params {
        [] => fields_large(limits, fields, under),
        [first, rest @ ..] => {
            if is_large(limits, first) {
                return Ok(Some(in_scope(first.copy()?, under)));
            }
            types_large(limits, rest, fields, deeper(under)?)
        }
    }
}

/// The first of the types of fields that is too large.
fn fields_large(
    limits: &Limits,
    fields: &[(NameId, Term)],
    under: u32,
) -> Result<Option<Scoped>, AllocError>
    requires { AreScoped under (field_types (plain_fields fields.now)) }
    ensures { IfOk
        result
        (λ o.
        MatchOption
        o
        (AreFit (budget limits.now) (field_types (plain_fields fields.now)))
        (IsFirstLarge (budget limits.now) (field_types (plain_fields fields.now)) under)) }
{
    match fields {
        [] => Ok(None),
        [first, rest @ ..] => {
            if is_large(limits, &first.1) {
                return Ok(Some(in_scope(first.1.copy()?, under)));
            }
            fields_large(limits, rest, deeper(under)?)
        }
    }
}
