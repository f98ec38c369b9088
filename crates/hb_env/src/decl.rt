//! Declarations.
ghost use Rattle.std.specs.Prelude.{◌≡◌, ◌-◌, ◌^◌, ◌<◌, min, length, Some, slice_get};
ghost use Rattle.hb_calculus.specs.Declarations.{names_of, fields_of, field_types, terms_of, all_nodes};
ghost use Rattle.hb_env.specs.Plain.{plain, plain_fields, trees};

use hb_base::NameId;
use hb_term::Term;
use std::vec::Vec;

/// A declaration. A record has its maker's name, the types of its parameters, a level, and fields with
/// their types; each type stands under the parameters and fields before it.
#[derive(Drop)]
pub enum Decl {
    Axiom {
        name: NameId,
        ty: Term,
    },
    Def {
        name: NameId,
        ty: Term,
        body: Term,
    },
    Record {
        name: NameId,
        maker: NameId,
        params: Vec<Term>,
        level: u8,
        fields: Vec<(NameId, Term)>,
    },
}

impl Decl {
    /// How many names it declares: its own, and of a record the maker's and the fields'.
    pub fn name_count(&self) -> usize
        ensures { result ≡ length (names_of (plain self.now)) }
    {
        match self {
            Decl::Axiom { .. } | Decl::Def { .. } => 1,
            Decl::Record { fields, .. } => fields.len() + 2,
        }
    }

    /// The name of the number `at` among those that it declares: its own, the maker's, the fields'.
    pub fn name_at(&self, at: usize) -> NameId
        requires { at < length (names_of (plain self.now)) }
        ensures { slice_get (names_of (plain self.now)) at ≡ Some result.0 }
    {
        match self {
            Decl::Axiom { name, .. } | Decl::Def { name, .. } => *name,
            Decl::Record {
                name,
                maker,
                fields,
                ..
            } => {
                if at == 0 {
                    *name
                } else if at == 1 {
                    *maker
                } else {
                    fields[at - 2].0
                }
            }
        }
    }

    /// How many fields it has: none, if it is no record.
    pub fn field_count(&self) -> usize
        ensures { result ≡ fields_of (plain self.now) }
    {
        match self {
            Decl::Axiom { .. } | Decl::Def { .. } => 0,
            Decl::Record { fields, .. } => fields.len(),
        }
    }

    /// The nodes of all its terms, up to `u64::MAX`.
    pub fn nodes(&self) -> u64
        ensures { result ≡ min (all_nodes (terms_of (plain self.now))) (2 ^ 64 - 1) }
    {
        match self {
            Decl::Axiom { ty, .. } => ty.nodes(),
            Decl::Def { ty, body, .. } => ty.nodes().saturating_add(body.nodes()),
            Decl::Record { params, fields, .. } => type_nodes(params).saturating_add(field_nodes(
                fields,
            )),
        }
    }
}

/// The nodes of the terms, up to `u64::MAX`.
fn type_nodes(types: &[Term]) -> u64
    ensures { result ≡ min (all_nodes (trees types.now)) (2 ^ 64 - 1) }
{
    let mut sum: u64 = 0;
    for ty in types {
        sum = sum.saturating_add(ty.nodes());
    }
    sum
}

/// The nodes of the types of fields, up to `u64::MAX`.
fn field_nodes(fields: &[(NameId, Term)]) -> u64
    ensures { result ≡ min (all_nodes (field_types (plain_fields fields.now))) (2 ^ 64 - 1) }
{
    let mut sum: u64 = 0;
    for field in fields {
        sum = sum.saturating_add(field.1.nodes());
    }
    sum
}
