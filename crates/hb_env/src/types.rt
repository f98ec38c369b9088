//! The types of constants.
ghost use Rattle.std.specs.Prelude.{◌≡◌, ◌+◌, ◌<◌, ◌^◌, ◌++◌, length, Some, IfOk, option_map};
ghost use Rattle.hb_tree.specs.Tree.{apply};
ghost use Rattle.hb_term.specs.Meaning.{tree};
ghost use Rattle.hb_calculus.specs.Declarations.{all_nodes, terms_of, field_types};
ghost use Rattle.hb_calculus.specs.Telescopes.{products, variables, former, type_in};
ghost use Rattle.hb_env.specs.Plain.{plain, trees, plain_fields};

use crate::decl::Decl;
use hb_base::NameId;
use hb_term::{ConstId, Sort, Term};
use std::alloc::{AllocError, Global};

impl Decl {
    /// The declared type of the constant `c`, whose declaration this is.
    pub(crate) fn type_of(&self, alloc: Global, c: ConstId) -> Result<Option<Term>, AllocError>
        requires { all_nodes (terms_of (plain self.now)) < 2 ^ 32 }
        ensures { IfOk result (λ t. option_map tree t ≡ type_in (Some (plain self.now)) c) }
    {
        match self {
            Decl::Axiom { ty, .. } | Decl::Def { ty, .. } => {
                if c.maker {
                    return Ok(None);
                }
                Ok(Some(ty.copy()?))
            }
            Decl::Record {
                params,
                level,
                fields,
                ..
            } => {
                let ty = if c.maker {
                    maker_type(alloc, c.decl, params, fields)?
                } else {
                    product_over_types(alloc, params, Term::Sort(Sort::Level(*level)))?
                };
                Ok(Some(ty))
            }
        }
    }
}

/// The type of the maker of the record at the place: from its parameters and fields to its former, which
/// is applied to the parameters.
fn maker_type(
    alloc: Global,
    decl: u32,
    params: &[Term],
    fields: &[(NameId, Term)],
) -> Result<Term, AllocError>
    requires { length params.now + length fields.now < 2 ^ 32 }
    ensures { IfOk
        result
        (λ t.
        tree t ≡ products
        (trees params.now ++ field_types (plain_fields fields.now))
        (apply (former decl) (variables (length (trees params.now)) (length (field_types (plain_fields fields.now)))))) }
{
    let applied = applied_former(alloc, decl, params.len() as u32, fields.len() as u32)?;
    let under_params = product_over_fields(alloc, fields, applied)?;
    product_over_types(alloc, params, under_params)
}

/// The product over the types, each under those before it, with `codomain` under all.
pub(crate) fn product_over_types(
    alloc: Global,
    types: &[Term],
    codomain: Term,
) -> Result<Term, AllocError>
    ensures { IfOk result (λ t. tree t ≡ products (trees types.now) (tree codomain)) }
{
    let mut product = codomain;
    let mut at = types.len();
    while at > 0 {
        at -= 1;
        product = Term::pi(alloc, types[at].copy()?, product)?;
    }
    Ok(product)
}

/// The same over the types of fields.
pub(crate) fn product_over_fields(
    alloc: Global,
    fields: &[(NameId, Term)],
    codomain: Term,
) -> Result<Term, AllocError>
    ensures { IfOk result (λ t. tree t ≡ products (field_types (plain_fields fields.now)) (tree codomain)) }
{
    let mut product = codomain;
    let mut at = fields.len();
    while at > 0 {
        at -= 1;
        product = Term::pi(alloc, fields[at].1.copy()?, product)?;
    }
    Ok(product)
}

/// The former of the record at the place, applied to its parameters: the `params` variables that stand
/// just outside the innermost `fields`.
pub(crate) fn applied_former(
    alloc: Global,
    decl: u32,
    params: u32,
    fields: u32,
) -> Result<Term, AllocError>
    requires { params + fields < 2 ^ 32 }
    ensures { IfOk result (λ t. tree t ≡ apply (former decl) (variables params fields)) }
{
    let mut term = Term::Const(ConstId { decl, maker: false });
    let mut left = params;
    while left > 0 {
        left -= 1;
        term = Term::app(alloc, term, Term::Rel(left + fields))?;
    }
    Ok(term)
}
