//! Copies of declarations, whose terms are shared.
ghost use Rattle.std.specs.Prelude.{◌≡◌, IfOk};
ghost use Rattle.hb_env.specs.Plain.{plain};

use crate::decl::Decl;
use hb_base::NameId;
use hb_term::Term;
use std::alloc::{AllocError, Global};
use std::vec::Vec;

impl Decl {
    /// The same declaration once more.
    pub fn copy(&self, alloc: Global) -> Result<Decl, AllocError>
        ensures { IfOk result (λ d. plain d ≡ plain self.now) }
    {
        match self {
            Decl::Axiom { name, ty } => Ok(Decl::Axiom {
                name: *name,
                ty: ty.copy()?,
            }),
            Decl::Def { name, ty, body } => Ok(Decl::Def {
                name: *name,
                ty: ty.copy()?,
                body: body.copy()?,
            }),
            Decl::Record {
                name,
                maker,
                params,
                level,
                fields,
            } => Ok(Decl::Record {
                name: *name,
                maker: *maker,
                params: copies(alloc, params)?,
                level: *level,
                fields: field_copies(alloc, fields)?,
            }),
        }
    }
}

/// The same terms once more.
fn copies(alloc: Global, terms: &[Term]) -> Result<Vec<Term>, AllocError>
    ensures { IfOk result (λ v. v.items ≡ terms.now) }
{
    let mut copies = Vec::new(alloc);
    for term in terms {
        copies.push(term.copy()?)?;
    }
    Ok(copies)
}

/// The same fields once more.
fn field_copies(alloc: Global, fields: &[(NameId, Term)]) -> Result<Vec<(NameId, Term)>, AllocError>
    ensures { IfOk result (λ v. v.items ≡ fields.now) }
{
    let mut copies = Vec::new(alloc);
    for field in fields {
        copies.push((field.0, field.1.copy()?))?;
    }
    Ok(copies)
}
