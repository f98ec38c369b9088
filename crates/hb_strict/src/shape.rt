//! Forms of types.
ghost use Rattle.std.specs.Prelude.{◌≡◌, ◌↔◌, map, length, IfOk, IfSome, IsTrue};
ghost use Rattle.hb_tree.specs.Tree.{apply};
ghost use Rattle.hb_term.specs.Meaning.{tree};
ghost use Rattle.hb_calculus.specs.Conversion.{IsSortBelow};
ghost use Rattle.hb_calculus.specs.Telescopes.{former};
ghost use Rattle.hb_calculus.specs.Typing as typing;
ghost use Rattle.hb_strict.specs.Tables.{IsRecordType};

use hb_env::Env;
use hb_reduce::sizes;
use hb_term::{RecId, Sort, Term, View};
use std::alloc::{AllocError, Global};
use std::vec::Vec;

/// The sort of a product whose domain and codomain have these sorts.
pub fn product_sort(domain: Sort, codomain: Sort) -> Sort
    ensures { result ≡ typing.product_sort domain codomain }
{
    match (domain, codomain) {
        (_, Sort::Prop) => Sort::Prop,
        (Sort::Prop, Sort::Level(k)) => Sort::Level(k),
        (Sort::Level(j), Sort::Level(k)) => Sort::Level(j.max(k)),
    }
}

/// Whether the first sort is at most the second.
pub fn is_below(s: Sort, t: Sort) -> bool
    ensures { IsTrue result ↔ IsSortBelow s t }
{
    match (s, t) {
        (Sort::Prop, _) => true,
        (Sort::Level(_), Sort::Prop) => false,
        (Sort::Level(j), Sort::Level(k)) => j <= k,
    }
}

/// The parameters of the record that the type is, where the record has the field.
pub fn params_of(
    alloc: Global,
    env: &Env,
    rec: RecId,
    field: u16,
    ty: &Term,
) -> Result<Option<Vec<Term>>, AllocError>
    ensures { IfOk result (λ o. IfSome o (λ qs. IsRecordType env.now rec.0 field (tree ty.now) qs.items)) }
{
    let Some((params, fields)) = sizes(env, rec) else {
        return Ok(None);
    };
    if usize::from(field) >= fields {
        return Ok(None);
    }
    arguments(alloc, ty, rec, params)
}

/// The arguments of the term, where it is the record's former with `count` of them.
fn arguments(
    alloc: Global,
    term: &Term,
    rec: RecId,
    count: usize,
) -> Result<Option<Vec<Term>>, AllocError>
    ensures { IfOk result (λ o. IfSome o (λ qs. (tree term.now ≡ apply (former rec.0) (map tree qs.items)) × (length qs.items ≡ count))) }
{
    match term.view() {
        View::App(f, a) => {
            if count == 0 {
                return Ok(None);
            }
            match arguments(alloc, f, rec, count - 1)? {
                None => Ok(None),
                Some(before) => {
                    let mut params = before;
                    params.push(a.copy()?)?;
                    Ok(Some(params))
                }
            }
        }
        View::Const(c) if count == 0 && c.decl == rec.0 && !c.maker => { Ok(Some(Vec::new(alloc))) }
        _ => Ok(None),
    }
}
