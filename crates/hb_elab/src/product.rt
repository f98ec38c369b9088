//! Products over bound names.

use crate::rules::sized;
use hb_base::Span;
use hb_elab_terms::{Desk, ElabFault, ElabRefused, Scene, TypeOf, at};
use hb_term::{Sort, Term};
use hb_world::Typed;
use std::alloc::{AllocError, Global};

/// A new hole as the type of a bound name.
pub(crate) fn unwritten(desk: &mut Desk, span: Span) -> Result<TypeOf, AllocError> {
    Ok(TypeOf {
        term: Term::Hole(desk.born(span)?),
        sort: Sort::Level(0),
    })
}

/// The product at the place over the bound domains, the outermost first, whose names end here.
pub(crate) fn product_over(
    alloc: Global,
    scene: Scene<'_>,
    desk: &mut Desk,
    span: Span,
    domains: Vec<TypeOf>,
    codomain: TypeOf,
) -> Result<Typed, ElabRefused> {
    let mut domains = domains;
    let mut now = codomain;
    while let Some(domain) = domains.pop() {
        desk.unbind();
        now = product_at(alloc, scene, desk, span, domain, now)?;
    }
    let TypeOf { term, sort } = now;
    Ok(Typed {
        term,
        ty: Term::Sort(sort),
    })
}

/// The product over one domain. Each hole under its name has a value.
fn product_at(
    alloc: Global,
    scene: Scene<'_>,
    desk: &Desk,
    span: Span,
    domain: TypeOf,
    codomain: TypeOf,
) -> Result<TypeOf, ElabRefused> {
    if let Some(birth) = desk.first_open() {
        return Err(at(birth, ElabFault::Unsolved));
    }
    let sort = product_sort(domain.sort, codomain.sort);
    let term = Term::pi(alloc, domain.term, codomain.term)?;
    let ty = Term::Sort(sort);
    let Typed { term, ty: _ } = sized(alloc, scene, desk, span, Typed { term, ty })?;
    Ok(TypeOf { term, sort })
}

/// The sort of a product: the lowest where the codomain's is, else the greater one.
fn product_sort(domain: Sort, codomain: Sort) -> Sort {
    match codomain {
        Sort::Prop => Sort::Prop,
        Sort::Level(codomain) => match domain {
            Sort::Prop => Sort::Level(codomain),
            Sort::Level(domain) => Sort::Level(domain.max(codomain)),
        },
    }
}
