//! Functions over bound names.

use crate::rules::{conformed, sized};
use hb_base::{NameId, Span};
use hb_elab_terms::{Desk, ElabFault, ElabRefused, Scene, TypeOf, at, equate, head, product_parts};
use hb_equations::Relation;
use hb_term::Term;
use hb_world::Typed;
use std::alloc::{AllocError, Global};

/// A bound name of a function, with its domain: without a wanted type; where another type than a product was
/// wanted; or where a product was. What was wanted is kept.
#[derive(Drop)]
pub(crate) enum Step {
    Free(Term),
    Other(Term, Term),
    Wanted(Term, Term),
}

/// The steps of the names that are bound so far, what is wanted under them, and the type of the next name
/// where it is elaborated already.
#[derive(Drop)]
pub(crate) struct Opened {
    pub steps: Vec<Step>,
    pub wanted: Option<Term>,
    pub first: Option<TypeOf>,
}

/// The step of a name, and what is wanted under it.
#[derive(Drop)]
pub(crate) struct Made {
    pub step: Step,
    pub under: Option<Term>,
}

/// What is wanted of a function at a bound name: nothing, another type than a product, or a product, which is
/// kept with its parts.
#[derive(Drop)]
pub(crate) enum Asked {
    Free,
    Other(Term),
    Product(Term, Term, Term),
}

/// Binds the name of a step.
pub(crate) fn with_step(
    desk: &mut Desk,
    steps: Vec<Step>,
    name: Option<NameId>,
    made: Made,
) -> Result<Opened, AllocError> {
    let Made { step, under } = made;
    let mut steps = steps;
    desk.bind(name, domain(&step))?;
    steps.push(step)?;
    Ok(Opened {
        steps,
        wanted: under,
        first: None,
    })
}

/// The domain of a step's name.
fn domain(step: &Step) -> &Term {
    match step {
        Step::Free(domain) => domain,
        Step::Other(domain, _) => domain,
        Step::Wanted(domain, _) => domain,
    }
}

/// The form of the wanted type.
pub(crate) fn asked_of(
    alloc: Global,
    scene: Scene<'_>,
    desk: &Desk,
    span: Span,
    wanted: Option<Term>,
) -> Result<Asked, ElabRefused> {
    let Some(wanted) = wanted else {
        return Ok(Asked::Free);
    };
    let form = match head(alloc, scene, desk, &wanted) {
        Ok(form) => form,
        Err(fault) => return Err(at(span, fault)),
    };
    let Some((domain, codomain)) = product_parts(&form)? else {
        return Ok(Asked::Other(wanted));
    };
    Ok(Asked::Product(wanted, domain, codomain))
}

/// The written domain of a function, which is equal to the wanted one.
pub(crate) fn equal_domain(
    alloc: Global,
    scene: Scene<'_>,
    desk: &mut Desk,
    span: Span,
    written: Term,
    domain: Term,
) -> Result<Term, ElabRefused> {
    let left = written.copy()?;
    match equate(alloc, scene, desk, span, Relation::Equal, left, domain) {
        Ok(()) => Ok(written),
        Err(fault) => Err(at(span, fault)),
    }
}

/// The function at the place over the steps, the outermost first, whose names end here.
pub(crate) fn function_over(
    alloc: Global,
    scene: Scene<'_>,
    desk: &mut Desk,
    span: Span,
    steps: Vec<Step>,
    body: Typed,
) -> Result<Typed, ElabRefused> {
    let mut steps = steps;
    let mut now = body;
    while let Some(step) = steps.pop() {
        now = function_at(alloc, scene, desk, span, step, now)?;
    }
    Ok(now)
}

fn function_at(
    alloc: Global,
    scene: Scene<'_>,
    desk: &mut Desk,
    span: Span,
    step: Step,
    body: Typed,
) -> Result<Typed, ElabRefused> {
    ends_bound(desk)?;
    match step {
        Step::Free(domain) => {
            let made = free_function(alloc, domain, body)?;
            sized(alloc, scene, desk, span, made)
        }
        Step::Other(domain, wanted) => {
            let made = free_function(alloc, domain, body)?;
            let made = sized(alloc, scene, desk, span, made)?;
            conformed(alloc, scene, desk, span, made, &wanted)
        }
        Step::Wanted(domain, wanted) => {
            let term = Term::lam(alloc, domain, body.term)?;
            let ty = wanted;
            sized(alloc, scene, desk, span, Typed { term, ty })
        }
    }
}

/// The innermost name ends. Each hole under it has a value.
fn ends_bound(desk: &mut Desk) -> Result<(), ElabRefused> {
    desk.unbind();
    match desk.first_open() {
        Some(birth) => Err(at(birth, ElabFault::Unsolved)),
        None => Ok(()),
    }
}

/// The function with its product.
fn free_function(alloc: Global, domain: Term, body: Typed) -> Result<Typed, AllocError> {
    let Typed { term, ty } = body;
    let under = domain.copy()?;
    Ok(Typed {
        term: Term::lam(alloc, domain, term)?,
        ty: Term::pi(alloc, under, ty)?,
    })
}
