//! The rules that go into the parts of raw terms.
ghost use Rattle.std.specs.Prelude.{◌≡◌, ◌+◌, IfOk};

use crate::function::{
    Asked, Made, Opened, Step, asked_of, equal_domain, function_over, with_step,
};
use crate::leaf::{bare_rule, hole_rule, level_rule, name_rule, prop_rule};
use crate::product::{product_over, unwritten};
use crate::rules::{bringer, brought, function_parts, given, project, settled};
use hb_base::{NameId, Span};
use hb_elab_terms::{Desk, ElabRefused, Scene, TypeOf, sorted};
use hb_raw::{Binder, Raw, RawKind};
use hb_term::{Sort, Term};
use hb_world::Typed;
use std::alloc::{AllocError, Global};

/// A raw term, with a wanted type or without. Where it begins with a bound name whose written type is
/// elaborated already, `first` is that type. It may go `left` deep.
#[cycle(elab)]
pub(crate) fn elaborate(
    alloc: Global,
    scene: Scene<'_>,
    desk: &mut Desk,
    left: u16,
    raw: &Raw,
    wanted: Option<&Term>,
    first: Option<TypeOf>,
) -> Result<Typed, ElabRefused> {
    let left = deeper(left)?;
    if let RawKind::Fun(binders, body) = &raw.kind {
        return function(
            alloc, scene, desk, left, binders, body, raw.span, wanted, first,
        );
    }
    let made = rule(alloc, scene, desk, left, raw, wanted, first)?;
    settled(alloc, scene, desk, raw.span, made, wanted)
}

/// How deep it may still go inside. Nothing that is read from a source goes so deep that it is out of memory
/// here, as its nesting is bounded.
fn deeper(left: u16) -> Result<u16, AllocError>
    ensures { IfOk result (λ inside. inside + 1 ≡ left) }
{
    left.checked_sub(1).ok_or(AllocError)
}

/// A function over bound names.
#[cycle(elab)]
fn function(
    alloc: Global,
    scene: Scene<'_>,
    desk: &mut Desk,
    left: u16,
    binders: &[Binder],
    body: &Raw,
    span: Span,
    wanted: Option<&Term>,
    first: Option<TypeOf>,
) -> Result<Typed, ElabRefused> {
    let Opened {
        steps,
        wanted,
        first: _,
    } = opened(alloc, scene, desk, left, binders, span, wanted, first)?;
    let body = elaborate(alloc, scene, desk, left, body, wanted.as_ref(), None)?;
    function_over(alloc, scene, desk, span, steps, body)
}

/// The rule of a raw term that is no function, before it conforms to a wanted type.
#[cycle(elab)]
fn rule(
    alloc: Global,
    scene: Scene<'_>,
    desk: &mut Desk,
    left: u16,
    raw: &Raw,
    wanted: Option<&Term>,
    first: Option<TypeOf>,
) -> Result<Typed, ElabRefused> {
    match &raw.kind {
        RawKind::Name(name) => name_rule(alloc, scene, desk, raw.span, *name),
        RawKind::At(name) => bare_rule(scene, raw.span, *name),
        RawKind::Hole => Ok(hole_rule(desk, raw.span, wanted)?),
        RawKind::Prop => Ok(prop_rule()),
        RawKind::Level(level) => level_rule(raw.span, *level),
        RawKind::Forall(binders, body) => {
            product(alloc, scene, desk, left, binders, body, raw.span, first)
        }
        RawKind::Fun(_, body) => elaborate(alloc, scene, desk, left, body, wanted, None),
        RawKind::Arrow(domain, codomain) => {
            arrow(alloc, scene, desk, left, raw.span, domain, codomain)
        }
        RawKind::App(function, args) => {
            application(alloc, scene, desk, left, raw.span, function, args)
        }
        RawKind::Proj(_, _) => projection(alloc, scene, desk, left, raw),
        RawKind::Cast(t, ty) => cast(alloc, scene, desk, left, t, ty),
    }
}

/// A term of a written type.
#[cycle(elab)]
pub(crate) fn cast(
    alloc: Global,
    scene: Scene<'_>,
    desk: &mut Desk,
    left: u16,
    t: &Raw,
    ty: &Raw,
) -> Result<Typed, ElabRefused> {
    let ty = as_type(alloc, scene, desk, left, ty)?;
    let made = elaborate(alloc, scene, desk, left, t, Some(&ty.term), None)?;
    Ok(Typed {
        term: made.term,
        ty: ty.term,
    })
}

/// A raw term as a type. The written types of first bound names are nested without bound in each other: it
/// goes down them first, and then up.
#[cycle(elab)]
pub(crate) fn as_type(
    alloc: Global,
    scene: Scene<'_>,
    desk: &mut Desk,
    left: u16,
    raw: &Raw,
) -> Result<TypeOf, ElabRefused> {
    let mut outer = Vec::new(alloc);
    let now = innermost(raw, &mut outer)?;
    let mut made = type_at(alloc, scene, desk, left, now, None)?;
    while let Some(next) = outer.pop() {
        made = type_at(alloc, scene, desk, left, next, Some(made))?;
    }
    Ok(made)
}

/// The most types that are nested so: each takes some bytes of a source, which has at most 1 MiB.
const MOST_NESTED: u32 = 1_048_576;

/// The innermost of the written types of first bound names; those around it, the outermost first, are put
/// last into `outer`.
fn innermost<'a>(raw: &'a Raw, outer: &mut Vec<&'a Raw>) -> Result<&'a Raw, AllocError> {
    let mut now = raw;
    for _ in 0..MOST_NESTED {
        let Some(inner) = first_written(now) else {
            return Ok(now);
        };
        outer.push(now)?;
        now = inner;
    }
    Err(AllocError)
}

/// The written type of the first bound name of a product or a function.
fn first_written(raw: &Raw) -> Option<&Raw> {
    match &raw.kind {
        RawKind::Forall(binders, _) | RawKind::Fun(binders, _) => match binders.as_slice() {
            [binder, ..] => match &binder.ty {
                Some(ty) if !binder.names.is_empty() => Some(ty),
                _ => None,
            },
            [] => None,
        },
        _ => None,
    }
}

/// A raw term as a type, whose first bound name has the type `first`.
#[cycle(elab)]
fn type_at(
    alloc: Global,
    scene: Scene<'_>,
    desk: &mut Desk,
    left: u16,
    raw: &Raw,
    first: Option<TypeOf>,
) -> Result<TypeOf, ElabRefused> {
    let made = elaborate(alloc, scene, desk, left, raw, None, first)?;
    sorted(alloc, scene, desk, raw.span, made)
}

/// The type of a bound name at the place.
#[cycle(elab)]
fn domain_of(
    alloc: Global,
    scene: Scene<'_>,
    desk: &mut Desk,
    left: u16,
    binder: &Binder,
    span: Span,
) -> Result<TypeOf, ElabRefused> {
    match &binder.ty {
        Some(ty) => as_type(alloc, scene, desk, left, ty),
        None => Ok(unwritten(desk, span)?),
    }
}

/// The product over bound names.
#[cycle(elab)]
fn product(
    alloc: Global,
    scene: Scene<'_>,
    desk: &mut Desk,
    left: u16,
    binders: &[Binder],
    body: &Raw,
    span: Span,
    first: Option<TypeOf>,
) -> Result<Typed, ElabRefused> {
    let mut domains = Vec::new(alloc);
    let mut first = first;
    for binder in binders {
        for name in &binder.names {
            let made = first.take();
            let domain = first_domain(alloc, scene, desk, left, binder, name.1, made)?;
            desk.bind(name.0, &domain.term)?;
            domains.push(domain)?;
        }
    }
    let codomain = as_type(alloc, scene, desk, left, body)?;
    product_over(alloc, scene, desk, span, domains, codomain)
}

/// The product over a name that isn't written.
#[cycle(elab)]
fn arrow(
    alloc: Global,
    scene: Scene<'_>,
    desk: &mut Desk,
    left: u16,
    span: Span,
    domain: &Raw,
    codomain: &Raw,
) -> Result<Typed, ElabRefused> {
    let domain = as_type(alloc, scene, desk, left, domain)?;
    desk.bind(None, &domain.term)?;
    let codomain = as_type(alloc, scene, desk, left, codomain)?;
    let mut domains = Vec::new(alloc);
    domains.push(domain)?;
    product_over(alloc, scene, desk, span, domains, codomain)
}

/// Binds the names of the function at the place: the steps of the names, and what is wanted of its body.
#[cycle(elab)]
pub(crate) fn opened(
    alloc: Global,
    scene: Scene<'_>,
    desk: &mut Desk,
    left: u16,
    binders: &[Binder],
    span: Span,
    wanted: Option<&Term>,
    first: Option<TypeOf>,
) -> Result<Opened, ElabRefused> {
    let steps = Vec::new(alloc);
    let mut now = Opened {
        steps,
        wanted: copied(wanted)?,
        first,
    };
    for binder in binders {
        for name in &binder.names {
            now = bound(alloc, scene, desk, left, binder, *name, span, now)?;
        }
    }
    Ok(now)
}

/// Binds one name.
#[cycle(elab)]
fn bound(
    alloc: Global,
    scene: Scene<'_>,
    desk: &mut Desk,
    left: u16,
    binder: &Binder,
    name: (Option<NameId>, Span),
    span: Span,
    now: Opened,
) -> Result<Opened, ElabRefused> {
    let Opened {
        steps,
        wanted,
        first,
    } = now;
    let asked = asked_of(alloc, scene, desk, span, wanted)?;
    let made = step_of(alloc, scene, desk, left, binder, name.1, span, asked, first)?;
    Ok(with_step(desk, steps, name.0, made)?)
}

/// The step of one name, and what is wanted under it.
#[cycle(elab)]
fn step_of(
    alloc: Global,
    scene: Scene<'_>,
    desk: &mut Desk,
    left: u16,
    binder: &Binder,
    place: Span,
    span: Span,
    asked: Asked,
    first: Option<TypeOf>,
) -> Result<Made, ElabRefused> {
    match asked {
        Asked::Free => {
            let domain = first_domain(alloc, scene, desk, left, binder, place, first)?;
            Ok(Made {
                step: Step::Free(domain.term),
                under: None,
            })
        }
        Asked::Other(wanted) => {
            let domain = first_domain(alloc, scene, desk, left, binder, place, first)?;
            Ok(Made {
                step: Step::Other(domain.term, wanted),
                under: None,
            })
        }
        Asked::Product(wanted, domain, codomain) => {
            let domain = wanted_domain(alloc, scene, desk, left, binder, span, domain)?;
            Ok(Made {
                step: Step::Wanted(domain, wanted),
                under: Some(codomain),
            })
        }
    }
}

/// The type of a bound name at the place, which may be elaborated already.
#[cycle(elab)]
fn first_domain(
    alloc: Global,
    scene: Scene<'_>,
    desk: &mut Desk,
    left: u16,
    binder: &Binder,
    place: Span,
    first: Option<TypeOf>,
) -> Result<TypeOf, ElabRefused> {
    let Some(domain) = first else {
        return domain_of(alloc, scene, desk, left, binder, place);
    };
    Ok(domain)
}

/// The same type once more.
fn copied(ty: Option<&Term>) -> Result<Option<Term>, AllocError> {
    match ty {
        Some(ty) => Ok(Some(ty.copy()?)),
        None => Ok(None),
    }
}

/// The domain of a function's bound name where a product is wanted: the written one, or that of the product.
#[cycle(elab)]
fn wanted_domain(
    alloc: Global,
    scene: Scene<'_>,
    desk: &mut Desk,
    left: u16,
    binder: &Binder,
    span: Span,
    domain: Term,
) -> Result<Term, ElabRefused> {
    match &binder.ty {
        None => Ok(domain),
        Some(ty) => {
            let written = as_type(alloc, scene, desk, left, ty)?;
            equal_domain(alloc, scene, desk, span, written.term, domain)
        }
    }
}

/// The application of a function to arguments; a mixin or factory at a carrier gets what it requires.
#[cycle(elab)]
fn application(
    alloc: Global,
    scene: Scene<'_>,
    desk: &mut Desk,
    left: u16,
    span: Span,
    function: &Raw,
    args: &[Raw],
) -> Result<Typed, ElabRefused> {
    if let Some((constant, known)) = bringer(alloc, scene, desk, function)? {
        if let [carrier, rest @ ..] = args {
            let kind = Term::Sort(Sort::Level(0));
            let carrier = elaborate(alloc, scene, desk, left, carrier, Some(&kind), None)?;
            let made = brought(alloc, scene, desk, span, constant, known, carrier.term)?;
            return applied(alloc, scene, desk, left, rest, span, made);
        }
    }
    let made = elaborate(alloc, scene, desk, left, function, None, None)?;
    applied(alloc, scene, desk, left, args, span, made)
}

/// A term at arguments.
#[cycle(elab)]
fn applied(
    alloc: Global,
    scene: Scene<'_>,
    desk: &mut Desk,
    left: u16,
    args: &[Raw],
    span: Span,
    made: Typed,
) -> Result<Typed, ElabRefused> {
    let mut now = made;
    for arg in args {
        now = extended(alloc, scene, desk, left, arg, span, now)?;
    }
    Ok(now)
}

/// A term at one argument.
#[cycle(elab)]
fn extended(
    alloc: Global,
    scene: Scene<'_>,
    desk: &mut Desk,
    left: u16,
    arg: &Raw,
    span: Span,
    made: Typed,
) -> Result<Typed, ElabRefused> {
    let Typed { term, ty } = made;
    let (domain, codomain) = function_parts(alloc, scene, desk, span, &ty)?;
    let argument = elaborate(alloc, scene, desk, left, arg, Some(&domain), None)?;
    given(alloc, scene, desk, span, term, &codomain, argument.term)
}

/// A chain of projections, however long: down to the term, and then up.
#[cycle(elab)]
fn projection(
    alloc: Global,
    scene: Scene<'_>,
    desk: &mut Desk,
    left: u16,
    raw: &Raw,
) -> Result<Typed, ElabRefused> {
    let mut outer = Vec::new(alloc);
    let mut now = raw;
    while let RawKind::Proj(inner, name) = &now.kind {
        outer.push((now.span, *name))?;
        now = inner;
    }
    let mut made = elaborate(alloc, scene, desk, left, now, None, None)?;
    while let Some((span, name)) = outer.pop() {
        made = project(alloc, scene, desk, span, made, name)?;
    }
    Ok(made)
}
