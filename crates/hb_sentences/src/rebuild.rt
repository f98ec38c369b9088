//! Terms of the source from those of the plain text: projections that stand for operators become
//! applications of the names of their notations, and places become those of the source.
ghost use Rattle.std.specs.Prelude.{◌≡◌, ◌+◌, IfOk};

use crate::operands::{Operand, Operands};
use crate::plain::{Plain, Use};
use hb_base::{NameId, Span};
use hb_raw::{Binder, Raw, RawKind};
use std::alloc::{AllocError, Global};

/// How deep terms may be inside each other: the nesting of sources bounds it.
pub(crate) const DEEPEST: u16 = 4_000;

/// The most projections in a row, and types nested in each other's binders: each takes some bytes.
const MOST_NESTED: u32 = 67_108_864;

/// What a term is inside of, in a chain that nothing bounds.
#[derive(Clone, Copy)]
enum Outer<'a> {
    /// A projection.
    Proj(Span, NameId),
    /// The written type of the last bound names of a product or a function.
    Type(&'a Raw),
}

/// A part of a chain of operands and operators.
#[derive(Clone, Copy)]
enum Part<'a> {
    Argument(&'a Raw),
    Operator(Use),
}

/// A chain of operands and operators of the plain text, from one byte to before another, with the right side
/// of the arrow that ends it, where one does.
#[derive(Drop)]
struct Chain<'a> {
    parts: Vec<Part<'a>>,
    from: u32,
    to: u32,
    right: Option<&'a Raw>,
}

/// How deep it may still go inside. Nothing that is read from a source goes so deep that it is out of memory
/// here, as its nesting is bounded.
fn deeper(left: u16) -> Result<u16, AllocError>
    ensures { IfOk result (λ inside. inside + 1 ≡ left) }
{
    left.checked_sub(1).ok_or(AllocError)
}

/// The operator that a term of the plain text ends with, and its operand; none for a prefix operator.
fn operator_of<'a>(plain: &Plain, raw: &'a Raw) -> Option<(Use, Option<&'a Raw>)> {
    let RawKind::Proj(inner, _) = &raw.kind else {
        return None;
    };
    let used = plain.operator_before(raw.span.to)?;
    if used.notation.is_prefix() {
        return Some((*used, None));
    }
    Some((*used, Some(inner)))
}

/// The written type of the last bound names of a product or a function.
fn last_type(raw: &Raw) -> Option<&Raw> {
    match &raw.kind {
        RawKind::Forall(binders, _) | RawKind::Fun(binders, _) => binders.last()?.ty.as_ref(),
        _ => None,
    }
}

/// The term of the source, at most `left` deep.
#[cycle(rebuild)]
pub(crate) fn term(alloc: Global, plain: &Plain, left: u16, raw: &Raw) -> Result<Raw, AllocError> {
    let left = deeper(left)?;
    let mut outer = Vec::new(alloc);
    let inner = innermost(plain, raw, &mut outer)?;
    let mut made = core(alloc, plain, left, inner)?;
    while let Some(next) = outer.pop() {
        made = wrapped(alloc, plain, left, next, made)?;
    }
    Ok(made)
}

/// The term inside of chains of projections and of written types; what it is inside of is put last into
/// `outer`, the outermost first.
fn innermost<'a>(
    plain: &Plain,
    raw: &'a Raw,
    outer: &mut Vec<Outer<'a>>,
) -> Result<&'a Raw, AllocError> {
    let mut now = raw;
    for _ in 0..MOST_NESTED {
        if operator_of(plain, now).is_some() {
            return Ok(now);
        }
        match &now.kind {
            RawKind::Proj(inner, name) => {
                outer.push(Outer::Proj(plain.span(now.span), *name))?;
                now = inner;
            }
            _ => {
                let Some(inner) = last_type(now) else {
                    return Ok(now);
                };
                outer.push(Outer::Type(now))?;
                now = inner;
            }
        }
    }
    Err(AllocError)
}

/// What a term is inside of, around the term of the source.
#[cycle(rebuild)]
fn wrapped(
    alloc: Global,
    plain: &Plain,
    left: u16,
    outer: Outer<'_>,
    made: Raw,
) -> Result<Raw, AllocError> {
    match outer {
        Outer::Proj(span, name) => Ok(Raw {
            span,
            kind: RawKind::Proj(Box::new(alloc, made)?, name),
        }),
        Outer::Type(raw) => bound(alloc, plain, left, raw, Some(made)),
    }
}

/// A term that is no projection, or one that stands for an operator.
#[cycle(rebuild)]
fn core(alloc: Global, plain: &Plain, left: u16, raw: &Raw) -> Result<Raw, AllocError> {
    let span = plain.span(raw.span);
    match &raw.kind {
        RawKind::Name(name) => Ok(leaf(span, RawKind::Name(*name))),
        RawKind::At(name) => Ok(leaf(span, RawKind::At(*name))),
        RawKind::Hole => Ok(leaf(span, RawKind::Hole)),
        RawKind::Prop => Ok(leaf(span, RawKind::Prop)),
        RawKind::Level(level) => Ok(leaf(span, RawKind::Level(*level))),
        RawKind::Forall(_, _) | RawKind::Fun(_, _) => bound(alloc, plain, left, raw, None),
        RawKind::Cast(t, ty) => {
            let t = term(alloc, plain, left, t)?;
            let ty = term(alloc, plain, left, ty)?;
            let kind = RawKind::Cast(Box::new(alloc, t)?, Box::new(alloc, ty)?);
            Ok(leaf(span, kind))
        }
        RawKind::App(_, _) | RawKind::Arrow(_, _) | RawKind::Proj(_, _) => {
            expression(alloc, plain, left, raw)
        }
    }
}

/// A term at a place.
fn leaf(span: Span, kind: RawKind) -> Raw {
    Raw { span, kind }
}

/// A product or a function of the plain text, whose last written type is that of the source already, where
/// it has one.
#[cycle(rebuild)]
fn bound(
    alloc: Global,
    plain: &Plain,
    left: u16,
    raw: &Raw,
    last: Option<Raw>,
) -> Result<Raw, AllocError> {
    let span = plain.span(raw.span);
    match &raw.kind {
        RawKind::Forall(binders, body) => {
            let binders = all_binders(alloc, plain, left, binders, last)?;
            let body = term(alloc, plain, left, body)?;
            Ok(leaf(span, RawKind::Forall(binders, Box::new(alloc, body)?)))
        }
        RawKind::Fun(binders, body) => {
            let binders = all_binders(alloc, plain, left, binders, last)?;
            let body = term(alloc, plain, left, body)?;
            Ok(leaf(span, RawKind::Fun(binders, Box::new(alloc, body)?)))
        }
        _ => Err(AllocError),
    }
}

/// Binders of which the last has its written type already.
#[cycle(rebuild)]
fn all_binders(
    alloc: Global,
    plain: &Plain,
    left: u16,
    binders: &[Binder],
    last: Option<Raw>,
) -> Result<Vec<Binder>, AllocError> {
    let mut made = Vec::new(alloc);
    let [before @ .., end] = binders else {
        return Ok(made);
    };
    for binder in before {
        made.push(one_binder(alloc, plain, left, binder)?)?;
    }
    made.push(Binder {
        names: bound_names(alloc, plain, end)?,
        ty: last,
    })?;
    Ok(made)
}

/// A binder.
#[cycle(rebuild)]
pub(crate) fn one_binder(
    alloc: Global,
    plain: &Plain,
    left: u16,
    binder: &Binder,
) -> Result<Binder, AllocError> {
    let names = bound_names(alloc, plain, binder)?;
    let ty = match &binder.ty {
        Some(ty) => Some(term(alloc, plain, left, ty)?),
        None => None,
    };
    Ok(Binder { names, ty })
}

/// The bound names of a binder.
fn bound_names(
    alloc: Global,
    plain: &Plain,
    binder: &Binder,
) -> Result<Vec<(Option<NameId>, Span)>, AllocError> {
    let mut names = Vec::new(alloc);
    for name in &binder.names {
        names.push((name.0, plain.span(name.1)))?;
    }
    Ok(names)
}

/// The parts of an application of the plain text: arguments, and operators behind them. Answers whether an
/// operator comes last.
fn add_parts<'a>(
    plain: &Plain,
    raw: &'a Raw,
    parts: &mut Vec<Part<'a>>,
) -> Result<bool, AllocError> {
    match &raw.kind {
        RawKind::App(head, args) => {
            let mut ends = add_part(plain, head, parts)?;
            for arg in args {
                ends = add_part(plain, arg, parts)?;
            }
            Ok(ends)
        }
        _ => add_part(plain, raw, parts),
    }
}

/// An argument, with the operator that it stands before. Answers whether there is one.
fn add_part<'a>(
    plain: &Plain,
    raw: &'a Raw,
    parts: &mut Vec<Part<'a>>,
) -> Result<bool, AllocError> {
    match operator_of(plain, raw) {
        Some((used, operand)) => {
            if let Some(operand) = operand {
                parts.push(Part::Argument(operand))?;
            }
            parts.push(Part::Operator(used))?;
            Ok(true)
        }
        None => {
            parts.push(Part::Argument(raw))?;
            Ok(false)
        }
    }
}

/// The chain of operands and operators that a term of the plain text is. An arrow behind an operator goes on
/// with it, up to parentheses.
fn chain_of<'a>(alloc: Global, plain: &Plain, raw: &'a Raw) -> Result<Chain<'a>, AllocError> {
    let mut parts = Vec::new(alloc);
    let mut now = raw;
    let mut from = raw.span.from;
    for i in 0..DEEPEST {
        let RawKind::Arrow(domain, codomain) = &now.kind else {
            add_parts(plain, now, &mut parts)?;
            return Ok(ended(parts, from, now.span.to, None));
        };
        if i == 0 {
            from = domain.span.from;
        }
        if !add_parts(plain, domain, &mut parts)? {
            return Ok(ended(parts, from, domain.span.to, Some(codomain)));
        }
        if codomain.span.to != now.span.to {
            parts.push(Part::Argument(codomain))?;
            return Ok(ended(parts, from, now.span.to, None));
        }
        now = codomain;
    }
    Err(AllocError)
}

/// A chain.
fn ended<'a>(parts: Vec<Part<'a>>, from: u32, to: u32, right: Option<&'a Raw>) -> Chain<'a> {
    Chain {
        parts,
        from,
        to,
        right,
    }
}

/// An application or an arrow, with the operators inside.
#[cycle(rebuild)]
fn expression(alloc: Global, plain: &Plain, left: u16, raw: &Raw) -> Result<Raw, AllocError> {
    let Chain {
        parts,
        from,
        to,
        right,
    } = chain_of(alloc, plain, raw)?;
    let made = operation(
        alloc,
        plain,
        left,
        parts.as_slice(),
        plain.from(from),
        plain.to(to),
    )?;
    let Some(right) = right else {
        return Ok(made);
    };
    let right = term(alloc, plain, left, right)?;
    let kind = RawKind::Arrow(Box::new(alloc, made)?, Box::new(alloc, right)?);
    Ok(leaf(plain.span(raw.span), kind))
}

/// Operands and operators from one byte of the source to before another.
#[cycle(rebuild)]
fn operation(
    alloc: Global,
    plain: &Plain,
    left: u16,
    parts: &[Part<'_>],
    from: u32,
    to: u32,
) -> Result<Raw, AllocError> {
    let mut operands = Operands::new(alloc);
    let mut arguments = Vec::new(alloc);
    let mut begin = from;
    for part in parts {
        match part {
            Part::Argument(raw) => arguments.push(term(alloc, plain, left, raw)?)?,
            Part::Operator(used) => {
                if !arguments.is_empty() {
                    operands.operand(applied(alloc, arguments, plain, begin, used.before)?)?;
                    arguments = Vec::new(alloc);
                }
                operands.operator(*used)?;
                begin = used.behind;
            }
        }
    }
    operands.operand(applied(alloc, arguments, plain, begin, to)?)?;
    Ok(operands.whole()?.raw)
}

/// The application of the first term to the others, from one byte to before another; a term alone is itself.
fn applied(
    alloc: Global,
    arguments: Vec<Raw>,
    plain: &Plain,
    from: u32,
    to: u32,
) -> Result<Operand, AllocError> {
    let mut arguments = arguments;
    if arguments.len() > 1 {
        let head = arguments.remove(0);
        let span = Span {
            from,
            to,
            ..plain.end()
        };
        let kind = RawKind::App(Box::new(alloc, head)?, arguments);
        return Ok(Operand {
            raw: leaf(span, kind),
            from,
            to,
        });
    }
    match arguments.pop() {
        Some(raw) => Ok(Operand { raw, from, to }),
        None => Err(AllocError),
    }
}
