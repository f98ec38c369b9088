//! Raw terms with their extents, and their makers.
ghost use Rattle.std.specs.Prelude.{◌≡◌, IfOk};
ghost use Rattle.hb_grammar.specs.Part as spec;
ghost use Rattle.hb_raw.specs.Views.{groups, form};
ghost use Rattle.hb_reader.specs.Views.{part};

use hb_base::{NameId, Span};
use hb_raw::{Binder, Raw, RawKind, Word};
use std::alloc::{AllocError, Global};

/// A raw term with its extent, which has the parentheses around it.
#[derive(Drop)]
pub struct Part {
    pub raw: Raw,
    pub extent: Span,
}

/// From the beginning of `a` to the end of `b`.
pub fn joined(a: Span, b: Span) -> Span
    ensures { result ≡ spec.joined a b }
{
    Span {
        file: a.file,
        from: a.from,
        to: b.to,
    }
}

/// A term that is its own extent.
fn whole(span: Span, kind: RawKind) -> Part
    ensures { part result ≡ spec.whole span (form kind) }
{
    Part {
        raw: Raw { span, kind },
        extent: span,
    }
}

/// A name.
pub fn name_part(word: Word) -> Part
    ensures { part result ≡ spec.name_part word }
{
    whole(word.span, RawKind::Name(word.name))
}

/// `@n`.
pub fn bare_part(at: Span, word: Word) -> Part
    ensures { part result ≡ spec.bare_part at word }
{
    whole(joined(at, word.span), RawKind::At(word.name))
}

/// `_`.
pub fn hole_part(at: Span) -> Part
    ensures { part result ≡ spec.hole_part at }
{
    whole(at, RawKind::Hole)
}

/// `Prop`.
pub fn prop_part(at: Span) -> Part
    ensures { part result ≡ spec.prop_part at }
{
    whole(at, RawKind::Prop)
}

/// `Type`, which is `Type@{0}`.
pub fn type_part(at: Span) -> Part
    ensures { part result ≡ spec.type_part at }
{
    whole(at, RawKind::Level(0))
}

/// `Type@{k}`: from `Type` to `}`.
pub fn level_part(t: Part, level: u8, close: Span) -> Part
    ensures { part result ≡ spec.level_part (part t) level close }
{
    whole(joined(t.extent, close), RawKind::Level(level))
}

/// A term in parentheses: the term inside, whose extent has them.
pub fn bracketed(start: Span, t: Part, close: Span) -> Part
    ensures { part result ≡ spec.bracketed start (part t) close }
{
    Part {
        raw: t.raw,
        extent: joined(start, close),
    }
}

/// `(t : T)`, with its parentheses.
pub fn cast_part(
    alloc: Global,
    start: Span,
    t: Part,
    ty: Part,
    close: Span,
) -> Result<Part, AllocError>
    ensures { IfOk result (λ p. part p ≡ spec.cast_part start (part t) (part ty) close) }
{
    let t = Box::new(alloc, t.raw)?;
    let ty = Box::new(alloc, ty.raw)?;
    Ok(whole(joined(start, close), RawKind::Cast(t, ty)))
}

/// `t.(n)`, to its `)`.
pub fn projected_part(alloc: Global, t: Part, name: NameId, close: Span) -> Result<Part, AllocError>
    ensures { IfOk result (λ p. part p ≡ spec.projected_part (part t) name close) }
{
    let span = joined(t.extent, close);
    let t = Box::new(alloc, t.raw)?;
    Ok(whole(span, RawKind::Proj(t, name)))
}

/// `a -> b`.
pub fn arrow_part(alloc: Global, a: Part, b: Part) -> Result<Part, AllocError>
    ensures { IfOk result (λ p. part p ≡ spec.arrow_part (part a) (part b)) }
{
    let span = joined(a.extent, b.extent);
    let a = Box::new(alloc, a.raw)?;
    let b = Box::new(alloc, b.raw)?;
    Ok(whole(span, RawKind::Arrow(a, b)))
}

/// `forall`, from its word to the end of its body.
pub fn product_part(
    alloc: Global,
    start: Span,
    binders: Vec<Binder>,
    body: Part,
) -> Result<Part, AllocError>
    ensures { IfOk result (λ p. part p ≡ spec.product_part start (groups binders.items) (part body)) }
{
    let span = joined(start, body.extent);
    let body = Box::new(alloc, body.raw)?;
    Ok(whole(span, RawKind::Forall(binders, body)))
}

/// `fun`, from its word to the end of its body.
pub fn function_part(
    alloc: Global,
    start: Span,
    binders: Vec<Binder>,
    body: Part,
) -> Result<Part, AllocError>
    ensures { IfOk result (λ p. part p ≡ spec.function_part start (groups binders.items) (part body)) }
{
    let span = joined(start, body.extent);
    let body = Box::new(alloc, body.raw)?;
    Ok(whole(span, RawKind::Fun(binders, body)))
}
