//! Terms.
use crate::force::notation_of;
use crate::piece::{Piece, Place};
use crate::stack::put_before;
use hb_notation::{Notation, Side};
use hb_raw::{Binder, Raw, RawKind};
use std::alloc::AllocError;

/// Puts the pieces of a term on the stack, in parentheses where its place needs them. The answer says
/// whether a notation writes it.
pub(crate) fn take_apart<'a>(
    force: &[Notation],
    term: &'a Raw,
    place: Place,
    stack: &mut Vec<Piece<'a>>,
) -> Result<bool, AllocError> {
    let notation = match &term.kind {
        RawKind::App(function, args) => notation_of(force, function, args),
        _ => None,
    };
    if is_wrapped(term, notation, place) {
        put_before(
            stack,
            &[
                Piece::Token("("),
                Piece::Term(term, Place::Whole),
                Piece::Token(")"),
            ],
        )?;
        return Ok(false);
    }
    match &term.kind {
        RawKind::App(function, args) => match notation {
            Some(notation) => {
                put_operation(notation, args, stack)?;
                return Ok(true);
            }
            None => put_before(
                stack,
                &[
                    Piece::Term(function, Place::Argument),
                    Piece::Arguments(args),
                ],
            )?,
        },
        _ => put_other(term, stack)?,
    }
    Ok(false)
}

/// Whether a term stands in parentheses at a place.
fn is_wrapped(term: &Raw, notation: Option<Notation>, place: Place) -> bool {
    match &term.kind {
        RawKind::Forall(_, _) | RawKind::Fun(_, _) | RawKind::Arrow(_, _) => match place {
            Place::Whole => false,
            Place::Operand(_) | Place::Argument => true,
        },
        RawKind::App(_, _) => match place {
            Place::Whole => false,
            Place::Operand(most) => is_above(notation, most),
            Place::Argument => true,
        },
        _ => false,
    }
}

/// Whether an application that is written by the notation, if any, has a level above this one.
fn is_above(notation: Option<Notation>, most: u8) -> bool {
    match notation {
        Some(notation) => notation.level > most,
        None => false,
    }
}

/// Puts the pieces of an application that a notation writes on the stack.
fn put_operation<'a>(
    notation: Notation,
    args: &'a [Raw],
    stack: &mut Vec<Piece<'a>>,
) -> Result<(), AllocError> {
    let level = notation.level;
    let below = level.saturating_sub(1);
    let (left, right) = match notation.side {
        Side::Left => (level, below),
        Side::Right => (below, level),
        Side::Neither => (below, below),
        Side::Prefix => (level, level),
    };
    match args {
        [operand] => put_before(
            stack,
            &[
                Piece::Name(notation.op),
                Piece::Term(operand, Place::Operand(right)),
            ],
        ),
        [first, second] => put_before(
            stack,
            &[
                Piece::Term(first, Place::Operand(left)),
                Piece::Name(notation.op),
                Piece::Term(second, Place::Operand(right)),
            ],
        ),
        _ => Ok(()),
    }
}

/// Puts the pieces of a term that is no application on the stack.
fn put_other<'a>(term: &'a Raw, stack: &mut Vec<Piece<'a>>) -> Result<(), AllocError> {
    match &term.kind {
        RawKind::Name(name) => put_before(stack, &[Piece::Name(*name)]),
        RawKind::At(name) => put_before(stack, &[Piece::Token("@"), Piece::Name(*name)]),
        RawKind::Hole => put_before(stack, &[Piece::Token("_")]),
        RawKind::Prop => put_before(stack, &[Piece::Token("Prop")]),
        RawKind::Level(level) => put_before(stack, &[Piece::Level(*level)]),
        RawKind::Forall(binders, body) => put_binders("forall", ",", binders, body, stack),
        RawKind::Fun(binders, body) => put_binders("fun", "=>", binders, body, stack),
        RawKind::Arrow(domain, codomain) => put_before(
            stack,
            &[
                Piece::Term(domain, Place::Operand(u8::MAX)),
                Piece::Token("->"),
                Piece::Term(codomain, Place::Whole),
            ],
        ),
        RawKind::App(_, _) => Ok(()),
        RawKind::Proj(of, name) => put_before(
            stack,
            &[
                Piece::Term(of, Place::Argument),
                Piece::Token(".("),
                Piece::Name(*name),
                Piece::Token(")"),
            ],
        ),
        RawKind::Cast(inner, ty) => put_before(
            stack,
            &[
                Piece::Token("("),
                Piece::Term(inner, Place::Whole),
                Piece::Token(":"),
                Piece::Term(ty, Place::Whole),
                Piece::Token(")"),
            ],
        ),
    }
}

/// Puts the pieces of binders and what they are over on the stack. A lone binder that has a type stands
/// without parentheses.
fn put_binders<'a>(
    word: &'a str,
    sign: &'a str,
    binders: &'a [Binder],
    body: &'a Raw,
    stack: &mut Vec<Piece<'a>>,
) -> Result<(), AllocError> {
    put_before(
        stack,
        &[Piece::Token(sign), Piece::Term(body, Place::Whole)],
    )?;
    match binders {
        [
            Binder {
                names,
                ty: Some(ty),
            },
        ] => put_before(
            stack,
            &[
                Piece::Token(word),
                Piece::Bound(names),
                Piece::Token(":"),
                Piece::Term(ty, Place::Whole),
            ],
        ),
        _ => put_before(stack, &[Piece::Token(word), Piece::Groups(binders)]),
    }
}
