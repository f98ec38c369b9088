//! Writing pieces.
use crate::line::Line;
use crate::piece::{Piece, Place};
use crate::stack::put_before;
use crate::term::take_apart;
use hb_base::{NameId, Names, Span};
use hb_notation::Notation;
use hb_raw::{Binder, Field, Item, Raw, Word};
use std::alloc::{AllocError, Global};

/// Writes a piece, or takes it apart into pieces of the stack.
pub(crate) fn write_piece<'a>(
    alloc: Global,
    names: &Names,
    force: &[Notation],
    piece: Piece<'a>,
    stack: &mut Vec<Piece<'a>>,
    line: &mut Line,
) -> Result<(), AllocError> {
    match piece {
        Piece::Token(token) => line.token(token),
        Piece::Name(name) => line.token(text(names, name)),
        Piece::TypeOf(name) => {
            line.token(text(names, name))?;
            line.joined(".type")
        }
        Piece::Quoted(operator) => {
            line.token("\"")?;
            line.joined(text(names, operator))?;
            line.joined("\"")
        }
        Piece::Number(number) => line.token(format!(in alloc; "{number}")?.as_str()),
        Piece::Level(level) => write_level(alloc, level, line),
        Piece::Term(term, place) => {
            if take_apart(force, term, place, stack)? {
                line.operators = line.operators.saturating_add(1);
            }
            Ok(())
        }
        Piece::Arguments(args) => put_arguments(args, stack),
        Piece::Groups(groups) => put_groups(groups, stack),
        Piece::Bound(bound) => put_bound(bound, stack),
        Piece::Of(items) => put_of(items, stack),
        Piece::MoreItems(items) => put_more_items(items, stack),
        Piece::Fields(fields) => put_fields(fields, stack),
        Piece::Conditions(conditions) => put_conditions(conditions, stack),
        Piece::Words(words) => put_words(words, stack),
    }
}

/// The text of a name, or nothing where it isn't held.
fn text(names: &Names, name: NameId) -> &str {
    if usize::from(name.0) < names.len() {
        names.text(name)
    } else {
        ""
    }
}

/// Writes a sort.
fn write_level(alloc: Global, level: u8, line: &mut Line) -> Result<(), AllocError> {
    line.token("Type")?;
    if level == 0 {
        return Ok(());
    }
    line.joined(format!(in alloc; "@{{{level}}}")?.as_str())
}

/// Puts the pieces of arguments on the stack.
fn put_arguments<'a>(args: &'a [Raw], stack: &mut Vec<Piece<'a>>) -> Result<(), AllocError> {
    match args {
        [] => Ok(()),
        [first, rest @ ..] => put_before(
            stack,
            &[Piece::Term(first, Place::Argument), Piece::Arguments(rest)],
        ),
    }
}

/// Puts the pieces of binders on the stack.
fn put_groups<'a>(groups: &'a [Binder], stack: &mut Vec<Piece<'a>>) -> Result<(), AllocError> {
    let [first, rest @ ..] = groups else {
        return Ok(());
    };
    put_before(stack, &[Piece::Groups(rest)])?;
    match &first.ty {
        Some(ty) => put_before(
            stack,
            &[
                Piece::Token("("),
                Piece::Bound(&first.names),
                Piece::Token(":"),
                Piece::Term(ty, Place::Whole),
                Piece::Token(")"),
            ],
        ),
        None => put_before(stack, &[Piece::Bound(&first.names)]),
    }
}

/// Puts the pieces of bound names on the stack.
fn put_bound<'a>(
    bound: &'a [(Option<NameId>, Span)],
    stack: &mut Vec<Piece<'a>>,
) -> Result<(), AllocError> {
    match bound {
        [] => Ok(()),
        [(Some(name), _), rest @ ..] => {
            put_before(stack, &[Piece::Name(*name), Piece::Bound(rest)])
        }
        [(None, _), rest @ ..] => put_before(stack, &[Piece::Token("_"), Piece::Bound(rest)]),
    }
}

/// Puts the pieces of `of` with items on the stack.
fn put_of<'a>(items: &'a [Item], stack: &mut Vec<Piece<'a>>) -> Result<(), AllocError> {
    match items {
        [] => Ok(()),
        [first, rest @ ..] => put_before(
            stack,
            &[
                Piece::Token("of"),
                Piece::Name(first.factory.name),
                Piece::Name(first.carrier.name),
                Piece::MoreItems(rest),
            ],
        ),
    }
}

/// Puts the pieces of further items on the stack.
fn put_more_items<'a>(items: &'a [Item], stack: &mut Vec<Piece<'a>>) -> Result<(), AllocError> {
    match items {
        [] => Ok(()),
        [first, rest @ ..] => put_before(
            stack,
            &[
                Piece::Token("&"),
                Piece::Name(first.factory.name),
                Piece::Name(first.carrier.name),
                Piece::MoreItems(rest),
            ],
        ),
    }
}

/// Puts the pieces of fields on the stack.
fn put_fields<'a>(fields: &'a [Field], stack: &mut Vec<Piece<'a>>) -> Result<(), AllocError> {
    let [first, rest @ ..] = fields else {
        return Ok(());
    };
    if !rest.is_empty() {
        put_before(stack, &[Piece::Token(";"), Piece::Fields(rest)])?;
    }
    put_before(
        stack,
        &[
            Piece::Name(first.name.name),
            Piece::Token(":"),
            Piece::Term(&first.ty, Place::Whole),
        ],
    )
}

/// Puts the pieces of an instance's binders on the stack.
fn put_conditions<'a>(
    conditions: &'a [(Word, Option<Word>)],
    stack: &mut Vec<Piece<'a>>,
) -> Result<(), AllocError> {
    let [(name, structure), rest @ ..] = conditions else {
        return Ok(());
    };
    let ty = match structure {
        Some(structure) => Piece::TypeOf(structure.name),
        None => Piece::Token("Type"),
    };
    put_before(
        stack,
        &[
            Piece::Token("("),
            Piece::Name(name.name),
            Piece::Token(":"),
            ty,
            Piece::Token(")"),
            Piece::Conditions(rest),
        ],
    )
}

/// Puts the pieces of names on the stack.
fn put_words<'a>(words: &'a [Word], stack: &mut Vec<Piece<'a>>) -> Result<(), AllocError> {
    match words {
        [] => Ok(()),
        [first, rest @ ..] => put_before(stack, &[Piece::Name(first.name), Piece::Words(rest)]),
    }
}
