//! Sentences.
use crate::piece::{Piece, Place};
use crate::stack::put_before;
use hb_notation::{Notation, Side};
use hb_raw::{Binder, CommandKind, Field, Item, Raw, Word};
use std::alloc::AllocError;

/// Puts the pieces of a command on the stack, without its end.
pub(crate) fn put_command<'a>(
    command: &'a CommandKind,
    stack: &mut Vec<Piece<'a>>,
) -> Result<(), AllocError> {
    match command {
        CommandKind::Axiom { name, ty } => put_before(
            stack,
            &[
                Piece::Token("Axiom"),
                Piece::Name(name.name),
                Piece::Token(":"),
                Piece::Term(ty, Place::Whole),
            ],
        ),
        CommandKind::Definition {
            name,
            binders,
            ty,
            body,
        } => put_definition(*name, binders, ty, body, stack),
        CommandKind::Mixin {
            name,
            carrier,
            items,
            fields,
        } => put_record("HB.mixin", (*name, *carrier), items, fields, stack),
        CommandKind::Factory {
            name,
            carrier,
            items,
            fields,
        } => put_record("HB.factory", (*name, *carrier), items, fields, stack),
        CommandKind::Builders { carrier, var, item } => {
            put_builders(*carrier, *var, *item, stack)
        }
        CommandKind::End => put_before(stack, &[Piece::Token("HB.end")]),
        CommandKind::Structure {
            name,
            carrier,
            items,
        } => put_before(
            stack,
            &[
                Piece::Token("HB.structure"),
                Piece::Token("Definition"),
                Piece::Name(name.name),
                Piece::Token(":="),
                Piece::Token("{"),
                Piece::Name(carrier.name),
                Piece::Of(items),
                Piece::Token("}"),
            ],
        ),
        CommandKind::Instance {
            name,
            binders,
            factory,
            carrier,
            args,
            value,
        } => {
            put_carrier(*carrier, args, value, stack)?;
            put_before(
                stack,
                &[
                    Piece::Token("HB.instance"),
                    Piece::Token("Definition"),
                    own_name(*name),
                    Piece::Conditions(binders),
                    Piece::Token(":"),
                    Piece::Name(factory.name),
                ],
            )
        }
        CommandKind::Join { a, b } => put_words("HB.join", *a, *b, stack),
        CommandKind::Find { structure, carrier } => put_before(
            stack,
            &[
                Piece::Token("HB.find"),
                Piece::Name(structure.name),
                Piece::Term(carrier, Place::Argument),
            ],
        ),
        CommandKind::Require { name } => put_before(
            stack,
            &[Piece::Token("Require"), Piece::Name(name.name)],
        ),
        CommandKind::Howto { structure, carrier } => {
            put_words("HB.howto", *structure, *carrier, stack)
        }
        CommandKind::About { name } => put_before(
            stack,
            &[Piece::Token("HB.about"), Piece::Name(name.name)],
        ),
    }
}

/// Puts the pieces of a definition on the stack.
fn put_definition<'a>(
    name: Word,
    binders: &'a [Binder],
    ty: &'a Option<Raw>,
    body: &'a Raw,
    stack: &mut Vec<Piece<'a>>,
) -> Result<(), AllocError> {
    put_before(
        stack,
        &[Piece::Token(":="), Piece::Term(body, Place::Whole)],
    )?;
    if let Some(ty) = ty {
        put_before(stack, &[Piece::Token(":"), Piece::Term(ty, Place::Whole)])?;
    }
    put_before(
        stack,
        &[
            Piece::Token("Definition"),
            Piece::Name(name.name),
            Piece::Groups(binders),
        ],
    )
}

/// Puts the pieces of a mixin or a factory, by its name and its carrier, on the stack.
fn put_record<'a>(
    word: &'a str,
    names: (Word, Word),
    items: &'a [Item],
    fields: &'a [Field],
    stack: &mut Vec<Piece<'a>>,
) -> Result<(), AllocError> {
    put_before(
        stack,
        &[
            Piece::Token(word),
            Piece::Token("Record"),
            Piece::Name(names.0.name),
            Piece::Name(names.1.name),
            Piece::Of(items),
            Piece::Token(":="),
            Piece::Token("{"),
            Piece::Fields(fields),
            Piece::Token("}"),
        ],
    )
}

/// Puts the pieces of the beginning of a section on the stack.
fn put_builders<'a>(
    carrier: Word,
    var: Option<Word>,
    item: Item,
    stack: &mut Vec<Piece<'a>>,
) -> Result<(), AllocError> {
    if var.is_some() {
        put_before(stack, &[Piece::Token(")")])?;
    }
    put_before(
        stack,
        &[
            Piece::Name(item.factory.name),
            Piece::Name(item.carrier.name),
        ],
    )?;
    match var {
        Some(var) => put_before(
            stack,
            &[Piece::Token("("), Piece::Name(var.name), Piece::Token(":")],
        )?,
        None => put_before(stack, &[Piece::Token("of")])?,
    }
    put_before(
        stack,
        &[
            Piece::Token("HB.builders"),
            Piece::Token("Context"),
            Piece::Name(carrier.name),
        ],
    )
}

/// The piece of an instance's own name.
fn own_name<'a>(name: Option<Word>) -> Piece<'a> {
    match name {
        Some(name) => Piece::Name(name.name),
        None => Piece::Token("_"),
    }
}

/// Puts the pieces of an instance's carrier, which stands in parentheses where it has arguments, and of its
/// value on the stack.
fn put_carrier<'a>(
    carrier: Word,
    args: &'a [Word],
    value: &'a Raw,
    stack: &mut Vec<Piece<'a>>,
) -> Result<(), AllocError> {
    put_before(
        stack,
        &[Piece::Token(":="), Piece::Term(value, Place::Whole)],
    )?;
    match args {
        [] => put_before(stack, &[Piece::Name(carrier.name)]),
        _ => put_before(
            stack,
            &[
                Piece::Token("("),
                Piece::Name(carrier.name),
                Piece::Words(args),
                Piece::Token(")"),
            ],
        ),
    }
}

/// Puts the pieces of a command with two names on the stack.
fn put_words<'a>(
    word: &'a str,
    first: Word,
    second: Word,
    stack: &mut Vec<Piece<'a>>,
) -> Result<(), AllocError> {
    put_before(
        stack,
        &[
            Piece::Token(word),
            Piece::Name(first.name),
            Piece::Name(second.name),
        ],
    )
}

/// Puts the pieces of a notation on the stack, without its end.
pub(crate) fn put_notation<'a>(
    notation: Notation,
    stack: &mut Vec<Piece<'a>>,
) -> Result<(), AllocError> {
    put_before(stack, &[Piece::Token(")")])?;
    let word = match associativity(notation.side) {
        Some(side) => {
            put_before(
                stack,
                &[
                    Piece::Token(","),
                    Piece::Token(side),
                    Piece::Token("associativity"),
                ],
            )?;
            "Infix"
        }
        None => "Prefix",
    };
    put_before(
        stack,
        &[
            Piece::Token(word),
            Piece::Quoted(notation.op),
            Piece::Token(":="),
            Piece::Name(notation.name),
            Piece::Token("("),
            Piece::Token("at"),
            Piece::Token("level"),
            Piece::Number(notation.level),
        ],
    )
}

/// The word for the associativity of an infix operator; `None` for a prefix one.
fn associativity(side: Side) -> Option<&'static str> {
    match side {
        Side::Left => Some("left"),
        Side::Right => Some("right"),
        Side::Neither => Some("no"),
        Side::Prefix => None,
    }
}
