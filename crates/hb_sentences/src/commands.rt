//! Commands of the source from those of the plain text.
use crate::plain::Plain;
use crate::rebuild::{DEEPEST, one_binder, term};
use hb_raw::{Binder, Command, CommandKind, Field, Item, Raw, Word};
use std::alloc::{AllocError, Global};

/// The command of the source.
pub(crate) fn command(
    alloc: Global,
    plain: &Plain,
    command: &Command,
) -> Result<Command, AllocError> {
    Ok(Command {
        span: plain.span(command.span),
        kind: kind(alloc, plain, &command.kind)?,
    })
}

/// What the command of the source is.
fn kind(alloc: Global, plain: &Plain, kind: &CommandKind) -> Result<CommandKind, AllocError> {
    match kind {
        CommandKind::Axiom { name, ty } => Ok(CommandKind::Axiom {
            name: word(plain, *name),
            ty: whole(alloc, plain, ty)?,
        }),
        CommandKind::Definition {
            name,
            binders,
            ty,
            body,
        } => Ok(CommandKind::Definition {
            name: word(plain, *name),
            binders: all_binders(alloc, plain, binders)?,
            ty: match ty {
                Some(ty) => Some(whole(alloc, plain, ty)?),
                None => None,
            },
            body: whole(alloc, plain, body)?,
        }),
        CommandKind::Mixin {
            name,
            carrier,
            items,
            fields,
        } => Ok(CommandKind::Mixin {
            name: word(plain, *name),
            carrier: word(plain, *carrier),
            items: all_items(alloc, plain, items)?,
            fields: all_fields(alloc, plain, fields)?,
        }),
        CommandKind::Factory {
            name,
            carrier,
            items,
            fields,
        } => Ok(CommandKind::Factory {
            name: word(plain, *name),
            carrier: word(plain, *carrier),
            items: all_items(alloc, plain, items)?,
            fields: all_fields(alloc, plain, fields)?,
        }),
        CommandKind::Instance {
            name,
            binders,
            factory,
            carrier,
            args,
            value,
        } => Ok(CommandKind::Instance {
            name: optional(plain, *name),
            binders: conditions(alloc, plain, binders)?,
            factory: word(plain, *factory),
            carrier: word(plain, *carrier),
            args: all_words(alloc, plain, args)?,
            value: whole(alloc, plain, value)?,
        }),
        _ => short(alloc, plain, kind),
    }
}

/// What the command of the source is, where it has no terms but a carrier.
fn short(alloc: Global, plain: &Plain, kind: &CommandKind) -> Result<CommandKind, AllocError> {
    match kind {
        CommandKind::Builders { carrier, var, item } => Ok(CommandKind::Builders {
            carrier: word(plain, *carrier),
            var: optional(plain, *var),
            item: one_item(plain, *item),
        }),
        CommandKind::End => Ok(CommandKind::End),
        CommandKind::Structure {
            name,
            carrier,
            items,
        } => Ok(CommandKind::Structure {
            name: word(plain, *name),
            carrier: word(plain, *carrier),
            items: all_items(alloc, plain, items)?,
        }),
        CommandKind::Join { a, b } => Ok(CommandKind::Join {
            a: word(plain, *a),
            b: word(plain, *b),
        }),
        CommandKind::Find { structure, carrier } => Ok(CommandKind::Find {
            structure: word(plain, *structure),
            carrier: whole(alloc, plain, carrier)?,
        }),
        CommandKind::Require { name } => Ok(CommandKind::Require {
            name: word(plain, *name),
        }),
        CommandKind::Howto { structure, carrier } => Ok(CommandKind::Howto {
            structure: word(plain, *structure),
            carrier: word(plain, *carrier),
        }),
        CommandKind::About { name } => Ok(CommandKind::About {
            name: word(plain, *name),
        }),
        // The others are read above.
        _ => Err(AllocError),
    }
}

/// A term.
fn whole(alloc: Global, plain: &Plain, raw: &Raw) -> Result<Raw, AllocError> {
    term(alloc, plain, DEEPEST, raw)
}

/// A word.
fn word(plain: &Plain, word: Word) -> Word {
    Word {
        name: word.name,
        span: plain.span(word.span),
    }
}

/// A word that may be missing.
fn optional(plain: &Plain, name: Option<Word>) -> Option<Word> {
    match name {
        Some(name) => Some(word(plain, name)),
        None => None,
    }
}

/// An item.
fn one_item(plain: &Plain, item: Item) -> Item {
    Item {
        factory: word(plain, item.factory),
        carrier: word(plain, item.carrier),
    }
}

/// Items.
fn all_items(alloc: Global, plain: &Plain, items: &[Item]) -> Result<Vec<Item>, AllocError> {
    let mut made = Vec::new(alloc);
    for item in items {
        made.push(one_item(plain, *item))?;
    }
    Ok(made)
}

/// Words.
fn all_words(alloc: Global, plain: &Plain, words: &[Word]) -> Result<Vec<Word>, AllocError> {
    let mut made = Vec::new(alloc);
    for name in words {
        made.push(word(plain, *name))?;
    }
    Ok(made)
}

/// Fields.
fn all_fields(alloc: Global, plain: &Plain, fields: &[Field]) -> Result<Vec<Field>, AllocError> {
    let mut made = Vec::new(alloc);
    for field in fields {
        made.push(Field {
            name: word(plain, field.name),
            ty: whole(alloc, plain, &field.ty)?,
        })?;
    }
    Ok(made)
}

/// Binders of a definition.
fn all_binders(
    alloc: Global,
    plain: &Plain,
    binders: &[Binder],
) -> Result<Vec<Binder>, AllocError> {
    let mut made = Vec::new(alloc);
    for binder in binders {
        made.push(one_binder(alloc, plain, DEEPEST, binder)?)?;
    }
    Ok(made)
}

/// Binders of an instance.
fn conditions(
    alloc: Global,
    plain: &Plain,
    binders: &[(Word, Option<Word>)],
) -> Result<Vec<(Word, Option<Word>)>, AllocError> {
    let mut made = Vec::new(alloc);
    for binder in binders {
        made.push((word(plain, binder.0), optional(plain, binder.1)))?;
    }
    Ok(made)
}
