//! The parts of commands, all without a place.
ghost use Rattle.hb_gen.specs.Names.{Extends};

use crate::error::SampleRefused;
use hb_base::{NameId, Names, Span};
use hb_raw::{Command, CommandKind, Field, Item, Raw, RawKind, Word};
use std::alloc::Global;

/// No place.
const NOWHERE: Span = Span {
    file: 0,
    from: 0,
    to: 0,
};

/// The word of a text.
pub(crate) fn word(names: &mut Names, text: &str) -> Result<Word, SampleRefused>
    ensures kept { Extends names.old names.new }
{
    match names.number(text) {
        Ok(name) => Ok(Word {
            name,
            span: NOWHERE,
        }),
        Err(refused) => Err(SampleRefused::from(refused)),
    }
}

/// The word of a letter and a number.
pub(crate) fn numbered(
    alloc: Global,
    names: &mut Names,
    letter: &str,
    number: u64,
) -> Result<Word, SampleRefused>
    ensures kept { Extends names.old names.new }
{
    let text = format!(in alloc; "{letter}{number}")?;
    word(names, text.as_str())
}

/// The item of a factory and a carrier.
pub(crate) fn item(factory: Word, carrier: Word) -> Item {
    Item { factory, carrier }
}

/// A list of one field, whose type is a name.
pub(crate) fn one_field(
    alloc: Global,
    name: Word,
    ty: NameId,
) -> Result<Vec<Field>, SampleRefused> {
    let mut fields = Vec::new(alloc);
    fields.push(Field {
        name,
        ty: raw(RawKind::Name(ty)),
    })?;
    Ok(fields)
}

/// A raw term.
pub(crate) fn raw(kind: RawKind) -> Raw {
    Raw {
        span: NOWHERE,
        kind,
    }
}

/// A name that is applied to two others.
pub(crate) fn applied(
    alloc: Global,
    head: RawKind,
    first: Option<NameId>,
    last: NameId,
) -> Result<Raw, SampleRefused> {
    let mut args = Vec::new(alloc);
    if let Some(first) = first {
        args.push(raw(RawKind::Name(first)))?;
    }
    args.push(raw(RawKind::Name(last)))?;
    let head = Box::new(alloc, raw(head))?;
    Ok(raw(RawKind::App(head, args)))
}

/// A command.
pub(crate) fn command(kind: CommandKind) -> Command {
    Command {
        span: NOWHERE,
        kind,
    }
}
