//! The sentences of a source.
ghost use Rattle.hb_parse.specs.Numbers.{Extends};

use crate::commands::command;
use crate::lexing::MOST_BYTES;
use crate::marker::{Marked, mark};
use crate::plain::Plain;
use crate::refused::SentencesRefused;
use crate::runs::number_of;
use hb_base::{Names, Span};
use hb_lex::{LexRefused, Token};
use hb_notation::{Notation, Sentence};
use hb_parse::{ParseRefused, parse};
use hb_raw::Command;
use std::alloc::{AllocError, Global};

/// The most bytes of an identifier of the plain text.
const LONGEST: u32 = 255;

/// The sentences of a source by its tokens, which are those of the bytes, with the notations that it
/// declares. Of the faults of form the earlier comes first; a clash of notations, and one too many, come at
/// the end of their sentence. The names that the sentences need are numbered. A source whose operators are
/// written out has more than 64 MiB is out of memory.
pub fn sentences(
    alloc: Global,
    bytes: &[u8],
    file: u16,
    tokens: &[Token],
    names: &mut Names,
) -> Result<Vec<Sentence>, SentencesRefused>
    ensures kept { Extends names.old names.new }
{
    let Marked {
        plain,
        notations,
        fault,
    } = mark(alloc, bytes, file, tokens, names)?;
    let commands = match (plain_commands(alloc, &plain, names), fault) {
        (Ok(commands), None) => commands,
        (Ok(_), Some(fault)) => return Err(fault),
        (Err(Fault::AtEnd), Some(fault)) => return Err(fault),
        (Err(Fault::AtEnd), None) => return Err(SentencesRefused::Syntax { at: plain.end() }),
        (Err(Fault::Refused(fault)), _) => return Err(fault),
    };
    in_order(alloc, &plain, commands.as_slice(), notations.as_slice())
}

/// Why the plain text has no commands.
#[derive(Drop)]
enum Fault {
    /// It ends too early.
    AtEnd,
    Refused(SentencesRefused),
}

/// The commands of the plain text; faults have their places in the source.
fn plain_commands(alloc: Global, plain: &Plain, names: &mut Names) -> Result<Vec<Command>, Fault>
    ensures kept { Extends names.old names.new }
{
    let text = plain.text();
    if text.len() > MOST_BYTES {
        return Err(Fault::Refused(SentencesRefused::NoMemory));
    }
    let tokens = match hb_lex::tokens(alloc, text, plain.end().file, LONGEST) {
        Ok(tokens) => tokens,
        Err(LexRefused::Utf8 { at }) | Err(LexRefused::Lex { at }) => {
            let at = Span {
                from: plain.from(at),
                to: plain.from(at),
                ..plain.end()
            };
            return Err(Fault::Refused(SentencesRefused::Syntax { at }));
        }
        Err(LexRefused::NoMemory) => return Err(Fault::Refused(SentencesRefused::NoMemory)),
    };
    match parse(alloc, text, tokens.as_slice(), names) {
        Ok(commands) => Ok(commands),
        Err(ParseRefused::Syntax { at }) if at.from as usize >= text.len() => Err(Fault::AtEnd),
        Err(fault) => Err(Fault::Refused(in_source(plain, fault))),
    }
}

/// A fault of the plain text at its place in the source.
fn in_source(plain: &Plain, fault: ParseRefused) -> SentencesRefused {
    match fault {
        ParseRefused::Syntax { at } => SentencesRefused::Syntax { at: plain.span(at) },
        ParseRefused::TooDeep { at } => SentencesRefused::TooDeep { at: plain.span(at) },
        ParseRefused::TooMany { count, at } => SentencesRefused::TooMany {
            count,
            at: plain.span(at),
        },
        ParseRefused::NoMemory => SentencesRefused::NoMemory,
    }
}

/// Commands and notations in the order of the source.
fn in_order(
    alloc: Global,
    plain: &Plain,
    commands: &[Command],
    notations: &[(u32, Notation)],
) -> Result<Vec<Sentence>, SentencesRefused> {
    let mut list = Vec::new(alloc);
    let mut done = 0;
    for (i, one) in commands.iter().enumerate() {
        done = add_notations(&mut list, notations, done, number_of(i))?;
        list.push(Sentence::Command(command(alloc, plain, one)?))?;
    }
    add_notations(&mut list, notations, done, u32::MAX)?;
    Ok(list)
}

/// Adds the notations behind the first `done` that stand behind at most so many commands. Answers how many
/// are added then.
fn add_notations(
    list: &mut Vec<Sentence>,
    notations: &[(u32, Notation)],
    done: usize,
    commands: u32,
) -> Result<usize, AllocError> {
    let mut done = done;
    for (before, notation) in notations.iter().skip(done) {
        if *before > commands {
            return Ok(done);
        }
        list.push(Sentence::Notation(*notation))?;
        done = done.saturating_add(1);
    }
    Ok(done)
}
