//! Goes through the tokens of a source once: takes the sentences of notations out, and writes each operator
//! of the commands as a projection.
ghost use Rattle.hb_parse.specs.Numbers.{Extends};

use crate::chain::Sentence;
use crate::header::{Header, Read};
use crate::kinds::{Kind, kind_of, text_of};
use crate::plain::Plain;
use crate::refused::SentencesRefused;
use crate::runs::{number_of, piece};
use crate::sizes::sizes;
use hb_base::{Names, Span};
use hb_lex::{Token, TokenKind};
use hb_notation::{Notation, NotationRefused, Notations, Side};
use std::alloc::{AllocError, Global};

/// The most operators of a sentence.
const MOST_OPERATORS: u32 = 200;

/// A source without its notations and operators.
#[derive(Drop)]
pub(crate) struct Marked {
    pub plain: Plain,
    /// The notations, each with the number of commands before it.
    pub notations: Vec<(u32, Notation)>,
    /// The first fault that the grammar without notations can't find, at which the plain text ends.
    pub fault: Option<SentencesRefused>,
}

/// What is being read.
#[derive(Clone, Copy)]
enum Mode {
    /// Between two sentences.
    Start,
    Command,
    Notation(Header),
}

/// What was read so far.
#[derive(Drop)]
struct Marker {
    marked: Marked,
    notations: Notations,
    /// The places of the names of the notations.
    names: Vec<Span>,
    mode: Mode,
    sentence: Sentence,
    commands: u32,
}

/// Marks the operators of a source, which is that of the tokens.
pub(crate) fn mark(
    alloc: Global,
    bytes: &[u8],
    file: u16,
    tokens: &[Token],
    names: &mut Names,
) -> Result<Marked, AllocError>
    ensures kept { Extends names.old names.new }
{
    let sizes = sizes(alloc, bytes, tokens)?;
    let mut marker = Marker {
        marked: Marked {
            plain: Plain::new(alloc, file, number_of(bytes.len())),
            notations: Vec::new(alloc),
            fault: None,
        },
        notations: Notations::new(alloc),
        names: Vec::new(alloc),
        mode: Mode::Start,
        sentence: Sentence::new(alloc),
        commands: 0,
    };
    for (token, size) in tokens.iter().zip(sizes.iter()) {
        if let Err(fault) = marker.token(bytes, names, token, *size) {
            marker.marked.fault = Some(fault);
            return Ok(marker.marked);
        }
    }
    if let Mode::Notation(_) = marker.mode {
        marker.marked.fault = Some(SentencesRefused::Syntax {
            at: marker.marked.plain.end(),
        });
    }
    Ok(marker.marked)
}

/// The kind of notation that a first word announces.
fn announced(bytes: &[u8], token: &Token) -> Option<Side> {
    if token.kind != TokenKind::Name {
        return None;
    }
    match text_of(bytes, token) {
        b"Infix" => Some(Side::Left),
        b"Prefix" => Some(Side::Prefix),
        _ => None,
    }
}

impl Marker {
    /// Takes one more token; for an infix operator `size` arguments stand behind it.
    fn token(
        &mut self,
        bytes: &[u8],
        names: &mut Names,
        token: &Token,
        size: u32,
    ) -> Result<(), SentencesRefused>
        ensures kept { Extends names.old names.new }
    {
        match self.mode {
            Mode::Start => match announced(bytes, token) {
                Some(side) => {
                    self.mode = Mode::Notation(Header::new(side, token.span));
                    Ok(())
                }
                None => {
                    self.mode = Mode::Command;
                    self.sentence.begin(text_of(bytes, token));
                    self.command(bytes, names, token, size)
                }
            },
            Mode::Command => self.command(bytes, names, token, size),
            Mode::Notation(header) => {
                let mut header = header;
                match header.token(bytes, names, token)? {
                    Some(read) => self.notation(read),
                    None => {
                        self.mode = Mode::Notation(header);
                        Ok(())
                    }
                }
            }
        }
    }

    /// Adds a notation whose sentence has ended.
    fn notation(&mut self, read: Read) -> Result<(), SentencesRefused> {
        self.mode = Mode::Start;
        match self.notations.add(read.notation) {
            Ok(()) => {
                self.names.push(read.name)?;
                self.marked.notations.push((self.commands, read.notation))?;
                Ok(())
            }
            Err(NotationRefused::Clash) => Err(SentencesRefused::Clash {
                at: read.quoted,
                op: read.notation.op,
            }),
            Err(NotationRefused::TooMany(count)) => Err(SentencesRefused::TooMany {
                count,
                at: read.quoted,
            }),
            Err(NotationRefused::NoMemory) => Err(SentencesRefused::NoMemory),
        }
    }

    /// Takes one more token of a command.
    fn command(
        &mut self,
        bytes: &[u8],
        names: &Names,
        token: &Token,
        size: u32,
    ) -> Result<(), SentencesRefused> {
        let at = token.span;
        let text = text_of(bytes, token);
        match kind_of(bytes, token) {
            Kind::Operator => self.operator(bytes, names, token, size),
            Kind::Quoted => Err(SentencesRefused::Syntax { at }),
            kind => {
                if self.sentence.wants_operand() && !begins_operand(kind, text) {
                    return Err(SentencesRefused::Syntax { at });
                }
                self.marked.plain.copy(text, at)?;
                self.sentence.follow(kind, text)?;
                if kind == Kind::End {
                    self.commands = self.commands.saturating_add(1);
                    self.mode = Mode::Start;
                }
                Ok(())
            }
        }
    }

    /// Takes an operator of a command: infix behind an argument, else prefix.
    fn operator(
        &mut self,
        bytes: &[u8],
        names: &Names,
        token: &Token,
        size: u32,
    ) -> Result<(), SentencesRefused> {
        let at = token.span;
        let prefix = !self.sentence.is_after_argument();
        let Some((notation, name)) = self.find(names, text_of(bytes, token), prefix) else {
            return Err(SentencesRefused::Syntax { at });
        };
        if !self.sentence.admits(&notation) {
            return Err(SentencesRefused::Syntax { at });
        }
        let arrow = self.sentence.operator(notation, size)?;
        let name = piece(bytes, name.from, name.to);
        self.marked.plain.operator(at, notation, name, arrow)?;
        if self.sentence.operators() > MOST_OPERATORS {
            return Err(SentencesRefused::TooDeep { at });
        }
        Ok(())
    }

    /// The notation of an operator, with the place of its name.
    fn find(&self, names: &Names, text: &[u8], prefix: bool) -> Option<(Notation, Span)> {
        let op = names.find(std::str::from_utf8(text).ok()?)?;
        for (notation, name) in self.notations.all().iter().zip(self.names.iter()) {
            if notation.op == op && notation.is_prefix() == prefix {
                return Some((*notation, *name));
            }
        }
        None
    }
}

/// Whether a token begins an operand.
fn begins_operand(kind: Kind, text: &[u8]) -> bool {
    match kind {
        Kind::Leaf | Kind::At => true,
        Kind::Open => text == b"(".as_slice(),
        _ => false,
    }
}
