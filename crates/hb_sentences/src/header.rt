//! The sentences of notations.
ghost use Rattle.hb_parse.specs.Numbers.{Extends};

use crate::kinds::{Kind, kind_of, text_of};
use crate::refused::SentencesRefused;
use crate::runs::piece;
use hb_base::{Count, NameId, Names, NamesRefused, Span};
use hb_lex::{Token, TokenKind};
use hb_notation::{Notation, Side};

/// What is read next of `Infix "+" := add (at level 50, left associativity).`, or of a `Prefix`.
#[derive(Clone, Copy, PartialEq, Eq)]
enum Next {
    Quoted,
    Means,
    Name,
    Open,
    At,
    Level,
    Number,
    Comma,
    Side,
    Associativity,
    Close,
    End,
}

/// A sentence of a notation, as far as it is read.
#[derive(Clone, Copy)]
pub(crate) struct Header {
    next: Next,
    notation: Notation,
    /// The quoted operator, and the name.
    quoted: Span,
    name: Span,
}

/// A notation with the places of its operator and its name.
#[derive(Clone, Copy)]
pub(crate) struct Read {
    pub notation: Notation,
    pub quoted: Span,
    pub name: Span,
}

impl Header {
    /// A sentence whose first word, at this place, was read.
    pub fn new(side: Side, first: Span) -> Header {
        Header {
            next: Next::Quoted,
            notation: Notation {
                op: NameId(0),
                name: NameId(0),
                level: 0,
                side,
            },
            quoted: first,
            name: first,
        }
    }

    /// Reads one more token; answers the notation at the end.
    pub fn token(
        &mut self,
        bytes: &[u8],
        names: &mut Names,
        token: &Token,
    ) -> Result<Option<Read>, SentencesRefused>
        ensures kept { Extends names.old names.new }
    {
        let at = token.span;
        let text = text_of(bytes, token);
        match self.next {
            Next::Quoted if token.kind == TokenKind::Quoted => {
                self.notation.op = number(names, unquoted(bytes, at), at)?;
                self.quoted = at;
                self.next = Next::Means;
            }
            Next::Name if token.kind == TokenKind::Name && !text.contains(&b'.') => {
                self.notation.name = number(names, text, at)?;
                self.name = at;
                self.next = Next::Open;
            }
            Next::Number if token.kind == TokenKind::Number => {
                self.notation.level = level(text).ok_or(SentencesRefused::Syntax { at })?;
                self.next = self.behind_level();
            }
            Next::Side if token.kind == TokenKind::Name => {
                self.notation.side = side(text).ok_or(SentencesRefused::Syntax { at })?;
                self.next = Next::Associativity;
            }
            Next::End if kind_of(bytes, token) == Kind::End => {
                return Ok(Some(Read {
                    notation: self.notation,
                    quoted: self.quoted,
                    name: self.name,
                }));
            }
            _ => self.next = word(self.next, text).ok_or(SentencesRefused::Syntax { at })?,
        }
        Ok(None)
    }

    /// What comes behind the level.
    fn behind_level(&self) -> Next {
        if self.notation.is_prefix() {
            Next::Close
        } else {
            Next::Comma
        }
    }
}

/// The bytes between the quotes at a place.
fn unquoted(bytes: &[u8], at: Span) -> &[u8] {
    piece(bytes, at.from.saturating_add(1), at.to.saturating_sub(1))
}

/// What comes behind a word that always stands there.
fn word(next: Next, text: &[u8]) -> Option<Next> {
    match (next, text) {
        (Next::Means, b":=") => Some(Next::Name),
        (Next::Open, b"(") => Some(Next::At),
        (Next::At, b"at") => Some(Next::Level),
        (Next::Level, b"level") => Some(Next::Number),
        (Next::Comma, b",") => Some(Next::Side),
        (Next::Associativity, b"associativity") => Some(Next::Close),
        (Next::Close, b")") => Some(Next::End),
        (_, _) => None,
    }
}

/// The side of an associativity.
fn side(text: &[u8]) -> Option<Side> {
    match text {
        b"left" => Some(Side::Left),
        b"right" => Some(Side::Right),
        b"no" => Some(Side::Neither),
        _ => None,
    }
}

/// The level that digits write, from 20 to 90.
fn level(digits: &[u8]) -> Option<u8> {
    let mut level: u32 = 0;
    for digit in digits {
        level = level
            .saturating_mul(10)
            .saturating_add(u32::from(digit.saturating_sub(b'0')));
    }
    if (20..=90).contains(&level) {
        u8::try_from(level).ok()
    } else {
        None
    }
}

/// The number of a text that stands at a place.
fn number(names: &mut Names, text: &[u8], at: Span) -> Result<NameId, SentencesRefused>
    ensures kept { Extends names.old names.new }
{
    let Ok(text) = std::str::from_utf8(text) else {
        return Err(SentencesRefused::Syntax { at });
    };
    match names.number(text) {
        Ok(name) => Ok(name),
        Err(NamesRefused::TooMany) => Err(SentencesRefused::TooMany {
            count: Count::Names,
            at,
        }),
        Err(NamesRefused::NoMemory) => Err(SentencesRefused::NoMemory),
    }
}
