//! What a token is to the grammar.
ghost use Rattle.std.specs.Prelude.{◌≡◌};
ghost use Rattle.std.specs.List.{position_or_len};
ghost use Rattle.hb_parse.specs.Marks.{mark_of, name_mark, keyword_mark, symbol_mark, pair_mark, word_mark, part_mark, first_part, is_point};

use hb_grammar::{Mark, Second};
use hb_lex::TokenKind;

/// The mark of a token of the kind, with this text.
pub(crate) fn mark(kind: TokenKind, text: &[u8]) -> Mark
    ensures { result ≡ mark_of kind text.now }
{
    match kind {
        TokenKind::Name => name(text),
        TokenKind::Keyword => keyword(text),
        TokenKind::Hole => Mark::Hole,
        TokenKind::Number => Mark::Number,
        TokenKind::Symbol => symbol(text),
        TokenKind::End => Mark::End,
        TokenKind::Operator => Mark::Other,
        TokenKind::Quoted => Mark::Other,
    }
}

/// A name of one part, or of two.
fn name(text: &[u8]) -> Mark
    ensures { result ≡ name_mark text.now }
{
    let at = point(text);
    if at < text.len() {
        Mark::Pair(pair(&text[..at], &text[at + 1..]))
    } else {
        Mark::Ident
    }
}

/// The place of the first point, or the length where there is none.
fn point(text: &[u8]) -> usize
    ensures { result ≡ position_or_len is_point text.now }
{
    for (i, byte) in text.iter().enumerate() {
        if *byte == b'.' {
            return i;
        }
    }
    text.len()
}

/// The first part of a name: what stands before its point, or all of it.
pub(crate) fn first(text: &[u8]) -> &[u8]
    ensures { result.now ≡ first_part text.now }
{
    &text[..point(text)]
}

fn pair(first: &[u8], last: &[u8]) -> Second
    ensures { result ≡ pair_mark first.now last.now }
{
    if first == b"HB".as_slice() {
        word(last)
    } else {
        part(last)
    }
}

/// The second part of a name that may be a word of a command.
fn word(text: &[u8]) -> Second
    ensures { result ≡ word_mark text.now }
{
    if text == b"mixin".as_slice() {
        Second::Mixin
    } else if text == b"factory".as_slice() {
        Second::Factory
    } else if text == b"builders".as_slice() {
        Second::Builders
    } else if text == b"end".as_slice() {
        Second::End
    } else if text == b"structure".as_slice() {
        Second::Structure
    } else if text == b"instance".as_slice() {
        Second::Instance
    } else if text == b"join".as_slice() {
        Second::Join
    } else if text == b"find".as_slice() {
        Second::Find
    } else if text == b"howto".as_slice() {
        Second::Howto
    } else if text == b"about".as_slice() {
        Second::About
    } else {
        part(text)
    }
}

fn part(text: &[u8]) -> Second
    ensures { result ≡ part_mark text.now }
{
    if text == b"Build".as_slice() {
        Second::Build
    } else if text == b"type".as_slice() {
        Second::Carried
    } else {
        Second::Plain
    }
}

fn keyword(text: &[u8]) -> Mark
    ensures { result ≡ keyword_mark text.now }
{
    if text == b"Axiom".as_slice() {
        Mark::Axiom
    } else if text == b"Context".as_slice() {
        Mark::Context
    } else if text == b"Definition".as_slice() {
        Mark::Definition
    } else if text == b"Import".as_slice() {
        Mark::Import
    } else if text == b"Prop".as_slice() {
        Mark::Prop
    } else if text == b"Record".as_slice() {
        Mark::Record
    } else if text == b"Require".as_slice() {
        Mark::Require
    } else if text == b"Type".as_slice() {
        Mark::Universe
    } else if text == b"forall".as_slice() {
        Mark::Forall
    } else if text == b"fun".as_slice() {
        Mark::Fun
    } else if text == b"of".as_slice() {
        Mark::Of
    } else {
        Mark::Other
    }
}

fn symbol(text: &[u8]) -> Mark
    ensures { result ≡ symbol_mark text.now }
{
    if text == b"(".as_slice() {
        Mark::Open
    } else if text == b")".as_slice() {
        Mark::Close
    } else if text == b"{".as_slice() {
        Mark::Brace
    } else if text == b"}".as_slice() {
        Mark::Unbrace
    } else if text == b":".as_slice() {
        Mark::Colon
    } else if text == b":=".as_slice() {
        Mark::Becomes
    } else if text == b"=>".as_slice() {
        Mark::Gives
    } else if text == b"->".as_slice() {
        Mark::Arrow
    } else if text == b",".as_slice() {
        Mark::Comma
    } else if text == b";".as_slice() {
        Mark::Semicolon
    } else if text == b"&".as_slice() {
        Mark::Ampersand
    } else if text == b"@".as_slice() {
        Mark::At
    } else if text == b".(".as_slice() {
        Mark::Project
    } else {
        Mark::Other
    }
}
