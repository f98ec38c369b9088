//! What a token is to the grammar of core texts.
use hb_lex::TokenKind;

/// What a token is to the grammar.
#[derive(Clone, Copy, Debug, PartialEq, Eq)]
pub enum Mark {
    Axiom,
    Definition,
    Record,
    Prop,
    Universe,
    Forall,
    Fun,
    Name,
    Number,
    Open,
    Close,
    Brace,
    Unbrace,
    Colon,
    Becomes,
    Gives,
    Arrow,
    Comma,
    Semicolon,
    At,
    Project,
    End,
    /// What no core text has.
    Other,
}

/// The mark of a token of the kind, with this text.
pub(crate) fn mark_of(kind: TokenKind, text: &[u8]) -> Mark {
    match kind {
        TokenKind::Name => Mark::Name,
        TokenKind::Keyword => keyword(text),
        TokenKind::Number => Mark::Number,
        TokenKind::Symbol => symbol(text),
        TokenKind::End => Mark::End,
        TokenKind::Hole | TokenKind::Operator | TokenKind::Quoted => Mark::Other,
    }
}

fn keyword(text: &[u8]) -> Mark {
    if text == b"Axiom".as_slice() {
        Mark::Axiom
    } else if text == b"Definition".as_slice() {
        Mark::Definition
    } else if text == b"Record".as_slice() {
        Mark::Record
    } else if text == b"Prop".as_slice() {
        Mark::Prop
    } else if text == b"Type".as_slice() {
        Mark::Universe
    } else if text == b"forall".as_slice() {
        Mark::Forall
    } else if text == b"fun".as_slice() {
        Mark::Fun
    } else {
        Mark::Other
    }
}

fn symbol(text: &[u8]) -> Mark {
    if text == b"(".as_slice() {
        Mark::Open
    } else if text == b")".as_slice() {
        Mark::Close
    } else if text == b"{".as_slice() {
        Mark::Brace
    } else if text == b"}".as_slice() {
        Mark::Unbrace
    } else if text == b":".as_slice() {
        Mark::Colon
    } else if text == b":=".as_slice() {
        Mark::Becomes
    } else if text == b"=>".as_slice() {
        Mark::Gives
    } else if text == b"->".as_slice() {
        Mark::Arrow
    } else if text == b",".as_slice() {
        Mark::Comma
    } else if text == b";".as_slice() {
        Mark::Semicolon
    } else if text == b"@".as_slice() {
        Mark::At
    } else if text == b".(".as_slice() {
        Mark::Project
    } else {
        Mark::Other
    }
}
