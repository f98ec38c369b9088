//! Tokens.

use hb_base::Span;

/// What kind of word a token is. Which keyword or symbol it is, the bytes of its span tell.
#[derive(Clone, Copy, Debug, PartialEq, Eq)]
pub enum TokenKind {
    /// An identifier, or two joined by a point.
    Name,
    Keyword,
    /// `_` alone.
    Hole,
    /// Digits.
    Number,
    Symbol,
    /// The point that ends a sentence.
    End,
    /// A run of operator bytes.
    Operator,
    /// An operator in quotes.
    Quoted,
}

/// A token with its place: the bytes of the span are its text.
#[derive(Clone, Copy, Debug, PartialEq, Eq)]
pub struct Token {
    pub kind: TokenKind,
    pub span: Span,
}
