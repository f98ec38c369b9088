//! What tokens are to operators.
use crate::runs::piece;
use hb_lex::{Token, TokenKind};

/// What a token is to the operators around it.
#[derive(Clone, Copy, Debug, PartialEq, Eq)]
pub(crate) enum Kind {
    /// A name, a hole or a sort: an argument by itself.
    Leaf,
    /// `@`, before the name of an argument.
    At,
    /// `(` or `.(`.
    Open,
    Close,
    /// `}`, behind which an operator may follow.
    Brace,
    /// What ends a term inside its brackets: `-> , => : := ; &` and the words that begin a new one.
    Break,
    Operator,
    Quoted,
    End,
    Other,
}

/// The text of a token.
pub(crate) fn text_of<'a>(bytes: &'a [u8], token: &Token) -> &'a [u8] {
    piece(bytes, token.span.from, token.span.to)
}

/// What a token is to operators.
pub(crate) fn kind_of(bytes: &[u8], token: &Token) -> Kind {
    match token.kind {
        TokenKind::Name | TokenKind::Hole => Kind::Leaf,
        TokenKind::Keyword => keyword(text_of(bytes, token)),
        TokenKind::Number => Kind::Other,
        TokenKind::Symbol => symbol(text_of(bytes, token)),
        TokenKind::End => Kind::End,
        TokenKind::Operator => Kind::Operator,
        TokenKind::Quoted => Kind::Quoted,
    }
}

/// What a keyword is.
fn keyword(text: &[u8]) -> Kind {
    match text {
        b"Prop" | b"Type" => Kind::Leaf,
        b"forall" | b"fun" => Kind::Break,
        _ => Kind::Other,
    }
}

/// What a symbol is.
fn symbol(text: &[u8]) -> Kind {
    match text {
        b"(" | b".(" => Kind::Open,
        b")" => Kind::Close,
        b"}" => Kind::Brace,
        b"@" => Kind::At,
        b"{" => Kind::Other,
        _ => Kind::Break,
    }
}
