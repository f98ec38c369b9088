//! The definitions of tokens and comments, decided at two places of a text.
use hb_lex::TokenKind;

/// A text, and the most bytes of an identifier.
#[derive(Clone, Copy)]
pub(crate) struct Text<'a> {
    pub(crate) bytes: &'a [u8],
    pub(crate) longest: usize,
}

fn is_alpha(b: u8) -> bool {
    b.is_ascii_alphabetic() || b == b'_'
}

fn is_part(b: u8) -> bool {
    is_alpha(b) || b.is_ascii_digit() || b == b'\''
}

fn is_blank(b: u8) -> bool {
    b == b' ' || b == b'\t' || b == b'\n' || b == b'\r'
}

fn is_word(piece: &[u8], longest: usize) -> bool {
    match piece {
        [] => false,
        [first, rest @ ..] => {
            is_alpha(*first) && rest.iter().all(|b| is_part(*b)) && piece.len() <= longest
        }
    }
}

fn word_kind(piece: &[u8]) -> TokenKind {
    if piece == b"_".as_slice() {
        TokenKind::Hole
    } else if piece == b"of".as_slice() || piece == b"fun".as_slice() {
        TokenKind::Keyword
    } else {
        TokenKind::Name
    }
}

/// The byte at a place, and 0 past the end.
fn at(bytes: &[u8], i: usize) -> u8 {
    match bytes.get(i) {
        Some(b) => *b,
        None => 0,
    }
}

/// Whether the rest begins so that a word of the kind ends before it.
fn ends_word(kind: TokenKind, rest: &[u8]) -> bool {
    if is_part(at(rest, 0)) {
        return false;
    }
    !(kind == TokenKind::Name && at(rest, 0) == b'.' && is_alpha(at(rest, 1)))
}

/// Whether the piece is two identifiers joined by a point.
fn is_joined(piece: &[u8], longest: usize) -> bool {
    for (i, b) in piece.iter().enumerate() {
        if *b == b'.' {
            let (first, rest) = piece.split_at(i);
            let second = &rest[1..];
            if is_word(first, longest)
                && word_kind(first) == TokenKind::Name
                && is_word(second, longest)
            {
                return true;
            }
        }
    }
    false
}

/// Whether an end may stand before the rest.
fn may_end(rest: &[u8]) -> bool {
    rest.is_empty() || is_blank(at(rest, 0)) || (at(rest, 0) == b'(' && at(rest, 1) == b'*')
}

/// The kind of the symbol that the piece is before the rest.
fn symbol(piece: &[u8], rest: &[u8]) -> Option<TokenKind> {
    let next = at(rest, 0);
    let is_symbol = match piece {
        b"{" | b"}" | b"," | b";" | b"&" | b"@" | b")" => true,
        b"(" | b".(" => next != b'*',
        b":" => next != b'=',
        b":=" | b"->" | b"=>" => true,
        _ => false,
    };
    if is_symbol {
        Some(TokenKind::Symbol)
    } else {
        None
    }
}

/// The kind of token that the piece is before the rest, if it is one.
pub(crate) fn spelled(piece: &[u8], rest: &[u8], longest: usize) -> Option<TokenKind> {
    let kind = word_kind(piece);
    if is_word(piece, longest) && ends_word(kind, rest) {
        return Some(kind);
    }
    if is_joined(piece, longest) && !is_part(at(rest, 0)) {
        return Some(TokenKind::Name);
    }
    let digits = !piece.is_empty() && piece.iter().all(|b| b.is_ascii_digit());
    if digits && !at(rest, 0).is_ascii_digit() {
        return Some(TokenKind::Number);
    }
    if piece == b".".as_slice() && may_end(rest) {
        return Some(TokenKind::End);
    }
    symbol(piece, rest)
}

/// Whether the piece is one blank, or one whole comment.
pub(crate) fn is_space(piece: &[u8]) -> bool {
    match piece {
        [b] => is_blank(*b),
        [b'(', b'*', inner @ ..] => closes(inner),
        _ => false,
    }
}

/// Whether the comment that is open closes at the end of these bytes, and not before.
fn closes(inner: &[u8]) -> bool {
    let mut open: u32 = 1;
    let mut skip = false;
    for (i, b) in inner.iter().enumerate() {
        let next = at(&inner[i..], 1);
        if skip {
            skip = false;
        } else if open == 0 {
            return false;
        } else if *b == b'(' && next == b'*' {
            open = open.saturating_add(1);
            skip = true;
        } else if *b == b'*' && next == b')' {
            open -= 1;
            skip = true;
        }
    }
    open == 0 && !skip
}
