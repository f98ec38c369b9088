//! What a name of a library may be.

/// The most bytes of a name, and of one that a command writes.
const MOST_BYTES: usize = 600;

const MOST_WRITTEN: usize = 255;

/// The words that are no identifiers.
const KEYWORDS: [&[u8]; 11] = [
    b"Axiom",
    b"Context",
    b"Definition",
    b"Import",
    b"Prop",
    b"Record",
    b"Require",
    b"Type",
    b"forall",
    b"fun",
    b"of",
];

/// Whether a text is a name of at most 600 bytes: an identifier, or two that are joined by a point. A
/// keyword is no identifier, neither alone nor before the point.
pub(crate) fn is_name(text: &[u8]) -> bool {
    if text.len() > MOST_BYTES {
        return false;
    }
    let at = point(text);
    match text.get(..at) {
        Some(first) if at < text.len() => is_identifier(first) && is_word(rest(text, at)),
        _ => is_identifier(text),
    }
}

/// Whether a text is an identifier that a command may write, of at most 255 bytes.
pub(crate) fn is_written(text: &[u8]) -> bool {
    text.len() <= MOST_WRITTEN && point(text) >= text.len()
}

/// What stands behind the point.
fn rest(text: &[u8], at: usize) -> &[u8] {
    match text.get(at.saturating_add(1)..) {
        Some(rest) => rest,
        None => &[],
    }
}

/// The place of the first point, or the length where there is none.
fn point(text: &[u8]) -> usize {
    for (at, byte) in text.iter().enumerate() {
        if *byte == b'.' {
            return at;
        }
    }
    text.len()
}

/// Whether a text is an identifier: a word, but no keyword and not `_` alone.
fn is_identifier(text: &[u8]) -> bool {
    is_word(text) && text != b"_".as_slice() && !is_keyword(text)
}

/// Whether a text is one of the keywords.
fn is_keyword(text: &[u8]) -> bool {
    for keyword in &KEYWORDS {
        if text == *keyword {
            return true;
        }
    }
    false
}

/// Whether a text begins with a letter or `_` and goes on with these, digits and `'`.
fn is_word(text: &[u8]) -> bool {
    match text {
        [first, rest @ ..] => is_begin(*first) && rest.iter().all(|byte| is_inner(*byte)),
        [] => false,
    }
}

/// A letter or `_`.
fn is_begin(byte: u8) -> bool {
    byte.is_ascii_alphabetic() || byte == b'_'
}

/// A letter, `_`, a digit or `'`.
fn is_inner(byte: u8) -> bool {
    is_begin(byte) || byte.is_ascii_digit() || byte == b'\''
}
