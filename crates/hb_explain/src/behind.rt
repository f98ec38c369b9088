//! The words of a source behind a place.
use std::alloc::{AllocError, Global};
use std::str;

/// The first words behind a byte, at most so many, up to a parenthesis, a brace that closes, a comment or a
/// byte that no sentence has.
pub(crate) fn words_behind(
    alloc: Global,
    source: &[u8],
    from: usize,
    most: usize,
) -> Result<Vec<&str>, AllocError> {
    let mut words = Vec::new(alloc);
    let mut begin = from;
    for at in from..source.len() {
        let byte = byte_at(source, at);
        if !is_of_word(byte) {
            if let Some(word) = word_at(source, begin, at) {
                words.push(word)?;
            }
            begin = at.saturating_add(1);
        }
        if is_end(byte) || words.len() >= most {
            return Ok(words);
        }
    }
    Ok(words)
}

/// The byte there, or 0.
fn byte_at(source: &[u8], at: usize) -> u8 {
    match source.get(at) {
        Some(byte) => *byte,
        None => 0,
    }
}

/// The text from one byte to another, where it isn't empty.
fn word_at(source: &[u8], from: usize, to: usize) -> Option<&str> {
    let bytes = source.get(from..to)?;
    if bytes.is_empty() {
        return None;
    }
    str::from_utf8(bytes).ok()
}

/// Whether a byte may stand in a word.
fn is_of_word(byte: u8) -> bool {
    byte.is_ascii_alphanumeric() || byte == b'_' || byte == b'\''
}

/// Whether the words end at a byte.
fn is_end(byte: u8) -> bool {
    byte == b'(' || byte == b'}' || byte == b'*' || byte == 0 || 0x80 <= byte
}
