//! All ways to read a text as tokens.
use super::spelled::{is_space, spelled};
use hb_lex::TokenKind;
use std::alloc::{AllocError, Global};

/// A token by its kind and its place.
pub(crate) type Piece = (TokenKind, usize, usize);

/// A front of the text, up to a place, with its tokens.
#[derive(Drop)]
pub(crate) struct Front {
    pub(crate) to: usize,
    pub(crate) tokens: Vec<Piece>,
}

fn copied(alloc: Global, tokens: &[Piece]) -> Result<Vec<Piece>, AllocError> {
    let mut copy = Vec::new(alloc);
    for token in tokens {
        copy.push(*token)?;
    }
    Ok(copy)
}

/// The fronts that go on from this one by one piece.
fn longer(
    alloc: Global,
    bytes: &[u8],
    longest: usize,
    front: &Front,
    found: &mut Vec<Front>,
) -> Result<(), AllocError> {
    let from = front.to.min(bytes.len());
    for to in from + 1..bytes.len() + 1 {
        let (before, rest) = bytes.split_at(to.min(bytes.len()));
        let piece = &before[from.min(before.len())..];
        let mut tokens = copied(alloc, front.tokens.as_slice())?;
        if let Some(kind) = spelled(piece, rest, longest) {
            tokens.push((kind, from, to))?;
            found.push(Front { to, tokens })?;
        } else if is_space(piece) {
            found.push(Front { to, tokens })?;
        }
    }
    Ok(())
}

/// The token lists of the whole text, one for each way to read it.
pub(crate) fn readings(
    alloc: Global,
    bytes: &[u8],
    longest: usize,
) -> Result<Vec<Vec<Piece>>, AllocError> {
    let mut whole = Vec::new(alloc);
    let mut fronts = Vec::new(alloc);
    fronts.push(Front {
        to: 0,
        tokens: Vec::new(alloc),
    })?;
    // each turn goes on by one piece, which has a byte at least
    for _ in 0..bytes.len() + 1 {
        let mut found = Vec::new(alloc);
        for front in fronts.iter() {
            if front.to == bytes.len() {
                whole.push(copied(alloc, front.tokens.as_slice())?)?;
            } else {
                longer(alloc, bytes, longest, front, &mut found)?;
            }
        }
        fronts = found;
    }
    Ok(whole)
}
