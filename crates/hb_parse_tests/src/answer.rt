//! What a text is answered.
use hb_base::{Names, Span};
use hb_lex::{LexRefused, tokens};
use hb_parse::{ParseRefused, parse};
use hb_raw::Command;
use std::alloc::{AllocError, Global};

/// What a text is answered: its number of commands, or the fault and its place.
#[derive(Clone, Copy, Debug, PartialEq, Eq)]
pub(crate) enum Answer {
    Commands(usize),
    Lex(u32),
    Syntax(u32, u32),
    TooDeep(u32, u32),
    Other,
}

/// The longest identifier of a source.
const LONGEST: u32 = 255;

/// The commands of a text, with its names, or the fault.
pub(crate) fn read(
    alloc: Global,
    bytes: &[u8],
    names: &mut Names,
) -> Result<Result<Vec<Command>, Answer>, AllocError> {
    if bytes.len() > 1_048_576 {
        return Ok(Err(Answer::Other));
    }
    let tokens = match tokens(alloc, bytes, 0, LONGEST) {
        Ok(tokens) => tokens,
        Err(LexRefused::Lex { at }) => return Ok(Err(Answer::Lex(at))),
        Err(_) => return Ok(Err(Answer::Other)),
    };
    match parse(alloc, bytes, tokens.as_slice(), names) {
        Ok(commands) => Ok(Ok(commands)),
        Err(ParseRefused::Syntax { at }) => Ok(Err(Answer::Syntax(at.from, at.to))),
        Err(ParseRefused::TooDeep { at }) => Ok(Err(Answer::TooDeep(at.from, at.to))),
        Err(ParseRefused::TooMany { .. }) => Ok(Err(Answer::Other)),
        Err(ParseRefused::NoMemory) => Err(AllocError),
    }
}

/// What a text is answered.
pub(crate) fn answered(alloc: Global, bytes: &[u8]) -> Result<Answer, AllocError> {
    let mut names = Names::new(alloc)?;
    match read(alloc, bytes, &mut names)? {
        Ok(commands) => Ok(Answer::Commands(commands.len())),
        Err(answer) => Ok(answer),
    }
}

/// `head`, then `piece` a number of times, then `tail`.
pub(crate) fn repeated(
    alloc: Global,
    head: &str,
    piece: &str,
    count: u32,
    tail: &str,
) -> Result<Vec<u8>, AllocError> {
    let mut text = Vec::new(alloc);
    text.extend_from_slice(head.as_bytes())?;
    for _ in 0..count {
        text.extend_from_slice(piece.as_bytes())?;
    }
    text.extend_from_slice(tail.as_bytes())?;
    Ok(text)
}

/// The bytes of a place.
pub(crate) fn bounds(span: Span) -> (u32, u32) {
    (span.from, span.to)
}
