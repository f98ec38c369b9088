//! Each text of up to five bytes over a few small alphabets.
use super::ways::{Piece, readings};
use hb_lex::{LexRefused, tokens};
use std::alloc::{AllocError, Global};

/// The most letters of a text.
const LONGEST_TEXT: u32 = 5;

/// What makes a text of tokens of each front of one: the ends of words, arrows and comments.
const ENDS: [&str; 12] = [
    "", " ", "a", ">", ")", "*)", " *)", ")*)", "*)*)", " *)*)", ")*)*)", " *)*)*)",
];

/// Whether the bytes begin a text of tokens.
fn begins(alloc: Global, bytes: &[u8], longest: usize) -> Result<bool, AllocError> {
    for end in ENDS {
        let mut text = Vec::new(alloc);
        text.extend_from_slice(bytes)?;
        text.extend_from_slice(end.as_bytes())?;
        if !readings(alloc, text.as_slice(), longest)?.is_empty() {
            return Ok(true);
        }
    }
    Ok(false)
}

/// The first place without a way on.
fn stops(alloc: Global, bytes: &[u8], longest: usize) -> Result<usize, AllocError> {
    for at in 0..bytes.len() {
        if !begins(alloc, &bytes[..at + 1], longest)? {
            return Ok(at);
        }
    }
    Ok(bytes.len())
}

/// Whether `tokens` answers for the text what the definitions say.
fn agrees(alloc: Global, bytes: &[u8], longest: u32) -> Result<bool, AllocError> {
    if bytes.len() > 100 {
        return Ok(false);
    }
    let ways = readings(alloc, bytes, longest as usize)?;
    match tokens(alloc, bytes, 0, longest) {
        Ok(read) => {
            let [way] = ways.as_slice() else {
                return Ok(false);
            };
            let mut pieces: Vec<Piece> = Vec::new(alloc);
            for token in read.iter() {
                pieces.push((token.kind, token.span.from as usize, token.span.to as usize))?;
            }
            Ok(pieces.as_slice() == way.as_slice())
        }
        Err(LexRefused::Lex { at }) => {
            Ok(ways.is_empty() && stops(alloc, bytes, longest as usize)? == at as usize)
        }
        Err(_) => Err(AllocError),
    }
}

/// The text number `number` of the alphabet, of `length` letters.
fn text(alloc: Global, alphabet: &[u8], length: u32, number: usize) -> Result<Vec<u8>, AllocError> {
    let mut text = Vec::new(alloc);
    let mut left = number;
    for _ in 0..length {
        let many = alphabet.len().max(1);
        if let Some(b) = alphabet.get(left % many) {
            text.push(*b)?;
        }
        left /= many;
    }
    Ok(text)
}

/// How many texts of up to five letters don't agree.
fn differing(alloc: Global, alphabet: &str, longest: u32) -> Result<u32, AllocError> {
    let mut count: u32 = 0;
    let mut texts: usize = 1;
    for letters in 0..LONGEST_TEXT + 1 {
        for number in 0..texts {
            let text = text(alloc, alphabet.as_bytes(), letters, number)?;
            if !agrees(alloc, text.as_slice(), longest)? {
                count = count.saturating_add(1);
            }
        }
        texts = texts.saturating_mul(alphabet.len());
    }
    Ok(count)
}

#[test]
fn words_are_those_of_the_definitions(rt: HostRuntime) -> Result<(), AllocError> {
    assert_eq!(rt; differing(rt.alloc(), "a_.5' ", 255)?, 0);
    assert_eq!(rt; differing(rt.alloc(), "of._ ", 255)?, 0);
    assert_eq!(rt; differing(rt.alloc(), "a.5_", 2)?, 0);
    Ok(())
}

#[test]
fn comments_are_those_of_the_definitions(rt: HostRuntime) -> Result<(), AllocError> {
    assert_eq!(rt; differing(rt.alloc(), "(*).a ", 255)?, 0);
    Ok(())
}

#[test]
fn symbols_are_those_of_the_definitions(rt: HostRuntime) -> Result<(), AllocError> {
    assert_eq!(rt; differing(rt.alloc(), ":=>-.", 255)?, 0);
    assert_eq!(rt; differing(rt.alloc(), "(.*=@", 255)?, 0);
    Ok(())
}
