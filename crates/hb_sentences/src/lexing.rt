//! Tokens of sources with operators: the runs of operator bytes are found first, and the rest is read as a
//! text in which semicolons stand in their place.
use crate::runs::{Run, Runs, find_runs};
use hb_base::Span;
use hb_lex::{LexRefused, Token, TokenKind};
use std::alloc::{AllocError, Global};

/// The most bytes of a text: 64 MiB.
pub(crate) const MOST_BYTES: usize = 67_108_864;

/// The tokens of a source, operators and quoted operators among them, in the order of the text; an identifier
/// has at most `longest` bytes. Of the faults Utf8 comes first; Lex stands at the first byte that has no way
/// on.
pub fn tokens(
    alloc: Global,
    bytes: &[u8],
    file: u16,
    longest: u32,
) -> Result<Vec<Token>, LexRefused> {
    let runs = match find_runs(alloc, bytes) {
        Ok(runs) => runs,
        Err(_) => return Err(LexRefused::NoMemory),
    };
    let covered = match covered(alloc, bytes, &runs) {
        Ok(covered) => covered,
        Err(_) => return Err(LexRefused::NoMemory),
    };
    if covered.len() > MOST_BYTES {
        return Err(LexRefused::NoMemory);
    }
    match hb_lex::tokens(alloc, covered.as_slice(), file, longest) {
        Ok(tokens) => match merged(alloc, tokens.as_slice(), &runs) {
            Ok(merged) => Ok(merged),
            Err(_) => Err(LexRefused::NoMemory),
        },
        Err(LexRefused::Lex { at }) => Err(LexRefused::Lex { at: runs.place(at) }),
        Err(fault) => Err(fault),
    }
}

/// The text with semicolons in place of its operators.
fn covered(alloc: Global, bytes: &[u8], runs: &Runs) -> Result<Vec<u8>, AllocError> {
    let mut covered = Vec::new(alloc);
    covered.extend_from_slice(bytes)?;
    for run in runs.all() {
        for at in run.from..run.to {
            if let Some(byte) = covered.get_mut(at as usize) {
                *byte = b';';
            }
        }
    }
    Ok(covered)
}

/// The tokens with an operator in place of the semicolons of each run.
fn merged(alloc: Global, tokens: &[Token], runs: &Runs) -> Result<Vec<Token>, AllocError> {
    let mut merged = Vec::new(alloc);
    for token in tokens {
        match runs.at(token.span.from) {
            None => merged.push(*token)?,
            Some(run) if run.from == token.span.from => merged.push(operator(
                run,
                token.span.file,
            ))?,
            Some(_) => {}
        }
    }
    Ok(merged)
}

/// The token of a run.
fn operator(run: Run, file: u16) -> Token {
    Token {
        kind: if run.quoted {
            TokenKind::Quoted
        } else {
            TokenKind::Operator
        },
        span: Span {
            file,
            from: run.from,
            to: run.to,
        },
    }
}
