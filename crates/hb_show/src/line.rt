//! Texts of tokens.
use std::alloc::{AllocError, Global};

/// What the last token was, as far as the space behind it goes.
#[derive(Clone, Copy, Drop)]
enum Last {
    /// None, or one that no space stands behind.
    Tight,
    /// An opening parenthesis.
    Opening,
    /// Any other.
    Other,
}

/// The text of the tokens so far, and how many of them were written for notations.
#[derive(Drop)]
pub(crate) struct Line {
    text: String,
    last: Last,
    pub(crate) operators: usize,
}

impl Line {
    /// No tokens.
    pub(crate) fn new(alloc: Global) -> Line {
        Line {
            text: String::new(alloc),
            last: Last::Tight,
            operators: 0,
        }
    }

    /// Writes a token, behind a space where one has to stand between it and the last one.
    pub(crate) fn token(&mut self, token: &str) -> Result<(), AllocError> {
        if is_parted(self.last, token) {
            self.text.push_str(" ")?;
        }
        self.text.push_str(token)?;
        self.last = what_is(token);
        Ok(())
    }

    /// Writes what belongs to the last token, or what no space stands before.
    pub(crate) fn joined(&mut self, part: &str) -> Result<(), AllocError> {
        self.text.push_str(part)?;
        Ok(())
    }

    /// The text.
    pub(crate) fn text(&self) -> &str {
        self.text.as_str()
    }
}

/// Whether a space stands between the last token and this one.
fn is_parted(last: Last, token: &str) -> bool {
    match last {
        Last::Tight => false,
        Last::Opening => opens_comment(token),
        Last::Other => !is_close(token),
    }
}

/// Whether a parenthesis directly before the token would make a comment of both.
fn opens_comment(token: &str) -> bool {
    match token.as_bytes() {
        [b'*', ..] => true,
        _ => false,
    }
}

/// Whether no space stands before the token.
fn is_close(token: &str) -> bool {
    match token.as_bytes() {
        b")" | b".(" | b"," | b";" | b"." => true,
        _ => false,
    }
}

/// What the token is to the one behind it.
fn what_is(token: &str) -> Last {
    match token.as_bytes() {
        b"(" => Last::Opening,
        b".(" | b"@" => Last::Tight,
        _ => Last::Other,
    }
}
