//! Tokens and grammar together.
use hb_base::Names;
use hb_lex::{LexRefused, tokens};
use hb_parse::{ParseRefused, parse};
use std::alloc::{AllocError, Global};

/// What a source holds.
#[derive(Clone, Copy)]
pub struct Held {
    pub tokens: usize,
    pub commands: usize,
    pub names: usize,
}

/// What the text holds, or `None` where it is refused.
pub fn read(alloc: Global, text: &[u8]) -> Result<Option<Held>, AllocError> {
    if text.len() > 1_048_576 {
        return Ok(None);
    }
    let tokens = match tokens(alloc, text, 0, 255) {
        Ok(tokens) => tokens,
        Err(LexRefused::NoMemory) => return Err(AllocError),
        Err(_) => return Ok(None),
    };
    let mut names = Names::new(alloc)?;
    match parse(alloc, text, tokens.as_slice(), &mut names) {
        Ok(commands) => Ok(Some(Held {
            tokens: tokens.len(),
            commands: commands.len(),
            names: names.len(),
        })),
        Err(ParseRefused::NoMemory) => Err(AllocError),
        Err(_) => Ok(None),
    }
}
