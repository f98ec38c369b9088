//! How many arguments stand behind each infix operator.
use crate::kinds::{Kind, kind_of};
use hb_lex::Token;
use std::alloc::{AllocError, Global};

/// The operator that was read last inside some brackets, by the number of its token, and the arguments
/// behind it.
#[derive(Clone, Copy)]
struct Level {
    operator: Option<usize>,
    arguments: u32,
}

/// No operator yet.
const NONE: Level = Level {
    operator: None,
    arguments: 0,
};

/// For each infix operator the number of arguments up to the next one or the end of its term, prefix
/// operators counted as arguments; 0 for all other tokens.
pub(crate) fn sizes(alloc: Global, bytes: &[u8], tokens: &[Token]) -> Result<Vec<u32>, AllocError> {
    let mut sizes = Vec::new(alloc);
    sizes.reserve(tokens.len())?;
    let mut outer: Vec<Level> = Vec::new(alloc);
    let mut now = NONE;
    let mut after = false;
    for (i, token) in tokens.iter().enumerate() {
        sizes.push(0)?;
        let kind = kind_of(bytes, token);
        match kind {
            Kind::Operator if after => {
                note(&mut sizes, now);
                now = Level {
                    operator: Some(i),
                    arguments: 0,
                };
            }
            Kind::Leaf | Kind::Operator => now.arguments = now.arguments.saturating_add(1),
            Kind::Open => {
                now.arguments = now.arguments.saturating_add(1);
                outer.push(now)?;
                now = NONE;
            }
            Kind::Close => {
                note(&mut sizes, now);
                now = outer.pop().unwrap_or(NONE);
            }
            Kind::Break => {
                note(&mut sizes, now);
                now = NONE;
            }
            Kind::End => {
                note(&mut sizes, now);
                outer.clear();
                now = NONE;
            }
            Kind::At | Kind::Brace | Kind::Quoted | Kind::Other => {}
        }
        after = matches!(kind, Kind::Leaf | Kind::Close | Kind::Brace);
    }
    Ok(sizes)
}

/// Notes the arguments behind an operator.
fn note(sizes: &mut Vec<u32>, level: Level) {
    let Some(at) = level.operator else {
        return;
    };
    if let Some(size) = sizes.get_mut(at) {
        *size = level.arguments;
    }
}
