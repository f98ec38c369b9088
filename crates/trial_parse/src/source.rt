//! Long sources of a few kinds.
use std::alloc::{AllocError, Global};

/// A kind of source of about 1 MiB.
#[derive(Clone, Copy)]
pub enum Source {
    /// Short axioms.
    Axioms,
    /// One sentence with 200 nested parentheses, over and over.
    Parentheses,
    /// One comment.
    Comment,
    /// 250,000 projections in a row on one atom.
    Projections,
}

impl Source {
    pub const ALL: [Source; 4] = [
        Source::Axioms,
        Source::Parentheses,
        Source::Comment,
        Source::Projections,
    ];

    pub fn name(self) -> &'static str {
        match self {
            Source::Axioms => "axioms",
            Source::Parentheses => "parentheses",
            Source::Comment => "comment",
            Source::Projections => "projections",
        }
    }

    pub fn text(self, alloc: Global) -> Result<Vec<u8>, AllocError> {
        let mut text = Vec::new(alloc);
        match self {
            Source::Axioms => repeat(&mut text, "Axiom op : nat -> nat.\n", 45_000)?,
            Source::Parentheses => {
                for _ in 0..2_500 {
                    repeat(&mut text, "Axiom a : ", 1)?;
                    repeat(&mut text, "(", 200)?;
                    repeat(&mut text, "Type", 1)?;
                    repeat(&mut text, ")", 200)?;
                    repeat(&mut text, ".\n", 1)?;
                }
            }
            Source::Comment => {
                repeat(&mut text, "(*", 1)?;
                repeat(&mut text, " x", 520_000)?;
                repeat(&mut text, "*)", 1)?;
            }
            Source::Projections => {
                repeat(&mut text, "Axiom a : x", 1)?;
                repeat(&mut text, ".(p)", 250_000)?;
                repeat(&mut text, ".\n", 1)?;
            }
        }
        Ok(text)
    }
}

fn repeat(text: &mut Vec<u8>, piece: &str, count: u32) -> Result<(), AllocError> {
    for _ in 0..count {
        text.extend_from_slice(piece.as_bytes())?;
    }
    Ok(())
}
