//! Lists of sentences.
use crate::command::{put_command, put_notation};
use crate::line::Line;
use crate::piece::Piece;
use crate::stack::put_before;
use crate::write::write_piece;
use hb_base::Names;
use hb_notation::{Notation, Sentence};
use std::alloc::{AllocError, Global};

/// The most operators that a sentence is written with.
const MOST_OPERATORS: usize = 200;

/// The most pieces of a sentence, which no sentence in memory reaches.
const MOST_PIECES: u64 = u64::MAX;

/// The sentences of a source as text, one a line, each with its newline. Applications are written by the
/// notations before them, but not in a sentence that would have more than 200 operators. Out of memory is
/// the one error.
pub fn show(alloc: Global, names: &Names, list: &[Sentence]) -> Result<String, AllocError> {
    let mut text = String::new(alloc);
    let mut force = Vec::new(alloc);
    for sentence in list {
        let line = sentence_line(alloc, names, force.as_slice(), sentence)?;
        text.push_str(line.text())?;
        text.push_str("\n")?;
        if let Sentence::Notation(notation) = sentence {
            force.push(*notation)?;
        }
    }
    Ok(text)
}

/// The line of a sentence, with notations where these don't give too many operators.
fn sentence_line(
    alloc: Global,
    names: &Names,
    force: &[Notation],
    sentence: &Sentence,
) -> Result<Line, AllocError> {
    let line = line_with(alloc, names, force, sentence)?;
    if line.operators <= MOST_OPERATORS {
        return Ok(line);
    }
    line_with(alloc, names, &[], sentence)
}

/// The line of a sentence with the notations.
fn line_with(
    alloc: Global,
    names: &Names,
    force: &[Notation],
    sentence: &Sentence,
) -> Result<Line, AllocError> {
    let mut line = Line::new(alloc);
    let mut stack = Vec::new(alloc);
    put_before(&mut stack, &[Piece::Token(".")])?;
    match sentence {
        Sentence::Command(command) => put_command(&command.kind, &mut stack)?,
        Sentence::Notation(notation) => put_notation(*notation, &mut stack)?,
    }
    for _ in 0..MOST_PIECES {
        let Some(piece) = stack.pop() else {
            return Ok(line);
        };
        write_piece(alloc, names, force, piece, &mut stack, &mut line)?;
    }
    Err(AllocError)
}
