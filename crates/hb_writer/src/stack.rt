//! The pieces that are still to be written.
ghost use Rattle.std.specs.Prelude.{◌≡◌, ◌+◌, ◌++◌, List, ℕ, Option, OnOk};
ghost use Rattle.hb_calculus.specs.Declarations.{Decl};
ghost use Rattle.hb_writer.specs.Pieces.{piece_text, pieces_text, stack_text, weight, weights};

use crate::piece::Piece;
use std::alloc::{AllocError, Global};

/// Puts the pieces before those of the stack, whose last one comes first.
pub(crate) fn put_before<'a>(
    stack: &mut Vec<Piece<'a>>,
    pieces: &[Piece<'a>],
) -> Result<(), AllocError>
    ensures text { OnOk result ((N : List (List ℕ)) (E : List Decl) (B : List (Option ℕ)) → stack_text N E B stack.new.items ≡ pieces_text N E B pieces.now ++ stack_text N E B stack.old.items) }
    ensures weight { OnOk result (weights stack.new.items ≡ weights pieces.now + weights stack.old.items) }
{
    match pieces {
        [] => Ok(()),
        [first, rest @ ..] => {
            put_before(stack, rest)?;
            put(stack, *first)
        }
    }
}

/// Puts a piece before those of the stack.
fn put<'a>(stack: &mut Vec<Piece<'a>>, piece: Piece<'a>) -> Result<(), AllocError>
    ensures text { OnOk result ((N : List (List ℕ)) (E : List Decl) (B : List (Option ℕ)) → stack_text N E B stack.new.items ≡ piece_text N E B piece.entry ++ stack_text N E B stack.old.items) }
    ensures weight { OnOk result (weights stack.new.items ≡ weight piece.entry + weights stack.old.items) }
{
    stack.push(piece)?;
    Ok(())
}
