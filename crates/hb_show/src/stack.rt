//! The pieces that are still to be written.
use crate::piece::Piece;
use std::alloc::AllocError;

/// Puts the pieces before those of the stack, whose last one comes first.
pub(crate) fn put_before<'a>(
    stack: &mut Vec<Piece<'a>>,
    pieces: &[Piece<'a>],
) -> Result<(), AllocError> {
    for piece in pieces.iter().rev() {
        stack.push(*piece)?;
    }
    Ok(())
}
