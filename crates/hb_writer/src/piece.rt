//! Pieces of texts.
use hb_base::NameId;
use hb_term::Term;

/// A piece of a text.
#[derive(Clone, Copy, Drop)]
pub enum Piece<'a> {
    /// Letters and signs as they are.
    Sign(&'a str),
    Number(u64),
    /// The name of what stands in the declaration of the number, or the number where there is none.
    Name(Option<NameId>, u32),
    /// A term under so many binders.
    Part(u64, &'a Term),
}
