//! What accepted commands answer.
use hb_env::Entry;
use hb_order::StructId;
use hb_term::{Scoped, Term};

/// What an accepted command answers: an entry, or the answer of a query.
#[derive(Drop)]
pub enum Done {
    /// The command and what it declared.
    Entry(Entry),
    /// The join of two structures, if they have one.
    Join(Option<StructId>),
    /// The key of the type that has the structure, as a term, if there is one.
    Find(Option<Scoped>),
}

/// A term with its type.
#[derive(Drop)]
pub struct Typed {
    pub term: Term,
    pub ty: Term,
}
