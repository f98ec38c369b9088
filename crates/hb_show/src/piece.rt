//! The pieces of sentences.
use hb_base::{NameId, Span};
use hb_raw::{Binder, Field, Item, Raw, Word};

/// Where a term stands.
#[derive(Clone, Copy, Drop)]
pub(crate) enum Place {
    /// Where any term may.
    Whole,
    /// Where an expression of at most this level may.
    Operand(u8),
    /// Where an argument may.
    Argument,
}

/// A piece of a sentence: a token, or tokens that are still to be told apart.
#[derive(Clone, Copy, Drop)]
pub(crate) enum Piece<'a> {
    Token(&'a str),
    Name(NameId),
    /// The name of a structure's type.
    TypeOf(NameId),
    /// An operator in quotes.
    Quoted(NameId),
    Number(u8),
    /// `Type` with its level, which isn't written where it is 0.
    Level(u8),
    Term(&'a Raw, Place),
    /// Arguments.
    Arguments(&'a [Raw]),
    /// Binders, those with a type in parentheses.
    Groups(&'a [Binder]),
    /// Bound names, `_` for none.
    Bound(&'a [(Option<NameId>, Span)]),
    /// `of` with the items, or nothing where there are none.
    Of(&'a [Item]),
    /// Items behind a first one, each behind `&`.
    MoreItems(&'a [Item]),
    Fields(&'a [Field]),
    /// Binders of an instance, each in parentheses.
    Conditions(&'a [(Word, Option<Word>)]),
    Words(&'a [Word]),
}
