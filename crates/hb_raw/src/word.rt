//! The small parts of commands.
use super::raw::Raw;
use hb_base::{NameId, Span};

/// A name where it is written.
#[derive(Clone, Copy)]
pub struct Word {
    pub name: NameId,
    pub span: Span,
}

/// A factory and the carrier that it is asked for: `IsMag A`.
#[derive(Clone, Copy)]
pub struct Item {
    pub factory: Word,
    pub carrier: Word,
}

/// A field of a mixin or a factory.
#[derive(Drop)]
pub struct Field {
    pub name: Word,
    pub ty: Raw,
}
