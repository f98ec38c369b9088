//! Entries: what one accepted command leaves.
use crate::decl::Decl;
use hb_base::{NameId, Span};
use std::vec::Vec;

/// The command that an entry comes from. `Core` is a declaration of a core text.
#[derive(Drop)]
pub enum Head {
    Core,
    Axiom,
    Definition,
    /// The items of its `of` list.
    Mixin {
        items: Vec<NameId>,
    },
    /// The items of its `of` list.
    Factory {
        items: Vec<NameId>,
    },
    /// The start of a section of builders, with the name of its local carrier and of its factory's value.
    Builders {
        factory: NameId,
        carrier: NameId,
        var: Option<NameId>,
    },
    /// The end of a section of builders.
    End,
    /// The structure's name, and the items of its list.
    Structure {
        name: NameId,
        items: Vec<NameId>,
    },
    /// The factory and the carrier's constant; for each binder its structure, if it has one.
    Instance {
        factory: NameId,
        carrier: NameId,
        binders: Vec<Option<NameId>>,
    },
    /// The start of the entries of a required file, with its name.
    Require {
        name: NameId,
    },
}

/// An accepted command, with the declarations that it made.
#[derive(Drop)]
pub struct Entry {
    pub head: Head,
    pub decls: Vec<Decl>,
}

/// Where an entry stands in a library: its bytes, the first byte of its count of declarations, and the
/// first byte of each declaration. For a core text the span is that of the declared name, and the others
/// are its first byte.
#[derive(Drop)]
pub struct Places {
    pub span: Span,
    pub count: u32,
    pub decls: Vec<u32>,
}
