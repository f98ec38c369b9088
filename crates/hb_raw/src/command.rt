//! Commands.
use super::raw::{Binder, Raw};
use super::word::{Field, Item, Word};
use hb_base::Span;

/// A sentence of a source. The span is that of its first word.
#[derive(Drop)]
pub struct Command {
    pub span: Span,
    pub kind: CommandKind,
}

/// What a command is.
#[derive(Drop)]
pub enum CommandKind {
    Axiom {
        name: Word,
        ty: Raw,
    },
    Definition {
        name: Word,
        binders: Vec<Binder>,
        ty: Option<Raw>,
        body: Raw,
    },
    Mixin {
        name: Word,
        carrier: Word,
        items: Vec<Item>,
        fields: Vec<Field>,
    },
    Factory {
        name: Word,
        carrier: Word,
        items: Vec<Item>,
        fields: Vec<Field>,
    },
    Builders {
        carrier: Word,
        var: Option<Word>,
        item: Item,
    },
    End,
    Structure {
        name: Word,
        carrier: Word,
        items: Vec<Item>,
    },
    /// The name is `None` for `_`. A binder is its name, with the structure of its type, or with
    /// none for `Type`. The factory is named without `.Build`.
    Instance {
        name: Option<Word>,
        binders: Vec<(Word, Option<Word>)>,
        factory: Word,
        carrier: Word,
        args: Vec<Word>,
        value: Raw,
    },
    Join {
        a: Word,
        b: Word,
    },
    Find {
        structure: Word,
        carrier: Raw,
    },
    Require {
        name: Word,
    },
    Howto {
        structure: Word,
        carrier: Word,
    },
    About {
        name: Word,
    },
}
