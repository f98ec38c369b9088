//! What a token is to the grammar.

/// What a token is to the grammar.
#[derive(Clone, Copy, Debug, PartialEq, Eq)]
pub enum Mark {
    /// A name of one part.
    Ident,
    /// A name of two parts, by the second.
    Pair(Second),
    Axiom,
    Context,
    Definition,
    Import,
    Prop,
    Record,
    Require,
    /// `Type`.
    Universe,
    Forall,
    Fun,
    Of,
    Hole,
    Number,
    /// `(` and `)`.
    Open,
    Close,
    /// `{` and `}`.
    Brace,
    Unbrace,
    Colon,
    /// `:=`.
    Becomes,
    /// `=>`.
    Gives,
    /// `->`.
    Arrow,
    Comma,
    Semicolon,
    Ampersand,
    At,
    /// `.(`.
    Project,
    /// The point that ends a sentence.
    End,
    /// What the grammar has no place for.
    Other,
}

/// The second part of a name: those that a command may ask for, and the words of commands, which
/// have `HB` for their first.
#[derive(Clone, Copy, Debug, PartialEq, Eq)]
pub enum Second {
    Plain,
    Build,
    /// `S.type`: the carriers with a structure.
    Carried,
    Mixin,
    Factory,
    Builders,
    End,
    Structure,
    Instance,
    Join,
    Find,
    Howto,
    About,
}
