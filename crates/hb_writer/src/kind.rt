//! The kinds of texts.

/// Which text of declarations is meant.
#[derive(Clone, Copy, Debug, PartialEq, Eq)]
pub enum Kind {
    /// Declarations as Rocq writes them.
    Rocq,
    /// Names with their types.
    Listing,
}
