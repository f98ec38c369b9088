//! What is counted in a session.

/// What there can be too many of: the kind that a refusal names.
#[derive(Clone, Copy, Debug, PartialEq, Eq)]
pub enum Count {
    Names,
    Mixins,
    Factories,
    Structures,
    Declarations,
    Fields,
    Nodes,
    Files,
}
