//! The two phases of a reduction.

/// What is contracted: beta, delta and projection, or the two eta rules.
#[derive(Clone, Copy)]
pub(crate) enum Rule {
    Step,
    Eta,
}
