//! Answers of comparisons.

/// Whether two terms are related.
#[derive(Clone, Copy, Debug, PartialEq, Eq)]
pub enum Verdict {
    Yes,
    No,
}
