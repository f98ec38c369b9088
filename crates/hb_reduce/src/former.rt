//! The formers of terms with two parts.

/// A former with two parts.
#[derive(Clone, Copy)]
pub(crate) enum Former {
    Product,
    Function,
    Application,
}
