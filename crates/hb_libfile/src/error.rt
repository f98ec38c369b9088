//! Why bytes are no library.
ghost use Rattle.std.specs.Prelude.{◌≡◌};
ghost use Rattle.hb_libfile.specs.declared.error.LibRefused.TheVariants.{NoMemory};

use std::alloc::{AllocError, AllocFailed};

/// Why bytes were refused.
#[derive(Clone, Copy, Debug, PartialEq, Eq)]
pub enum LibRefused {
    /// The item at `at` is the first that isn't as it has to be.
    BadLibrary { at: u32 },
    /// The count of names at `at` is above 65,535.
    TooMany { at: u32 },
    /// Out of memory.
    NoMemory,
}

impl From<AllocError> for LibRefused {
    ghost from_gives = { λ _ e. e ≡ NoMemory };

    fn from(_: AllocError) -> LibRefused {
        LibRefused::NoMemory
    }
}

impl<T: Drop> From<AllocFailed<T>> for LibRefused {
    ghost from_gives = { λ _ e. e ≡ NoMemory };

    fn from(_: AllocFailed<T>) -> LibRefused {
        LibRefused::NoMemory
    }
}
