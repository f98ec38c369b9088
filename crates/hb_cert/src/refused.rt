//! Why bytes are no certificate.
use hb_libfile::LibRefused;
use std::alloc::{AllocError, AllocFailed};

/// Why a certificate was refused.
#[derive(Clone, Copy, Debug, PartialEq, Eq)]
pub enum VerifyRefused {
    /// The item at `at` is the first that isn't as it has to be.
    BadCertificate { at: u32 },
    /// The count of names at `at` is above 65,535.
    TooMany { at: u32 },
    /// Out of memory.
    NoMemory,
}

impl From<AllocError> for VerifyRefused {
    fn from(_: AllocError) -> VerifyRefused {
        VerifyRefused::NoMemory
    }
}

impl<T: Drop> From<AllocFailed<T>> for VerifyRefused {
    fn from(_: AllocFailed<T>) -> VerifyRefused {
        VerifyRefused::NoMemory
    }
}

impl From<LibRefused> for VerifyRefused {
    fn from(refused: LibRefused) -> VerifyRefused {
        match refused {
            LibRefused::BadLibrary { at } => VerifyRefused::BadCertificate { at },
            LibRefused::TooMany { at } => VerifyRefused::TooMany { at },
            LibRefused::NoMemory => VerifyRefused::NoMemory,
        }
    }
}
