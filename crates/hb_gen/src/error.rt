//! Why there is no sample.
use hb_base::{Count, NamesRefused};
use std::alloc::{AllocError, AllocFailed};

/// Why there is no sample.
#[derive(Clone, Copy, Debug, PartialEq, Eq)]
pub enum SampleRefused {
    /// A name is new, and 65,535 names are held.
    TooMany(Count),
    /// Out of memory.
    NoMemory,
}

impl From<AllocError> for SampleRefused {
    fn from(_: AllocError) -> SampleRefused {
        SampleRefused::NoMemory
    }
}

impl<T: Drop> From<AllocFailed<T>> for SampleRefused {
    fn from(_: AllocFailed<T>) -> SampleRefused {
        SampleRefused::NoMemory
    }
}

impl From<NamesRefused> for SampleRefused {
    fn from(refused: NamesRefused) -> SampleRefused {
        match refused {
            NamesRefused::TooMany => SampleRefused::TooMany(Count::Names),
            NamesRefused::NoMemory => SampleRefused::NoMemory,
        }
    }
}
