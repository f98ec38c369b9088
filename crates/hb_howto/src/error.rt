//! Why the ways aren't listed.
ghost use Rattle.std.specs.Prelude.{◌≡◌};
ghost use Rattle.hb_howto.specs.declared.error.HowtoRefused.TheVariants.{NoMemory};

use hb_base::Count;
use std::alloc::{AllocError, AllocFailed};

/// Why the ways aren't listed.
#[derive(Clone, Copy, Debug, PartialEq, Eq)]
pub enum HowtoRefused {
    /// More than 512 mixins and ended factories provide what the carrier hasn't.
    TooMany(Count),
    /// Out of memory.
    NoMemory,
}

impl From<AllocError> for HowtoRefused {
    ghost from_gives = { λ _ e. e ≡ NoMemory };

    fn from(_: AllocError) -> HowtoRefused {
        HowtoRefused::NoMemory
    }
}

impl<T: Drop> From<AllocFailed<T>> for HowtoRefused {
    ghost from_gives = { λ _ e. e ≡ NoMemory };

    fn from(_: AllocFailed<T>) -> HowtoRefused {
        HowtoRefused::NoMemory
    }
}
