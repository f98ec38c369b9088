//! Why tokens have no commands.
ghost use Rattle.std.specs.Prelude.{◌≡◌};
ghost use Rattle.hb_parse.specs.declared.error.ParseRefused.TheVariants.{NoMemory};

use hb_base::{Count, Span};
use std::alloc::{AllocError, AllocFailed};

/// Why tokens were refused.
#[derive(Clone, Copy, Debug, PartialEq, Eq)]
pub enum ParseRefused {
    /// The tokens before `at` begin a file. With the token there, or at the end, which is the end
    /// of the file twice, they don't.
    Syntax { at: Span },
    /// The nesting passes 200 at this token, or it begins a 256th argument.
    TooDeep { at: Span },
    /// The name is new, and 65,535 names are held.
    TooMany { count: Count, at: Span },
    /// Out of memory.
    NoMemory,
}

impl From<AllocError> for ParseRefused {
    ghost from_gives = { λ _ e. e ≡ NoMemory };

    fn from(_: AllocError) -> ParseRefused {
        ParseRefused::NoMemory
    }
}

impl<T: Drop> From<AllocFailed<T>> for ParseRefused {
    ghost from_gives = { λ _ e. e ≡ NoMemory };

    fn from(_: AllocFailed<T>) -> ParseRefused {
        ParseRefused::NoMemory
    }
}
