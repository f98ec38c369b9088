//! Why a text has no tokens.
ghost use Rattle.std.specs.Prelude.{◌≡◌};
ghost use Rattle.hb_lex.specs.declared.error.LexRefused.TheVariants.{NoMemory};

use std::alloc::AllocError;

/// Why a text was refused.
#[derive(Clone, Copy, Debug, PartialEq, Eq)]
pub enum LexRefused {
    /// The longest front of the text that is UTF-8 ends at `at`.
    Utf8 { at: u32 },
    /// The bytes before `at` begin a text of tokens. With the byte there, or the end, they don't.
    Lex { at: u32 },
    /// Out of memory.
    NoMemory,
}

impl From<AllocError> for LexRefused {
    ghost from_gives = { λ _ e. e ≡ NoMemory };

    fn from(_: AllocError) -> LexRefused {
        LexRefused::NoMemory
    }
}
