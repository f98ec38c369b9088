//! Why a text is no core text.
ghost use Rattle.std.specs.Prelude.{◌≡◌, ℕ, List};
ghost use Rattle.hb_core.specs.Places.{StandsAt, IsToken};
ghost use Rattle.hb_core.specs.declared.error.CoreRefused.TheVariants as refused;
ghost use Rattle.hb_lex.specs.Text.{Rules};
ghost use Rattle.hb_lex.specs.declared.error.LexRefused.{LexRefused};
ghost use Rattle.hb_lex.specs.declared.token.Token.{Token};

use hb_base::{Count, NameId, NamesRefused, Span};
use hb_lex::LexRefused;
use std::alloc::{AllocError, AllocFailed};

/// Why a text was refused.
#[derive(Clone, Copy, Debug, PartialEq, Eq)]
pub enum CoreRefused {
    /// The longest front of the text that is UTF-8 ends at `at`.
    Utf8 { at: u32 },
    /// The bytes before `at` begin a text of tokens. With the byte there, or the end, they don't.
    Lex { at: u32 },
    /// The tokens before `at` begin a core text. With the token there, or the end, they don't.
    CoreSyntax { at: Span },
    /// The nesting passes 2,000 at this token, or it begins a 2,001st argument, or what is applied or
    /// projected here has a depth above 2,000.
    TooDeep { at: Span },
    /// The form of the whole text is right, and this is the first name that is nothing before.
    UnknownName { name: NameId, at: Span },
    /// The name here is new, and 65,535 names are held; or it is that of a 256th field.
    TooMany { count: Count, at: Span },
    /// Out of memory.
    NoMemory,
}

impl From<AllocError> for CoreRefused {
    ghost from_gives = { λ _ e. e ≡ refused.NoMemory };

    fn from(_: AllocError) -> CoreRefused {
        CoreRefused::NoMemory
    }
}

impl From<LexRefused> for CoreRefused {
    ghost use Rattle.hb_core.specs.Places.{lexed_as};

    ghost from_gives = { λ l e. e ≡ lexed_as l };

    fn from(refused: LexRefused) -> CoreRefused {
        match refused {
            LexRefused::Utf8 { at } => CoreRefused::Utf8 { at },
            LexRefused::Lex { at } => CoreRefused::Lex { at },
            LexRefused::NoMemory => CoreRefused::NoMemory,
        }
    }
}

/// Why the reader stops at a token.
#[derive(Clone, Copy, Debug, PartialEq, Eq)]
pub enum Stop {
    /// There is no way on.
    Stuck,
    /// A limit of the form is passed.
    Deep,
    /// A count would be passed.
    Full(Count),
    NoMemory,
}

impl From<AllocError> for Stop {
    fn from(_: AllocError) -> Stop {
        Stop::NoMemory
    }
}

impl<T: Drop> From<AllocFailed<T>> for Stop {
    fn from(_: AllocFailed<T>) -> Stop {
        Stop::NoMemory
    }
}

impl From<NamesRefused> for Stop {
    fn from(refused: NamesRefused) -> Stop {
        match refused {
            NamesRefused::TooMany => Stop::Full(Count::Names),
            NamesRefused::NoMemory => Stop::NoMemory,
        }
    }
}

impl Stop {
    /// The refusal at a place.
    pub fn at(self, at: Span) -> CoreRefused
        ensures { (r : Rules) (bytes : List ℕ) (ts : List Token) → IsToken ts at → StandsAt r bytes ts result }
    {
        match self {
            Stop::Stuck => CoreRefused::CoreSyntax { at },
            Stop::Deep => CoreRefused::TooDeep { at },
            Stop::Full(count) => CoreRefused::TooMany { count, at },
            Stop::NoMemory => CoreRefused::NoMemory,
        }
    }
}
