//! Why tokens have no sentences.
use hb_base::{Count, NameId, Span};
use std::alloc::{AllocError, AllocFailed};

/// Why tokens were refused. Syntax stands at the first token without a way on.
#[derive(Clone, Copy, Debug, PartialEq, Eq)]
pub enum SentencesRefused {
    /// The tokens before `at` begin a file, and with the token there, or at the end, they don't. An operator
    /// has no way on where it has no notation of its kind, or its level fits nowhere.
    Syntax { at: Span },
    /// The nesting passes 200 at this token, or it begins a 256th argument, or is the 201st operator.
    TooDeep { at: Span },
    /// The name is new, and 65,535 names are held, or the notation at this place is the 257th.
    TooMany { count: Count, at: Span },
    /// The notation whose operator is quoted here contradicts an earlier one of the file.
    Clash { at: Span, op: NameId },
    NoMemory,
}

impl From<AllocError> for SentencesRefused {
    fn from(_: AllocError) -> SentencesRefused {
        SentencesRefused::NoMemory
    }
}

impl<T: Drop> From<AllocFailed<T>> for SentencesRefused {
    fn from(_: AllocFailed<T>) -> SentencesRefused {
        SentencesRefused::NoMemory
    }
}
