//! Why a run ends early.
ghost use Rattle.std.specs.Prelude.{◌≡◌};
ghost use Rattle.hb_top.specs.Stops.{IsInner};

use hb_base::Span;
use hb_env::{Refusal, What};
use std::alloc::{AllocError, AllocFailed};

/// Why a run ends before its work is done.
#[derive(Drop)]
pub enum Stop {
    /// A file or a command is refused, or a budget is spent on it. The file is the span's.
    Refused(Refusal),
    /// The depot failed at the file of this number.
    SourceFault(u16),
    /// The sink failed.
    SinkFault,
    NoMemory,
}

impl From<AllocError> for Stop {
    ghost use Rattle.hb_top.specs.declared.stop.Stop.{Stop};

    ghost from_gives = { λ _ stop. stop ≡ Stop.NoMemory };

    fn from(_: AllocError) -> Stop {
        Stop::NoMemory
    }
}

impl<T: Drop> From<AllocFailed<T>> for Stop {
    ghost use Rattle.hb_top.specs.declared.stop.Stop.{Stop};

    ghost from_gives = { λ _ stop. stop ≡ Stop.NoMemory };

    fn from(_: AllocFailed<T>) -> Stop {
        Stop::NoMemory
    }
}

/// A refusal at a place.
pub(crate) fn refused(span: Span, what: What) -> Stop
    ensures { result ≡ Stop.Refused (record { span = span; what = what }) }
{
    Stop::Refused(Refusal { span, what })
}

/// The end of a run at a refused command: out of memory is told apart.
pub(crate) fn of_refusal(refusal: Refusal) -> Stop
    ensures { IsInner result }
{
    match refusal.what {
        What::NoMemory => Stop::NoMemory,
        _ => Stop::Refused(refusal),
    }
}
