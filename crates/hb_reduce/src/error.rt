//! Why a reduction gives no answer.
ghost use Rattle.std.specs.Prelude.{◌≡◌};

use hb_term::Scoped;
use std::alloc::AllocError;

/// Why a term was not reduced.
#[derive(Drop)]
pub enum ReduceRefused {
    /// The reduction would pass a limit. The term is kept as it was.
    Spent(Scoped),
    NoMemory,
}

impl From<AllocError> for ReduceRefused {
    ghost use Rattle.hb_reduce.specs.declared.error.ReduceRefused.{ReduceRefused};

    ghost from_gives = { λ _ e. e ≡ ReduceRefused.NoMemory };

    fn from(_error: AllocError) -> ReduceRefused {
        ReduceRefused::NoMemory
    }
}
