//! Why an emitter gave no answer.
use std::alloc::AllocError;
use thiserror::Error;

/// Why an emitter wrote nothing, or a part.
#[derive(Clone, Copy, Debug, PartialEq, Eq, Error)]
pub enum EmitFault {
    /// The device refused. Its count of faults rose, and the emitter has failed from now on.
    #[error("the device failed")]
    Failed,
    #[error("out of memory")]
    NoMemory,
}

impl From<AllocError> for EmitFault {
    ghost use Rattle.std.specs.Prelude.{◌≡◌};
    ghost use Rattle.hb_emit.specs.declared.fault.EmitFault.TheVariants.{NoMemory};

    ghost from_gives = { λ _ fault. fault ≡ NoMemory };

    fn from(_: AllocError) -> EmitFault {
        EmitFault::NoMemory
    }
}
