//! Why a device gave no answer.
use std::alloc::AllocError;
use thiserror::Error;

/// Why a depot gave no answer.
#[derive(Clone, Copy, Debug, PartialEq, Eq, Error)]
pub enum DepotFault {
    /// The depot holds no file of the name. Its count of absents rose.
    #[error("no such file")]
    Absent,
    /// The device refused. Its count of faults rose.
    #[error("the device failed")]
    Failed,
    #[error("out of memory")]
    NoMemory,
}

impl From<AllocError> for DepotFault {
    ghost use Rattle.std.specs.Prelude.{◌≡◌};
    ghost use Rattle.hb_io.specs.declared.faults.DepotFault.TheVariants.{NoMemory};

    ghost from_gives = { λ _ fault. fault ≡ NoMemory };

    fn from(_: AllocError) -> DepotFault {
        DepotFault::NoMemory
    }
}

/// Why a sink took nothing.
#[derive(Clone, Copy, Debug, PartialEq, Eq, Error)]
pub enum SinkFault {
    /// The device refused. Its count of faults rose.
    #[error("the device failed")]
    Failed,
    #[error("out of memory")]
    NoMemory,
}

impl From<AllocError> for SinkFault {
    ghost use Rattle.std.specs.Prelude.{◌≡◌};
    ghost use Rattle.hb_io.specs.declared.faults.SinkFault.TheVariants.{NoMemory};

    ghost from_gives = { λ _ fault. fault ≡ NoMemory };

    fn from(_: AllocError) -> SinkFault {
        SinkFault::NoMemory
    }
}
