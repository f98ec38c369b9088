//! Why a term has no type.
ghost use Rattle.std.specs.Prelude.{◌≡◌};
ghost use Rattle.hb_kernel.specs.Faults.{refusal};

use crate::error::KernelRefused;
use hb_term::Scoped;
use std::alloc::AllocError;

/// What an ask keeps one term for.
#[derive(Clone, Copy)]
pub(crate) enum Ask {
    NotFunction,
    NotSort,
    NotRecord,
    Spent,
}

/// Why a term has no type, or isn't below another: the refusals of the asks alone.
#[derive(Drop)]
pub(crate) enum Fault {
    Kept(Ask, Scoped),
    /// The normal forms of two types that are not in order.
    Apart(Scoped, Scoped),
    LevelTooHigh,
    NoMemory,
}

impl From<AllocError> for Fault {
    ghost use Rattle.hb_kernel.specs.declared.fault.Fault.{Fault};

    ghost from_gives = { λ _ e. e ≡ Fault.NoMemory };

    fn from(_error: AllocError) -> Fault {
        Fault::NoMemory
    }
}

impl Fault {
    /// The refusal that tells it.
    pub(crate) fn refusal(self) -> KernelRefused
        ensures { result ≡ refusal self }
    {
        match self {
            Fault::Kept(Ask::NotFunction, w) => KernelRefused::NotFunction(w),
            Fault::Kept(Ask::NotSort, w) => KernelRefused::NotSort(w),
            Fault::Kept(Ask::NotRecord, w) => KernelRefused::NotRecord(w),
            Fault::Kept(Ask::Spent, t) => KernelRefused::Spent(t),
            Fault::Apart(x, y) => KernelRefused::NotConvertible(x, y),
            Fault::LevelTooHigh => KernelRefused::LevelTooHigh,
            Fault::NoMemory => KernelRefused::NoMemory,
        }
    }
}
