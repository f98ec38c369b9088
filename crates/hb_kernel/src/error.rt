//! Why the kernel refuses.
ghost use Rattle.std.specs.Prelude.{◌≡◌};

use hb_base::{Count, NameId};
use hb_term::Scoped;
use std::alloc::AllocError;

/// Why a term has no type, or a declaration is not added.
#[derive(Drop)]
pub enum KernelRefused {
    /// The name is declared, or stands earlier in the declaration.
    Redeclared(NameId),
    /// The weak head form, which is kept, of the type of what is applied is no product.
    NotFunction(Scoped),
    /// The weak head form, which is kept, of the type of what stands as a type is no sort.
    NotSort(Scoped),
    /// The weak head form, which is kept, of the type of what is projected isn't that record at all its
    /// parameters.
    NotRecord(Scoped),
    /// The first type isn't below the second. Their normal forms are kept.
    NotConvertible(Scoped, Scoped),
    /// A variable, a constant, a record or a field isn't declared, or a hole stands there.
    Unscoped,
    /// The type of `Type@{63}` has no level, nor has a level above 63.
    LevelTooHigh,
    /// A term that is too large, or a type whose reduction would pass a limit. It is kept as it was.
    Spent(Scoped),
    /// There would be too many declarations, fields of a record, or nodes.
    TooMany(Count),
    NoMemory,
}

impl From<AllocError> for KernelRefused {
    ghost use Rattle.hb_kernel.specs.declared.error.KernelRefused.{KernelRefused};

    ghost from_gives = { λ _ e. e ≡ KernelRefused.NoMemory };

    fn from(_error: AllocError) -> KernelRefused {
        KernelRefused::NoMemory
    }
}
