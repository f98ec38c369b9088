//! Why a raw term has no term.

use hb_base::{NameId, Span};
use hb_term::Scoped;
use std::alloc::{AllocError, AllocFailed};

/// Why a raw term has no term.
#[derive(Drop)]
pub enum ElabFault {
    /// The name stands for nothing here.
    UnknownName(NameId),
    /// The weak head form, which is kept, of the type of what is applied is no product.
    NotFunction(Scoped),
    /// The weak head form, which is kept, of the type of what stands as a type is no sort and no
    /// structure's type.
    NotType(Scoped),
    /// The weak head form, which is kept, of the type of what is projected isn't that record.
    NotRecord(Scoped),
    /// The normal forms of two types that are to be in order.
    NotConvertible(Scoped, Scoped),
    /// Unification ends at this pair.
    Stuck { a: Scoped, b: Scoped },
    /// No key of the carrier has the mixins of the structure, mixin or factory.
    NoInstance { wanted: NameId, carrier: Scoped },
    /// A hole has no value where its binder or command ends.
    Unsolved,
    /// A level above 63.
    LevelTooHigh,
    /// The term passes the limits.
    Spent(Scoped),
    /// Unification takes more moves than the limit.
    Moves,
    NoMemory,
}

/// A fault at the place of its raw term.
#[derive(Drop)]
pub struct ElabRefused {
    pub span: Span,
    pub what: ElabFault,
}

impl From<AllocError> for ElabFault {
    ghost use Rattle.std.specs.Prelude.{◌≡◌};
    ghost use Rattle.hb_elab_terms.specs.declared.fault.ElabFault.TheVariants.{NoMemory};

    ghost from_gives = { λ _ e. e ≡ NoMemory };

    fn from(_error: AllocError) -> ElabFault {
        ElabFault::NoMemory
    }
}

impl From<AllocError> for ElabRefused {
    ghost use Rattle.std.specs.Prelude.{◌≡◌};
    ghost use Rattle.hb_elab_terms.specs.declared.fault.ElabFault.TheVariants.{NoMemory};

    ghost from_gives = { λ _ e. e.what ≡ NoMemory };

    fn from(_error: AllocError) -> ElabRefused {
        ElabRefused {
            span: Span {
                file: 0,
                from: 0,
                to: 0,
            },
            what: ElabFault::NoMemory,
        }
    }
}

impl<T: Drop> From<AllocFailed<T>> for ElabRefused {
    ghost use Rattle.std.specs.Prelude.{◌≡◌};
    ghost use Rattle.hb_elab_terms.specs.declared.fault.ElabFault.TheVariants.{NoMemory};

    ghost from_gives = { λ _ e. e.what ≡ NoMemory };

    fn from(_error: AllocFailed<T>) -> ElabRefused {
        ElabRefused {
            span: Span {
                file: 0,
                from: 0,
                to: 0,
            },
            what: ElabFault::NoMemory,
        }
    }
}

/// A fault at a place.
pub fn at(span: Span, what: ElabFault) -> ElabRefused {
    ElabRefused { span, what }
}
