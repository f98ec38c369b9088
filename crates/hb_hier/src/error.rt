//! Why a call on a hierarchy was refused.
ghost use Rattle.std.specs.Prelude.{◌≡◌};
ghost use Rattle.hb_hier.specs.declared.error.HierRefused.TheVariants.{NoMemory};

use hb_base::{Count, NameId};
use hb_order::{MixinId, StructId};
use std::alloc::{AllocError, AllocFailed};

/// Why a call on a hierarchy was refused, in the order in which the causes are tested.
#[derive(Clone, Copy, Debug, PartialEq, Eq)]
pub enum HierRefused {
    /// The name is no mixin or factory, and in a list no structure either.
    UnknownFactory(NameId),
    /// The name is a factory whose section isn't ended.
    Unfinished(NameId),
    /// The name is a factory whose section was ended before.
    Finished(NameId),
    /// The first mixin that is required and not given, or not met by the binders.
    MissingMixin(MixinId),
    /// The first mixin that would be new, and the first that it requires which isn't met by the binders.
    Unmet(MixinId, MixinId),
    /// A structure without mixins.
    EmptyStructure,
    /// A structure with the set of a declared one, the first such.
    SameStructure(StructId),
    /// A structure whose set is strictly inside that of a declared one, the first such.
    AboveDeclared(StructId),
    /// The first two structures that the new one would hold without holding their join, the third.
    MissingJoin(StructId, StructId, StructId),
    /// 1,024 of the kind are declared.
    TooMany(Count),
    /// Out of memory.
    NoMemory,
}

impl<T: Drop> From<AllocFailed<T>> for HierRefused {
    ghost from_gives = { λ _ e. e ≡ NoMemory };

    fn from(_failed: AllocFailed<T>) -> HierRefused {
        HierRefused::NoMemory
    }
}

impl From<AllocError> for HierRefused {
    ghost from_gives = { λ _ e. e ≡ NoMemory };

    fn from(_failed: AllocError) -> HierRefused {
        HierRefused::NoMemory
    }
}
