//! Why a rebuilt library doesn't keep what clients had.
use hb_base::NameId;
use hb_order::{MixinId, StructId};

/// Why two libraries aren't equivalent. Names and structures are the old ones, mixins the new ones.
#[derive(Clone, Copy, Debug, PartialEq, Eq)]
pub enum RefactorRefused {
    /// An old mixin or ended factory is no mixin or ended factory in the new library.
    LostName(NameId),
    /// Its field names differ from the old ones.
    FieldsChanged(NameId),
    /// It requires this mixin, which what it required before doesn't bring.
    NeedsMore { name: NameId, mixin: MixinId },
    /// What it gave before brings this mixin, which it gives no longer.
    GivesLess { name: NameId, mixin: MixinId },
    /// An old structure isn't declared in the new library.
    StructureLost(StructId),
    /// This mixin is in just one of its new set and the one that its old set brings.
    StructureChanged { structure: StructId, mixin: MixinId },
}
