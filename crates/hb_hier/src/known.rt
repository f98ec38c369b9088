//! What a name stands for in a hierarchy, and how long its lists are.
use hb_order::{FactoryId, MixinId, StructId};

/// What was declared under a name.
#[derive(Clone, Copy, Debug, PartialEq, Eq)]
pub enum Known {
    Mixin(MixinId),
    Factory(FactoryId),
    Structure(StructId),
}

/// The lengths of a hierarchy's lists, to which `Hier::undo` cuts them back.
#[derive(Clone, Copy, Debug, PartialEq, Eq)]
pub struct HierMark {
    pub mixins: u16,
    pub factories: u16,
    pub ended: u16,
    pub structures: u16,
    pub givings: u32,
}
