//! Local carriers.
use hb_order::MixinId;
use hb_term::Term;
use std::vec::Vec;

/// A local carrier: the variable with `level` variables outside it. Each mixin of `given` has its value,
/// a term without holes in a context of `depth` variables, the carrier's own among them; where it is
/// wanted deeper, it is lifted.
#[derive(Drop)]
pub struct Carrier {
    pub level: u32,
    pub depth: u32,
    pub given: Vec<(MixinId, Term)>,
}
