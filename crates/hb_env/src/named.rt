//! What a name stands for.
use hb_term::{ConstId, RecId};

/// What a declared name stands for: a constant, a maker among them, or a field of a record.
#[derive(Clone, Copy, Debug, PartialEq, Eq)]
pub enum Named {
    Const(ConstId),
    Proj(RecId, u16),
}
