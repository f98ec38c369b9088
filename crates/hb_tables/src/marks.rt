//! Keys of types, and how long the tables are.
use hb_order::StructId;
use hb_tree::ConstId;

/// What the instances of a type are looked up by: its head constant, a local carrier, the variable
/// with so many variables outside it, or the carrier of a value of a structure.
#[derive(Clone, Copy, Debug, PartialEq, Eq)]
pub enum Key {
    Const(ConstId),
    Local(u32),
    Sort(StructId),
}

/// The lengths of the tables, to which `Tables::undo` cuts them back.
#[derive(Clone, Copy, Debug, PartialEq, Eq)]
pub struct TablesMark {
    pub structures: u32,
    pub coercions: u32,
    pub entries: u32,
    pub mixins: u32,
    pub operations: u32,
    pub builders: u32,
}
