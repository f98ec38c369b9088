//! The leaves of terms: sorts, and the numbers of constants and records.

/// A sort: `Prop`, or `Type@{k}` of the level k, from 0 to 63 in all that is accepted.
#[derive(Clone, Copy, Debug, PartialEq, Eq)]
pub enum Sort {
    Prop,
    Level(u8),
}

/// A constant: the declaration at the place `decl`, or, where `maker` is set, the constructor of the
/// record that is declared there.
#[derive(Clone, Copy, Debug, PartialEq, Eq, PartialOrd, Ord, Hash)]
pub struct ConstId {
    pub decl: u32,
    pub maker: bool,
}

/// A record: the place of its declaration.
#[derive(Clone, Copy, Debug, PartialEq, Eq, PartialOrd, Ord, Hash)]
pub struct RecId(pub u32);
