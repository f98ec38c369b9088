//! Notations and sentences.
ghost use Rattle.std.specs.Prelude.{◌≡◌, ◌↔◌, IsTrue};
ghost use Rattle.hb_notation.specs.Clashes as spec;
ghost use Rattle.hb_notation.specs.Levels.{FitsLeft, FitsRight};

use hb_base::NameId;
use hb_raw::Command;

/// Where the operands of an operator stand, and which of them may be of the operator's own level.
#[derive(Clone, Copy, Debug, PartialEq, Eq)]
pub enum Side {
    /// Infix; the left operand may be of the same level.
    Left,
    /// Infix; the right operand may be of the same level.
    Right,
    /// Infix; no operand may be of the same level.
    Neither,
    /// Prefix; the operand may be of the same level.
    Prefix,
}

/// An operator with the name that it stands for and its level, from 20 to 90: the lower binds tighter.
#[derive(Clone, Copy, Debug, PartialEq, Eq)]
pub struct Notation {
    pub op: NameId,
    pub name: NameId,
    pub level: u8,
    pub side: Side,
}

impl Notation {
    /// Whether the operator is prefix.
    pub fn is_prefix(&self) -> bool
        ensures { result ≡ spec.is_prefix self.now.side }
    {
        match self.side {
            Side::Left | Side::Right | Side::Neither => false,
            Side::Prefix => true,
        }
    }

    /// Whether an operand that begins with the prefix operator, or ends with the infix one behind it, may stand
    /// to the right of this operator.
    pub fn takes(&self, next: &Notation) -> bool
        ensures { IsTrue result ↔ FitsRight self.now.side self.now.level next.now.level }
    {
        match self.side {
            Side::Left | Side::Neither => next.level < self.level,
            Side::Right | Side::Prefix => next.level <= self.level,
        }
    }

    /// Whether what this operator makes may stand to the left of the infix operator behind it. Nothing stands
    /// to the left of a prefix operator.
    pub fn goes_left_of(&self, next: &Notation) -> bool
        ensures { IsTrue result ↔ FitsLeft next.now.side next.now.level self.now.level }
    {
        match next.side {
            Side::Left => self.level <= next.level,
            Side::Right | Side::Neither => self.level < next.level,
            Side::Prefix => false,
        }
    }
}

/// A sentence of a source: a command, or a notation, which holds to the end of its file.
#[derive(Drop)]
pub enum Sentence {
    Command(Command),
    Notation(Notation),
}
