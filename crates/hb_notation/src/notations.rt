//! The notations of a file.
ghost use Rattle.std.specs.Prelude.{◌≡◌, ◌<◌, ◌≤◌, ◌↔◌, ◌++◌, ◌∷◌, [], OnOk, OnErr, IfErr, IsErrOf, IsTrue, length};
ghost use Rattle.hb_base.specs.declared.count.Count as count;
ghost use Rattle.hb_notation.specs.Clashes as spec;

use crate::notation::{Notation, Side};
use hb_base::Count;
use std::alloc::{AllocError, Global};
use std::marker::Model;

/// The most notations of a file.
const MOST: usize = 256;

/// Why a notation isn't added.
#[derive(Clone, Copy, Debug, PartialEq, Eq)]
pub enum NotationRefused {
    /// The file has a notation of the same kind for this operator, or one of this level that has another kind
    /// or another associativity.
    Clash,
    /// The file has 256 notations.
    TooMany(Count),
    NoMemory,
}

/// The notations of a file, in the order of their sentences, seen as their list.
#[derive(Drop)]
pub struct Notations {
    list: Vec<Notation>,
}

impl Model for Notations {
    ghost use Rattle.std.specs.Prelude.{List};
    ghost use Rattle.hb_notation.specs.declared.notation.Notation.{Notation};

    ghost Value = { List Notation };

    ghost view = { λ notations. notations.list.items };
}

impl Notations {
    /// No notations.
    pub fn new(alloc: Global) -> Notations
        ensures { result ≡ [] }
    {
        Notations {
            list: Vec::new(alloc),
        }
    }

    /// Adds a notation. Clash comes before TooMany; whatever the error, nothing is added.
    pub fn add(&mut self, notation: Notation) -> Result<(), NotationRefused>
        ensures added { OnOk result (self.new ≡ self.old ++ notation ∷ []) }
        ensures unchanged { OnErr result (self.new ≡ self.old) }
        ensures too_many { IfErr result (λ e. (c : count.Count) → e ≡ NotationRefused.TooMany c
            → 256 ≤ length self.old) }
        ensures fits { OnOk result (length self.old < 256) }
        ensures clash { IsErrOf result NotationRefused.Clash ↔ IsTrue (spec.any_clash self.old notation) }
    {
        if any_clash(self.list.as_slice(), &notation) {
            return Err(NotationRefused::Clash);
        }
        if self.list.len() >= MOST {
            return Err(NotationRefused::TooMany(Count::Names));
        }
        match self.list.push(notation) {
            Ok(()) => Ok(()),
            Err(_) => Err(NotationRefused::NoMemory),
        }
    }

    /// The notations, in the order of adding.
    pub fn all(&self) -> &[Notation]
        ensures { result.now ≡ self.now }
    {
        self.list.as_slice()
    }
}

/// Whether one of the notations that are held clashes with a new one.
fn any_clash(held: &[Notation], notation: &Notation) -> bool
    ensures { result ≡ spec.any_clash held.now notation.now }
{
    held.iter().any(|one| clash(one, notation))
}

/// Whether two notations of one file contradict each other: they are of the same kind for one operator, or
/// of one level with different kinds or associativities.
fn clash(held: &Notation, notation: &Notation) -> bool
    ensures { result ≡ spec.clash held.now notation.now }
{
    if held.op.0 == notation.op.0 && held.is_prefix() == notation.is_prefix() {
        return true;
    }
    held.level == notation.level && !same_side(held.side, notation.side)
}

/// Whether the sides are the same.
fn same_side(a: Side, b: Side) -> bool
    ensures { result ≡ spec.same_side a b }
{
    match a {
        Side::Left => is_left(b),
        Side::Right => is_right(b),
        Side::Neither => is_neither(b),
        Side::Prefix => matches!(b, Side::Prefix),
    }
}

/// Whether the side is infix with the left associativity.
fn is_left(side: Side) -> bool
    ensures { result ≡ spec.is_left side }
{
    match side {
        Side::Left => true,
        Side::Right => false,
        Side::Neither => false,
        Side::Prefix => false,
    }
}

/// Whether the side is infix with the right associativity.
fn is_right(side: Side) -> bool
    ensures { result ≡ spec.is_right side }
{
    match side {
        Side::Left => false,
        Side::Right => true,
        Side::Neither => false,
        Side::Prefix => false,
    }
}

/// Whether the side is infix without associativity.
fn is_neither(side: Side) -> bool
    ensures { result ≡ spec.is_neither side }
{
    match side {
        Side::Left => false,
        Side::Right => false,
        Side::Neither => true,
        Side::Prefix => false,
    }
}
