//! The formers around a place, with their counts.
ghost use Rattle.std.specs.Prelude.{◌≡◌, ◌-◌, ◌^◌, min, [], ◌∷◌, length, IfOk, MatchOption};
ghost use Rattle.hb_reduce.specs.Frames.{around, reach};
ghost use Rattle.hb_reduce.specs.Kinds.{may_fire};
ghost use Rattle.hb_reduce.specs.Stack.{frame};

use crate::side::Side;
use std::alloc::{AllocError, Global};
use std::marker::Model;
use std::vec::Vec;

/// A former, with the counts of those around it.
#[derive(Drop)]
struct Layer {
    side: Side,
    around: u64,
    reach: u32,
}

/// The formers around a place, the innermost last put on.
#[derive(Drop)]
pub(crate) struct Frames {
    layers: Vec<Layer>,
    around: u64,
    reach: u32,
}

impl Model for Frames {
    ghost use Rattle.std.specs.Prelude.{List, []};
    ghost use Rattle.hb_reduce.specs.Frames.{Frame};
    ghost use Rattle.hb_reduce.specs.Counted.{coded_frames};

    ghost Value = { List Frame };

    ghost coded = { coded_frames };

    ghost use Rattle.hb_reduce.specs.Stack.{stack, AreCounted};

    ghost view = { λ f. stack [] f.layers.items };

    ghost invariant = { λ f. AreCounted [] f.layers.items f.around f.reach };
}

impl Frames {
    /// No former: the place is the whole term.
    pub(crate) fn new(alloc: Global) -> Frames
        ensures { result ≡ [] }
    {
        Frames {
            layers: Vec::new(alloc),
            around: 0,
            reach: 0,
        }
    }

    /// The nodes of the formers and of their other parts, up to `u64::MAX`.
    pub(crate) fn around(&self) -> u64
        ensures { result ≡ min (around self.now) (2 ^ 64 - 1) }
    {
        self.around
    }

    /// The depth that they reach by themselves, up to `u32::MAX`.
    pub(crate) fn reach(&self) -> u32
        ensures { result ≡ min (reach self.now) (2 ^ 32 - 1) }
    {
        self.reach
    }

    /// How many there are.
    pub(crate) fn len(&self) -> usize
        ensures { result ≡ length self.now }
    {
        self.layers.len()
    }

    /// Puts one more around the place.
    pub(crate) fn push(&mut self, side: Side) -> Result<(), AllocError>
        ensures { IfOk result (λ _. self.new ≡ frame side ∷ self.old) }
    {
        let around = self.around.saturating_add(side.nodes());
        let reach = self.reach.max(
            down(self.layers.len())
                .saturating_add(side.depth())
                .saturating_add(1),
        );
        self.layers.push(Layer {
            side,
            around: self.around,
            reach: self.reach,
        })?;
        self.around = around;
        self.reach = reach;
        Ok(())
    }

    /// Takes the innermost off.
    pub(crate) fn pop(&mut self) -> Option<Side>
        ensures { MatchOption result ((self.old ≡ []) × (self.new ≡ [])) (λ s. self.old ≡ frame s ∷ self.new) }
    {
        let Layer {
            side,
            around,
            reach,
        } = self.layers.pop()?;
        self.around = around;
        self.reach = reach;
        Some(side)
    }

    /// Whether the innermost is an application whose function is at the place, or a projection.
    pub(crate) fn may_fire(&self) -> bool
        ensures { result ≡ may_fire self.now }
    {
        match self.layers.last() {
            Some(layer) => layer.side.asks(),
            None => false,
        }
    }
}

/// The number, or `u32::MAX` where it is greater.
pub(crate) fn down(n: usize) -> u32
    ensures { result ≡ min n (2 ^ 32 - 1) }
{
    u32::try_from(n).unwrap_or(u32::MAX)
}
