//! One former around a place.
ghost use Rattle.std.specs.Prelude.{◌≡◌, ◌-◌, ◌^◌, min};
ghost use Rattle.hb_reduce.specs.Frames.{own_nodes, own_depth};
ghost use Rattle.hb_reduce.specs.Kinds.{asks};
ghost use Rattle.hb_reduce.specs.Stack.{frame};

use crate::former::Former;
use hb_term::{Part, RecId};

/// The former around a place, with its other part: the place is its first part, its second part, or
/// the term that it projects.
#[derive(Drop)]
pub(crate) enum Side {
    Left(Former, Part),
    Right(Former, Part),
    Under(RecId, u16),
}

impl Side {
    /// Its own nodes, up to `u64::MAX`.
    pub(crate) fn nodes(&self) -> u64
        ensures { result ≡ min (own_nodes (frame self.now)) (2 ^ 64 - 1) }
    {
        match self {
            Side::Left(_, part) | Side::Right(_, part) => part.nodes().saturating_add(1),
            Side::Under(_, _) => 1,
        }
    }

    /// The depth of its other part, up to `u32::MAX`.
    pub(crate) fn depth(&self) -> u32
        ensures { result ≡ min (own_depth (frame self.now)) (2 ^ 32 - 1) }
    {
        match self {
            Side::Left(_, part) | Side::Right(_, part) => part.depth(),
            Side::Under(_, _) => 0,
        }
    }

    /// Whether it may become a step where another term is put at the place: an application whose function
    /// is there, or a projection.
    pub(crate) fn asks(&self) -> bool
        ensures { result ≡ asks (frame self.now) }
    {
        match self {
            Side::Left(Former::Application, _) => true,
            Side::Left(_, _) => false,
            Side::Right(_, _) => false,
            Side::Under(_, _) => true,
        }
    }
}
