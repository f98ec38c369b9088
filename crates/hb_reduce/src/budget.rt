//! The size of a term against the limits.
ghost use Rattle.std.specs.Prelude.{◌≡◌, ◌↔◌, ◌-◌, ◌^◌, min, IsTrue};
ghost use Rattle.hb_calculus.specs.Budget.{budget, TooLarge};
ghost use Rattle.hb_reduce.specs.Frames.{plug};

use crate::frames::{Frames, down};
use hb_base::Limits;
use hb_term::Part;

/// Whether the whole term has too many nodes or is too deep.
#[tactic(auto, using(crate::proofs::Plugs::nodes_plug, crate::proofs::Plugs::depth_plug))]
pub(crate) fn passed(limits: &Limits, frames: &Frames, part: &Part) -> bool
    ensures { IsTrue result ↔ TooLarge (budget limits.now) (plug frames.now part.now) }
{
    frames.around().saturating_add(part.nodes()) > limits.nodes
        || frames
            .reach()
            .max(down(frames.len()).saturating_add(part.depth()))
            > limits.depth
}
