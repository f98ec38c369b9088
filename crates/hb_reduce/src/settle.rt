//! The place after a step.
ghost use Rattle.std.specs.Prelude.{◌≡◌, IfOk};
ghost use Rattle.hb_calculus.specs.Contraction.{contract};
ghost use Rattle.hb_reduce.specs.Frames.{plug};
ghost use Rattle.hb_reduce.specs.Kinds.{neutral, IsClearFor, IsHeadPath};
ghost use Rattle.hb_reduce.specs.Rules.{At};

use crate::frames::Frames;
use crate::spine::shows;
use crate::walk::wrap;
use hb_env::Env;
use hb_term::Part;
use std::alloc::{AllocError, Global};

/// Goes up from what a step has put at the place, as far as a former around it may have become a step.
pub(crate) fn settle(
    alloc: Global,
    env: &Env,
    frames: &mut Frames,
    part: Part,
) -> Result<Part, AllocError>
    requires { IsClearFor env.now frames.old neutral }
    ensures at { IfOk result (λ p. At (contract env.now) (plug frames.old part) frames.new p) }
    ensures path { IsHeadPath frames.old → IsHeadPath frames.new }
{
    let mut now = part;
    loop {
        if !frames.may_fire() {
            return Ok(now);
        }
        if !shows(&now) {
            return Ok(now);
        }
        match frames.pop() {
            Some(side) => {
                now = wrap(alloc, side, now)?;
            }
            None => return Ok(now),
        }
    }
}
