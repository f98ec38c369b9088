//! Weak head forms.
ghost use Rattle.std.specs.Prelude.{◌≡◌, IfOk};
ghost use Rattle.hb_calculus.specs.Budget.{budget};
ghost use Rattle.hb_calculus.specs.Contraction.{contract};
ghost use Rattle.hb_reduce.specs.Frames.{plug};
ghost use Rattle.hb_reduce.specs.Kinds.{IsHeadPath};
ghost use Rattle.hb_reduce.specs.Progress.{TowardHead, HeadFoundAnswer, HeadFormAnswer};
ghost use Rattle.hb_reduce.specs.Rules.{IsClear};

use crate::budget::passed;
use crate::contract::contract;
use crate::former::Former;
use crate::frames::Frames;
use crate::rule::Rule;
use crate::settle::settle;
use crate::side::Side;
use crate::walk::{Found, close};
use hb_base::Limits;
use hb_env::Env;
use hb_term::{Part, Term};
use std::alloc::{AllocError, Global};

/// The part one former nearer to the head, with that former; `None` at the head.
fn toward_head(part: &Part) -> Result<Option<(Side, Part)>, AllocError>
    ensures { IfOk result (λ o. TowardHead part.now o) }
{
    match part.as_ref() {
        Term::App(f, a) => Ok(Some((Side::Left(Former::Application, a.share()?), f.share()?))),
        Term::Proj(r, i, t) => Ok(Some((Side::Under(*r, *i), t.share()?))),
        _ => Ok(None),
    }
}

/// Goes on from the place toward the head, to a step there.
fn advance_head(
    alloc: Global,
    env: &Env,
    frames: &mut Frames,
    part: Part,
) -> Result<Found, AllocError>
    requires clear { IsClear (contract env.now) frames.old part }
    requires path { IsHeadPath frames.old }
    ensures { IfOk result (λ f. HeadFoundAnswer env.now (plug frames.old part) frames.new f) }
{
    let mut now = part;
    loop {
        if let Some(made) = contract(alloc, env, Rule::Step, &now)? {
            return Ok(Found::Step(made));
        }
        match toward_head(&now)? {
            Some((side, part)) => {
                frames.push(side)?;
                now = part;
            }
            None => return Ok(Found::Done(close(alloc, frames, now)?)),
        }
    }
}

/// The weak head form; `None` where the limits are passed on the way to it.
pub(crate) fn head_form(
    alloc: Global,
    env: &Env,
    limits: &Limits,
    part: Part,
) -> Result<Option<Part>, AllocError>
    ensures { IfOk result (λ o. HeadFormAnswer env.now (budget limits.now) part o) }
{
    let mut frames = Frames::new(alloc);
    let mut now = part;
    let most = limits.steps;
    let mut taken: u64 = 0;
    loop {
        if passed(limits, &frames, &now) {
            return Ok(None);
        }
        match advance_head(alloc, env, &mut frames, now)? {
            Found::Done(whole) => return Ok(Some(whole)),
            Found::Step(made) => {
                if taken == most {
                    return Ok(None);
                }
                taken += 1;
                now = settle(alloc, env, &mut frames, made)?;
            }
        }
    }
}
