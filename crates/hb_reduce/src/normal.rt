//! Normal forms.
ghost use Rattle.std.specs.Prelude.{◌≡◌, IfOk};
ghost use Rattle.hb_calculus.specs.Budget.{budget};
ghost use Rattle.hb_reduce.specs.Frames.{plug};
ghost use Rattle.hb_reduce.specs.Kinds.{neutral, IsClearFor};
ghost use Rattle.hb_reduce.specs.Progress.{NormalFormAnswer};
ghost use Rattle.hb_reduce.specs.Rules.{rule_of, At};
ghost use Rattle.hb_reduce.specs.declared.rule.Rule.{Rule};

use crate::budget::passed;
use crate::frames::Frames;
use crate::rule::Rule;
use crate::settle::settle;
use crate::walk::{Found, advance, close};
use hb_base::Limits;
use hb_env::Env;
use hb_term::Part;
use std::alloc::{AllocError, Global};

/// The place where the walk goes on after a contraction: near it after a step, the whole term after eta.
fn replace(
    alloc: Global,
    env: &Env,
    rule: Rule,
    frames: &mut Frames,
    made: Part,
) -> Result<Part, AllocError>
    requires { rule ≡ Rule.Step → IsClearFor env.now frames.old neutral }
    ensures { IfOk result (λ p. At (rule_of rule env.now) (plug frames.old made) frames.new p) }
{
    match rule {
        Rule::Step => settle(alloc, env, frames, made),
        Rule::Eta => close(alloc, frames, made),
    }
}

/// The normal form; `None` where the limits are passed on the way to it.
pub(crate) fn normal_form(
    alloc: Global,
    env: &Env,
    limits: &Limits,
    part: Part,
) -> Result<Option<Part>, AllocError>
    ensures { IfOk result (λ o. NormalFormAnswer env.now (budget limits.now) part o) }
{
    let mut rule = Rule::Step;
    let mut frames = Frames::new(alloc);
    let mut now = part;
    let most = limits.steps;
    let mut taken: u64 = 0;
    loop {
        if passed(limits, &frames, &now) {
            return Ok(None);
        }
        match advance(alloc, env, rule, &mut frames, now)? {
            Found::Done(whole) => match rule {
                Rule::Eta => return Ok(Some(whole)),
                Rule::Step => {
                    rule = Rule::Eta;
                    now = whole;
                }
            },
            Found::Step(made) => {
                if taken == most {
                    return Ok(None);
                }
                taken += 1;
                now = replace(alloc, env, rule, &mut frames, made)?;
            }
        }
    }
}
