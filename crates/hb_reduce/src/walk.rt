//! The walk to the leftmost outermost place of a rule.
ghost use Rattle.std.specs.Prelude.{◌≡◌, [], IfOk, OnOk};
ghost use Rattle.hb_reduce.specs.Frames.{make, wrap, plug};
ghost use Rattle.hb_reduce.specs.Rules.{rule_of, IsClear};
ghost use Rattle.hb_reduce.specs.Stack.{frame};
ghost use Rattle.hb_reduce.specs.Walks.{InsideOf, TurnAnswer, FoundAnswer};

use crate::contract::contract;
use crate::former::Former;
use crate::frames::Frames;
use crate::rule::Rule;
use crate::side::Side;
use hb_env::Env;
use hb_term::{Part, RecId, Term};
use std::alloc::{AllocError, Global};

/// A term's former with its parts.
#[derive(Drop)]
pub(crate) enum Inside {
    Leaf,
    Two(Former, Part, Part),
    One(RecId, u16, Part),
}

/// Where a walk goes on from a part that is done: down into another, or the whole is done.
#[derive(Drop)]
pub(crate) enum Turn {
    Down(Part),
    Top(Part),
}

/// What a walk finds: what the rule makes of the term at the place, or the whole term, where it gives
/// nothing.
#[derive(Drop)]
pub(crate) enum Found {
    Step(Part),
    Done(Part),
}

/// The former of the part, and what it is made of.
fn open(part: &Part) -> Result<Inside, AllocError>
    ensures { IfOk result (λ i. InsideOf part.now i) }
{
    match part.as_ref() {
        Term::Pi(a, b) => Ok(Inside::Two(Former::Product, a.share()?, b.share()?)),
        Term::Lam(a, b) => Ok(Inside::Two(Former::Function, a.share()?, b.share()?)),
        Term::App(f, a) => Ok(Inside::Two(Former::Application, f.share()?, a.share()?)),
        Term::Proj(r, i, t) => Ok(Inside::One(*r, *i, t.share()?)),
        Term::Sort(_) | Term::Rel(_) | Term::Const(_) | Term::Hole(_) => Ok(Inside::Leaf),
    }
}

/// The part made of two.
fn join(alloc: Global, former: Former, a: Part, b: Part) -> Result<Part, AllocError>
    ensures { IfOk result (λ p. p ≡ make former a b) }
{
    match former {
        Former::Product => Part::new(alloc, Term::Pi(a, b)),
        Former::Function => Part::new(alloc, Term::Lam(a, b)),
        Former::Application => Part::new(alloc, Term::App(a, b)),
    }
}

/// The part with the former around it.
pub(crate) fn wrap(alloc: Global, side: Side, part: Part) -> Result<Part, AllocError>
    ensures { IfOk result (λ p. p ≡ wrap (frame side) part) }
{
    match side {
        Side::Left(former, b) => join(alloc, former, part, b),
        Side::Right(former, a) => join(alloc, former, a, part),
        Side::Under(r, i) => Part::new(alloc, Term::Proj(r, i, part)),
    }
}

/// The whole term. No former is left around it.
pub(crate) fn close(alloc: Global, frames: &mut Frames, part: Part) -> Result<Part, AllocError>
    ensures whole { IfOk result (λ p. p ≡ plug frames.old part) }
    ensures top { OnOk result (frames.new ≡ []) }
{
    let mut now = part;
    while let Some(side) = frames.pop() {
        now = wrap(alloc, side, now)?;
    }
    Ok(now)
}

/// Goes up from a part where the rule gives nothing, to the next one to the right.
fn ascend(alloc: Global, frames: &mut Frames, part: Part) -> Result<Turn, AllocError>
    ensures { IfOk result (λ t. TurnAnswer frames.old part frames.new t) }
{
    let mut now = part;
    loop {
        match frames.pop() {
            None => return Ok(Turn::Top(now)),
            Some(Side::Left(former, b)) => {
                frames.push(Side::Right(former, now))?;
                return Ok(Turn::Down(b));
            }
            Some(Side::Right(former, a)) => {
                now = join(alloc, former, a, now)?;
            }
            Some(Side::Under(r, i)) => {
                now = Part::new(alloc, Term::Proj(r, i, now))?;
            }
        }
    }
}

/// Goes on from the place to the leftmost outermost one where the rule gives something.
pub(crate) fn advance(
    alloc: Global,
    env: &Env,
    rule: Rule,
    frames: &mut Frames,
    part: Part,
) -> Result<Found, AllocError>
    requires { IsClear (rule_of rule env.now) frames.old part }
    ensures { IfOk result (λ f. FoundAnswer (rule_of rule env.now) (plug frames.old part) frames.new f) }
{
    let mut now = part;
    loop {
        if let Some(made) = contract(alloc, env, rule, &now)? {
            return Ok(Found::Step(made));
        }
        match open(&now)? {
            Inside::Two(former, a, b) => {
                frames.push(Side::Left(former, b))?;
                now = a;
            }
            Inside::One(r, i, t) => {
                frames.push(Side::Under(r, i))?;
                now = t;
            }
            Inside::Leaf => match ascend(alloc, frames, now)? {
                Turn::Down(part) => now = part,
                Turn::Top(whole) => return Ok(Found::Done(whole)),
            },
        }
    }
}
