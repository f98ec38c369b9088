//! Runs of the equation machine.
ghost use Rattle.std.specs.Prelude.{◌≡◌, ◌++◌, ◌∷◌, [], IfOk};
ghost use Rattle.hb_found.specs.Plain.{setting};
ghost use Rattle.hb_term.specs.Meaning.{tree};
ghost use Rattle.hb_holes.specs.Holes.{filled};
ghost use Rattle.hb_holes.specs.Places.{places};
ghost use Rattle.hb_equations.specs.Machine.{state};
ghost use Rattle.hb_unify.specs.Plain.{IsStuckAt, goals, goal_of, stacked, stuck_at, act_of, state_of, NextAnswer, TurnAnswer, IsLater, SolveAnswer};

use crate::act::{Act, Cause, Goal, Sides, Taken};
use crate::giving::{give, share};
use crate::taking::take_up;
use hb_base::Limits;
use hb_found::Reads;
use hb_holes::{Slot, fill, shallow};
use hb_term::Term;
use std::alloc::{AllocError, Global};

/// The holes, the moves taken, and the equations that are left, the first last.
#[derive(Drop)]
pub struct Machine {
    pub holes: Vec<Slot>,
    pub moves: u64,
    pub left: Vec<Goal>,
}

/// Solves an equation, where `moves` are taken before: the holes with their values, or why there is no solution.
#[tactic(auto, using(crate::proofs::TurnLemmas::no_run))]
pub fn solve(
    alloc: Global,
    reads: Reads<'_>,
    holes: Vec<Slot>,
    moves: u64,
    equation: Goal,
) -> Result<Machine, Cause>
    ensures { SolveAnswer (setting reads.entry) (state moves (places holes.items) (goal_of equation ∷ [])) result }
{
    let Ok(left) = only(alloc, equation) else {
        return Err(Cause::NoMemory);
    };
    let mut machine = Machine { holes, moves, left };
    while let Some(now) = machine.left.pop() {
        match turn_with(alloc, reads, machine, now) {
            Err(cause) => return Err(cause),
            Ok(next) => machine = next,
        }
    }
    Ok(machine)
}

/// One equation.
fn only(alloc: Global, equation: Goal) -> Result<Vec<Goal>, AllocError>
    ensures { IfOk result (λ qs. stacked qs.items ≡ goal_of equation ∷ []) }
{
    let mut out = Vec::new(alloc);
    out.push(equation)?;
    Ok(out)
}

/// One move with an equation that was taken off.
fn turn_with(alloc: Global, reads: Reads<'_>, machine: Machine, now: Goal) -> Result<Machine, Cause>
    ensures turn { TurnAnswer (setting reads.entry) (state machine.moves (places machine.holes.items) (goal_of now ∷ stacked machine.left.items)) result }
    ensures later { IsLater reads.entry.limits.now.steps machine.moves result }
{
    turn(alloc, reads, machine, &now)
}

/// One move.
#[tactic(auto, using(crate::proofs::TurnLemmas::no_turn))]
fn turn(alloc: Global, reads: Reads<'_>, machine: Machine, now: &Goal) -> Result<Machine, Cause>
    ensures turn { TurnAnswer (setting reads.entry) (state machine.moves (places machine.holes.items) (goal_of now.now ∷ stacked machine.left.items)) result }
    ensures later { IsLater reads.entry.limits.now.steps machine.moves result }
{
    if machine.moves >= steps_of(reads.limits) {
        return Err(Cause::NoMoves);
    }
    let Ok(left) = side(alloc, &machine.holes, now.depth, &now.left) else {
        return Err(Cause::NoMemory);
    };
    let Ok(right) = side(alloc, &machine.holes, now.depth, &now.right) else {
        return Err(Cause::NoMemory);
    };
    let of = Sides {
        depth: now.depth,
        relation: now.relation,
        left: &left,
        right: &right,
    };
    let Ok(taken) = take_up(alloc, reads, &machine.holes, of, machine.moves + 1) else {
        return Err(Cause::NoMemory);
    };
    next(alloc, machine, taken, of)
}

/// A side with the values of holes put in. One so deep that the stack doesn't hold a walk of it is out of memory.
fn side(alloc: Global, holes: &[Slot], depth: u32, t: &Term) -> Result<Term, AllocError>
    ensures { IfOk result (λ u. tree u ≡ filled (places holes.now) depth (tree t.now)) }
{
    let side = fill(alloc, holes, depth, t)?;
    shallow(&side)?;
    Ok(side)
}

/// The number of steps that the limits allow.
fn steps_of(limits: &Limits) -> u64
    ensures { result ≡ limits.now.steps }
{
    limits.steps
}

/// The machine after an act.
fn next(alloc: Global, machine: Machine, taken: Taken, of: Sides<'_>) -> Result<Machine, Cause>
    ensures { NextAnswer taken.moves (places machine.holes.items) (stacked machine.left.items) (act_of (stuck_at of.entry) taken.act) result }
{
    let Machine {
        holes,
        moves: _,
        left,
    } = machine;
    let Taken { act, moves } = taken;
    match act {
        Act::Becomes(parts) => {
            let Ok(left) = put_before(left, parts) else {
                return Err(Cause::NoMemory);
            };
            Ok(Machine { holes, moves, left })
        }
        Act::Gives(at, value) => {
            let Ok(holes) = give(alloc, holes, at, value) else {
                return Err(Cause::NoMemory);
            };
            Ok(Machine { holes, moves, left })
        }
        Act::Shares(first, to_first, second, to_second, depth) => {
            let Ok(holes) = share(alloc, holes, first, to_first, second, to_second, depth) else {
                return Err(Cause::NoMemory);
            };
            Ok(Machine { holes, moves, left })
        }
        Act::Stays => Err(stuck(of)),
        Act::Ends(cause) => Err(cause),
    }
}

/// The equation is stuck.
fn stuck(of: Sides<'_>) -> Cause
    ensures { IsStuckAt of.entry result }
{
    let Ok(left) = of.left.copy() else {
        return Cause::NoMemory;
    };
    let Ok(right) = of.right.copy() else {
        return Cause::NoMemory;
    };
    Cause::Stuck(of.depth, left, right)
}

/// Equations before those that are left.
fn put_before(left: Vec<Goal>, parts: Vec<Goal>) -> Result<Vec<Goal>, AllocError>
    ensures { IfOk result (λ qs. stacked qs.items ≡ goals parts.items ++ stacked left.items) }
{
    let mut parts = parts;
    let mut left = left;
    while let Some(last) = parts.pop() {
        left.push(last)?;
    }
    Ok(left)
}
