//! Walks along carriers. The walk of an argument stands on a stack of its own: only moves bound how deep they nest.
ghost use Rattle.std.specs.Prelude.{◌≡◌, ◌≤◌, ◌∷◌, reverse, IfOk};
ghost use Rattle.hb_term.specs.Meaning.{tree};
ghost use Rattle.hb_keys.specs.Walks.{Walks};
ghost use Rattle.hb_found.specs.Plain.{setting, end, IsAfter};
ghost use Rattle.hb_found.specs.Frames.{question, GoesOn, IsEnded, NextIs, moves_of_next, moves_of_then, moves_of_end};

use crate::asking::{first, receive};
use crate::ends::{End, Stop};
use crate::frames::{Asked, Next, Then, Waiting, Walker};
use crate::looking::look;
use crate::reads::Reads;
use hb_sets::MixSet;
use hb_term::{Part, Term};
use std::alloc::{AllocError, Global};
use std::vec::Vec;

/// The first key of a carrier of depth `depth` that has the set. The looks begin after `start` moves.
#[tactic(auto, using(crate::proofs::KeyLemmas::no_walk))]
pub fn walk(
    alloc: Global,
    reads: Reads<'_>,
    depth: u32,
    set: &MixSet,
    start: u64,
    carrier: &Term,
) -> Result<End, Stop>
    ensures walks { Walks (setting reads.entry) depth set.now start (tree carrier.now) (tree carrier.now) (end result) }
    ensures after { IsAfter start result }
{
    let asked = Asked {
        set,
        start,
        carrier,
    };
    let Ok(begun) = begin(alloc, asked) else {
        return Err(Stop::NoMemory);
    };
    let mut walker = begun;
    let mut stack = Vec::new(alloc);
    loop {
        let sight = match look(alloc, reads, depth, &walker) {
            Err(stop) => return Err(stop),
            Ok(sight) => sight,
        };
        let Ok(then) = first(alloc, reads, depth, walker, sight) else {
            return Err(Stop::NoMemory);
        };
        match go_on(alloc, reads, depth, asked, stack, then) {
            Err(_) => return Err(Stop::NoMemory),
            Ok(Next::Ends(end)) => return Ok(end),
            Ok(Next::Goes(next, left)) => {
                walker = next;
                stack = left;
            }
        }
    }
}

/// The walk at its first term.
fn begin(alloc: Global, asked: Asked<'_>) -> Result<Walker, AllocError>
    ensures { IfOk result (λ w. (w.set ≡ asked.entry.set.now) × (w.start ≡ asked.entry.start) × (w.first ≡ asked.entry.carrier.now) × (w.next ≡ tree asked.entry.carrier.now) × (w.moves ≡ asked.entry.start)) }
{
    Ok(Walker {
        set: asked.set.copy(),
        start: asked.start,
        first: asked.carrier.copy()?,
        next: Part::new(alloc, asked.carrier.copy()?)?,
        moves: asked.start,
    })
}

/// What follows for all, from what follows for the walk that goes on or ended.
fn go_on(
    alloc: Global,
    reads: Reads<'_>,
    depth: u32,
    asked: Asked<'_>,
    stack: Vec<Waiting>,
    then: Then,
) -> Result<Next, AllocError>
    requires { GoesOn (setting reads) depth (question asked) stack then }
    ensures next { IfOk result (λ x. NextIs (setting reads.entry) depth (question asked.entry) x) }
    ensures after { IfOk result (λ x. moves_of_then then ≤ moves_of_next x) }
{
    match then {
        Then::Waits(walker, waiting) => {
            let stack = put(stack, waiting)?;
            Ok(Next::Goes(walker, stack))
        }
        Then::Goes(walker) => Ok(Next::Goes(walker, stack)),
        Then::Ends(ended) => resume(alloc, reads, depth, asked, stack, ended),
    }
}

/// One look more that waits.
fn put(stack: Vec<Waiting>, waiting: Waiting) -> Result<Vec<Waiting>, AllocError>
    ensures { IfOk result (λ fs. reverse fs.items ≡ waiting ∷ reverse stack.items) }
{
    let mut stack = stack;
    stack.push(waiting)?;
    Ok(stack)
}

/// The looks that wait take up the end of the walk that the last of them waits for.
fn resume(
    alloc: Global,
    reads: Reads<'_>,
    depth: u32,
    asked: Asked<'_>,
    stack: Vec<Waiting>,
    ended: End,
) -> Result<Next, AllocError>
    requires { IsEnded (setting reads) depth (question asked) stack ended }
    ensures next { IfOk result (λ x. NextIs (setting reads.entry) depth (question asked.entry) x) }
    ensures after { IfOk result (λ x. moves_of_end ended ≤ moves_of_next x) }
{
    let mut stack = stack;
    let mut ended = ended;
    while let Some(waiting) = stack.pop() {
        match receive(alloc, reads, depth, waiting, ended)? {
            Then::Waits(walker, again) => {
                let stack = put(stack, again)?;
                return Ok(Next::Goes(walker, stack));
            }
            Then::Goes(walker) => return Ok(Next::Goes(walker, stack)),
            Then::Ends(next) => ended = next,
        }
    }
    Ok(Next::Ends(ended))
}
