//! The look at one term of a walk.
ghost use Rattle.std.specs.Prelude.{◌≡◌, ◌↔◌, IfOk, IsTrue};
ghost use Rattle.hb_term.specs.Meaning.{tree};
ghost use Rattle.hb_calculus.specs.Budget.{budget, TooLarge};
ghost use Rattle.hb_found.specs.Plain.{setting};
ghost use Rattle.hb_found.specs.Frames.{SightIs, SeenIs, IsSpentAt};

use crate::ends::Stop;
use crate::frames::{Seen, Sight, Walker};
use crate::key::plain_key;
use crate::needs::needs;
use crate::reads::Reads;
use crate::spine::{arguments, head_constant};
use hb_base::Limits;
use hb_sets::MixSet;
use hb_term::{Part, Term};
use std::alloc::{AllocError, Global};

/// The look at the walk's next term.
#[tactic(auto, using(crate::proofs::KeyLemmas::no_walk))]
pub(crate) fn look(
    alloc: Global,
    reads: Reads<'_>,
    depth: u32,
    walker: &Walker,
) -> Result<Sight, Stop>
    ensures { SightIs (setting reads.entry) depth walker.now result }
{
    let steps = steps_of(reads.limits);
    let moves = walker.moves;
    if moves >= steps {
        return Err(Stop::Moves);
    }
    if is_large(reads.limits, &walker.next) {
        return Err(spent(&walker.first));
    }
    let Ok(seen) = see(alloc, reads, depth, &walker.set, walker.next.as_ref()) else {
        return Err(Stop::NoMemory);
    };
    Ok(Sight {
        seen,
        moves: moves + 1,
    })
}

/// The number of steps that the limits allow.
fn steps_of(limits: &Limits) -> u64
    ensures { result ≡ limits.now.steps }
{
    limits.steps
}

/// Whether the term passes the limits.
fn is_large(limits: &Limits, part: &Part) -> bool
    ensures { IsTrue result ↔ TooLarge (budget limits.now) part.now }
{
    part.nodes() > limits.nodes || part.depth() > limits.depth
}

/// The first term of a walk that comes to one that is too large.
fn spent(first: &Term) -> Stop
    ensures { IsSpentAt (tree first.now) result }
{
    match first.copy() {
        Ok(first) => Stop::Spent(first),
        Err(_) => Stop::NoMemory,
    }
}

/// What is seen at a term of depth `depth`.
fn see(
    alloc: Global,
    reads: Reads<'_>,
    depth: u32,
    set: &MixSet,
    t: &Term,
) -> Result<Seen, AllocError>
    ensures { IfOk result (λ s. SeenIs (setting reads.entry) depth set.now (tree t.now) s) }
{
    if let Some(key) = plain_key(reads, depth, set, t)? {
        return Ok(Seen::Has(key));
    }
    let Some(constant) = head_constant(t) else {
        return Ok(Seen::Lacks);
    };
    let args = arguments(alloc, t)?;
    match needs(alloc, reads, constant, set, args.len())? {
        None => Ok(Seen::Lacks),
        Some(needs) => Ok(Seen::Asks(constant, needs, args)),
    }
}
