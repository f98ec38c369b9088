//! What follows a look, and the end of an argument's walk.
ghost use Rattle.std.specs.Prelude.{◌≡◌, ◌≤◌, ◌<◌, ◌+◌, length, slice_get, None, Some, IfOk};
ghost use Rattle.hb_term.specs.Meaning.{tree};
ghost use Rattle.hb_keys.specs.Keys as keys;
ghost use Rattle.hb_keys.specs.Walks.{Tries, lacks};
ghost use Rattle.hb_found.specs.Plain.{setting, trees_or, key};
ghost use Rattle.hb_found.specs.Frames.{IsOn, IsSeen, IsSight, IsAsking, Waits, Receives, Gains, ThenIs, moves_of_then, moves_of_end, question_of};

use crate::ends::End;
use crate::frames::{Frame, Seen, Sight, Then, Waiting, Walker};
use crate::key::{Key, value_at};
use crate::needs::mixins;
use crate::reads::Reads;
use crate::terms::with_value;
use hb_order::StructId;
use hb_reduce::head_step;
use hb_term::{Part, Term};
use std::alloc::{AllocError, Global};
use std::vec::Vec;

/// What follows the look at a walk's next term.
pub(crate) fn first(
    alloc: Global,
    reads: Reads<'_>,
    depth: u32,
    walker: Walker,
    sight: Sight,
) -> Result<Then, AllocError>
    requires on { IsOn (setting reads) depth walker }
    requires sight { IsSight (setting reads) depth walker sight }
    ensures then { IfOk result (λ t. ThenIs (setting reads.entry) depth (question_of walker) t) }
    ensures after { IfOk result (λ t. sight.moves ≤ moves_of_then t) }
{
    let Sight { seen, moves } = sight;
    match seen {
        Seen::Has(key) => {
            let t = walker.next.as_ref().copy()?;
            Ok(Then::Ends(End::Found(key, t, moves)))
        }
        Seen::Lacks => lacking(alloc, reads, depth, walker, moves),
        Seen::Asks(constant, needs, args) => {
            let frame = Frame {
                walker,
                constant,
                needs,
                args,
                at: 0,
                values: Some(Vec::new(alloc)),
                moves,
            };
            ask(alloc, reads, depth, frame)
        }
    }
}

/// A walk whose next term is no key goes on after the step at its head, if there is one.
fn lacking(
    alloc: Global,
    reads: Reads<'_>,
    depth: u32,
    walker: Walker,
    after: u64,
) -> Result<Then, AllocError>
    requires seen { IsSeen (setting reads) depth walker }
    requires lacks { Tries (setting reads) depth walker.set (walker.moves + 1) walker.next (lacks after) }
    ensures then { IfOk result (λ t. ThenIs (setting reads.entry) depth (question_of walker) t) }
    ensures after { IfOk result (λ t. after ≤ moves_of_then t) }
{
    let Walker {
        set,
        start,
        first,
        next,
        moves: _,
    } = walker;
    match head_step(alloc, reads.env, &next)? {
        None => Ok(Then::Ends(End::Missing(after))),
        Some(next) => Ok(Then::Goes(Walker {
            set,
            start,
            first,
            next,
            moves: after,
        })),
    }
}

/// Goes past the arguments that need nothing, up to one that needs a walk.
fn ask(alloc: Global, reads: Reads<'_>, depth: u32, frame: Frame) -> Result<Then, AllocError>
    requires asking { IsAsking (setting reads) depth frame }
    ensures then { IfOk result (λ t. ThenIs (setting reads.entry) depth (question_of frame.walker) t) }
    ensures after { IfOk result (λ t. frame.moves ≤ moves_of_then t) }
{
    let mut frame = frame;
    while frame.at < frame.needs.len() {
        match frame.needs[frame.at] {
            None => frame = passed(reads, depth, frame)?,
            Some(structure) => return waiting(alloc, reads, depth, frame, structure),
        }
    }
    whole(reads, depth, frame)
}

/// The next argument, which needs nothing, is its own value.
fn passed(reads: Reads<'_>, depth: u32, frame: Frame) -> Result<Frame, AllocError>
    requires asking { IsAsking (setting reads) depth frame }
    requires none { slice_get frame.needs.items frame.at ≡ Some None }
    ensures asking { IfOk result (λ f. IsAsking (setting reads.entry) depth f) }
    ensures same { IfOk result (λ f. (f.walker ≡ frame.walker) × (f.moves ≡ frame.moves) × (f.needs ≡ frame.needs) × (f.at ≡ frame.at + 1)) }
{
    let Frame {
        walker,
        constant,
        needs,
        args,
        at,
        values,
        moves,
    } = frame;
    let arg = args[at].copy()?;
    let values = with_value(values, Some(arg))?;
    Ok(Frame {
        walker,
        constant,
        needs,
        args,
        at: at.checked_add(1).ok_or(AllocError)?,
        values,
        moves,
    })
}

/// The next argument needs a walk for the structure's mixins.
fn waiting(
    alloc: Global,
    reads: Reads<'_>,
    depth: u32,
    frame: Frame,
    structure: StructId,
) -> Result<Then, AllocError>
    requires asking { IsAsking (setting reads) depth frame }
    requires need { slice_get frame.needs.items frame.at ≡ Some (Some structure) }
    ensures then { IfOk result (λ t. ThenIs (setting reads.entry) depth (question_of frame.walker) t) }
    ensures after { IfOk result (λ t. frame.moves ≤ moves_of_then t) }
{
    let arg = frame.args[frame.at].copy()?;
    let walker = Walker {
        set: mixins(reads.hier, structure),
        start: frame.moves,
        first: arg.copy()?,
        next: Part::new(alloc, arg)?,
        moves: frame.moves,
    };
    Ok(Then::Waits(walker, Waiting { frame, structure }))
}

/// The constant is a key: all arguments have what it needs of them.
fn whole(reads: Reads<'_>, depth: u32, frame: Frame) -> Result<Then, AllocError>
    requires asking { IsAsking (setting reads) depth frame }
    requires all { length frame.needs.items ≤ frame.at }
    ensures then { IfOk result (λ t. ThenIs (setting reads.entry) depth (question_of frame.walker) t) }
    ensures after { IfOk result (λ t. frame.moves ≤ moves_of_then t) }
{
    let t = frame.walker.next.as_ref().copy()?;
    let key = Key::Constant(frame.constant, frame.needs, frame.values);
    Ok(Then::Ends(End::Found(key, t, frame.moves)))
}

/// What follows for a look that waits, where the walk of its argument ended.
pub(crate) fn receive(
    alloc: Global,
    reads: Reads<'_>,
    depth: u32,
    waiting: Waiting,
    ended: End,
) -> Result<Then, AllocError>
    requires { Receives (setting reads) depth waiting ended }
    ensures then { IfOk result (λ t. ThenIs (setting reads.entry) depth (question_of waiting.frame.walker) t) }
    ensures after { IfOk result (λ t. moves_of_end ended ≤ moves_of_then t) }
{
    let Waiting { frame, structure } = waiting;
    match ended {
        End::Missing(after) => lacking(alloc, reads, depth, frame.walker, after),
        End::Found(key, t, after) => {
            let frame = gained(alloc, reads, depth, frame, structure, key, t, after)?;
            ask(alloc, reads, depth, frame)
        }
    }
}

/// The next argument has the value at its key.
fn gained(
    alloc: Global,
    reads: Reads<'_>,
    depth: u32,
    frame: Frame,
    structure: StructId,
    at_key: Key,
    at_term: Term,
    after: u64,
) -> Result<Frame, AllocError>
    requires { Gains (setting reads) depth frame structure at_key at_term after }
    ensures asking { IfOk result (λ f. IsAsking (setting reads.entry) depth f) }
    ensures same { IfOk result (λ f. (f.walker ≡ frame.walker) × (f.moves ≡ after)) }
{
    let _term = at_term;
    let Frame {
        walker,
        constant,
        needs,
        args,
        at,
        values,
        moves: _,
    } = frame;
    let value = value_at(alloc, reads, depth, structure, &at_key)?;
    Ok(Frame {
        walker,
        constant,
        needs,
        args,
        at: at.checked_add(1).ok_or(AllocError)?,
        values: with_value(values, value)?,
        moves: after,
    })
}
