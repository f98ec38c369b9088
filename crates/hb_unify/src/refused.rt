//! Why there is no solution, or no key.
ghost use Rattle.std.specs.Prelude.{◌≡◌, IfOk};
ghost use Rattle.hb_unify.specs.Problems.{IsRefusedAs};
ghost use Rattle.hb_unify.specs.Plain.{cause_of};

use crate::act::Cause;
use hb_base::NameId;
use hb_term::{Scoped, Term};
use std::alloc::AllocError;

/// Why an equation has no solution.
#[derive(Drop)]
pub enum UnifyRefused {
    /// No rule fits the equation, whose sides have no step at their heads and the values of holes put in.
    Stuck { a: Scoped, b: Scoped },
    /// The carrier has no key with the structure's mixins.
    NoInstance { wanted: NameId, carrier: Scoped },
    /// The term passes the limits.
    Spent(Scoped),
    /// The command would take more moves than the limits allow.
    Moves,
    NoMemory,
}

impl UnifyRefused {
    /// The refusal for why a run ends. A term out of its scope is out of memory.
    pub(crate) fn of(cause: Cause) -> UnifyRefused
        ensures { IsRefusedAs (cause_of cause) result }
    {
        match made(cause) {
            Ok(refused) => refused,
            Err(_) => UnifyRefused::NoMemory,
        }
    }
}

/// The same, where memory is there.
fn made(cause: Cause) -> Result<UnifyRefused, AllocError>
    ensures { IfOk result (λ r. IsRefusedAs (cause_of cause) r) }
{
    match cause {
        Cause::Stuck(depth, a, b) => Ok(UnifyRefused::Stuck {
            a: scoped(a, depth)?,
            b: scoped(b, depth)?,
        }),
        Cause::NoInstance(wanted, depth, t) => Ok(UnifyRefused::NoInstance {
            wanted,
            carrier: scoped(t, depth)?,
        }),
        Cause::Spent(depth, t) => Ok(UnifyRefused::Spent(scoped(t, depth)?)),
        Cause::NoMoves => Ok(UnifyRefused::Moves),
        Cause::NoMemory => Err(AllocError),
    }
}

/// The term in a scope of so many variables.
pub(crate) fn scoped(term: Term, depth: u32) -> Result<Scoped, AllocError>
    ensures { IfOk result (λ s. (s.term ≡ term) × (s.depth ≡ depth)) }
{
    Scoped::new(term, depth).ok_or(AllocError)
}
