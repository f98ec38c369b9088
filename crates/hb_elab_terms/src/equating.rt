//! Equations of terms.

use crate::desk::Desk;
use crate::fault::ElabFault;
use crate::scene::{Scene, reads};
use crate::terms::scoped;
use hb_base::Span;
use hb_equations::Relation;
use hb_term::Term;
use hb_unify::{Cause, Goal, Machine, solve};
use std::alloc::{AllocError, Global};
use std::mem;

/// Solves an equation in this scope. Holes that it makes are born at the place.
pub fn equate(
    alloc: Global,
    scene: Scene<'_>,
    desk: &mut Desk,
    span: Span,
    relation: Relation,
    left: Term,
    right: Term,
) -> Result<(), ElabFault> {
    let goal = Goal {
        depth: desk.depth(),
        relation,
        left,
        right,
    };
    let holes = mem::replace(&mut desk.holes, Vec::new(alloc));
    match solve(alloc, reads(scene), holes, desk.moves, goal) {
        Ok(machine) => {
            let Machine {
                holes,
                moves,
                left: _,
            } = machine;
            desk.holes = holes;
            desk.moves = moves;
            desk.bear(span)?;
            Ok(())
        }
        Err(cause) => Err(of_cause(cause)?),
    }
}

/// The fault of an end of the machine.
pub(crate) fn of_cause(cause: Cause) -> Result<ElabFault, AllocError> {
    match cause {
        Cause::Stuck(depth, a, b) => Ok(ElabFault::Stuck {
            a: scoped(a, depth)?,
            b: scoped(b, depth)?,
        }),
        Cause::NoInstance(wanted, depth, carrier) => Ok(ElabFault::NoInstance {
            wanted,
            carrier: scoped(carrier, depth)?,
        }),
        Cause::Spent(depth, term) => Ok(ElabFault::Spent(scoped(term, depth)?)),
        Cause::NoMoves => Ok(ElabFault::Moves),
        Cause::NoMemory => Ok(ElabFault::NoMemory),
    }
}
