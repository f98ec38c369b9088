//! Sides that are the sort of a hole.
ghost use Rattle.std.specs.Prelude.{◌≡◌, ◌≤◌, ◌<◌, ◌∷◌, [], length, Some, IfOk};
ghost use Rattle.hb_tree.specs.Tree.{hole};
ghost use Rattle.hb_equations.specs.declared.relation.Relation.TheVariants.{Equal};
ghost use Rattle.std.specs.Option.{option_map};
ghost use Rattle.hb_found.specs.Plain.{setting};
ghost use Rattle.hb_term.specs.Meaning.{tree};
ghost use Rattle.hb_holes.specs.Places.{places};
ghost use Rattle.hb_equations.specs.Forms as forms;
ghost use Rattle.hb_equations.specs.Forms.{sort_of_hole};
ghost use Rattle.hb_equations.specs.Machine.{OneSort, stop_cause};
ghost use Rattle.hb_found.specs.Plain as found;
ghost use Rattle.hb_unify.specs.Plain.{ActsOf, OpensOf, IsNoInstance, sort_of, act_of, cause_of};

use crate::act::{Act, Cause, Goal, Sides, SortOf, Taken};
use crate::join::joined;
use hb_equations::Relation;
use hb_found::{End, Reads, Stop, value_at, walk};
use hb_hier::Known;
use hb_holes::{Slot, value_for};
use hb_term::Term;
use std::alloc::{AllocError, Global};

/// Both sides are sorts of holes.
pub fn two_sorts(
    alloc: Global,
    reads: Reads<'_>,
    holes: &[Slot],
    of: Sides<'_>,
    x: SortOf,
    y: SortOf,
    moves: u64,
) -> Result<Taken, AllocError>
    requires opens { OpensOf (setting reads) (places holes.now) of }
    requires left { sort_of_hole (setting reads) (tree of.left.now) ≡ Some (sort_of x) }
    requires right { sort_of_hole (setting reads) (tree of.right.now) ≡ Some (sort_of y) }
    requires left_declared { x.structure.0 < length reads.hier.now.structures }
    requires right_declared { y.structure.0 < length reads.hier.now.structures }
    ensures acts { IfOk result (λ t. ActsOf (setting reads.entry) (places holes.now) of.entry moves t) }
    ensures after { IfOk result (λ t. moves ≤ t.moves) }
{
    if x.structure.0 == y.structure.0 {
        let act = same_sorts(alloc, of.depth, x.at, y.at)?;
        return Ok(Taken { act, moves });
    }
    if x.at == y.at {
        let act = Act::Stays;
        return Ok(Taken { act, moves });
    }
    let Some(join) = reads.hier.join_of(x.structure, y.structure) else {
        let act = Act::Stays;
        return Ok(Taken { act, moves });
    };
    let act = joined(alloc, reads.tables, holes, of.depth, x, y, join)?;
    Ok(Taken { act, moves })
}

/// The holes are the same.
fn same_sorts(alloc: Global, depth: u32, x: u32, y: u32) -> Result<Act, AllocError>
    ensures { IfOk result (λ act. (stuck : forms.Act) → act_of stuck act ≡ forms.becomes (forms.goal depth Equal (hole x) (hole y) ∷ [])) }
{
    let mut out = Vec::new(alloc);
    out.push(Goal {
        depth,
        relation: Relation::Equal,
        left: Term::Hole(x),
        right: Term::Hole(y),
    })?;
    Ok(Act::Becomes(out))
}

/// One side is the sort of a hole, and the other a carrier: the hole gets the value at the carrier's first key that
/// has the structure's mixins.
pub fn one_sort(
    alloc: Global,
    reads: Reads<'_>,
    holes: &[Slot],
    of: Sides<'_>,
    x: SortOf,
    carrier: &Term,
    moves: u64,
) -> Result<Taken, AllocError>
    requires opens { OpensOf (setting reads) (places holes.now) of }
    requires sort { OneSort (setting reads) (tree of.left.now) (tree of.right.now) (sort_of x) (tree carrier.now) }
    requires declared { x.structure.0 < length reads.hier.now.structures }
    ensures acts { IfOk result (λ t. ActsOf (setting reads.entry) (places holes.now) of.entry moves t) }
    ensures after { IfOk result (λ t. moves ≤ t.moves) }
{
    let set = reads.hier.mix(x.structure);
    match walk(alloc, reads, of.depth, set, moves, carrier) {
        Err(stop) => Ok(Taken {
            act: Act::Ends(cause(of.depth, stop)),
            moves,
        }),
        Ok(End::Missing(after)) => {
            let act = no_instance(reads, of.depth, x, carrier)?;
            Ok(Taken { act, moves: after })
        }
        Ok(End::Found(key, _, after)) => {
            let value = value_at(alloc, reads, of.depth, x.structure, &key)?;
            let act = inferred(alloc, holes, of.depth, x.at, &value)?;
            Ok(Taken { act, moves: after })
        }
    }
}

/// Why a walk that is broken off ends the run.
fn cause(depth: u32, stop: Stop) -> Cause
    ensures { cause_of result ≡ stop_cause depth (found.stop stop) }
{
    match stop {
        Stop::Spent(t) => Cause::Spent(depth, t),
        Stop::Moves => Cause::NoMoves,
        Stop::NoMemory => Cause::NoMemory,
    }
}

/// The carrier has no instance of the structure.
fn no_instance(reads: Reads<'_>, depth: u32, x: SortOf, carrier: &Term) -> Result<Act, AllocError>
    requires { x.structure.0 < length reads.hier.now.structures }
    ensures { IfOk result (λ act. IsNoInstance reads.entry.hier.now x.structure depth (tree carrier.now) act) }
{
    match reads.hier.name(Known::Structure(x.structure)) {
        Some(name) => Ok(Act::Ends(Cause::NoInstance(name, depth, carrier.copy()?))),
        None => unreachable!(),
    }
}

/// The hole gets the value, where there is one that fits.
fn inferred(
    alloc: Global,
    holes: &[Slot],
    depth: u32,
    at: u32,
    value: &Option<Term>,
) -> Result<Act, AllocError>
    ensures { IfOk result (λ act. (stuck : forms.Act) → act_of stuck act ≡ forms.inferred stuck (places holes.now) depth at (option_map tree value.now)) }
{
    let Some(value) = value else {
        return Ok(Act::Stays);
    };
    match value_for(alloc, holes, depth, at, value)? {
        None => Ok(Act::Stays),
        Some(value) => Ok(Act::Gives(at, value)),
    }
}
