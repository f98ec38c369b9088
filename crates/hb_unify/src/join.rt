//! The sorts of two holes.
ghost use Rattle.std.specs.Prelude.{◌≡◌, ◌<◌, length, IfOk, IfSome};
ghost use Rattle.hb_found.specs.Plain.{setting};
ghost use Rattle.std.specs.Option.{option_map};
ghost use Rattle.hb_term.specs.Meaning.{tree};
ghost use Rattle.hb_holes.specs.Places.{places};
ghost use Rattle.hb_equations.specs.Forms as forms;
ghost use Rattle.hb_equations.specs.Forms.{sort_of_hole, given_coerced, shared};
ghost use Rattle.hb_unify.specs.Plain.{sort_of, act_of};

use crate::act::{Act, SortOf};
use hb_found::Reads;
use hb_holes::{Slot, depth_of, value_for};
use hb_order::StructId;
use hb_tables::Tables;
use hb_term::{ConstId, Term, View};
use std::alloc::{AllocError, Global};

/// `x.(S.sort)` of a hole x, where S is declared.
pub fn hole_sort(reads: Reads<'_>, t: &Term) -> Option<SortOf>
    ensures sort { option_map sort_of result ≡ sort_of_hole (setting reads.entry) (tree t.now) }
    ensures declared { IfSome result (λ x. x.structure.0 < length reads.entry.hier.now.structures) }
{
    let View::Proj(rec, field, of) = t.view() else {
        return None;
    };
    let Some(structure) = reads.tables.structure_of(rec) else {
        return None;
    };
    let View::Hole(at) = of.view() else {
        return None;
    };
    if field == 0 && structure.0 < reads.hier.structures() {
        Some(SortOf { at, structure })
    } else {
        None
    }
}

/// The sorts of two holes, whose structures have this join.
pub fn joined(
    alloc: Global,
    tables: &Tables,
    holes: &[Slot],
    depth: u32,
    x: SortOf,
    y: SortOf,
    join: StructId,
) -> Result<Act, AllocError>
    ensures { IfOk result (λ act. (stuck : forms.Act) → act_of stuck act ≡ forms.joined tables.now stuck (places holes.now) depth (sort_of x) (sort_of y) join.0) }
{
    if join.0 == x.structure.0 {
        return coerce(
            alloc,
            holes,
            depth,
            y.at,
            tables.coercion(x.structure, y.structure),
            x.at,
        );
    }
    if join.0 == y.structure.0 {
        return coerce(
            alloc,
            holes,
            depth,
            x.at,
            tables.coercion(y.structure, x.structure),
            y.at,
        );
    }
    let left = tables.coercion(join, x.structure);
    let right = tables.coercion(join, y.structure);
    Ok(share_act(holes, x.at, left, y.at, right))
}

/// A hole gets the coercion of another, where that is in its scope.
fn coerce(
    alloc: Global,
    holes: &[Slot],
    depth: u32,
    at: u32,
    coercion: Option<ConstId>,
    of: u32,
) -> Result<Act, AllocError>
    ensures { IfOk result (λ act. (stuck : forms.Act) → act_of stuck act ≡ given_coerced stuck (places holes.now) depth at coercion of) }
{
    let Some(coercion) = coercion else {
        return Ok(Act::Stays);
    };
    let value = Term::app(alloc, Term::Const(coercion), Term::Hole(of))?;
    match value_for(alloc, holes, depth, at, &value)? {
        None => Ok(Act::Stays),
        Some(value) => Ok(Act::Gives(at, value)),
    }
}

/// Both get coercions of a new hole.
fn share_act(
    holes: &[Slot],
    first: u32,
    to_first: Option<ConstId>,
    second: u32,
    to_second: Option<ConstId>,
) -> Act
    ensures { (stuck : forms.Act) → act_of stuck result ≡ shared stuck (places holes.now) first to_first second to_second }
{
    let Some(to_first) = to_first else {
        return Act::Stays;
    };
    let Some(to_second) = to_second else {
        return Act::Stays;
    };
    let depth = depth_of(holes, first).min(depth_of(holes, second));
    Act::Shares(first, to_first, second, to_second, depth)
}
