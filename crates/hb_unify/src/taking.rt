//! What an equation does.
ghost use Rattle.std.specs.Prelude.{◌≡◌, ◌≤◌, ◌∷◌, [], true, IfOk};
ghost use Rattle.hb_found.specs.Plain.{setting};
ghost use Rattle.hb_term.specs.Meaning.{tree};
ghost use Rattle.hb_holes.specs.Places.{places};
ghost use Rattle.hb_equations.specs.Forms as forms;
ghost use Rattle.hb_equations.specs.Machine.{is_open};
ghost use Rattle.hb_unify.specs.Plain.{ActsOf, HeadsOf, OpensOf, act_of};

use crate::act::{Act, Goal, Sides, Taken};
use crate::form::form_act;
use crate::hole::hole_value;
use crate::join::hole_sort;
use crate::normal::closed_act;
use crate::sorts::{one_sort, two_sorts};
use crate::weakening::weak;
use hb_equations::Relation;
use hb_found::Reads;
use hb_holes::Slot;
use hb_term::Term;
use std::alloc::{AllocError, Global};

/// What an equation does by a move after which `moves` are taken. Its sides have the values of holes put in.
pub fn take_up(
    alloc: Global,
    reads: Reads<'_>,
    holes: &[Slot],
    of: Sides<'_>,
    moves: u64,
) -> Result<Taken, AllocError>
    ensures acts { IfOk result (λ t. ActsOf (setting reads.entry) (places holes.now) of.entry moves t) }
    ensures after { IfOk result (λ t. moves ≤ t.moves) }
{
    if let Some(u) = weak(alloc, reads.env, of.left)? {
        let act = becomes(alloc, of.depth, of.relation, u, of.right.copy()?)?;
        return Ok(Taken { act, moves });
    }
    if let Some(u) = weak(alloc, reads.env, of.right)? {
        let act = becomes(alloc, of.depth, of.relation, of.left.copy()?, u)?;
        return Ok(Taken { act, moves });
    }
    if of.left.same(of.right) {
        let act = Act::Becomes(Vec::new(alloc));
        return Ok(Taken { act, moves });
    }
    let open = of.left.has_hole() || of.right.has_hole();
    if !open {
        return closed_act(alloc, reads, of, moves);
    }
    open_act(alloc, reads, holes, of, moves)
}

/// One equation.
fn becomes(
    alloc: Global,
    depth: u32,
    relation: Relation,
    left: Term,
    right: Term,
) -> Result<Act, AllocError>
    ensures { IfOk result (λ act. (stuck : forms.Act) → act_of stuck act ≡ forms.becomes (forms.goal depth relation (tree left) (tree right) ∷ [])) }
{
    let mut out = Vec::new(alloc);
    out.push(Goal {
        depth,
        relation,
        left,
        right,
    })?;
    Ok(Act::Becomes(out))
}

/// What an equation with holes does, whose sides differ and have no step at their heads.
fn open_act(
    alloc: Global,
    reads: Reads<'_>,
    holes: &[Slot],
    of: Sides<'_>,
    moves: u64,
) -> Result<Taken, AllocError>
    requires heads { HeadsOf (setting reads) of }
    requires open { is_open (tree of.left.now) (tree of.right.now) ≡ true }
    ensures acts { IfOk result (λ t. ActsOf (setting reads.entry) (places holes.now) of.entry moves t) }
    ensures after { IfOk result (λ t. moves ≤ t.moves) }
{
    if let Some(v) = hole_value(alloc, holes, of.depth, of.left, of.right)? {
        let act = Act::Gives(v.at, v.value);
        return Ok(Taken { act, moves });
    }
    sorted_act(alloc, reads, holes, of, moves)
}

/// The same, where neither side is a hole whose value the other can be.
fn sorted_act(
    alloc: Global,
    reads: Reads<'_>,
    holes: &[Slot],
    of: Sides<'_>,
    moves: u64,
) -> Result<Taken, AllocError>
    requires opens { OpensOf (setting reads) (places holes.now) of }
    ensures acts { IfOk result (λ t. ActsOf (setting reads.entry) (places holes.now) of.entry moves t) }
    ensures after { IfOk result (λ t. moves ≤ t.moves) }
{
    let left = hole_sort(reads, of.left);
    let right = hole_sort(reads, of.right);
    let Some(x) = left else {
        let Some(y) = right else {
            let act = form_act(alloc, reads.env, of)?;
            return Ok(Taken { act, moves });
        };
        return one_sort(alloc, reads, holes, of, y, of.left, moves);
    };
    let Some(y) = right else {
        return one_sort(alloc, reads, holes, of, x, of.right, moves);
    };
    two_sorts(alloc, reads, holes, of, x, y, moves)
}
