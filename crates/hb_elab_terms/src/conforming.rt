//! Terms of one type as terms of another.
ghost use Rattle.std.specs.Prelude.{◌≡◌};
ghost use Rattle.hb_order.specs.Heirs.{mix};
ghost use Rattle.hb_hier.specs.Hierarchy.{sets};
ghost use Rattle.hb_elab_terms.specs.Ways.{GoesUp};

use crate::ask::{head, of_reduction};
use crate::desk::Desk;
use crate::equating::equate;
use crate::fault::ElabFault;
use crate::scene::Scene;
use crate::sorting::{carrier_of, structure_type};
use crate::terms::scoped;
use hb_base::Span;
use hb_convert::{Verdict, below};
use hb_equations::Relation;
use hb_hier::Hier;
use hb_order::StructId;
use hb_reduce::nf;
use hb_sets::MixSet;
use hb_term::{ConstId, RecId, Scoped, Sort, Term, View};
use std::alloc::{AllocError, Global};

/// How a term of one type is made one of another: by a coercion, as the carrier of a value, as a new value
/// with this carrier, or as it is.
enum Way {
    Coerce(ConstId),
    Carrier(RecId),
    Structured(RecId),
    Same,
}

/// A term of the wanted type, by the weak head forms of its type and of the wanted one.
pub fn conform(
    alloc: Global,
    scene: Scene<'_>,
    desk: &mut Desk,
    span: Span,
    term: Term,
    ty: &Term,
    wanted: &Term,
) -> Result<Term, ElabFault> {
    let form = head(alloc, scene, desk, ty)?;
    let want = head(alloc, scene, desk, wanted)?;
    match way_between(scene, &form, &want) {
        Way::Coerce(coercion) => Ok(Term::app(alloc, Term::Const(coercion), term)?),
        Way::Carrier(pack) => {
            let term = carrier_of(alloc, pack, term)?;
            let ty = Term::Sort(Sort::Level(0));
            fits(alloc, scene, desk, span, &ty, wanted)?;
            Ok(term)
        }
        Way::Structured(pack) => {
            let value = desk.born(span)?;
            let carrier = carrier_of(alloc, pack, Term::Hole(value))?;
            equate(alloc, scene, desk, span, Relation::Equal, carrier, term)?;
            Ok(Term::Hole(value))
        }
        Way::Same => {
            fits(alloc, scene, desk, span, ty, wanted)?;
            Ok(term)
        }
    }
}

/// The way between two weak head forms.
fn way_between(scene: Scene<'_>, form: &Term, want: &Term) -> Way {
    let from = structure_type(scene.tables, form);
    let to = structure_type(scene.tables, want);
    match (from, to) {
        (Some(from), Some(to)) => between(scene, from, to),
        (Some(from), None) => match want.view() {
            View::Sort(_) => carried(scene, from),
            _ => Way::Same,
        },
        (None, Some(to)) => match form.view() {
            View::Sort(_) => structured(scene, to),
            _ => Way::Same,
        },
        (None, None) => Way::Same,
    }
}

/// The way between the types of two structures: the coercion, where the first is another and an heir.
fn between(scene: Scene<'_>, from: StructId, to: StructId) -> Way
    ensures up { GoesUp (mix (sets scene.entry.hier.now) from.0) (mix (sets scene.entry.hier.now) to.0) result }
{
    if from.0 == to.0 || !mixins(scene.hier, to).subset(&mixins(scene.hier, from)) {
        return Way::Same;
    }
    match scene.tables.coercion(from, to) {
        Some(coercion) => Way::Coerce(coercion),
        None => Way::Same,
    }
}

/// The mixins of the structure; none where it isn't declared.
fn mixins(hier: &Hier, structure: StructId) -> MixSet
    ensures { result ≡ mix (sets hier.now) structure.0 }
{
    if structure.0 < hier.structures() {
        hier.mix(structure).copy()
    } else {
        MixSet::empty()
    }
}

/// The way from a structure's type to a sort.
fn carried(scene: Scene<'_>, structure: StructId) -> Way {
    match scene.tables.records(structure) {
        Some((_, pack)) => Way::Carrier(pack),
        None => Way::Same,
    }
}

/// The way from a sort to a structure's type.
fn structured(scene: Scene<'_>, structure: StructId) -> Way {
    match scene.tables.records(structure) {
        Some((_, pack)) => Way::Structured(pack),
        None => Way::Same,
    }
}

/// The type is below the wanted one: by their normal forms where neither has a hole without a value, else by
/// an equation.
fn fits(
    alloc: Global,
    scene: Scene<'_>,
    desk: &mut Desk,
    span: Span,
    ty: &Term,
    wanted: &Term,
) -> Result<(), ElabFault> {
    let left = desk.seen(alloc, ty)?;
    let right = desk.seen(alloc, wanted)?;
    if left.has_hole() || right.has_hole() {
        return equate(alloc, scene, desk, span, Relation::Below, left, right);
    }
    let left = scoped(left, desk.depth())?;
    let right = scoped(right, desk.depth())?;
    match below(alloc, scene.env, &left, &right, scene.limits) {
        Ok(Verdict::Yes) => Ok(()),
        Ok(Verdict::No) => Err(differ(alloc, scene, &left, &right)?),
        Err(refused) => Err(of_reduction(refused)),
    }
}

/// The fault of two types that aren't in order, with their normal forms.
fn differ(
    alloc: Global,
    scene: Scene<'_>,
    left: &Scoped,
    right: &Scoped,
) -> Result<ElabFault, AllocError> {
    let left = match nf(alloc, scene.env, left, scene.limits) {
        Ok(left) => left,
        Err(refused) => return Ok(of_reduction(refused)),
    };
    match nf(alloc, scene.env, right, scene.limits) {
        Ok(right) => Ok(ElabFault::NotConvertible(left, right)),
        Err(refused) => Ok(of_reduction(refused)),
    }
}
