//! Terms as types.

use crate::ask::head;
use crate::desk::Desk;
use crate::fault::{ElabFault, ElabRefused, at};
use crate::scene::Scene;
use crate::terms::scoped;
use hb_base::Span;
use hb_order::StructId;
use hb_tables::Tables;
use hb_term::{RecId, Sort, Term, View};
use hb_world::Typed;
use std::alloc::{AllocError, Global};

/// A type with its sort.
#[derive(Drop)]
pub struct TypeOf {
    pub term: Term,
    pub sort: Sort,
}

/// A term as a type, by the weak head form of its type: of a sort as it is; of a structure's type its
/// carrier; of a hole as it is, in the lowest sort.
pub fn sorted(
    alloc: Global,
    scene: Scene<'_>,
    desk: &Desk,
    span: Span,
    made: Typed,
) -> Result<TypeOf, ElabRefused> {
    let Typed { term, ty } = made;
    match as_type(alloc, scene, desk, term, &ty) {
        Ok(made) => Ok(made),
        Err(fault) => Err(at(span, fault)),
    }
}

fn as_type(
    alloc: Global,
    scene: Scene<'_>,
    desk: &Desk,
    term: Term,
    ty: &Term,
) -> Result<TypeOf, ElabFault> {
    let form = head(alloc, scene, desk, ty)?;
    if let View::Sort(sort) = form.view() {
        return Ok(TypeOf { term, sort });
    }
    let sort = Sort::Level(0);
    if let View::Hole(_) = form.view() {
        return Ok(TypeOf { term, sort });
    }
    if let Some((_, pack)) = type_records(scene.tables, &form) {
        let term = carrier_of(alloc, pack, term)?;
        return Ok(TypeOf { term, sort });
    }
    Err(ElabFault::NotType(scoped(form, desk.depth())?))
}

/// The carrier of a value of the structure with this package record.
pub(crate) fn carrier_of(alloc: Global, pack: RecId, value: Term) -> Result<Term, AllocError> {
    Term::proj(alloc, pack, 0, value)
}

/// The structure whose type this is.
pub(crate) fn structure_type(tables: &Tables, form: &Term) -> Option<StructId> {
    match form.view() {
        View::Const(c) if !c.maker => tables.structure_of(RecId(c.decl)),
        _ => None,
    }
}

/// The class and the package record of the structure whose type this is.
pub(crate) fn type_records(tables: &Tables, form: &Term) -> Option<(RecId, RecId)> {
    let structure = structure_type(tables, form)?;
    tables.records(structure)
}
