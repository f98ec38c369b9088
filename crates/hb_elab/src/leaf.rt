//! Raw terms without parts: names, sorts and holes.

use hb_base::{NameId, Span};
use hb_elab_terms::{
    Desk, ElabFault, ElabRefused, Scene, at, constant_of, name_of, operation_at, type_after,
};
use hb_term::{ConstId, Sort, Term};
use hb_world::Typed;
use std::alloc::{AllocError, Global};

/// A name: what stands nearer, or a constant; an operation is applied to a new hole for its structure.
pub(crate) fn name_rule(
    alloc: Global,
    scene: Scene<'_>,
    desk: &mut Desk,
    span: Span,
    name: NameId,
) -> Result<Typed, ElabRefused> {
    match named(alloc, scene, desk, span, name)? {
        Some(made) => Ok(made),
        None => Err(at(span, ElabFault::UnknownName(name))),
    }
}

fn named(
    alloc: Global,
    scene: Scene<'_>,
    desk: &mut Desk,
    span: Span,
    name: NameId,
) -> Result<Option<Typed>, AllocError> {
    if let Some(made) = name_of(alloc, scene, desk, name)? {
        return Ok(Some(made));
    }
    let Some(constant) = constant_of(scene.env, name) else {
        return Ok(None);
    };
    match operation_at(scene, constant) {
        Some(_) => operation(alloc, scene, desk, span, constant),
        None => constant_term(scene, constant),
    }
}

/// The constant with its declared type.
fn constant_term(scene: Scene<'_>, constant: ConstId) -> Result<Option<Typed>, AllocError> {
    match scene.env.type_of(constant)? {
        Some(ty) => Ok(Some(Typed {
            term: Term::Const(constant),
            ty,
        })),
        None => Ok(None),
    }
}

/// The operation at a new hole.
fn operation(
    alloc: Global,
    scene: Scene<'_>,
    desk: &mut Desk,
    span: Span,
    constant: ConstId,
) -> Result<Option<Typed>, AllocError> {
    let Some(ty) = scene.env.type_of(constant)? else {
        return Ok(None);
    };
    let value = Term::Hole(desk.born(span)?);
    let ty = type_after(alloc, ty, &[value.copy()?])?;
    let term = Term::app(alloc, Term::Const(constant), value)?;
    Ok(Some(Typed { term, ty }))
}

/// `@n`: the constant alone.
pub(crate) fn bare_rule(scene: Scene<'_>, span: Span, name: NameId) -> Result<Typed, ElabRefused> {
    let unknown = at(span, ElabFault::UnknownName(name));
    let Some(constant) = constant_of(scene.env, name) else {
        return Err(unknown);
    };
    match constant_term(scene, constant)? {
        Some(made) => Ok(made),
        None => Err(unknown),
    }
}

/// The lowest sort.
pub(crate) fn prop_rule() -> Typed {
    Typed {
        term: Term::Sort(Sort::Prop),
        ty: Term::Sort(Sort::Level(0)),
    }
}

/// `Type@{k}`.
pub(crate) fn level_rule(span: Span, level: u8) -> Result<Typed, ElabRefused> {
    if level > 62 {
        return Err(at(span, ElabFault::LevelTooHigh));
    }
    Ok(Typed {
        term: Term::Sort(Sort::Level(level)),
        ty: Term::Sort(Sort::Level(level + 1)),
    })
}

/// `_`: a new hole of the wanted type, or one whose type is a new hole too.
pub(crate) fn hole_rule(
    desk: &mut Desk,
    span: Span,
    wanted: Option<&Term>,
) -> Result<Typed, AllocError> {
    let ty = match wanted {
        Some(ty) => ty.copy()?,
        None => Term::Hole(desk.born(span)?),
    };
    let term = Term::Hole(desk.born(span)?);
    Ok(Typed { term, ty })
}
