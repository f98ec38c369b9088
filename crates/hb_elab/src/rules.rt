//! What rules do with terms that are elaborated.

use hb_base::{NameId, Span};
use hb_elab_terms::{
    Desk, ElabFault, ElabRefused, Scene, apply_terms, at, brings, carried_terms, conform,
    constant_of, head, name_of, product_parts, projected, record_params, scoped, size_fault,
    type_after,
};
use hb_env::{Env, Named};
use hb_hier::Known;
use hb_raw::{Raw, RawKind};
use hb_term::{ConstId, RecId, Term};
use hb_world::Typed;
use std::alloc::{AllocError, Global};

/// The term of a rule at the place: it and its type aren't too large.
pub(crate) fn sized(
    alloc: Global,
    scene: Scene<'_>,
    desk: &Desk,
    span: Span,
    made: Typed,
) -> Result<Typed, ElabRefused> {
    match size_fault(alloc, scene.limits, desk, &made.term, &made.ty)? {
        None => Ok(made),
        Some(fault) => Err(at(span, fault)),
    }
}

/// The term of a rule at the place, as one of the wanted type where there is one.
pub(crate) fn settled(
    alloc: Global,
    scene: Scene<'_>,
    desk: &mut Desk,
    span: Span,
    made: Typed,
    wanted: Option<&Term>,
) -> Result<Typed, ElabRefused> {
    let made = sized(alloc, scene, desk, span, made)?;
    match wanted {
        None => Ok(made),
        Some(wanted) => conformed(alloc, scene, desk, span, made, wanted),
    }
}

/// The term at the place as one of the wanted type.
pub(crate) fn conformed(
    alloc: Global,
    scene: Scene<'_>,
    desk: &mut Desk,
    span: Span,
    made: Typed,
    wanted: &Term,
) -> Result<Typed, ElabRefused> {
    let Typed { term, ty } = made;
    match conform(alloc, scene, desk, span, term, &ty, wanted) {
        Err(fault) => Err(at(span, fault)),
        Ok(term) => {
            let ty = wanted.copy()?;
            sized(alloc, scene, desk, span, Typed { term, ty })
        }
    }
}

/// The domain and the codomain of the type of a function.
pub(crate) fn function_parts(
    alloc: Global,
    scene: Scene<'_>,
    desk: &Desk,
    span: Span,
    ty: &Term,
) -> Result<(Term, Term), ElabRefused> {
    let form = match head(alloc, scene, desk, ty) {
        Ok(form) => form,
        Err(fault) => return Err(at(span, fault)),
    };
    match product_parts(&form)? {
        Some(parts) => Ok(parts),
        None => Err(at(span, ElabFault::NotFunction(scoped(form, desk.depth())?))),
    }
}

/// The function at an argument.
pub(crate) fn given(
    alloc: Global,
    scene: Scene<'_>,
    desk: &Desk,
    span: Span,
    function: Term,
    codomain: &Term,
    argument: Term,
) -> Result<Typed, ElabRefused> {
    let ty = codomain.try_subst(alloc, &argument)?;
    let term = Term::app(alloc, function, argument)?;
    sized(alloc, scene, desk, span, Typed { term, ty })
}

/// The mixin or factory that the head of an application stands for, with the constant that forms or makes
/// its record.
pub(crate) fn bringer(
    alloc: Global,
    scene: Scene<'_>,
    desk: &Desk,
    function: &Raw,
) -> Result<Option<(ConstId, Known)>, AllocError> {
    let RawKind::Name(name) = &function.kind else {
        return Ok(None);
    };
    let Some(constant) = constant_of(scene.env, *name) else {
        return Ok(None);
    };
    let Some(known) = brings(scene, constant) else {
        return Ok(None);
    };
    match name_of(alloc, scene, desk, *name)? {
        Some(_) => Ok(None),
        None => Ok(Some((constant, known))),
    }
}

/// A mixin or factory at its carrier and at the terms that the carrier has for what it requires.
pub(crate) fn brought(
    alloc: Global,
    scene: Scene<'_>,
    desk: &mut Desk,
    span: Span,
    constant: ConstId,
    known: Known,
    carrier: Term,
) -> Result<Typed, ElabRefused> {
    let terms = match carried_terms(alloc, scene, desk, known, &carrier) {
        Ok(terms) => terms,
        Err(fault) => return Err(at(span, fault)),
    };
    let made = at_carrier(alloc, scene.env, constant, carrier, &terms)?;
    sized(alloc, scene, desk, span, made)
}

/// The constant at the carrier and the terms.
fn at_carrier(
    alloc: Global,
    env: &Env,
    constant: ConstId,
    carrier: Term,
    terms: &[Term],
) -> Result<Typed, AllocError> {
    let Some(ty) = env.type_of(constant)? else {
        return Err(AllocError);
    };
    let first = [carrier];
    let ty = type_after(alloc, ty, &first)?;
    let ty = type_after(alloc, ty, terms)?;
    let term = apply_terms(alloc, Term::Const(constant), &first)?;
    let term = apply_terms(alloc, term, terms)?;
    Ok(Typed { term, ty })
}

/// The projection of a term to the field of that name.
pub(crate) fn project(
    alloc: Global,
    scene: Scene<'_>,
    desk: &Desk,
    span: Span,
    made: Typed,
    name: NameId,
) -> Result<Typed, ElabRefused> {
    let Some((rec, field)) = field_of(scene.env, name) else {
        return Err(at(span, ElabFault::UnknownName(name)));
    };
    let Typed { term, ty } = made;
    let form = match head(alloc, scene, desk, &ty) {
        Ok(form) => form,
        Err(fault) => return Err(at(span, fault)),
    };
    match field_value(alloc, scene, rec, field, &form, term)? {
        Some(made) => sized(alloc, scene, desk, span, made),
        None => Err(at(span, ElabFault::NotRecord(scoped(form, desk.depth())?))),
    }
}

/// The field of the name.
fn field_of(env: &Env, name: NameId) -> Option<(RecId, u16)> {
    match env.lookup(name) {
        Some(Named::Proj(rec, field)) => Some((rec, field)),
        Some(Named::Const(_)) => None,
        None => None,
    }
}

/// The field of a value whose type has this form. None where that isn't the record.
fn field_value(
    alloc: Global,
    scene: Scene<'_>,
    rec: RecId,
    field: u16,
    form: &Term,
    value: Term,
) -> Result<Option<Typed>, AllocError> {
    match record_params(alloc, scene.env, rec, form)? {
        Some(params) => projected(alloc, scene.env, rec, field, &params, value),
        None => Ok(None),
    }
}
