//! The fields of mixins and factories.
ghost use Rattle.std.specs.Prelude.{◌≡◌, ◌+◌, length, map, IfOk, IfErr, OnOk};
ghost use Rattle.hb_mixin.specs.Fields.{AreNamesOf};
ghost use Rattle.hb_mixin.specs.Refusing.{HasNoNumber};
ghost use Rattle.hb_mixin.specs.Steps.{OrNoMemory};
ghost use Rattle.hb_step.specs.Elaborating.{IsOfElaboration};
ghost use Rattle.hb_world.specs.Taking.{Extends};

use crate::command::Written;
use crate::naming::field_name;
use hb_base::{Limits, NameId, Names};
use hb_elab::{Local, Work, elab_type};
use hb_env::{Refusal, What};
use hb_hier::{Hier, MixinId};
use hb_kernel::Theory;
use hb_pack::{listed, mixin_params};
use hb_raw::{Field, Word};
use hb_sets::MixSet;
use hb_step::{of_elaboration, refused};
use hb_tables::Carrier;
use hb_term::Term;
use hb_world::{Typed, World};
use std::alloc::{AllocError, Global};
use std::vec::Vec;

/// The types of the fields, each in the context of the carrier, of the mixins that the items bring, and of
/// the fields before it.
pub(crate) fn elaborate(
    alloc: Global,
    theory: &Theory,
    world: &World,
    written: Written<'_>,
    items: &[NameId],
    limits: &Limits,
) -> Result<Vec<Term>, Refusal>
    ensures count { IfOk result (λ ts. length ts.items ≡ length written.entry.fields.now) }
    ensures refused { IfErr result (λ r. IsOfElaboration r.what) }
{
    let required = world.hier.brought(items);
    let Ok(own) = carrier_of(alloc, &required) else {
        return Err(refused(written.name.span, What::NoMemory));
    };
    let Ok(scopes) = scopes_of(alloc, theory, &world.hier, written.carrier.name, &required) else {
        return Err(refused(written.name.span, What::NoMemory));
    };
    let mut local = Local {
        scopes,
        carrier: Some(&own),
    };
    let mut types = Vec::new(alloc);
    let mut work = Work { moves: 0, holes: 0 };
    for field in written.fields {
        let ty = field_type(alloc, theory, world, &local, field, &mut work, limits)?;
        let Ok(()) = keep(&mut local.scopes, &mut types, field.name.name, ty) else {
            return Err(refused(field.name.span, What::NoMemory));
        };
    }
    Ok(types)
}

/// The type of one field.
fn field_type(
    alloc: Global,
    theory: &Theory,
    world: &World,
    local: &Local<'_>,
    field: &Field,
    work: &mut Work,
    limits: &Limits,
) -> Result<Term, Refusal>
    ensures { IfErr result (λ r. IsOfElaboration r.what) }
{
    match elab_type(alloc, theory.env(), world, local, &field.ty, work, limits) {
        Ok(Typed { term, ty: _ }) => Ok(term),
        Err(fault) => Err(of_elaboration(fault)),
    }
}

/// The field as a variable of those after it, and its type.
fn keep(
    scopes: &mut Vec<(Option<NameId>, Term)>,
    types: &mut Vec<Term>,
    name: NameId,
    ty: Term,
) -> Result<(), AllocError>
    ensures { OnOk result (length types.new.items ≡ length types.old.items + 1) }
{
    scopes.push((Some(name), ty.copy()?))?;
    types.push(ty)?;
    Ok(())
}

/// The local carrier: the outermost variable, with the variables after it for what is required.
fn carrier_of(alloc: Global, required: &MixSet) -> Result<Carrier, AllocError> {
    let all = listed(alloc, required)?;
    let count = all.len() as u32;
    let mut given = Vec::new(alloc);
    let mut left = count;
    for m in &all {
        left = left.saturating_sub(1);
        given.push((MixinId(*m), Term::Rel(left)))?;
    }
    Ok(Carrier {
        level: 0,
        depth: count.saturating_add(1),
        given,
    })
}

/// The carrier and what is required, as bound names.
fn scopes_of(
    alloc: Global,
    theory: &Theory,
    hier: &Hier,
    carrier: NameId,
    required: &MixSet,
) -> Result<Vec<(Option<NameId>, Term)>, AllocError> {
    let mut scopes = Vec::new(alloc);
    let mut name = Some(carrier);
    for ty in mixin_params(alloc, theory.env(), hier, required)? {
        scopes.push((name, ty))?;
        name = None;
    }
    Ok(scopes)
}

/// The fields under their whole names: the name of what they belong to before theirs.
pub(crate) fn full_names(
    alloc: Global,
    names: &mut Names,
    name: Word,
    shorts: &[NameId],
    types: Vec<Term>,
) -> Result<Vec<(NameId, Term)>, Refusal>
    ensures kept { Extends names.old names.new }
    ensures named { length types.items ≡ length shorts.now
        → IfOk result (λ fs. AreNamesOf names.new name.name shorts.now fs.items) }
    ensures refused { IfErr result (OrNoMemory (HasNoNumber names.new name.name shorts.now name.span)) }
{
    let mut full = Vec::new(alloc);
    let mut left = types;
    left.reverse();
    for short in shorts {
        let Some(ty) = left.pop() else {
            return Ok(full);
        };
        let id = field_name(alloc, names, name.name, *short, name.span)?;
        let Ok(()) = full.push((id, ty)) else {
            return Err(refused(name.span, What::NoMemory));
        };
    }
    Ok(full)
}

/// The names of the fields, as they are written.
pub(crate) fn short_names(alloc: Global, fields: &[Field]) -> Result<Vec<NameId>, AllocError>
    ensures { IfOk result (λ ns. ns.items ≡ map (λ f. f.name.name) fields.now) }
{
    let mut names = Vec::new(alloc);
    for field in fields {
        names.push(field.name.name)?;
    }
    Ok(names)
}
