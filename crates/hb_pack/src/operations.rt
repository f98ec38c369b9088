//! The operations of a new structure: the fields of its new mixins, at its values.
ghost use Rattle.std.specs.Prelude.{◌≡◌, ℕ, IfOk};
ghost use Rattle.std.specs.List.{list_any};
ghost use Rattle.hb_sets.specs.Set.{contains};
ghost use Rattle.hb_env.specs.Plain.{plain, plains};
ghost use Rattle.hb_hier.specs.Hierarchy.{sets};
ghost use Rattle.hb_generated.specs.State.{decls};
ghost use Rattle.hb_generated.specs.Generating as generating;
ghost use Rattle.hb_pack.specs.Packing.{fields_in, one_operation, new_operations};

use crate::layout::Layout;
use crate::lists::listed;
use crate::look::{fields_of, is_field, record_of, required_by};
use hb_base::NameId;
use hb_env::{Decl, Env};
use hb_hier::{Hier, Known, MixinId, StructId};
use hb_record::projection_type;
use hb_term::Term;
use std::alloc::{AllocError, Global};
use std::vec::Vec;

/// Whether a declared structure has the mixin.
pub(crate) fn is_held(hier: &Hier, m: u16) -> bool
    ensures { result ≡ list_any (λ x. contains x m) (sets hier.now) }
{
    for s in 0..hier.structures() {
        if hier.mix(StructId(s)).has(m) {
            return true;
        }
    }
    false
}

/// The operation of the name: the field of the number `field` of mixin `m`, at a value of the layout.
fn operation(
    alloc: Global,
    env: &Env,
    hier: &Hier,
    layout: &Layout,
    m: u16,
    field: u16,
    name: NameId,
) -> Result<Decl, AllocError>
    ensures { IfOk result
        (λ d. plain d ≡ one_operation env.now hier.now layout.now m field name) }
{
    let known = Known::Mixin(MixinId(m));
    let record = record_of(env, hier, known);
    if !is_field(env, record, field) {
        return Err(AllocError);
    }
    let value = Term::Rel(0);
    let own = layout.value_of(alloc, m, &value)?;
    let required = listed(alloc, &required_by(hier, known))?;
    let params = layout.params_at(alloc, &required, &value)?;
    let codomain = projection_type(alloc, env, record, field, &params, &own)?;
    let body = Term::proj(alloc, record, field, own)?;
    let decl = layout.definition(alloc, name, codomain, body)?;
    Ok(decl)
}

/// The operations of the fields of mixin `m`.
fn operations_of(
    alloc: Global,
    env: &Env,
    hier: &Hier,
    layout: &Layout,
    m: u16,
) -> Result<Vec<Decl>, AllocError>
    ensures { IfOk result
        (λ ds. (s : ℕ) → plains ds.items
        ≡ decls (generating.operations_of env.now hier.now s layout.now m 0 (fields_in hier.now m))) }
{
    let names = fields_of(hier, m);
    if names.len() > 255 {
        return Err(AllocError);
    }
    let mut made = Vec::new(alloc);
    for at in 0..names.len() {
        made.push(operation(alloc, env, hier, layout, m, at as u16, names[at])?)?;
    }
    Ok(made)
}

/// The operations of mixin `m`, if no declared structure has it.
fn operations_at(
    alloc: Global,
    env: &Env,
    hier: &Hier,
    layout: &Layout,
    m: u16,
) -> Result<Vec<Decl>, AllocError>
    ensures { IfOk result
        (λ ds. (s : ℕ) → plains ds.items ≡ new_operations env.now hier.now s layout.now m) }
{
    if is_held(hier, m) {
        return Ok(Vec::new(alloc));
    }
    let made = operations_of(alloc, env, hier, layout, m)?;
    Ok(made)
}

/// The operations of those of the mixins that no declared structure has.
pub(crate) fn operations(
    alloc: Global,
    env: &Env,
    hier: &Hier,
    layout: &Layout,
    mixins: &[u16],
) -> Result<Vec<Decl>, AllocError>
    ensures { IfOk result
        (λ ds. (s : ℕ) → plains ds.items
        ≡ decls (generating.operations env.now hier.now s layout.now mixins.now)) }
{
    let mut made = Vec::new(alloc);
    for m in mixins {
        let mut new = operations_at(alloc, env, hier, layout, *m)?;
        made.append(&mut new)?;
    }
    Ok(made)
}
