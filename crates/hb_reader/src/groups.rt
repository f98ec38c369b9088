//! Groups of binders.
ghost use Rattle.std.specs.Prelude.{◌≡◌, ◌+◌, ◌++◌, ◌∷◌, [], length, IfOk, option_map};
ghost use Rattle.hb_raw.specs.Preterm.{untyped, typed};
ghost use Rattle.hb_raw.specs.Views.{term, group_of, groups};
ghost use Rattle.hb_grammar.specs.Machine as plain;
ghost use Rattle.hb_reader.specs.Views.{bound_in};

use super::frame::Bounds;
use hb_base::{NameId, Span};
use hb_raw::{Binder, Raw};
use std::alloc::{AllocError, Global};

/// Groups with one more at the end.
fn pushed(mut gs: Vec<Binder>, names: Bounds, ty: Option<Raw>) -> Result<Vec<Binder>, AllocError>
    ensures { IfOk result (λ r. groups r.items ≡ groups gs.items ++ (group_of names.items (option_map term ty) ∷ [])) }
{
    gs.push(Binder { names, ty })?;
    Ok(gs)
}

/// Groups with one more.
pub fn with_group(
    gs: Vec<Binder>,
    names: Bounds,
    ty: Option<Raw>,
) -> Result<Vec<Binder>, AllocError>
    ensures list { IfOk result (λ r. groups r.items ≡ groups gs.items ++ (group_of names.items (option_map term ty) ∷ [])) }
    ensures count { IfOk result (λ r. bound_in (groups r.items) ≡ bound_in (groups gs.items) + length names.items) }
{
    let more = pushed(gs, names, ty)?;
    Ok(more)
}

/// Groups with one more of a name alone.
pub fn with_name(
    alloc: Global,
    gs: Vec<Binder>,
    name: (Option<NameId>, Span),
) -> Result<Vec<Binder>, AllocError>
    ensures list { IfOk result (λ r. groups r.items ≡ groups gs.items ++ (untyped (name ∷ []) ∷ [])) }
    ensures count { IfOk result (λ r. bound_in (groups r.items) ≡ bound_in (groups gs.items) + 1) }
{
    let mut names = Vec::new(alloc);
    names.push(name)?;
    with_group(gs, names, None)
}

/// A lone group.
pub fn lone_group(alloc: Global, names: Bounds, ty: Raw) -> Result<Vec<Binder>, AllocError>
    ensures list { IfOk result (λ r. groups r.items ≡ typed names.items (term ty) ∷ []) }
    ensures count { IfOk result (λ r. bound_in (groups r.items) ≡ length names.items) }
{
    with_group(Vec::new(alloc), names, Some(ty))
}

/// Bare names as groups.
pub fn bare_groups(alloc: Global, names: &Bounds) -> Result<Vec<Binder>, AllocError>
    ensures list { IfOk result (λ r. groups r.items ≡ plain.bare_groups names.now.items) }
    ensures count { IfOk result (λ r. bound_in (groups r.items) ≡ length names.now.items) }
{
    let mut gs = Vec::new(alloc);
    for name in names.iter() {
        gs = with_name(alloc, gs, *name)?;
    }
    Ok(gs)
}
