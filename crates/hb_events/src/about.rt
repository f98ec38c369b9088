//! The line of `HB.about`.
ghost use Rattle.std.specs.Prelude.{◌≡◌, ◌<◌, IfOk, string_bytes, length};
ghost use Rattle.hb_hier.specs.Hierarchy.{name_of, IsDeclared};
ghost use Rattle.hb_events.specs.Events as spec;
ghost use Rattle.hb_events.specs.Listing.{is_above, structure_names};

use crate::listing::{listed, mixin_names, push_name};
use hb_base::{NameId, Names};
use hb_hier::{Hier, Known};
use hb_order::StructId;
use hb_sets::MixSet;
use std::alloc::{AllocError, Global};

/// The line of what is declared, under the name; nothing where it isn't. Out of memory is the one error.
pub(crate) fn about_line(
    alloc: Global,
    names: &Names,
    hier: &Hier,
    name: &str,
    known: Known,
) -> Result<String, AllocError>
    ensures { IfOk result (λ s. string_bytes s
        ≡ spec.about_line names.now hier.now name.now known (name_of hier.now known)) }
{
    if hier.name(known).is_none() {
        return Ok(String::new(alloc));
    }
    match known {
        Known::Structure(s) => structure_line(alloc, names, hier, name, s),
        Known::Mixin(_) => factory_line(alloc, names, hier, name, known),
        Known::Factory(_) => factory_line(alloc, names, hier, name, known),
    }
}

/// The line of a mixin or a factory: what it needs and gives.
fn factory_line(
    alloc: Global,
    names: &Names,
    hier: &Hier,
    name: &str,
    known: Known,
) -> Result<String, AllocError>
    requires { IsDeclared hier.now known }
    ensures { IfOk result (λ s. string_bytes s ≡ spec.factory_line names.now hier.now name.now known) }
{
    let needs = set_text(alloc, names, hier, &hier.req(known))?;
    let gives = set_text(alloc, names, hier, &hier.prov(known))?;
    format!(in alloc; "about {name}: needs{needs} gives{gives}\n")
}

/// The names of the mixins of a set, each behind a space, or ` none` where there are none.
fn set_text(alloc: Global, names: &Names, hier: &Hier, set: &MixSet) -> Result<String, AllocError>
    ensures { IfOk result (λ s. string_bytes s ≡ spec.set_text names.now hier.now set.now) }
{
    let list = mixin_names(alloc, hier, set)?;
    listed(alloc, names, list.as_slice())
}

/// The line of a structure: its mixins, and the structures below and above it.
fn structure_line(
    alloc: Global,
    names: &Names,
    hier: &Hier,
    name: &str,
    s: StructId,
) -> Result<String, AllocError>
    requires { s.0 < length hier.now.structures }
    ensures { IfOk result (λ t. string_bytes t ≡ spec.structure_line names.now hier.now name.now s) }
{
    let mixins = set_text(alloc, names, hier, hier.mix(s))?;
    let ancestors = ancestors(alloc, hier, s)?;
    let heirs = heirs(alloc, hier, s)?;
    let ancestors = listed(alloc, names, ancestors.as_slice())?;
    let heirs = listed(alloc, names, heirs.as_slice())?;
    format!(in alloc; "about {name}: mixins{mixins} ancestors{ancestors} heirs{heirs}\n")
}

/// The names of the structures below.
fn ancestors(alloc: Global, hier: &Hier, s: StructId) -> Result<Vec<NameId>, AllocError>
    requires { s.0 < length hier.now.structures }
    ensures { IfOk result (λ list. list.items ≡ structure_names hier.now (λ t. is_above hier.now s.0 t)) }
{
    let mut list = Vec::new(alloc);
    for t in 0..hier.structures() {
        if is_above(hier, s, StructId(t)) {
            push_name(hier, Known::Structure(StructId(t)), &mut list)?;
        }
    }
    Ok(list)
}

/// The names of the structures above.
fn heirs(alloc: Global, hier: &Hier, s: StructId) -> Result<Vec<NameId>, AllocError>
    requires { s.0 < length hier.now.structures }
    ensures { IfOk result (λ list. list.items ≡ structure_names hier.now (λ t. is_above hier.now t s.0)) }
{
    let mut list = Vec::new(alloc);
    for t in 0..hier.structures() {
        if is_above(hier, StructId(t), s) {
            push_name(hier, Known::Structure(StructId(t)), &mut list)?;
        }
    }
    Ok(list)
}

/// Whether `s` has each mixin of `t`, which is another.
fn is_above(hier: &Hier, s: StructId, t: StructId) -> bool
    requires left { s.0 < length hier.now.structures }
    requires right { t.0 < length hier.now.structures }
    ensures { result ≡ is_above hier.now s.0 t.0 }
{
    t.0 != s.0 && hier.mix(t).subset(hier.mix(s))
}
