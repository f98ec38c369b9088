//! What generated terms read of environments and hierarchies.
ghost use Rattle.std.specs.Prelude.{◌≡◌, IsTrue, slice_get};
ghost use Rattle.hb_hier.specs.Hierarchy.{IsDeclared, required, provided};
ghost use Rattle.hb_record.specs.Records.{IsField};
ghost use Rattle.hb_pack.specs.Packing.{fields_in};
ghost use Rattle.hb_generated.specs.Names.{place_in};
ghost use Rattle.hb_generated.specs.Reading.{name_in, record_place, record_at};

use hb_base::NameId;
use hb_env::{Decl, Env, Named};
use hb_hier::{Hier, Known, MixinId};
use hb_sets::MixSet;
use hb_term::RecId;

/// The place of the declaration of the name, or the number of declarations where it has none.
#[tactic(auto, using(crate::proofs::PlaceLemmas::place_of_const, crate::proofs::PlaceLemmas::place_of_maker))]
pub(crate) fn place_of(env: &Env, name: NameId) -> u32
    ensures { result ≡ place_in env.now name.0 }
{
    let past = env.len();
    match env.lookup(name) {
        Some(Named::Const(c)) => { if c.maker { past } else { c.decl } }
        Some(Named::Proj(_r, _i)) => past,
        None => past,
    }
}

/// The name of what was declared; the first name where it wasn't.
#[tactic(auto, using(crate::proofs::LookLemmas::name_none))]
pub(crate) fn name_of(hier: &Hier, known: Known) -> NameId
    ensures { result.0 ≡ name_in hier.now known }
{
    match hier.name(known) {
        Some(name) => name,
        None => NameId(0),
    }
}

/// The record of the mixin or factory.
pub(crate) fn record_of(env: &Env, hier: &Hier, known: Known) -> RecId
    ensures { result.0 ≡ record_place env.now hier.now known }
{
    RecId(place_of(env, name_of(hier, known)))
}

/// What the mixin or factory requires; nothing where it wasn't declared.
#[tactic(auto, using(crate::proofs::LookLemmas::required_none, crate::proofs::LookLemmas::named_declared))]
pub fn required_by(hier: &Hier, known: Known) -> MixSet
    ensures { result ≡ required hier.now known }
{
    match hier.name(known) {
        Some(_) => hier.req(known),
        None => MixSet::empty(),
    }
}

/// What the mixin or factory provides; nothing where it wasn't declared.
#[tactic(auto, using(crate::proofs::LookLemmas::named_declared))]
pub fn provided_by(hier: &Hier, known: Known) -> MixSet
    ensures { IsDeclared hier.now known → result ≡ provided hier.now known }
{
    match hier.name(known) {
        Some(_) => hier.prov(known),
        None => MixSet::empty(),
    }
}

/// The level of the record; 0 where it is none.
pub(crate) fn level_at(env: &Env, rec: RecId) -> u8
    ensures { result ≡ (record_at env.now rec.0).level }
{
    match env.decl(rec.0) {
        Some(Decl::Record { level, .. }) => *level,
        _ => 0,
    }
}

/// Whether the record is declared and has the field.
pub(crate) fn is_field(env: &Env, rec: RecId, field: u16) -> bool
    ensures { IsTrue result → IsField env.now rec.0 field }
{
    match env.decl(rec.0) {
        Some(Decl::Record { fields, .. }) => usize::from(field) < fields.len(),
        _ => false,
    }
}

/// The names of the mixin's fields; none where it wasn't declared.
pub(crate) fn fields_of(hier: &Hier, m: u16) -> &[NameId]
    ensures { result.now ≡ fields_in hier.now m }
{
    if m < hier.mixins() {
        hier.fields(Known::Mixin(MixinId(m)))
    } else {
        &[]
    }
}
