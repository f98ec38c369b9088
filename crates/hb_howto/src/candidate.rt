//! What may stand in a list.
ghost use Rattle.std.specs.Prelude.{◌≡◌, ◌+◌, ◌≤◌, if◌then◌else◌, All, IfOk, IfErr, OnOk, length};
ghost use Rattle.hb_hier.specs.Hierarchy.{IsDeclared};
ghost use Rattle.hb_howto.specs.Filling.{is_usable};
ghost use Rattle.hb_howto.specs.Ways.{brings, HowtoRefusal};
ghost use Rattle.hb_howto.specs.Tried.{IsCandidate, AddRefusal};

use crate::error::HowtoRefused;
use hb_base::{Count, NameId};
use hb_hier::{Hier, Known};
use hb_sets::MixSet;
use std::alloc::Global;

/// The most that are tried.
const MOST: usize = 512;

/// How many places the order of mixins and factories can have.
const PLACES: u32 = 65_536;

/// A mixin or an ended factory, with its place in the order of declaration.
#[derive(Drop)]
pub(crate) struct Candidate {
    pub at: u16,
    pub known: Known,
    pub name: NameId,
    pub required: MixSet,
    pub provided: MixSet,
}

/// The mixins and ended factories that provide what isn't given, in the order of declaration. There are at
/// most 512.
pub(crate) fn candidates(
    alloc: Global,
    hier: &Hier,
    given: &MixSet,
) -> Result<Vec<Candidate>, HowtoRefused>
    ensures each { IfOk result (λ all. All (IsCandidate hier.now) all.items) }
    ensures refused { IfErr result (HowtoRefusal hier.now given.now) }
{
    let mut all = Vec::new(alloc);
    for at in 0..PLACES {
        match hier.known_at(at as u16) {
            Some(k) => add(hier, at as u16, k, given, &mut all)?,
            None => return Ok(all),
        }
    }
    Ok(all)
}

/// Adds a mixin or factory that may stand in a list and provides what isn't given.
fn add(
    hier: &Hier,
    at: u16,
    k: Known,
    given: &MixSet,
    all: &mut Vec<Candidate>,
) -> Result<(), HowtoRefused>
    requires declared { IsDeclared hier.now k }
    requires each { All (IsCandidate hier.now) all.old.items }
    ensures each { OnOk result (All (IsCandidate hier.now) all.new.items) }
    ensures counted { OnOk result (length all.new.items
        ≤ length all.old.items + (if brings hier.now given.now k then 1 else 0)) }
    ensures refused { IfErr result
        (AddRefusal (brings hier.now given.now k) (length all.old.items)) }
{
    if !brings(hier, k, given) {
        return Ok(());
    }
    if all.len() >= MOST {
        return Err(HowtoRefused::TooMany(Count::Factories));
    }
    if let Some(name) = hier.name(k) {
        all.push(Candidate {
            at,
            known: k,
            name,
            required: hier.req(k),
            provided: hier.prov(k),
        })?;
    }
    Ok(())
}

/// Whether it may stand in a list and provides what isn't given.
fn brings(hier: &Hier, k: Known, given: &MixSet) -> bool
    requires { IsDeclared hier.now k }
    ensures { result ≡ brings hier.now given.now k }
{
    is_usable(hier, k) && !hier.prov(k).subset(given)
}

/// Whether it may stand in a list: a factory only once its section was ended.
fn is_usable(hier: &Hier, k: Known) -> bool
    requires { IsDeclared hier.now k }
    ensures { result ≡ is_usable hier.now k }
{
    match k {
        Known::Mixin(_) => true,
        Known::Factory(f) => hier.ended(f),
        Known::Structure(_) => false,
    }
}
