//! Queries: joins and instances.
ghost use Rattle.std.specs.Prelude.{◌≡◌, ◌<◌, Option, Some, length, IfOk, IfErr};
ghost use Rattle.hb_term.specs.declared.scoped.Scoped.{Scoped};
ghost use Rattle.hb_hier.specs.Hierarchy.{known_as};
ghost use Rattle.hb_hier.specs.declared.known.Known.TheVariants.{Structure};
ghost use Rattle.hb_plain.specs.Queries.{IsJoinOf, IsNoStructure};
ghost use Rattle.hb_plain.specs.Refusing.{NoJoin, NotFound};
ghost use Rattle.hb_world.specs.declared.done.Done.TheVariants as done;

use hb_base::Limits;
use hb_elab::{Local, Work, elab_type};
use hb_elab_terms::{at, find_key};
use hb_env::{Refusal, What};
use hb_hier::{Hier, Known};
use hb_kernel::Theory;
use hb_order::StructId;
use hb_raw::{Raw, Word};
use hb_step::{of_elaboration, refused};
use hb_world::{Done, Typed, World};
use std::alloc::Global;

/// The structure of the name: `UnknownName` where it is none.
pub fn structure_of(hier: &Hier, name: Word) -> Result<StructId, Refusal>
    ensures found { IfOk result (λ s. known_as hier.now name.name ≡ Some (Structure s)) }
    ensures declared { IfOk result (λ s. s.0 < length hier.now.structures) }
    ensures refused { IfErr result (IsNoStructure hier.now name) }
{
    match hier.known(name.name) {
        Some(Known::Structure(structure)) => Ok(structure),
        Some(Known::Mixin(_)) | Some(Known::Factory(_)) | None => {
            Err(refused(name.span, What::UnknownName(name.name)))
        }
    }
}

/// The join of two structures, none where they have no common heir (Sakaguchi 2020). The first name that
/// is no structure is an `UnknownName`.
pub fn join_of(hier: &Hier, a: Word, b: Word) -> Result<Option<StructId>, Refusal>
    ensures join { IfOk result (λ j. IsJoinOf hier.now a.name b.name j) }
    ensures refused { IfErr result (NoJoin hier.now a b) }
{
    let left = structure_of(hier, a)?;
    let right = structure_of(hier, b)?;
    Ok(hier.join_of(left, right))
}

/// The first key of a type that has the structure.
pub(crate) fn find(
    alloc: Global,
    theory: &Theory,
    world: &World,
    structure: Word,
    carrier: &Raw,
    limits: &Limits,
) -> Result<Done, Refusal>
    ensures found { IfOk result (λ d. (k : Option Scoped) × (d ≡ done.Find k)) }
    ensures refused { IfErr result (NotFound world.now.hier structure) }
{
    let structure = structure_of(&world.hier, structure)?;
    let span = carrier.span;
    let Ok(local) = Local::new(alloc, world.section.as_ref()) else {
        return Err(refused(span, What::NoMemory));
    };
    let mut work = Work { moves: 0, holes: 0 };
    let env = theory.env();
    let Typed { term, ty: _ } = match elab_type(
        alloc, env, world, &local, carrier, &mut work, limits,
    ) {
        Ok(made) => made,
        Err(fault) => return Err(of_elaboration(fault)),
    };
    let found = find_key(
        alloc, env, world, &local, structure, &term, &mut work, limits,
    );
    match found {
        Ok(found) => Ok(Done::Find(found)),
        Err(fault) => Err(of_elaboration(at(span, fault))),
    }
}
