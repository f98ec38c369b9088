//! Taking an entry of a library.
ghost use Rattle.std.specs.Prelude.{◌≡◌, ◌++◌, [], IfErr, OnOk, OnErr};
ghost use Rattle.hb_env.specs.Plain.{plains};
ghost use Rattle.hb_world.specs.Worlds.{background, IsAsBefore};
ghost use Rattle.hb_world.specs.Taking.{Extends};
ghost use Rattle.hb_items.specs.Comparing.{bad_at};
ghost use Rattle.hb_builder.specs.Refusing.{LoadRefuses};
ghost use Rattle.hb_builder.specs.Sections.{HasLoaded};

use crate::begin::{begin, check_factory};
use crate::end::end;
use hb_base::Limits;
use hb_env::{Entry, Head, Places, Refusal, What};
use hb_items::bad_library;
use hb_kernel::Theory;
use hb_step::{in_section, outside_section, refused};
use hb_world::World;
use std::alloc::Global;

/// Takes the entry of the begin or the end of a section, as `apply` takes the command. A refusal stands at
/// the entry; where it has declarations it is `BadLibrary` at their count.
#[tactic(auto, using(crate::proofs::SameLemmas::as_before_same, crate::proofs::SameLemmas::extends_same, crate::proofs::SameLemmas::nothing_more))]
pub fn replay(
    alloc: Global,
    theory: &mut Theory,
    world: &mut World,
    entry: &Entry,
    places: &Places,
    _limits: &Limits,
) -> Result<(), Refusal>
    ensures unchanged { OnErr result (theory.new ≡ theory.old) }
    ensures as_before { OnErr result (IsAsBefore (background world.old) (background world.new)) }
    ensures grown { OnOk result (theory.new ≡ theory.old ++ plains entry.now.decls.items) }
    ensures names { Extends world.old.names world.new.names }
    ensures section { OnOk result
        (HasLoaded entry.now.head (background world.old) (background world.new)) }
    ensures none { OnOk result (entry.now.decls.items ≡ []) }
    ensures refused { IfErr result
        (LoadRefuses (background world.old) places.now entry.now.head entry.now.decls.items) }
{
    let span = places.span;
    match &entry.head {
        Head::Builders {
            factory,
            carrier,
            var,
        } => {
            outside_section(world, span)?;
            let known = check_factory(&world.hier, *factory, span)?;
            without_decls(entry, places)?;
            begin(alloc, theory, world, known, *carrier, *var, span)
        }
        Head::End => {
            let _section = in_section(world, span)?;
            without_decls(entry, places)?;
            end(world, span)
        }
        Head::Core
        | Head::Axiom
        | Head::Definition
        | Head::Mixin { .. }
        | Head::Factory { .. }
        | Head::Structure { .. }
        | Head::Instance { .. }
        | Head::Require { .. } => Err(refused(span, What::NotYet)),
    }
}

/// The entry has no declarations.
fn without_decls(entry: &Entry, places: &Places) -> Result<(), Refusal>
    ensures none { OnOk result (entry.now.decls.items ≡ []) }
    ensures refused { IfErr result
        (λ r. ¬ (entry.now.decls.items ≡ []) × (r ≡ bad_at places.now places.now.count)) }
{
    if entry.decls.is_empty() {
        Ok(())
    } else {
        Err(bad_library(places, places.count))
    }
}
