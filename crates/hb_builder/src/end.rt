//! Where sections of builders end.
ghost use Rattle.std.specs.Prelude.{◌≡◌, IfErr, OnOk, OnErr};
ghost use Rattle.hb_world.specs.Worlds.{background, IsAsBefore};
ghost use Rattle.hb_builder.specs.Refusing.{EndCause};
ghost use Rattle.hb_builder.specs.Sections.{HasEnded};

use hb_base::Span;
use hb_env::{Refusal, What};
use hb_items::of_hierarchy;
use hb_step::refused;
use hb_world::World;

/// Ends the open section: its factory provides what its instances gave.
#[tactic(auto, using(crate::proofs::SameLemmas::as_before_same, crate::proofs::SameLemmas::extends_same, crate::proofs::SameLemmas::nothing_more))]
pub(crate) fn end(world: &mut World, place: Span) -> Result<(), Refusal>
    ensures as_before { OnErr result (IsAsBefore (background world.old) (background world.new)) }
    ensures names { world.new.names ≡ world.old.names }
    ensures ended { OnOk result (HasEnded (background world.old) (background world.new)) }
    ensures refused { IfErr result (EndCause (background world.old) place) }
{
    let Some(section) = &world.section else {
        return Err(refused(place, What::NoSection));
    };
    if section.factory.0 >= world.hier.factories() {
        return Err(refused(place, What::NoSection));
    }
    match world
        .hier
        .finish_factory(section.factory, &section.provided)
    {
        Ok(()) => {
            world.section = None;
            Ok(())
        }
        Err(fault) => Err(refused(place, of_hierarchy(&world.hier, section.carrier, fault))),
    }
}
