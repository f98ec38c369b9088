//! What is tested of a structure before it is made.
ghost use Rattle.std.specs.Prelude.{◌≡◌, OnOk, IfErr};
ghost use Rattle.hb_hier.specs.Hierarchy.{sets};
ghost use Rattle.hb_order.specs.Allowed.{IsAllowed};
ghost use Rattle.hb_world.specs.Worlds.{background};
ghost use Rattle.hb_structure.specs.Refusing.{MayBeNamed, NameCause, SetCause};

use hb_base::{NameId, Span};
use hb_env::Refusal;
use hb_hier::{Hier, HierRefused};
use hb_items::of_hierarchy;
use hb_kernel::Theory;
use hb_sets::MixSet;
use hb_step::{not_reserved, not_reserved_part, not_taken, outside_section, refused};
use hb_world::World;

/// The command, at its span, stands outside of sections, and its structure's name, at the place, can be
/// declared.
pub(crate) fn check_name(
    theory: &Theory,
    world: &World,
    span: Span,
    name: NameId,
    place: Span,
) -> Result<(), Refusal>
    ensures named { OnOk result (MayBeNamed theory.now (background world.now) name) }
    ensures refused { IfErr result (NameCause theory.now (background world.now) span name place) }
{
    outside_section(world, span)?;
    not_reserved(&world.names, name, place)?;
    not_reserved_part(&world.names, name, place)?;
    not_taken(theory.env(), &world.hier, name, place)
}

/// Whether a structure with the mixins may be declared, but for the number of structures.
pub(crate) fn check_set(hier: &Hier, set: &MixSet, name: NameId, place: Span) -> Result<(), Refusal>
    ensures allowed { OnOk result (IsAllowed (sets hier.now) set.now) }
    ensures refused { IfErr result (SetCause hier.now name set.now place) }
{
    match hier.check_structure(set) {
        Ok(()) => Ok(()),
        Err(HierRefused::TooMany(_)) => Ok(()),
        Err(fault) => Err(refused(place, of_hierarchy(hier, name, fault))),
    }
}
