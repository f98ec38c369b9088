//! Whether a section is open.
ghost use Rattle.std.specs.Prelude.{◌≡◌, Some, None, IfOk, OnOk, IfErr, OnErr};
ghost use Rattle.hb_env.specs.declared.refusal.What.TheVariants.{SectionOpen, NoSection};

use crate::refusals::refused;
use hb_base::Span;
use hb_env::{Refusal, What};
use hb_world::{Section, World};

/// A command at this place that can't stand in a section.
pub fn outside_section(world: &World, span: Span) -> Result<(), Refusal>
    ensures outside { OnOk result (world.now.section ≡ None) }
    ensures inside { OnErr result (¬ (world.now.section ≡ None)) }
    ensures refused { IfErr result (λ r. (r.span ≡ span) × (r.what ≡ SectionOpen)) }
{
    match &world.section {
        None => Ok(()),
        Some(_) => Err(refused(span, What::SectionOpen)),
    }
}

/// The open section, for a command at this place that needs one.
pub fn in_section(world: &World, span: Span) -> Result<&Section, Refusal>
    ensures inside { IfOk result (λ s. world.now.section ≡ Some s.now) }
    ensures outside { IfErr result (λ r. world.now.section ≡ None) }
    ensures refused { IfErr result (λ r. (r.span ≡ span) × (r.what ≡ NoSection)) }
{
    match &world.section {
        Some(section) => Ok(section),
        None => Err(refused(span, What::NoSection)),
    }
}
