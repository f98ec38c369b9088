//! Where sections of builders begin.
ghost use Rattle.std.specs.Prelude.{◌≡◌, ◌<◌, length, Some, false, IfOk, IfErr, OnOk, OnErr};
ghost use Rattle.hb_env.specs.declared.refusal.What.TheVariants as what;
ghost use Rattle.hb_hier.specs.declared.known.Known.TheVariants as known;
ghost use Rattle.hb_hier.specs.Hierarchy.{known_as, ended};
ghost use Rattle.hb_world.specs.Worlds.{background, opened, IsAsBefore};
ghost use Rattle.hb_builder.specs.Refusing.{FactoryCause};
ghost use Rattle.hb_builder.specs.Sections.{IsNew, Opens};

use hb_base::{NameId, Span};
use hb_env::{Refusal, What};
use hb_hier::{FactoryId, Hier, Known, MixinId};
use hb_kernel::Theory;
use hb_pack::{Place, listed, required_by, section_context, term_at};
use hb_sets::MixSet;
use hb_step::refused;
use hb_tables::Carrier;
use hb_term::Term;
use hb_world::{Section, World};
use std::alloc::{AllocError, Global};
use std::vec::Vec;

/// The factory of the name, whose section wasn't ended.
pub(crate) fn check_factory(hier: &Hier, name: NameId, place: Span) -> Result<FactoryId, Refusal>
    ensures known { IfOk result (λ f. known_as hier.now name ≡ Some (known.Factory f)) }
    ensures open_yet { IfOk result (λ f. ended hier.now.endings f.0 ≡ false) }
    ensures refused { IfErr result (FactoryCause hier.now name place) }
{
    match hier.known(name) {
        Some(Known::Factory(f)) => {
            if hier.ended(f) {
                Err(refused(place, What::Finished(name)))
            } else {
                Ok(f)
            }
        }
        Some(Known::Mixin(_)) => Err(refused(place, What::UnknownFactory(name))),
        Some(Known::Structure(_)) => Err(refused(place, What::UnknownFactory(name))),
        None => Err(refused(place, What::UnknownFactory(name))),
    }
}

/// Opens the section of the factory.
#[tactic(auto, using(crate::proofs::SameLemmas::as_before_same, crate::proofs::SameLemmas::extends_same, crate::proofs::SameLemmas::nothing_more))]
pub(crate) fn begin(
    alloc: Global,
    theory: &Theory,
    world: &mut World,
    factory: FactoryId,
    carrier: NameId,
    var: Option<NameId>,
    place: Span,
) -> Result<(), Refusal>
    ensures as_before { OnErr result (IsAsBefore (background world.old) (background world.new)) }
    ensures names { world.new.names ≡ world.old.names }
    ensures opens { OnOk result (Opens factory carrier var (background world.old) (background world.new)) }
    ensures memory { IfErr result (λ r. r ≡ record { span = place; what = what.NoMemory }) }
{
    match section_of(alloc, theory, world, factory, carrier, var) {
        Ok(section) => {
            world.section = Some(section);
            Ok(())
        }
        Err(_) => Err(refused(place, What::NoMemory)),
    }
}

/// The section of the factory, in which nothing was given.
fn section_of(
    alloc: Global,
    theory: &Theory,
    world: &World,
    factory: FactoryId,
    carrier: NameId,
    var: Option<NameId>,
) -> Result<Section, AllocError>
    ensures { IfOk result (λ s. IsNew factory carrier var (opened s)) }
{
    let context = section_context(alloc, theory.env(), &world.hier, factory)?;
    let depth = u32::try_from(context.len()).map_err(|_| AllocError)?;
    let given = required_terms(alloc, world, factory, &context)?;
    let own = Carrier {
        level: 0,
        depth,
        given,
    };
    Ok(Section {
        factory,
        carrier,
        var,
        context,
        own,
        provided: MixSet::empty(),
        definitions: Vec::new(alloc),
    })
}

/// What the carrier has for what the factory requires: the variables.
fn required_terms(
    alloc: Global,
    world: &World,
    factory: FactoryId,
    context: &[Term],
) -> Result<Vec<(MixinId, Term)>, AllocError> {
    let place = Place::Local(factory, context);
    let mut given = Vec::new(alloc);
    for m in &listed(alloc, &required_by(&world.hier, Known::Factory(factory)))? {
        let term = term_at(alloc, &world.hier, &world.tables, place, *m)?;
        given.push((MixinId(*m), term))?;
    }
    Ok(given)
}
