//! The refusals of the hierarchy.
ghost use Rattle.std.specs.Prelude.{◌≡◌};
ghost use Rattle.hb_items.specs.Items as spec;

use hb_base::NameId;
use hb_env::What;
use hb_hier::{Hier, HierRefused, Known, MixinId, StructId};

/// The name of the mixin.
pub fn mixin_name(hier: &Hier, m: MixinId) -> NameId
    ensures { result ≡ spec.mixin_at hier.now m }
{
    name_of(hier, Known::Mixin(m))
}

/// The name of the structure.
pub fn structure_name(hier: &Hier, s: StructId) -> NameId
    ensures { result ≡ spec.structure_at hier.now s }
{
    name_of(hier, Known::Structure(s))
}

/// The name of what was declared; the first name where it wasn't.
fn name_of(hier: &Hier, known: Known) -> NameId
    ensures { result ≡ spec.known_name hier.now known }
{
    hier.name(known).unwrap_or(NameId(0))
}

/// What a refusal of the hierarchy prints, for a command at the carrier.
pub fn of_hierarchy(hier: &Hier, carrier: NameId, refused: HierRefused) -> What
    ensures { result ≡ spec.told hier.now carrier refused }
{
    match refused {
        HierRefused::UnknownFactory(name) => What::UnknownFactory(name),
        HierRefused::Unfinished(name) => What::Unfinished(name),
        HierRefused::Finished(name) => What::Finished(name),
        HierRefused::MissingMixin(m) => What::MissingMixin(mixin_name(hier, m)),
        HierRefused::Unmet(m, d) => {
            What::Unmet(mixin_name(hier, m), mixin_name(hier, d), carrier)
        }
        HierRefused::EmptyStructure => What::EmptyStructure,
        HierRefused::SameStructure(s) => What::SameStructure(structure_name(hier, s)),
        HierRefused::AboveDeclared(s) => What::AboveDeclared(structure_name(hier, s)),
        HierRefused::MissingJoin(a, b, j) => What::MissingJoin(
            structure_name(hier, a),
            structure_name(hier, b),
            structure_name(hier, j),
        ),
        HierRefused::TooMany(count) => What::TooMany(count),
        HierRefused::NoMemory => What::NoMemory,
    }
}
