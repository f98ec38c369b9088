//! The declarations of mixins and factories.
ghost use Rattle.std.specs.Prelude.{◌≡◌, ◌∷◌, [], ℕ, List, IfOk};
ghost use Rattle.hb_base.specs.declared.name_id.NameId as numbers;
ghost use Rattle.hb_env.specs.Plain.{plain, plain_fields};
ghost use Rattle.hb_generated.specs.State.{State, Own, decls};
ghost use Rattle.hb_generated.specs.Generating.{gen_record};
ghost use Rattle.hb_pack.specs.Packing.{IsRecordOf};

use crate::dependent::parameters;
use hb_base::NameId;
use hb_env::{Decl, Env};
use hb_hier::Hier;
use hb_sets::MixSet;
use hb_term::Term;
use std::alloc::{AllocError, Global};
use std::vec::Vec;

/// The declaration of a mixin or factory that requires the mixins: its record, with the maker's name, the
/// level, and the fields under their whole names.
pub fn mixin_decl(
    alloc: Global,
    env: &Env,
    hier: &Hier,
    name: NameId,
    maker: NameId,
    required: &MixSet,
    fields: Vec<(NameId, Term)>,
    level: u8,
) -> Result<Decl, AllocError>
    ensures { IfOk result
        (λ d. (N : List (List ℕ)) (S : State) (items : List numbers.NameId) (o : Own)
        → IsRecordOf N S items o env.now hier.now name.0 maker.0 required.now level (plain_fields fields.items)
        → plain d ∷ [] ≡ decls (gen_record N S items o)) }
{
    let params = parameters(alloc, env, hier, required)?;
    Ok(Decl::Record {
        name,
        maker,
        params,
        level,
        fields,
    })
}
