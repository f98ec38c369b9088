//! The types of makers.
ghost use Rattle.std.specs.Prelude.{◌≡◌, Some, IfOk, slice_get};
ghost use Rattle.hb_term.specs.Meaning.{tree};
ghost use Rattle.hb_calculus.specs.Declarations.{Record, record_in};
ghost use Rattle.hb_calculus.specs.Telescopes as telescopes;
ghost use Rattle.hb_record.specs.Records.{IsRecord};

use hb_env::Env;
use hb_term::{ConstId, RecId, Term};
use std::alloc::AllocError;

/// The type of the record's maker: from its parameters and its fields to its former, which is applied to
/// the parameters (Rocq manual, "Record types").
pub fn maker_type(env: &Env, rec: RecId) -> Result<Term, AllocError>
    requires { IsRecord env.now rec.0 }
    ensures { IfOk
        result
        (λ t. (R : Record) → record_in (slice_get env.now rec.0) ≡ Some R → tree t ≡ telescopes.maker_type rec.0 R) }
{
    let maker = ConstId {
        decl: rec.0,
        maker: true,
    };
    match env.type_of(maker)? {
        Some(ty) => Ok(ty),
        None => unreachable!(),
    }
}
