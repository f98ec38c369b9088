//! The first key of a carrier that has a set of mixins.
ghost use Rattle.std.specs.Prelude.{◌≡◌};
ghost use Rattle.std.specs.Option.{option_map};
ghost use Rattle.hb_term.specs.Meaning.{tree};
ghost use Rattle.hb_keys.specs.Setting.{local_of};
ghost use Rattle.hb_unify.specs.Problems.{given_setting, FoundAnswer};

use crate::problem::Work;
use crate::refused::{UnifyRefused, scoped};
use hb_base::Limits;
use hb_env::Env;
use hb_found::{End, Key, Reads, Stop, walk};
use hb_hier::Hier;
use hb_sets::MixSet;
use hb_tables::{Carrier, Tables};
use hb_term::Scoped;
use std::alloc::Global;

/// A key with its term. The arguments of a constant have their values in the key, from the walk that found it.
#[derive(Drop)]
pub struct KeyFound {
    pub key: Key,
    pub term: Scoped,
}

/// The first key of the carrier that has the set. None exactly where there is none. The looks are moves of the
/// command. It refuses a walk that comes to a term which is too large, or that would take more moves than the
/// limits allow.
pub fn found(
    alloc: Global,
    env: &Env,
    hier: &Hier,
    tables: &Tables,
    local: Option<&Carrier>,
    set: &MixSet,
    carrier: &Scoped,
    work: &mut Work,
    limits: &Limits,
) -> Result<Option<KeyFound>, UnifyRefused>
    ensures found { FoundAnswer (given_setting env.now hier.now tables.now (option_map (λ c. local_of c.now) local.entry) limits.now) carrier.now.depth set.now work.old.moves (tree carrier.now.term) work.new.moves result }
    ensures holes { work.new.holes ≡ work.old.holes }
{
    let reads = Reads {
        env,
        hier,
        tables,
        local,
        limits,
    };
    match walk(
        alloc,
        reads,
        carrier.depth(),
        set,
        work.moves,
        carrier.term(),
    ) {
        Ok(End::Found(key, term, after)) => {
            let Ok(term) = scoped(term, carrier.depth()) else {
                return Err(UnifyRefused::NoMemory);
            };
            work.moves = after;
            Ok(Some(KeyFound { key, term }))
        }
        Ok(End::Missing(after)) => {
            work.moves = after;
            Ok(None)
        }
        Err(Stop::Spent(term)) => match scoped(term, carrier.depth()) {
            Ok(term) => Err(UnifyRefused::Spent(term)),
            Err(_) => Err(UnifyRefused::NoMemory),
        },
        Err(Stop::Moves) => Err(UnifyRefused::Moves),
        Err(Stop::NoMemory) => Err(UnifyRefused::NoMemory),
    }
}
