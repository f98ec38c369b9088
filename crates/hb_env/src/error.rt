//! Why an environment takes no declaration.
ghost use Rattle.std.specs.Prelude.{◌≡◌};

use hb_base::{Count, NameId};
use std::alloc::AllocError;

/// Why a declaration was not added.
#[derive(Clone, Copy, Debug, PartialEq, Eq, Drop)]
pub enum EnvRefused {
    /// The name is declared, or stands earlier in the declaration.
    Redeclared(NameId),
    /// There would be too many declarations, fields of a record, or nodes.
    TooMany(Count),
    NoMemory,
}

impl From<AllocError> for EnvRefused {
    ghost use Rattle.hb_env.specs.declared.error.EnvRefused.{EnvRefused};

    ghost from_gives = { λ _ e. e ≡ EnvRefused.NoMemory };

    fn from(_error: AllocError) -> EnvRefused {
        EnvRefused::NoMemory
    }
}
