//! How walks and looks end.
use crate::key::Key;
use hb_term::Term;
use std::alloc::AllocError;

/// How a walk ends, with the moves after it.
#[derive(Drop)]
pub enum End {
    Found(Key, Term, u64),
    Missing(u64),
}

/// What breaks a walk off: a term that is too large, with the walk's first; no move left; no memory.
#[derive(Drop)]
pub enum Stop {
    Spent(Term),
    Moves,
    NoMemory,
}

impl From<AllocError> for Stop {
    ghost use Rattle.std.specs.Prelude.{◌≡◌};
    ghost use Rattle.hb_found.specs.declared.ends.Stop.TheVariants.{NoMemory};

    ghost from_gives = { λ _ e. e ≡ NoMemory };

    fn from(_error: AllocError) -> Stop {
        Stop::NoMemory
    }
}
