//! Why there is no certificate.
use hb_term::{Scoped, Term};
use std::alloc::AllocError;

/// Why the environment has no certificate; `decl` is the declaration whose lines are being made.
#[derive(Drop)]
pub enum CertifyRefused {
    /// The term's lines need the term's lines.
    Circular { decl: u32, t: Scoped },
    /// The next line for the term doesn't meet its condition.
    Untyped { decl: u32, t: Scoped },
    /// The reduction of the term passes the limits.
    Spent { decl: u32, t: Scoped },
    /// The lines of the declaration take more moves than the limits allow.
    Moves { decl: u32 },
    NoMemory,
}

/// The same without the declaration; terms have as many variables as their context.
#[derive(Drop)]
pub(crate) enum Fault {
    Circular(u32, Term),
    Untyped(u32, Term),
    Spent(u32, Term),
    Moves,
    NoMemory,
}

impl From<AllocError> for Fault {
    fn from(_: AllocError) -> Fault {
        Fault::NoMemory
    }
}

impl From<AllocError> for CertifyRefused {
    fn from(_: AllocError) -> CertifyRefused {
        CertifyRefused::NoMemory
    }
}

/// The fault at the declaration.
pub(crate) fn at_declaration(decl: u32, fault: Fault) -> CertifyRefused {
    match kept(decl, fault) {
        Ok(refused) => refused,
        Err(_) => CertifyRefused::NoMemory,
    }
}

/// The same, where the term is in its scope.
fn kept(decl: u32, fault: Fault) -> Result<CertifyRefused, AllocError> {
    match fault {
        Fault::Circular(depth, t) => Ok(CertifyRefused::Circular {
            decl,
            t: scoped(t, depth)?,
        }),
        Fault::Untyped(depth, t) => Ok(CertifyRefused::Untyped {
            decl,
            t: scoped(t, depth)?,
        }),
        Fault::Spent(depth, t) => Ok(CertifyRefused::Spent {
            decl,
            t: scoped(t, depth)?,
        }),
        Fault::Moves => Ok(CertifyRefused::Moves { decl }),
        Fault::NoMemory => Err(AllocError),
    }
}

/// The term in a scope of so many variables.
pub(crate) fn scoped(t: Term, depth: u32) -> Result<Scoped, AllocError> {
    Scoped::new(t, depth).ok_or(AllocError)
}
