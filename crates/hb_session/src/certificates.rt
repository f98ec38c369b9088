//! Certificates of a session, and their check.
ghost use Rattle.std.specs.Prelude.{◌≤◌, ◌^◌, length, IfOk};
ghost use Rattle.hb_env.specs.Plain.{plains};
ghost use Rattle.hb_strict.specs.Strict.{StrictlyFormed};

use crate::refusing::{at, at_byte};
use crate::session::Session;
use hb_base::{Count, Limits, Names, Span};
use hb_cert::{Certificate, CertifyRefused, Verified, VerifyRefused, certify, verify};
use hb_env::{Refusal, What};
use std::alloc::Global;

impl Session {
    /// The certificate of what is declared. A fault stands at the command of the declaration, or at the begin of the
    /// certificate's file where that was loaded.
    pub fn certificate(&self, file: u16, limits: &Limits) -> Result<Certificate, Refusal> {
        match certify(self.alloc, &self.world.names, self.theory.env(), limits) {
            Ok(bytes) => Ok(bytes),
            Err(CertifyRefused::Circular { decl, t }) => {
                Err(at(self.place(decl, file), What::Circular(t)))
            }
            Err(CertifyRefused::Untyped { decl, t }) => {
                Err(at(self.place(decl, file), What::Untyped(t)))
            }
            Err(CertifyRefused::Spent { decl, t }) => {
                Err(at(self.place(decl, file), What::Spent(t)))
            }
            Err(CertifyRefused::Moves { decl }) => Err(at(self.place(decl, file), What::Moves)),
            Err(CertifyRefused::NoMemory) => Err(at(at_byte(file, 0), What::NoMemory)),
        }
    }

    /// Where the declaration was commanded.
    fn place(&self, decl: u32, file: u16) -> Span {
        match self.files.place(decl) {
            Some(span) => span,
            None => at_byte(file, 0),
        }
    }
}

/// What a certificate of at most 512 MiB declares. The names of a session play no part.
pub fn verified(alloc: Global, file: u16, bytes: &[u8]) -> Result<Verified, Refusal>
    requires fits { length bytes.now ≤ 2 ^ 29 }
    ensures formed { IfOk result (λ v. StrictlyFormed (plains v.decls.items)) }
{
    let Ok(mut names) = Names::new(alloc) else {
        return Err(at(at_byte(file, 0), What::NoMemory));
    };
    match verify(alloc, bytes, &mut names) {
        Ok(verified) => Ok(verified),
        Err(VerifyRefused::BadCertificate { at: byte }) => {
            Err(at(at_byte(file, byte), What::BadCertificate))
        }
        Err(VerifyRefused::TooMany { at: byte }) => {
            Err(at(at_byte(file, byte), What::TooMany(Count::Names)))
        }
        Err(VerifyRefused::NoMemory) => Err(at(at_byte(file, 0), What::NoMemory)),
    }
}
