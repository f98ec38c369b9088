//! Certificates, checked.
ghost use Rattle.std.specs.Prelude.{◌≡◌, ◌≤◌, ◌^◌, ◌++◌, ◌∷◌, [], length, IfOk, IsTrue, OnOk};
ghost use Rattle.hb_term.specs.Meaning.{tree};
ghost use Rattle.hb_calculus.specs.Scope.{IsScoped, AreScoped, IsScopedDecl};
ghost use Rattle.hb_calculus.specs.Declarations.{Distinct, field_types, names};
ghost use Rattle.hb_env.specs.Plain.{plain, plains, plain_fields, trees};
ghost use Rattle.hb_strict.specs.Strict.{StrictlyFormed};

use crate::refused::VerifyRefused;
use hb_base::{NameId, Names};
use hb_env::{Decl, Env, EnvRefused};
use hb_libfile::{Decoder, Wanted};
use hb_strict::Table;
use hb_term::Term;
use std::alloc::Global;
use std::vec::Vec;

/// What a certificate declares, and how many lines it has.
#[derive(Drop)]
pub struct Verified {
    pub decls: Vec<Decl>,
    pub lines: u64,
}

/// The declarations of a certificate: they are strictly formed. The first item that isn't as it has to be is
/// BadCertificate. `names` holds none before.
pub fn verify(alloc: Global, bytes: &[u8], names: &mut Names) -> Result<Verified, VerifyRefused>
    requires fits { length bytes.now ≤ 2 ^ 29 }
    ensures formed { IfOk result (λ v. StrictlyFormed (plains v.decls.items)) }
{
    let mut decoder = Decoder::new(alloc, bytes, 0);
    decoder.fresh = true;
    mark(&mut decoder)?;
    let table_at = decoder.reader.at();
    decoder.names(names)?;
    let verified = declarations(alloc, &mut decoder)?;
    let end = decoder.reader.at();
    if !decoder.reader.is_end() {
        return Err(VerifyRefused::BadCertificate { at: end });
    }
    if decoder.used < decoder.written.len() {
        return Err(VerifyRefused::BadCertificate { at: table_at });
    }
    Ok(verified)
}

/// The mark of certificates.
fn mark(decoder: &mut Decoder<'_>) -> Result<(), VerifyRefused> {
    let at = decoder.reader.at();
    if decoder.reader.take(8)? == b"HBCERT01".as_slice() {
        Ok(())
    } else {
        Err(VerifyRefused::BadCertificate { at })
    }
}

/// The declarations behind their count, each typed in those before it.
fn declarations(alloc: Global, decoder: &mut Decoder<'_>) -> Result<Verified, VerifyRefused>
    ensures { IfOk result (λ v. StrictlyFormed (plains v.decls.items)) }
{
    let mut env = Env::new(alloc)?;
    let mut decls = Vec::new(alloc);
    let mut lines: u64 = 0;
    let count = decoder.reader.number()?;
    for _at in 0..count {
        let place = decoder.reader.at();
        let decl = decoder.declaration(Wanted::Any)?;
        let table = crate::lines::lines(alloc, decoder, &env)?;
        crate::ends::ends(decoder, &table, &decl)?;
        lines = lines.saturating_add(table.lines.len() as u64);
        decls.push(decl.copy(alloc)?)?;
        add(&mut env, decl, place)?;
    }
    names_differ(&env);
    Ok(Verified { decls, lines })
}

/// Tells that no two declarations of an environment have a name in common. It does nothing.
fn names_differ(env: &Env)
    ensures { Distinct (names env.now) }
{
    let _count = env.len();
}

/// The declaration is one of the environment. What isn't scoped is refused at its place; the counts of an environment
/// are those of memory.
fn add(env: &mut Env, decl: Decl, place: u32) -> Result<(), VerifyRefused>
    ensures { OnOk result (env.new ≡ env.old ++ plain decl ∷ []) }
{
    if !is_scoped(&decl) {
        return Err(VerifyRefused::BadCertificate { at: place });
    }
    match env.push(decl) {
        Ok(_) => Ok(()),
        Err(EnvRefused::Redeclared(_)) => Err(VerifyRefused::BadCertificate { at: place }),
        Err(_) => Err(VerifyRefused::NoMemory),
    }
}

/// Whether each term has only the variables before it, and no hole.
fn is_scoped(decl: &Decl) -> bool
    ensures { IsTrue result → IsScopedDecl (plain decl.now) }
{
    match decl {
        Decl::Axiom { ty, .. } => fits(ty, 0),
        Decl::Def { ty, body, .. } => fits(ty, 0) && fits(body, 0),
        Decl::Record { params, fields, .. } => {
            params_fit(params) && fields_fit(params.len() as u64, fields)
        }
    }
}

/// Whether each parameter's type has only the parameters before it.
fn params_fit(params: &[Term]) -> bool
    ensures { IsTrue result → AreScoped 0 (trees params.now) }
{
    let mut before: u64 = 0;
    for ty in params {
        if !fits(ty, before) {
            return false;
        }
        let Some(next) = before.checked_add(1) else {
            return false;
        };
        before = next;
    }
    true
}

/// Whether each field's type has only so many variables and the fields before it.
fn fields_fit(outside: u64, fields: &[(NameId, Term)]) -> bool
    ensures { IsTrue result → AreScoped outside (field_types (plain_fields fields.now)) }
{
    let mut before = outside;
    for field in fields {
        if !fits(&field.1, before) {
            return false;
        }
        let Some(next) = before.checked_add(1) else {
            return false;
        };
        before = next;
    }
    true
}

/// Whether the term has no hole, and at most so many variables from outside.
fn fits(t: &Term, outside: u64) -> bool
    ensures { IsTrue result → IsScoped outside (tree t.now) }
{
    t.loose() <= outside && !t.has_hole()
}
