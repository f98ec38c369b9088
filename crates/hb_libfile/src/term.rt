//! Terms of a library.
ghost use Rattle.std.specs.Prelude.{◌≡◌, ◌≤◌, ◌++◌, ◌∷◌, [], ℕ, IfOk, IfErr, drop, length};
ghost use Rattle.hb_term.specs.Meaning.{tree};
ghost use Rattle.hb_libfile.specs.Format.{short, number, term_bytes, terms_bytes, fields_bytes, decl_bytes, decls_bytes, items_bytes, optional_bytes, binders_bytes, head_bytes, entry_bytes, entries_bytes, mark_bytes, texts_bytes, library_bytes};
ghost use Rattle.hb_libfile.specs.Places.{StandsIn};

use crate::error::LibRefused;
use crate::item::Decoder;
use hb_term::{ConstId, RecId, Sort, Term};

/// The greatest depth of a term.
const DEPTH: u32 = 2_000;

impl<'a> Decoder<'a> {
    /// A term under so many variables.
    pub fn term(&mut self, variables: u32) -> Result<Term, LibRefused>
        ensures same { self.new.reader.bytes ≡ self.old.reader.bytes }
        ensures version { self.new.binders ≡ self.old.binders }
        ensures within { IfErr result (StandsIn (length self.old.reader.bytes.now)) }
        ensures read { IfOk result (λ x. drop self.old.reader.place self.old.reader.bytes.now ≡ (term_bytes (tree x)) ++ drop self.new.reader.place self.new.reader.bytes.now) }
    {
        self.part(variables, DEPTH)
    }

    /// A term of at most this depth under so many variables.
    fn part(&mut self, variables: u32, depth: u32) -> Result<Term, LibRefused>
        ensures same { self.new.reader.bytes ≡ self.old.reader.bytes }
        ensures version { self.new.binders ≡ self.old.binders }
        ensures within { IfErr result (StandsIn (length self.old.reader.bytes.now)) }
        ensures read { IfOk result (λ x. drop self.old.reader.place self.old.reader.bytes.now ≡ (term_bytes (tree x)) ++ drop self.new.reader.place self.new.reader.bytes.now) }
    {
        let at = self.reader.at();
        let tag = self.reader.byte()?;
        if depth == 0 {
            return Err(LibRefused::BadLibrary { at });
        }
        match tag {
            0 => Ok(Term::Sort(Sort::Prop)),
            1 => Ok(Term::Sort(Sort::Level(self.level()?))),
            2 => self.variable(variables),
            3 => {
                let domain = self.part(variables, depth - 1)?;
                let codomain = self.part(inside(at, variables)?, depth - 1)?;
                Ok(Term::pi(self.alloc, domain, codomain)?)
            }
            4 => {
                let domain = self.part(variables, depth - 1)?;
                let body = self.part(inside(at, variables)?, depth - 1)?;
                Ok(Term::lam(self.alloc, domain, body)?)
            }
            5 => {
                let function = self.part(variables, depth - 1)?;
                let argument = self.part(variables, depth - 1)?;
                Ok(Term::app(self.alloc, function, argument)?)
            }
            6 => self.constant(),
            7 => self.maker(),
            8 => {
                let (rec, field) = self.projected()?;
                let of = self.part(variables, depth - 1)?;
                Ok(Term::proj(self.alloc, rec, field, of)?)
            }
            _ => Err(LibRefused::BadLibrary { at }),
        }
    }

    /// A variable.
    fn variable(&mut self, variables: u32) -> Result<Term, LibRefused>
        ensures same { self.new.reader.bytes ≡ self.old.reader.bytes }
        ensures version { self.new.binders ≡ self.old.binders }
        ensures within { IfErr result (StandsIn (length self.old.reader.bytes.now)) }
        ensures read { IfOk result (λ x. 2 ∷ drop self.old.reader.place self.old.reader.bytes.now ≡ (term_bytes (tree x)) ++ drop self.new.reader.place self.new.reader.bytes.now) }
    {
        let at = self.reader.at();
        let variable = self.reader.number()?;
        if variable >= variables {
            return Err(LibRefused::BadLibrary { at });
        }
        Ok(Term::Rel(variable))
    }

    /// A declared constant.
    fn constant(&mut self) -> Result<Term, LibRefused>
        ensures same { self.new.reader.bytes ≡ self.old.reader.bytes }
        ensures version { self.new.binders ≡ self.old.binders }
        ensures within { IfErr result (StandsIn (length self.old.reader.bytes.now)) }
        ensures read { IfOk result (λ x. 6 ∷ drop self.old.reader.place self.old.reader.bytes.now ≡ (term_bytes (tree x)) ++ drop self.new.reader.place self.new.reader.bytes.now) }
    {
        let at = self.reader.at();
        let decl = self.reader.number()?;
        if decl as usize >= self.records.len() {
            return Err(LibRefused::BadLibrary { at });
        }
        Ok(Term::Const(ConstId { decl, maker: false }))
    }

    /// The maker of a record.
    fn maker(&mut self) -> Result<Term, LibRefused>
        ensures same { self.new.reader.bytes ≡ self.old.reader.bytes }
        ensures version { self.new.binders ≡ self.old.binders }
        ensures within { IfErr result (StandsIn (length self.old.reader.bytes.now)) }
        ensures read { IfOk result (λ x. 7 ∷ drop self.old.reader.place self.old.reader.bytes.now ≡ (term_bytes (tree x)) ++ drop self.new.reader.place self.new.reader.bytes.now) }
    {
        let (decl, _fields) = self.record()?;
        Ok(Term::Const(ConstId { decl, maker: true }))
    }

    /// The number of a record, and how many fields it has.
    fn record(&mut self) -> Result<(u32, u16), LibRefused>
        ensures same { self.new.reader.bytes ≡ self.old.reader.bytes }
        ensures version { self.new.binders ≡ self.old.binders }
        ensures within { IfErr result (StandsIn (length self.old.reader.bytes.now)) }
        ensures read { IfOk result (λ x. drop self.old.reader.place self.old.reader.bytes.now ≡ (number x.0) ++ drop self.new.reader.place self.new.reader.bytes.now) }
    {
        let at = self.reader.at();
        let decl = self.reader.number()?;
        match self.records.get(decl as usize) {
            Some(Some(fields)) => Ok((decl, *fields)),
            _ => Err(LibRefused::BadLibrary { at }),
        }
    }

    /// A record, and one of its fields.
    fn projected(&mut self) -> Result<(RecId, u16), LibRefused>
        ensures same { self.new.reader.bytes ≡ self.old.reader.bytes }
        ensures version { self.new.binders ≡ self.old.binders }
        ensures within { IfErr result (StandsIn (length self.old.reader.bytes.now)) }
        ensures read { IfOk result (λ x. drop self.old.reader.place self.old.reader.bytes.now ≡ (number x.0.0 ++ short x.1) ++ drop self.new.reader.place self.new.reader.bytes.now) }
    {
        let (decl, fields) = self.record()?;
        let at = self.reader.at();
        let field = self.reader.short()?;
        if field >= fields {
            return Err(LibRefused::BadLibrary { at });
        }
        Ok((RecId(decl), field))
    }
}

/// One variable more.
pub(crate) fn inside(at: u32, variables: u32) -> Result<u32, LibRefused>
    ensures { (n : ℕ) → at ≤ n → IfErr result (StandsIn n) }
{
    match variables.checked_add(1) {
        Some(inside) => Ok(inside),
        None => Err(LibRefused::BadLibrary { at }),
    }
}
