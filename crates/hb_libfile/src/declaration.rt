//! Declarations of a library.
ghost use Rattle.std.specs.Prelude.{◌≡◌, ◌++◌, ◌∷◌, [], IfOk, IfErr, drop, length};
ghost use Rattle.hb_env.specs.Plain.{plain, plain_fields, trees};
ghost use Rattle.hb_libfile.specs.Format.{short, number, term_bytes, terms_bytes, fields_bytes, decl_bytes, decls_bytes, items_bytes, optional_bytes, binders_bytes, head_bytes, entry_bytes, entries_bytes, mark_bytes, texts_bytes, library_bytes};
ghost use Rattle.hb_libfile.specs.Places.{StandsIn};

use crate::error::LibRefused;
use crate::item::Decoder;
use hb_base::NameId;
use hb_env::Decl;
use hb_term::Term;

/// What the head of an entry asks of its declarations.
#[derive(Clone, Copy, Debug, PartialEq, Eq)]
pub enum Wanted {
    /// Any, in any number.
    Any,
    /// One axiom.
    Axiom,
    /// One definition.
    Definition,
    /// One record, with a name that a command may write.
    Record,
}

impl Wanted {
    /// Whether so many declarations may be there.
    pub fn allows_count(self, count: u32) -> bool {
        match self {
            Wanted::Any => true,
            Wanted::Axiom | Wanted::Definition | Wanted::Record => count == 1,
        }
    }

    /// Whether a declaration of the tag may be there.
    fn allows_tag(self, tag: u8) -> bool {
        match self {
            Wanted::Any => tag <= 2,
            Wanted::Axiom => tag == 0,
            Wanted::Definition => tag == 1,
            Wanted::Record => tag == 2,
        }
    }
}

impl<'a> Decoder<'a> {
    /// A declaration.
    pub fn declaration(&mut self, wanted: Wanted) -> Result<Decl, LibRefused>
        ensures same { self.new.reader.bytes ≡ self.old.reader.bytes }
        ensures version { self.new.binders ≡ self.old.binders }
        ensures within { IfErr result (StandsIn (length self.old.reader.bytes.now)) }
        ensures read { IfOk result (λ x. drop self.old.reader.place self.old.reader.bytes.now ≡ (decl_bytes (plain x)) ++ drop self.new.reader.place self.new.reader.bytes.now) }
    {
        let at = self.reader.at();
        let tag = self.reader.byte()?;
        if !wanted.allows_tag(tag) {
            return Err(LibRefused::BadLibrary { at });
        }
        match tag {
            0 => self.axiom(),
            1 => self.definition(),
            2 => self.record_declaration(wanted),
            _ => Err(LibRefused::BadLibrary { at }),
        }
    }

    /// An axiom behind its tag.
    fn axiom(&mut self) -> Result<Decl, LibRefused>
        ensures same { self.new.reader.bytes ≡ self.old.reader.bytes }
        ensures version { self.new.binders ≡ self.old.binders }
        ensures within { IfErr result (StandsIn (length self.old.reader.bytes.now)) }
        ensures read { IfOk result (λ x. 0 ∷ drop self.old.reader.place self.old.reader.bytes.now ≡ (decl_bytes (plain x)) ++ drop self.new.reader.place self.new.reader.bytes.now) }
    {
        let name = self.name()?;
        let ty = self.term(0)?;
        self.declare(None)?;
        Ok(Decl::Axiom { name, ty })
    }

    /// A definition behind its tag.
    fn definition(&mut self) -> Result<Decl, LibRefused>
        ensures same { self.new.reader.bytes ≡ self.old.reader.bytes }
        ensures version { self.new.binders ≡ self.old.binders }
        ensures within { IfErr result (StandsIn (length self.old.reader.bytes.now)) }
        ensures read { IfOk result (λ x. 1 ∷ drop self.old.reader.place self.old.reader.bytes.now ≡ (decl_bytes (plain x)) ++ drop self.new.reader.place self.new.reader.bytes.now) }
    {
        let name = self.name()?;
        let ty = self.term(0)?;
        let body = self.term(0)?;
        self.declare(None)?;
        Ok(Decl::Def { name, ty, body })
    }

    /// A record behind its tag.
    fn record_declaration(&mut self, wanted: Wanted) -> Result<Decl, LibRefused>
        ensures same { self.new.reader.bytes ≡ self.old.reader.bytes }
        ensures version { self.new.binders ≡ self.old.binders }
        ensures within { IfErr result (StandsIn (length self.old.reader.bytes.now)) }
        ensures read { IfOk result (λ x. 2 ∷ drop self.old.reader.place self.old.reader.bytes.now ≡ (decl_bytes (plain x)) ++ drop self.new.reader.place self.new.reader.bytes.now) }
    {
        let name = if wanted == Wanted::Record {
            self.written_name()?
        } else {
            self.name()?
        };
        let maker = self.name()?;
        let count = self.reader.short()?;
        let params = self.params(count)?;
        let level = self.level()?;
        let field_count = self.reader.short()?;
        let fields = self.fields(count, field_count)?;
        self.declare(Some(field_count))?;
        Ok(Decl::Record {
            name,
            maker,
            params,
            level,
            fields,
        })
    }

    /// The types of so many parameters, each under those before it.
    fn params(&mut self, count: u16) -> Result<Vec<Term>, LibRefused>
        ensures same { self.new.reader.bytes ≡ self.old.reader.bytes }
        ensures version { self.new.binders ≡ self.old.binders }
        ensures within { IfErr result (StandsIn (length self.old.reader.bytes.now)) }
        ensures read { IfOk result (λ x. drop self.old.reader.place self.old.reader.bytes.now ≡ (terms_bytes (trees x.items)) ++ drop self.new.reader.place self.new.reader.bytes.now) }
        ensures count { IfOk result (λ x. length x.items ≡ count) }
    {
        let mut params = Vec::new(self.alloc);
        for at in 0..count {
            let ty = self.term(u32::from(at))?;
            params.push(ty)?;
        }
        Ok(params)
    }

    /// So many fields, each under so many parameters and the fields before it.
    fn fields(&mut self, params: u16, count: u16) -> Result<Vec<(NameId, Term)>, LibRefused>
        ensures same { self.new.reader.bytes ≡ self.old.reader.bytes }
        ensures version { self.new.binders ≡ self.old.binders }
        ensures within { IfErr result (StandsIn (length self.old.reader.bytes.now)) }
        ensures read { IfOk result (λ x. drop self.old.reader.place self.old.reader.bytes.now ≡ (fields_bytes (plain_fields x.items)) ++ drop self.new.reader.place self.new.reader.bytes.now) }
        ensures count { IfOk result (λ x. length x.items ≡ count) }
    {
        let mut fields = Vec::new(self.alloc);
        for at in 0..count {
            let name = self.name()?;
            let ty = self.term(u32::from(params) + u32::from(at))?;
            fields.push((name, ty))?;
        }
        Ok(fields)
    }
}
