//! Heads of entries of a library.
ghost use Rattle.std.specs.Prelude.{◌≡◌, ◌++◌, ◌∷◌, [], IfOk, IfErr, drop, length};
ghost use Rattle.hb_libfile.specs.Format.{short, number, term_bytes, terms_bytes, fields_bytes, decl_bytes, decls_bytes, items_bytes, optional_bytes, binders_bytes, head_bytes, entry_bytes, entries_bytes, mark_bytes, texts_bytes, library_bytes};
ghost use Rattle.hb_libfile.specs.Places.{StandsIn};

use crate::declaration::Wanted;
use crate::error::LibRefused;
use crate::item::Decoder;
use hb_env::Head;

impl<'a> Decoder<'a> {
    /// A head.
    pub fn head(&mut self) -> Result<Head, LibRefused>
        ensures same { self.new.reader.bytes ≡ self.old.reader.bytes }
        ensures version { self.new.binders ≡ self.old.binders }
        ensures within { IfErr result (StandsIn (length self.old.reader.bytes.now)) }
        ensures read { IfOk result (λ x. drop self.old.reader.place self.old.reader.bytes.now ≡ (head_bytes self.old.binders x) ++ drop self.new.reader.place self.new.reader.bytes.now) }
    {
        let at = self.reader.at();
        match self.reader.byte()? {
            1 => Ok(Head::Axiom),
            2 => Ok(Head::Definition),
            3 => Ok(Head::Mixin {
                items: self.items()?,
            }),
            4 => Ok(Head::Factory {
                items: self.items()?,
            }),
            5 => self.builders(),
            6 => {
                self.open = false;
                Ok(Head::End)
            }
            7 => self.structure(),
            8 => self.instance(),
            9 => Ok(Head::Require {
                name: self.written_name()?,
            }),
            _ => Err(LibRefused::BadLibrary { at }),
        }
    }

    /// The start of a section, behind its tag.
    fn builders(&mut self) -> Result<Head, LibRefused>
        ensures same { self.new.reader.bytes ≡ self.old.reader.bytes }
        ensures version { self.new.binders ≡ self.old.binders }
        ensures within { IfErr result (StandsIn (length self.old.reader.bytes.now)) }
        ensures read { IfOk result (λ x. 5 ∷ drop self.old.reader.place self.old.reader.bytes.now ≡ (head_bytes self.old.binders x) ++ drop self.new.reader.place self.new.reader.bytes.now) }
    {
        let factory = self.written_name()?;
        let carrier = self.written_name()?;
        let var = self.optional_name()?;
        self.open = true;
        Ok(Head::Builders {
            factory,
            carrier,
            var,
        })
    }

    /// A structure, behind its tag.
    fn structure(&mut self) -> Result<Head, LibRefused>
        ensures same { self.new.reader.bytes ≡ self.old.reader.bytes }
        ensures version { self.new.binders ≡ self.old.binders }
        ensures within { IfErr result (StandsIn (length self.old.reader.bytes.now)) }
        ensures read { IfOk result (λ x. 7 ∷ drop self.old.reader.place self.old.reader.bytes.now ≡ (head_bytes self.old.binders x) ++ drop self.new.reader.place self.new.reader.bytes.now) }
    {
        let name = self.written_name()?;
        let items = self.items()?;
        Ok(Head::Structure { name, items })
    }

    /// An instance, behind its tag.
    fn instance(&mut self) -> Result<Head, LibRefused>
        ensures same { self.new.reader.bytes ≡ self.old.reader.bytes }
        ensures version { self.new.binders ≡ self.old.binders }
        ensures within { IfErr result (StandsIn (length self.old.reader.bytes.now)) }
        ensures read { IfOk result (λ x. 8 ∷ drop self.old.reader.place self.old.reader.bytes.now ≡ (head_bytes self.old.binders x) ++ drop self.new.reader.place self.new.reader.bytes.now) }
    {
        let factory = self.written_name()?;
        let carrier = self.written_name()?;
        let binders = self.binders()?;
        Ok(Head::Instance {
            factory,
            carrier,
            binders,
        })
    }
}

/// What a head asks of its entry's declarations.
pub(crate) fn wanted(head: &Head) -> Wanted {
    match head {
        Head::Axiom => Wanted::Axiom,
        Head::Definition => Wanted::Definition,
        Head::Mixin { .. } | Head::Factory { .. } => Wanted::Record,
        _ => Wanted::Any,
    }
}
