//! Entries of a library.
ghost use Rattle.std.specs.Prelude.{◌≡◌, ◌++◌, ◌∷◌, [], IfOk, IfErr, drop, length, map};
ghost use Rattle.hb_env.specs.Plain.{plains};
ghost use Rattle.hb_libfile.specs.Format.{short, number, term_bytes, terms_bytes, fields_bytes, decl_bytes, decls_bytes, items_bytes, optional_bytes, binders_bytes, head_bytes, entry_bytes, entries_bytes, mark_bytes, texts_bytes, library_bytes};
ghost use Rattle.hb_libfile.specs.Places.{StandsIn};

use crate::declaration::Wanted;
use crate::error::LibRefused;
use crate::head::wanted;
use crate::item::Decoder;
use hb_base::Span;
use hb_env::{Decl, Entry, Places};

impl<'a> Decoder<'a> {
    /// An entry, with the places of its parts.
    pub fn entry(&mut self) -> Result<(Entry, Places), LibRefused>
        ensures same { self.new.reader.bytes ≡ self.old.reader.bytes }
        ensures version { self.new.binders ≡ self.old.binders }
        ensures within { IfErr result (StandsIn (length self.old.reader.bytes.now)) }
        ensures read { IfOk result (λ x. drop self.old.reader.place self.old.reader.bytes.now ≡ (entry_bytes self.old.binders x.0) ++ drop self.new.reader.place self.new.reader.bytes.now) }
    {
        let from = self.reader.at();
        let head = self.head()?;
        let wanted = wanted(&head);
        let count_at = self.reader.at();
        let count = self.reader.number()?;
        if !wanted.allows_count(count) {
            return Err(LibRefused::BadLibrary { at: count_at });
        }
        let (decls, places) = self.declarations(wanted, count)?;
        let span = Span {
            file: self.file,
            from,
            to: self.reader.at(),
        };
        let places = Places {
            span,
            count: count_at,
            decls: places,
        };
        Ok((Entry { head, decls }, places))
    }

    /// So many declarations, with their places.
    fn declarations(
        &mut self,
        wanted: Wanted,
        count: u32,
    ) -> Result<(Vec<Decl>, Vec<u32>), LibRefused>
        ensures same { self.new.reader.bytes ≡ self.old.reader.bytes }
        ensures version { self.new.binders ≡ self.old.binders }
        ensures within { IfErr result (StandsIn (length self.old.reader.bytes.now)) }
        ensures count { IfOk result (λ x. length x.0.items ≡ count) }
        ensures read { IfOk result (λ x. drop self.old.reader.place self.old.reader.bytes.now ≡ (decls_bytes (plains x.0.items)) ++ drop self.new.reader.place self.new.reader.bytes.now) }
    {
        let mut decls = Vec::new(self.alloc);
        let mut places = Vec::new(self.alloc);
        for _i in 0..count {
            places.push(self.reader.at())?;
            let decl = self.declaration(wanted)?;
            decls.push(decl)?;
        }
        Ok((decls, places))
    }

    /// The entries behind their count.
    pub fn entries(&mut self) -> Result<Vec<(Entry, Places)>, LibRefused>
        ensures same { self.new.reader.bytes ≡ self.old.reader.bytes }
        ensures version { self.new.binders ≡ self.old.binders }
        ensures within { IfErr result (StandsIn (length self.old.reader.bytes.now)) }
        ensures read { IfOk result (λ x. drop self.old.reader.place self.old.reader.bytes.now ≡ (number (length x.items) ++ entries_bytes self.old.binders (map (λ p. p.0) x.items)) ++ drop self.new.reader.place self.new.reader.bytes.now) }
    {
        let count = self.reader.number()?;
        let mut entries = Vec::new(self.alloc);
        for _i in 0..count {
            let entry = self.entry()?;
            entries.push(entry)?;
        }
        Ok(entries)
    }
}
