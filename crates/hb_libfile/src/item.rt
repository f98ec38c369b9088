//! What a library has been found to hold so far.
ghost use Rattle.std.specs.Prelude.{◌≡◌, ◌≤◌, ◌^◌, ◌++◌, ◌∷◌, [], IfOk, IfErr, drop, length};
ghost use Rattle.hb_libfile.specs.Format.{short, number, term_bytes, terms_bytes, fields_bytes, decl_bytes, decls_bytes, items_bytes, optional_bytes, binders_bytes, head_bytes, entry_bytes, entries_bytes, mark_bytes, texts_bytes, library_bytes};
ghost use Rattle.hb_libfile.specs.Places.{StandsIn};

use crate::error::LibRefused;
use crate::reader::Reader;
use hb_base::NameId;
use std::alloc::{AllocError, Global};

/// A library under way.
#[derive(Drop)]
pub struct Decoder<'a> {
    pub alloc: Global,
    pub reader: Reader<'a>,
    pub file: u16,
    /// Whether instances have binders, as from version 2 on.
    pub binders: bool,
    /// For each name of the table whether a command may write it.
    pub written: Vec<bool>,
    /// How many names have been used.
    pub used: usize,
    /// Whether each name is a new one, as in certificates.
    pub fresh: bool,
    /// For each declaration its number of fields, if it is a record.
    pub records: Vec<Option<u16>>,
    /// Whether a section is open.
    pub open: bool,
}

impl<'a> Decoder<'a> {
    /// The bytes of a file, of which nothing is read.
    pub fn new(alloc: Global, bytes: &'a [u8], file: u16) -> Decoder<'a>
        requires { length bytes.now ≤ 2 ^ 29 }
        ensures bytes { result.reader.bytes ≡ bytes.entry }
        ensures begin { result.reader.place ≡ 0 }
    {
        Decoder {
            alloc,
            reader: Reader::new(bytes),
            file,
            binders: false,
            written: Vec::new(alloc),
            used: 0,
            fresh: false,
            records: Vec::new(alloc),
            open: false,
        }
    }

    /// A name: one that was used before, or the next of the table.
    pub fn name(&mut self) -> Result<NameId, LibRefused>
        ensures same { self.new.reader.bytes ≡ self.old.reader.bytes }
        ensures version { self.new.binders ≡ self.old.binders }
        ensures within { IfErr result (StandsIn (length self.old.reader.bytes.now)) }
        ensures read { IfOk result (λ x. drop self.old.reader.place self.old.reader.bytes.now ≡ (short x.0) ++ drop self.new.reader.place self.new.reader.bytes.now) }
    {
        let at = self.reader.at();
        let index = self.reader.short()?;
        let place = usize::from(index);
        if place > self.used || place >= self.written.len() || (self.fresh && place < self.used) {
            return Err(LibRefused::BadLibrary { at });
        }
        if place == self.used {
            self.used = self.used.saturating_add(1);
        }
        Ok(NameId(index))
    }

    /// A name that a command may write.
    pub fn written_name(&mut self) -> Result<NameId, LibRefused>
        ensures same { self.new.reader.bytes ≡ self.old.reader.bytes }
        ensures version { self.new.binders ≡ self.old.binders }
        ensures within { IfErr result (StandsIn (length self.old.reader.bytes.now)) }
        ensures read { IfOk result (λ x. drop self.old.reader.place self.old.reader.bytes.now ≡ (short x.0) ++ drop self.new.reader.place self.new.reader.bytes.now) }
    {
        let at = self.reader.at();
        let name = self.name()?;
        match self.written.get(usize::from(name.0)) {
            Some(true) => Ok(name),
            _ => Err(LibRefused::BadLibrary { at }),
        }
    }

    /// Such a name behind a 1, or a 0 without one.
    pub fn optional_name(&mut self) -> Result<Option<NameId>, LibRefused>
        ensures same { self.new.reader.bytes ≡ self.old.reader.bytes }
        ensures version { self.new.binders ≡ self.old.binders }
        ensures within { IfErr result (StandsIn (length self.old.reader.bytes.now)) }
        ensures read { IfOk result (λ x. drop self.old.reader.place self.old.reader.bytes.now ≡ (optional_bytes x) ++ drop self.new.reader.place self.new.reader.bytes.now) }
    {
        let at = self.reader.at();
        match self.reader.byte()? {
            0 => Ok(None),
            1 => Ok(Some(self.written_name()?)),
            _ => Err(LibRefused::BadLibrary { at }),
        }
    }

    /// Such names behind their count.
    pub fn items(&mut self) -> Result<Vec<NameId>, LibRefused>
        ensures same { self.new.reader.bytes ≡ self.old.reader.bytes }
        ensures version { self.new.binders ≡ self.old.binders }
        ensures within { IfErr result (StandsIn (length self.old.reader.bytes.now)) }
        ensures read { IfOk result (λ x. drop self.old.reader.place self.old.reader.bytes.now ≡ (items_bytes x.items) ++ drop self.new.reader.place self.new.reader.bytes.now) }
    {
        let count = self.reader.number()?;
        let mut items = Vec::new(self.alloc);
        for _i in 0..count {
            let item = self.written_name()?;
            items.push(item)?;
        }
        Ok(items)
    }

    /// The structures of binders behind their count.
    pub fn binders(&mut self) -> Result<Vec<Option<NameId>>, LibRefused>
        ensures same { self.new.reader.bytes ≡ self.old.reader.bytes }
        ensures version { self.new.binders ≡ self.old.binders }
        ensures within { IfErr result (StandsIn (length self.old.reader.bytes.now)) }
        ensures read { IfOk result (λ x. drop self.old.reader.place self.old.reader.bytes.now ≡ (binders_bytes self.old.binders x.items) ++ drop self.new.reader.place self.new.reader.bytes.now) }
    {
        let mut binders = Vec::new(self.alloc);
        if self.binders {
            let count = self.reader.short()?;
            for _i in 0..count {
                let binder = self.optional_name()?;
                binders.push(binder)?;
            }
        }
        Ok(binders)
    }

    /// A level.
    pub fn level(&mut self) -> Result<u8, LibRefused>
        ensures same { self.new.reader.bytes ≡ self.old.reader.bytes }
        ensures version { self.new.binders ≡ self.old.binders }
        ensures within { IfErr result (StandsIn (length self.old.reader.bytes.now)) }
        ensures read { IfOk result (λ x. drop self.old.reader.place self.old.reader.bytes.now ≡ (x ∷ []) ++ drop self.new.reader.place self.new.reader.bytes.now) }
    {
        let at = self.reader.at();
        let level = self.reader.byte()?;
        if level > MOST_LEVEL {
            return Err(LibRefused::BadLibrary { at });
        }
        Ok(level)
    }

    /// One more declaration, with its number of fields where it is a record.
    pub fn declare(&mut self, fields: Option<u16>) -> Result<(), AllocError>
        ensures reader { self.new.reader ≡ self.old.reader }
        ensures version { self.new.binders ≡ self.old.binders }
    {
        self.records.push(fields)?;
        Ok(())
    }
}

/// The greatest level.
const MOST_LEVEL: u8 = 63;
