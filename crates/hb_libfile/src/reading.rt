//! From bytes to entries.
ghost use Rattle.std.specs.Prelude.{◌≡◌, ◌≤◌, ◌^◌, ◌++◌, ◌∷◌, [], Bool, ℕ, List, IfOk, IfErr, OnOk, drop, length, map};
ghost use Rattle.hb_libfile.specs.Format.{short, number, term_bytes, terms_bytes, fields_bytes, decl_bytes, decls_bytes, items_bytes, optional_bytes, binders_bytes, head_bytes, entry_bytes, entries_bytes, mark_bytes, texts_bytes, library_bytes};
ghost use Rattle.hb_libfile.specs.Places.{Extends, StandsIn};

use crate::error::LibRefused;
use crate::item::Decoder;
use crate::name::{is_name, is_written};
use hb_base::{MOST_NAMES, Names, NamesRefused};
use hb_env::{Entry, Places};
use std::alloc::Global;

/// The entries of a library of version 1 or 2, each with the places of its parts. The names of the
/// library are numbered in the order of its table, so `names` holds none before. The first item that
/// isn't as it has to be is BadLibrary; nothing is reserved by a count of the file.
pub fn decode(
    alloc: Global,
    bytes: &[u8],
    file: u16,
    names: &mut Names,
) -> Result<Vec<(Entry, Places)>, LibRefused>
    requires fits { length bytes.now ≤ 2 ^ 29 }
    ensures read { IfOk result (λ es. names.old ≡ [] → (second : Bool) × (bytes.now ≡ library_bytes second names.new (map (λ e. e.0) es.items))) }
    ensures within { IfErr result (StandsIn (length bytes.now)) }
    ensures kept { Extends names.old names.new }
{
    let mut decoder = Decoder::new(alloc, bytes, file);
    decoder.mark()?;
    let table_at = decoder.reader.at();
    decoder.names(names)?;
    let entries = decoder.entries()?;
    let end = decoder.reader.at();
    if decoder.open || !decoder.reader.is_end() {
        return Err(LibRefused::BadLibrary { at: end });
    }
    if decoder.used < decoder.written.len() {
        return Err(LibRefused::BadLibrary { at: table_at });
    }
    Ok(entries)
}

impl<'a> Decoder<'a> {
    /// The mark of one of the two versions.
    fn mark(&mut self) -> Result<(), LibRefused>
        ensures read { OnOk result (drop self.old.reader.place self.old.reader.bytes.now ≡ mark_bytes self.new.binders ++ drop self.new.reader.place self.new.reader.bytes.now) }
        ensures same { self.new.reader.bytes ≡ self.old.reader.bytes }
        ensures within { IfErr result (StandsIn (length self.old.reader.bytes.now)) }
    {
        let at = self.reader.at();
        let mark = self.reader.take(8)?;
        if mark == b"HBLIB002".as_slice() {
            self.binders = true;
            Ok(())
        } else if mark == b"HBLIB001".as_slice() {
            self.binders = false;
            Ok(())
        } else {
            Err(LibRefused::BadLibrary { at })
        }
    }

    /// The table of names behind its count.
    pub fn names(&mut self, names: &mut Names) -> Result<(), LibRefused>
        ensures same { self.new.reader.bytes ≡ self.old.reader.bytes }
        ensures version { self.new.binders ≡ self.old.binders }
        ensures within { IfErr result (StandsIn (length self.old.reader.bytes.now)) }
        ensures kept { Extends names.old names.new }
        ensures read { (names.old ≡ []) → OnOk result (drop self.old.reader.place self.old.reader.bytes.now ≡ (number (length names.new) ++ texts_bytes names.new) ++ drop self.new.reader.place self.new.reader.bytes.now) }
    {
        let at = self.reader.at();
        let count = self.reader.number()?;
        if count as usize > MOST_NAMES {
            return Err(LibRefused::TooMany { at });
        }
        for _i in 0..count {
            self.table_name(names)?;
        }
        Ok(())
    }

    /// A name of the table: its text behind its length, which no earlier name has.
    fn table_name(&mut self, names: &mut Names) -> Result<(), LibRefused>
        ensures same { self.new.reader.bytes ≡ self.old.reader.bytes }
        ensures version { self.new.binders ≡ self.old.binders }
        ensures within { IfErr result (StandsIn (length self.old.reader.bytes.now)) }
        ensures kept { Extends names.old names.new }
        ensures read { OnOk result ((t : List ℕ) × (names.new ≡ names.old ++ t ∷ []) × (drop self.old.reader.place self.old.reader.bytes.now ≡ (short (length t) ++ t) ++ drop self.new.reader.place self.new.reader.bytes.now)) }
    {
        let length = self.reader.short()?;
        let at = self.reader.at();
        let text = self.reader.take(usize::from(length))?;
        if !is_name(text) {
            return Err(LibRefused::BadLibrary { at });
        }
        let held = names.len();
        match str::from_utf8(text) {
            Ok(text) => match names.number(text) {
                Ok(_) if names.len() > held => {}
                Ok(_) => return Err(LibRefused::BadLibrary { at }),
                Err(NamesRefused::TooMany) => return Err(LibRefused::TooMany { at }),
                Err(NamesRefused::NoMemory) => return Err(LibRefused::NoMemory),
            },
            Err(_) => return Err(LibRefused::BadLibrary { at }),
        }
        self.written.push(is_written(text))?;
        Ok(())
    }
}
