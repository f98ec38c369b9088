//! The names of a session, numbered one to one.
ghost use Rattle.std.specs.Prelude.{◌≡◌, ◌<◌, ◌≤◌, ◌↔◌, ◌++◌, ◌∷◌, List, ℕ, Some, IfOk, IfSome, OnOk, OnErr, IsErrOf, IsSome, IsTrue, is_some, false, map, length, slice_get, string_bytes, []};
ghost use Rattle.hb_base.specs.Names.{is_named, with_name, NumbersAreUnique};

use crate::NameId;
use indexmap::IndexSet;
use std::alloc::{AllocError, Global};
use std::marker::Model;

/// How many names a session can hold.
pub const MOST_NAMES: usize = 65_535;

/// Why a text got no number.
#[derive(Clone, Copy, Debug, PartialEq, Eq)]
pub enum NamesRefused {
    /// The text is new, and 65,535 names are held.
    TooMany,
    NoMemory,
}

impl From<AllocError> for NamesRefused {
    ghost use Rattle.std.specs.Prelude.{◌≡◌};
    ghost use Rattle.hb_base.specs.declared.names.NamesRefused.TheVariants.{NoMemory};

    ghost from_gives = { λ _ refused. refused ≡ NoMemory };

    fn from(_: AllocError) -> NamesRefused {
        NamesRefused::NoMemory
    }
}

/// The names of a session, seen as the list of their texts. The number of a name is its place.
#[derive(Drop)]
pub struct Names {
    texts: IndexSet<String>,
    alloc: Global,
}

impl Model for Names {
    ghost use Rattle.std.specs.Prelude.{List, ℕ, map, length, ◌≤◌, string_bytes};

    ghost Value = { List (List ℕ) };

    ghost view = { λ names. map string_bytes names.texts.keys };

    ghost use Rattle.hb_base.specs.Names.{NumbersAreUnique};

    ghost invariant = { λ names. (length names.texts.keys ≤ 65535) × NumbersAreUnique (map string_bytes names.texts.keys) };
}

impl Names {
    /// No names.
    pub fn new(alloc: Global) -> Result<Names, AllocError>
        ensures { IfOk result (λ names. names ≡ []) }
    {
        Ok(Names {
            texts: IndexSet::new(alloc),
            alloc,
        })
    }

    /// How many names are held.
    pub fn len(&self) -> usize
        ensures { result ≡ length self.now }
    {
        self.texts.len()
    }

    /// The number of the text, which is the next one where the text is new.
    pub fn number(&mut self, text: &str) -> Result<NameId, NamesRefused>
        ensures number { IfOk result (λ id. slice_get self.new id.0 ≡ Some text.now) }
        ensures names { OnOk result (self.new ≡ with_name self.old text.now) }
        ensures unchanged { OnErr result (self.new ≡ self.old) }

        // A text that is held keeps its number also where no further one fits.
        ensures too_many { IsErrOf result NamesRefused.TooMany ↔ ((is_named self.old text.now ≡ false) × (65535 ≤ length self.old)) }
        ensures unique { NumbersAreUnique self.new }
    {
        if let Some(at) = self.place(text) {
            return Ok(NameId(at as u16));
        }
        let at = self.texts.len();
        if at >= MOST_NAMES {
            return Err(NamesRefused::TooMany);
        }
        self.add(text)?;
        Ok(NameId(at as u16))
    }

    /// Puts a new text at the end.
    fn add(&mut self, text: &str) -> Result<(), AllocError>
        requires new { is_named self.old text.now ≡ false }
        requires fits { length self.old < 65535 }
        ensures added { OnOk result (self.new ≡ self.old ++ text.now ∷ []) }
        ensures unchanged { OnErr result (self.new ≡ self.old) }
        ensures unique { NumbersAreUnique self.new }
    {
        let owned = String::from_str(self.alloc, text)?;
        self.texts.insert(owned)?;
        Ok(())
    }

    /// The text of a number.
    pub fn text(&self, id: NameId) -> &str
        requires { id.0 < length self.now }
        ensures { slice_get self.now id.0 ≡ Some result.now }
    {
        self.texts.as_slice()[id.0 as usize].as_str()
    }

    /// The number of the text, or `None` exactly where the text isn't held.
    pub fn find(&self, text: &str) -> Option<NameId>
        ensures number { IfSome result (λ id. slice_get self.now id.0 ≡ Some text.now) }
        ensures none { IsSome result ↔ IsTrue (is_named self.now text.now) }
        ensures unique { NumbersAreUnique self.now }
    {
        let at = self.place(text)?;
        Some(NameId(at as u16))
    }

    /// The place of the text, or `None` exactly where the text isn't held.
    fn place(&self, text: &str) -> Option<usize>
        ensures held { IfSome result (λ at. slice_get self.now at ≡ Some text.now) }
        ensures within { IfSome result (λ at. at < length self.now) }
        ensures small { length self.now ≤ 65535 }
        ensures none { is_some result ≡ is_named self.now text.now }
        ensures unique { NumbersAreUnique self.now }
    {
        self.texts.get_index_of(text)
    }

    /// Drops every name.
    pub fn clear(&mut self)
        ensures { self.new ≡ [] }
    {
        self.texts.clear();
    }
}
