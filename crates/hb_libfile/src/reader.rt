//! Items of a library, read one after another.
ghost use Rattle.std.specs.Prelude.{◌≡◌, ◌≤◌, ◌^◌, ◌++◌, ◌∷◌, [], IfOk, IfErr, IsTrue, drop, length};
ghost use Rattle.hb_libfile.specs.Format.{short, number};
ghost use Rattle.hb_libfile.specs.Places.{StandsIn};

use crate::error::LibRefused;

/// The bytes of a library, and the place of the next item.
#[derive(Clone, Copy)]
pub struct Reader<'a> {
    bytes: &'a [u8],
    place: usize,
    ghost fits: { length bytes.now ≤ 2 ^ 29 },
    ghost within: { place ≤ length bytes.now },
}

impl<'a> Reader<'a> {
    /// The begin of the bytes.
    pub fn new(bytes: &'a [u8]) -> Reader<'a>
        requires { length bytes.now ≤ 2 ^ 29 }
        ensures bytes { result.bytes ≡ bytes.entry }
        ensures begin { result.place ≡ 0 }
    {
        Reader { bytes, place: 0 }
    }

    /// The place of the next item.
    pub fn at(&self) -> u32
        ensures at { result ≡ self.now.place }
        ensures within { result ≤ length self.now.bytes.now }
    {
        self.place as u32
    }

    /// Whether nothing is left.
    pub fn is_end(&self) -> bool
        ensures { IsTrue result → drop self.now.place self.now.bytes.now ≡ [] }
    {
        self.place >= self.bytes.len()
    }

    /// The next bytes, so many. Where the file ends before them the item there is faulty.
    pub fn take(&mut self, count: usize) -> Result<&'a [u8], LibRefused>
        ensures same { self.new.bytes ≡ self.old.bytes }
        ensures within { IfErr result (StandsIn (length self.old.bytes.now)) }
        ensures taken { IfOk result (λ piece. (length piece.now ≡ count) × (drop self.old.place self.old.bytes.now ≡ piece.now ++ drop self.new.place self.new.bytes.now)) }
    {
        let left = self.bytes.len() - self.place;
        if count <= left {
            let from = self.place;
            self.place = from + count;
            Ok(&self.bytes[from..from + count])
        } else {
            Err(LibRefused::BadLibrary { at: self.at() })
        }
    }

    /// A byte.
    pub fn byte(&mut self) -> Result<u8, LibRefused>
        ensures same { self.new.bytes ≡ self.old.bytes }
        ensures within { IfErr result (StandsIn (length self.old.bytes.now)) }
        ensures read { IfOk result (λ b. drop self.old.place self.old.bytes.now ≡ b ∷ drop self.new.place self.new.bytes.now) }
    {
        match self.take(1)? {
            [byte] => Ok(*byte),
            _ => Err(LibRefused::BadLibrary { at: self.at() }),
        }
    }

    /// A number of two bytes.
    pub fn short(&mut self) -> Result<u16, LibRefused>
        ensures same { self.new.bytes ≡ self.old.bytes }
        ensures within { IfErr result (StandsIn (length self.old.bytes.now)) }
        ensures read { IfOk result (λ n. drop self.old.place self.old.bytes.now ≡ short n ++ drop self.new.place self.new.bytes.now) }
    {
        match self.take(2)? {
            [a, b] => Ok(u16::from_le_bytes([*a, *b])),
            _ => Err(LibRefused::BadLibrary { at: self.at() }),
        }
    }

    /// A number of four bytes.
    pub fn number(&mut self) -> Result<u32, LibRefused>
        ensures same { self.new.bytes ≡ self.old.bytes }
        ensures within { IfErr result (StandsIn (length self.old.bytes.now)) }
        ensures read { IfOk result (λ n. drop self.old.place self.old.bytes.now ≡ number n ++ drop self.new.place self.new.bytes.now) }
    {
        match self.take(4)? {
            [a, b, c, d] => Ok(u32::from_le_bytes([*a, *b, *c, *d])),
            _ => Err(LibRefused::BadLibrary { at: self.at() }),
        }
    }
}
