//! Bytes, by what they can be in a token.
ghost use Rattle.std.specs.Prelude.{◌≡◌};
ghost use Rattle.hb_lex.specs.Letters.{class_of};

/// What a byte of a source can be.
#[derive(Clone, Copy)]
pub enum Class {
    /// A letter or `_`: what an identifier begins with.
    Alpha,
    Digit,
    Prime,
    Blank,
    Point,
    Star,
    Open,
    Close,
    Colon,
    Equals,
    Greater,
    Dash,
    /// A symbol of one byte that begins no other: `{ } , ; & @`.
    Single,
    /// What stands in comments alone.
    Other,
}

impl Class {
    /// The class of a byte.
    pub fn of(byte: u8) -> Class
        ensures { result ≡ class_of byte }
    {
        match byte {
            b'A'..=b'Z' | b'a'..=b'z' | b'_' => Class::Alpha,
            b'0'..=b'9' => Class::Digit,
            b'\'' => Class::Prime,
            b'\t' | b'\n' | b'\r' | b' ' => Class::Blank,
            b'.' => Class::Point,
            b'*' => Class::Star,
            b'(' => Class::Open,
            b')' => Class::Close,
            b':' => Class::Colon,
            b'=' => Class::Equals,
            b'>' => Class::Greater,
            b'-' => Class::Dash,
            b'{' | b'}' | b',' | b';' | b'&' | b'@' => Class::Single,
            _ => Class::Other,
        }
    }
}
