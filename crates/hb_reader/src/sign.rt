//! What a token says.
ghost use Rattle.std.specs.Prelude.{◌≡◌};
ghost use Rattle.hb_grammar.specs.Leaf.{word, first_word};
ghost use Rattle.hb_reader.specs.Signs.{sign};

use hb_base::{NameId, Span};
use hb_raw::Word;

/// The numbers of a token's text and of its first part, the value of its digits, and its place.
#[derive(Clone, Copy)]
pub struct Sign {
    /// The number of the whole text as a name.
    pub whole: NameId,
    /// The number of the first part of a name of two parts.
    pub first: NameId,
    /// The value of the digits, 64 for each above 63.
    pub value: u8,
    /// The place of the text.
    pub place: Span,
}

impl Sign {
    /// The token as a name.
    pub fn word(self) -> Word
        ensures { result ≡ word (sign self) }
    {
        Word {
            name: self.whole,
            span: self.place,
        }
    }

    /// The first part of the token, at the place of the whole.
    pub fn first_word(self) -> Word
        ensures { result ≡ first_word (sign self) }
    {
        Word {
            name: self.first,
            span: self.place,
        }
    }
}
