//! Identifiers, keywords and the hole.
ghost use Rattle.std.specs.Prelude.{◌≡◌};
ghost use Rattle.hb_lex.specs.Words.{word_kind, is_keyword};

use super::token::TokenKind;

/// What a word of identifier bytes is: a keyword, the hole or a name of one part.
pub fn word_kind(word: &[u8]) -> TokenKind
    ensures { result ≡ word_kind word.now }
{
    if word == b"_".as_slice() {
        TokenKind::Hole
    } else if is_keyword(word) {
        TokenKind::Keyword
    } else {
        TokenKind::Name
    }
}

fn is_keyword(word: &[u8]) -> bool
    ensures { result ≡ is_keyword word.now }
{
    word == b"Axiom".as_slice()
        || word == b"Context".as_slice()
        || word == b"Definition".as_slice()
        || word == b"Import".as_slice()
        || word == b"Prop".as_slice()
        || word == b"Record".as_slice()
        || word == b"Require".as_slice()
        || word == b"Type".as_slice()
        || word == b"forall".as_slice()
        || word == b"fun".as_slice()
        || word == b"of".as_slice()
}
