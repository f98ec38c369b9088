//! Marks by number.
ghost use Rattle.std.specs.Prelude.{◌≡◌};
ghost use Rattle.hb_grammar.specs.Machine as plain;

use hb_grammar::{Mark, Second};

/// The number of a second part.
fn second_code(second: Second) -> u8
    ensures { result ≡ plain.second_code second }
{
    match second {
        Second::Plain => 40,
        Second::Build => 41,
        Second::Carried => 42,
        Second::Mixin => 43,
        Second::Factory => 44,
        Second::Builders => 45,
        Second::End => 46,
        Second::Structure => 47,
        Second::Instance => 48,
        Second::Join => 49,
        Second::Find => 50,
        Second::Howto => 51,
        Second::About => 52,
    }
}

/// The number of a mark.
fn code(mark: Mark) -> u8
    ensures { result ≡ plain.code mark }
{
    match mark {
        Mark::Ident => 0,
        Mark::Pair(second) => second_code(second),
        Mark::Axiom => 1,
        Mark::Context => 2,
        Mark::Definition => 3,
        Mark::Import => 4,
        Mark::Prop => 5,
        Mark::Record => 6,
        Mark::Require => 7,
        Mark::Universe => 8,
        Mark::Forall => 9,
        Mark::Fun => 10,
        Mark::Of => 11,
        Mark::Hole => 12,
        Mark::Number => 13,
        Mark::Open => 14,
        Mark::Close => 15,
        Mark::Brace => 16,
        Mark::Unbrace => 17,
        Mark::Colon => 18,
        Mark::Becomes => 19,
        Mark::Gives => 20,
        Mark::Arrow => 21,
        Mark::Comma => 22,
        Mark::Semicolon => 23,
        Mark::Ampersand => 24,
        Mark::At => 25,
        Mark::Project => 26,
        Mark::End => 27,
        Mark::Other => 28,
    }
}

/// Whether two marks are the same.
pub fn same(a: Mark, b: Mark) -> bool
    ensures { result ≡ plain.same a b }
{
    code(a) == code(b)
}
