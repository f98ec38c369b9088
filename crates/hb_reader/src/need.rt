//! Which numbers a token needs.
ghost use Rattle.std.specs.Prelude.{◌≡◌};
ghost use Rattle.hb_reader.specs.Needs.{row_need, name_need};

use hb_grammar::{Mark, Second};

/// Which of a token's numbers the next step reads: of its whole text, of its first part.
#[derive(Clone, Copy, Debug, PartialEq, Eq)]
pub enum Need {
    Nothing,
    Whole,
    First,
    Both,
}

/// What is needed of a known token.
pub fn row_need(mark: Mark) -> Need
    ensures { result ≡ row_need mark }
{
    match mark {
        Mark::Ident => Need::Whole,
        Mark::Pair(second) => match second {
            Second::Build => Need::Both,
            Second::Carried => Need::First,
            _ => Need::Nothing,
        },
        _ => Need::Nothing,
    }
}

/// What is needed of a token elsewhere.
pub fn name_need(mark: Mark) -> Need
    ensures { result ≡ name_need mark }
{
    match mark {
        Mark::Ident | Mark::Pair(_) => Need::Whole,
        _ => Need::Nothing,
    }
}
