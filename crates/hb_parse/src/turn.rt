//! One token.
ghost use Rattle.std.specs.Prelude.{◌≡◌, IfOk, IfErr, OnOk, Some};
ghost use Rattle.std.specs.Str.{IsAscii};
ghost use Rattle.hb_grammar.specs.Machine as plain;
ghost use Rattle.hb_reader.specs.Signs.{sign};
ghost use Rattle.hb_reader.specs.States.{state};
ghost use Rattle.hb_parse.specs.Marks.{mark_of};
ghost use Rattle.hb_parse.specs.Signs.{value_of};
ghost use Rattle.hb_parse.specs.Numbers.{AddsParts, Extends};
ghost use Rattle.hb_parse.specs.Turns.{Counted, Fits, Goes, Halts, Overfull, Stops};

use super::level::level;
use super::mark::mark;
use super::number::{NONE, numbers};
use hb_base::{NameId, Names, NamesRefused, Span};
use hb_grammar::Mark;
use hb_lex::TokenKind;
use hb_reader::{Sign, State};
use std::alloc::{AllocError, Global};

/// The greatest nesting, and the most arguments of an application.
const NESTED: u32 = 200;

const APPLIED: u32 = 255;

/// Why the reader stops at a token.
#[derive(Clone, Copy)]
pub(crate) enum Stop {
    /// There is no way on.
    Stuck,
    /// The token passes a limit; where it is late, by an argument that began a token before.
    Deep { late: bool },
    /// A name is new, and no further one fits.
    Full,
    NoMemory,
}

impl From<AllocError> for Stop {
    ghost use Rattle.std.specs.Prelude.{◌≡◌};
    ghost use Rattle.hb_parse.specs.declared.turn.Stop.TheVariants.{NoMemory};

    ghost from_gives = { λ _ e. e ≡ NoMemory };

    fn from(_: AllocError) -> Stop {
        Stop::NoMemory
    }
}

/// The state behind one more token. `text` is the token's; the names that it needs are numbered.
pub(crate) fn turn(
    alloc: Global,
    names: &mut Names,
    around: State,
    kind: TokenKind,
    text: &[u8],
    place: Span,
) -> Result<State, Stop>
    requires { IsAscii text.now }
    ensures next { IfOk result (λ s. Goes names.new (state around) kind text.now place (state s)) }
    ensures fits { OnOk result (Fits (state around) (mark_of kind text.now)) }
    ensures stop { IfErr result (λ e. Stops names.new (state around) (mark_of kind text.now) text.now e) }
    ensures kept { Extends names.old names.new }
    ensures parts { AddsParts names.old names.new text.now }
    ensures counted { IfOk result (λ s. Counted names.old names.new (state around) (mark_of kind text.now) (state s)) }
{
    let mark = mark(kind, text);
    let value = value(kind, text);
    match numbers(names, around.needs(mark), text) {
        Ok((whole, first)) => advance(
            alloc,
            around,
            mark,
            Sign {
                whole,
                first,
                value,
                place,
            },
        ),
        Err(fault) => overfull(alloc, around, mark, unnamed(value, place), fault),
    }
}

/// A token without numbers.
fn unnamed(value: u8, place: Span) -> Sign {
    Sign {
        whole: NONE,
        first: NONE,
        value,
        place,
    }
}

/// Why the reader stops at a token with a name that gets no number: another fault comes first.
fn overfull(
    alloc: Global,
    around: State,
    mark: Mark,
    token: Sign,
    fault: NamesRefused,
) -> Result<State, Stop>
    ensures never { IfOk result (λ _. ⊥) }
    ensures stop { IfErr result (λ e. Overfull (state around) mark (sign token) fault e) }
{
    match advance(alloc, around, mark, token) {
        Ok(next) => {
            drop(next);
            match fault {
                NamesRefused::TooMany => Err(Stop::Full),
                NamesRefused::NoMemory => Err(Stop::NoMemory),
            }
        }
        Err(stop) => Err(stop),
    }
}

/// The value of a number's digits.
fn value(kind: TokenKind, text: &[u8]) -> u8
    ensures { result ≡ value_of kind text.now }
{
    match kind {
        TokenKind::Number => level(text),
        _ => 0,
    }
}

/// The state behind one more token, if there is a way on within the limits.
fn advance(alloc: Global, around: State, mark: Mark, token: Sign) -> Result<State, Stop>
    ensures next { IfOk result (λ s. plain.step (state around) mark (sign token) ≡ Some (state s)) }
    ensures fits { OnOk result (Fits (state around) mark) }
    ensures stop { IfErr result (λ e. Halts (state around) mark (sign token) e) }
{
    let fits = around.fits(mark, NESTED, APPLIED);
    let late = around.is_late(mark);
    match around.step(alloc, mark, token)? {
        None => Err(Stop::Stuck),
        Some(next) => {
            if fits {
                return Ok(next);
            }
            drop(next);
            Err(Stop::Deep { late })
        }
    }
}
