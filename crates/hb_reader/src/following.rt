//! The token behind an argument.
ghost use Rattle.std.specs.Prelude.{◌≡◌, Some, IfOk, option_map};
ghost use Rattle.hb_grammar.specs.Grammar as grammar;
ghost use Rattle.hb_grammar.specs.Machine as plain;
ghost use Rattle.hb_reader.specs.Arguments.{begins_argument, applied, ending};
ghost use Rattle.hb_reader.specs.Signs.{sign};
ghost use Rattle.hb_reader.specs.States.{kind};
ghost use Rattle.hb_reader.specs.Stacks.{stack};
ghost use Rattle.hb_reader.specs.Views.{part, before};

use super::argument::argument;
use super::frame::Frame;
use super::kind::Kind;
use super::part::Part;
use super::sign::Sign;
use super::spine::Before;
use super::stack::Stack;
use super::term::{TermState, want_in};
use hb_grammar::Mark;
use std::alloc::{AllocError, Global};

/// Whether a token begins an argument.
pub fn begins_argument(mark: Mark) -> bool
    ensures { result ≡ begins_argument mark }
{
    match mark {
        Mark::Ident | Mark::Pair(_) | Mark::At | Mark::Hole => true,
        Mark::Prop | Mark::Universe | Mark::Open => true,
        _ => false,
    }
}

/// One more argument begins.
fn applied(
    alloc: Global,
    b: Before,
    a: Part,
    around: Stack,
    mark: Mark,
    token: Sign,
) -> Result<Option<Kind>, AllocError>
    ensures { IfOk result (λ o. option_map kind o ≡ applied (before b) (part a) (stack around) mark (sign token)) }
{
    if b.is_alone() {
        return Ok(None);
    }
    let next = b.next(alloc, a)?;
    argument(next, around, mark, token)
}

/// The term that ends with the argument.
fn term_of(alloc: Global, b: Before, a: Part) -> Result<Part, AllocError>
    ensures { IfOk result (λ p. part p ≡ grammar.spine_part (plain.filled (before b) (part a))) }
{
    let filled = b.filled(alloc, a)?;
    filled.into_part(alloc)
}

/// The term ends before the token.
fn ended(
    alloc: Global,
    b: Before,
    a: Part,
    around: Stack,
    mark: Mark,
    token: Sign,
) -> Result<Option<Kind>, AllocError>
    ensures { IfOk result (λ o. option_map kind o ≡ ending (before b) (part a) (stack around) mark (sign token)) }
{
    let term = term_of(alloc, b, a)?;
    around.closed(alloc, mark, term, token)
}

/// An arrow behind a term without one.
fn arrowed(alloc: Global, b: Before, a: Part, around: Stack) -> Result<Option<Kind>, AllocError>
    ensures { IfOk result (λ o. option_map kind o ≡ plain.arrowed (before b) (part a) (stack around)) }
{
    if b.takes_arrow() {
        arrow_behind(alloc, b, a, around)
    } else {
        Ok(None)
    }
}

/// The right side of an arrow.
fn right(left: Part, around: Stack) -> Result<Option<Kind>, AllocError>
    ensures { IfOk result (λ o. option_map kind o ≡ Some (plain.want plain.first (plain.right (part left) (stack around)))) }
{
    want_in(around, Frame::Right(left))
}

/// Behind `a ->`.
fn arrow_behind(
    alloc: Global,
    b: Before,
    a: Part,
    around: Stack,
) -> Result<Option<Kind>, AllocError>
    ensures { IfOk result (λ o. option_map kind o ≡ Some (plain.want plain.first (plain.right (grammar.spine_part (plain.filled (before b) (part a))) (stack around)))) }
{
    let left = term_of(alloc, b, a)?;
    right(left, around)
}

/// The token behind an argument that isn't `.(`, `->` or an `@` behind `Type`.
fn applied_or_closed(
    alloc: Global,
    b: Before,
    a: Part,
    around: Stack,
    mark: Mark,
    token: Sign,
) -> Result<Option<Kind>, AllocError>
    ensures { IfOk result (λ o. option_map kind o ≡ plain.applied_or_closed (before b) (part a) (stack around) mark (sign token)) }
{
    if begins_argument(mark) {
        applied(alloc, b, a, around, mark, token)
    } else {
        ended(alloc, b, a, around, mark, token)
    }
}

/// The token behind an argument; `None` where there is no way on.
pub fn after_argument(
    alloc: Global,
    b: Before,
    a: Part,
    is_universe: bool,
    around: Stack,
    mark: Mark,
    token: Sign,
) -> Result<Option<Kind>, AllocError>
    ensures { IfOk result (λ o. option_map kind o ≡ plain.after_argument (before b) (part a) is_universe (stack around) mark (sign token)) }
{
    match mark {
        Mark::Project => Ok(Some(Kind::Term(TermState::Projecting(b, a, around)))),
        Mark::Arrow => arrowed(alloc, b, a, around),
        Mark::At => {
            if is_universe {
                let at = token.place;
                return Ok(Some(Kind::Term(TermState::UniverseAt(b, a, at, around))));
            }
            applied(alloc, b, a, around, Mark::At, token)
        }
        _ => applied_or_closed(alloc, b, a, around, mark, token),
    }
}
