//! The first token of an argument, and of a term.
ghost use Rattle.std.specs.Prelude.{◌≡◌, Some, IfOk, option_map};
ghost use Rattle.hb_grammar.specs.declared.mark.Mark.TheVariants.{Forall, Fun};
ghost use Rattle.hb_grammar.specs.Machine as plain;
ghost use Rattle.hb_reader.specs.Arguments.{unbracketed};
ghost use Rattle.hb_reader.specs.Signs.{sign};
ghost use Rattle.hb_reader.specs.States.{kind};
ghost use Rattle.hb_reader.specs.Stacks.{stack};
ghost use Rattle.hb_reader.specs.Views.{before};

use super::binder::BinderState;
use super::frame::Frame;
use super::kind::Kind;
use super::part::{bare_part, hole_part, name_part, prop_part, type_part};
use super::sign::Sign;
use super::spine::Before;
use super::stack::{Binding, Stack};
use super::term::{TermState, have, want_in};
use hb_base::Span;
use hb_grammar::Mark;
use std::alloc::AllocError;

/// The first token of an argument.
pub fn argument(
    b: Before,
    around: Stack,
    mark: Mark,
    token: Sign,
) -> Result<Option<Kind>, AllocError>
    ensures { IfOk result (λ o. option_map kind o ≡ plain.argument (before b) (stack around) mark (sign token)) }
{
    match mark {
        Mark::Open => opened(b, around, token.place),
        _ => Ok(atom(b, around, mark, token)),
    }
}

/// A term in parentheses begins.
fn opened(b: Before, around: Stack, place: Span) -> Result<Option<Kind>, AllocError>
    ensures { IfOk result (λ o. option_map kind o ≡ Some (plain.want plain.first (plain.inside (before b) place (stack around)))) }
{
    want_in(around, Frame::Inside(b, place))
}

/// The first token of an argument without parentheses.
fn atom(b: Before, around: Stack, mark: Mark, token: Sign) -> Option<Kind>
    ensures { option_map kind result ≡ unbracketed (before b) (stack around) mark (sign token) }
{
    match mark {
        Mark::Ident | Mark::Pair(_) => Some(have(b, name_part(token.word()), around)),
        Mark::At => Some(Kind::Term(TermState::Bare(b, token.place, around))),
        Mark::Hole => Some(have(b, hole_part(token.place), around)),
        Mark::Prop => Some(have(b, prop_part(token.place), around)),
        Mark::Universe => {
            let universe = type_part(token.place);
            Some(Kind::Term(TermState::Have(b, universe, true, around)))
        }
        _ => None,
    }
}

/// Behind `@`.
pub fn bare_named(b: Before, at: Span, around: Stack, mark: Mark, token: Sign) -> Option<Kind>
    ensures { option_map kind result ≡ plain.bare_named (before b) at (stack around) mark (sign token) }
{
    match mark {
        Mark::Ident | Mark::Pair(_) => Some(have(b, bare_part(at, token.word()), around)),
        _ => None,
    }
}

/// The first token of a term or an argument.
pub fn wanted(b: Before, around: Stack, mark: Mark, token: Sign) -> Result<Option<Kind>, AllocError>
    ensures { IfOk result (λ o. option_map kind o ≡ plain.term_begins (before b) (stack around) mark (sign token)) }
{
    match mark {
        Mark::Forall => Ok(product_begins(b, around, token)),
        Mark::Fun => Ok(function_begins(b, around, token)),
        _ => argument(b, around, mark, token),
    }
}

/// At `forall`.
fn product_begins(b: Before, around: Stack, token: Sign) -> Option<Kind>
    ensures { option_map kind result ≡ plain.term_begins (before b) (stack around) Forall (sign token) }
{
    if b.is_first() {
        let of = Binding::Product(token.place, around);
        Some(Kind::Binder(BinderState::First(of)))
    } else {
        None
    }
}

/// At `fun`.
fn function_begins(b: Before, around: Stack, token: Sign) -> Option<Kind>
    ensures { option_map kind result ≡ plain.term_begins (before b) (stack around) Fun (sign token) }
{
    if b.is_first() {
        let of = Binding::Function(token.place, around);
        Some(Kind::Binder(BinderState::First(of)))
    } else {
        None
    }
}
