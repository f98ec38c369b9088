//! Terms.
ghost use Rattle.std.specs.Prelude.{◌≡◌, ◌-◌, ℕ, Some, false, cond, IfOk, option_map};
ghost use Rattle.hb_grammar.specs.Leaf as leaf;
ghost use Rattle.hb_grammar.specs.Places.{place_of};
ghost use Rattle.hb_grammar.specs.Machine as plain;
ghost use Rattle.hb_reader.specs.declared.term.TermState.TheVariants as terms;
ghost use Rattle.hb_reader.specs.Arguments.{bare_behind};
ghost use Rattle.hb_reader.specs.Frames.{base_of, frame_of};
ghost use Rattle.hb_reader.specs.Measures.{IsMeasure};
ghost use Rattle.hb_reader.specs.Needs.{is_row};
ghost use Rattle.hb_reader.specs.Signs.{sign};
ghost use Rattle.hb_reader.specs.States.{kind, term_state};
ghost use Rattle.hb_reader.specs.Stacks.{stack};
ghost use Rattle.hb_reader.specs.Views.{part, spine, before};

use super::argument::{argument, bare_named, wanted};
use super::following::after_argument;
use super::frame::{Base, Frame};
use super::kind::Kind;
use super::marks::same;
use super::measure::{
    Measure, behind, making as making_measure, universe_at, wanted as wanted_measure, within,
};
use super::part::{Part, level_part, projected_part};
use super::sign::Sign;
use super::spine::{Before, Spine};
use super::stack::Stack;
use hb_base::{NameId, Span};
use hb_grammar::Mark;
use std::alloc::{AllocError, Global};

/// A place in a term.
#[derive(Drop)]
pub enum TermState {
    /// A term, or an argument, has to come.
    Want(Before, Stack),
    /// An argument was read; whether it is a `Type` without a level.
    Have(Before, Part, bool, Stack),
    /// Behind the carrier of a builder.
    More(Before, Stack),
    /// Behind `@`.
    Bare(Before, Span, Stack),
    /// Behind `Type @`.
    UniverseAt(Before, Part, Span, Stack),
    /// Behind `Type @ {`.
    Level(Before, Part, Stack),
    LevelClose(Before, Part, u8, Stack),
    /// Behind `.(`.
    Projecting(Before, Part, Stack),
    ProjectClose(Before, Part, NameId, Stack),
}

/// A term that has been read up to an argument.
pub fn have(b: Before, a: Part, around: Stack) -> Kind
    ensures { kind result ≡ plain.have (before b) (part a) false (stack around) }
{
    Kind::Term(TermState::Have(b, a, false, around))
}

/// A term that has to come.
pub fn want(around: Stack) -> Kind
    ensures { kind result ≡ plain.want plain.first (stack around) }
{
    Kind::Term(TermState::Want(Before::First, around))
}

/// A term that has to come in one more frame.
pub fn want_in(around: Stack, frame: Frame) -> Result<Option<Kind>, AllocError>
    ensures { IfOk result (λ o. option_map kind o ≡ Some (plain.want plain.first (frame_of frame (stack around)))) }
{
    let around = around.push(frame)?;
    Ok(Some(want(around)))
}

/// The first term of a sentence, or of a part of it, that has to come.
pub fn want_on(alloc: Global, base: Base) -> Kind
    ensures { kind result ≡ plain.want plain.first (base_of base) }
{
    want(Stack::on(alloc, base))
}

/// Behind the carrier of a builder.
fn after_carrier(
    alloc: Global,
    b: Before,
    around: Stack,
    mark: Mark,
    token: Sign,
) -> Result<Option<Kind>, AllocError>
    ensures { IfOk result (λ o. option_map kind o ≡ plain.after_carrier (before b) (stack around) mark (sign token)) }
{
    match b.into_making() {
        Some(built) => making(alloc, built, around, mark, token),
        None => Ok(None),
    }
}

/// Behind a builder with arguments.
fn making(
    alloc: Global,
    built: Spine,
    around: Stack,
    mark: Mark,
    token: Sign,
) -> Result<Option<Kind>, AllocError>
    ensures { IfOk result (λ o. option_map kind o ≡ plain.after_carrier (plain.making (spine built)) (stack around) mark (sign token)) }
{
    match mark {
        Mark::End => {
            let value = built.into_part(alloc)?;
            around.closed(alloc, Mark::End, value, token)
        }
        _ => argument(Before::Making(built), around, mark, token),
    }
}

/// A name behind `Type @`.
fn bare_behind(
    alloc: Global,
    b: Before,
    a: Part,
    at: Span,
    around: Stack,
    mark: Mark,
    token: Sign,
) -> Result<Option<Kind>, AllocError>
    ensures { IfOk result (λ o. option_map kind o ≡ bare_behind (before b) (part a) at (stack around) mark (sign token)) }
{
    if b.is_alone() {
        return Ok(None);
    }
    let next = b.next(alloc, a)?;
    Ok(bare_named(next, at, around, mark, token))
}

/// Behind `Type @`.
fn after_universe_at(
    alloc: Global,
    b: Before,
    a: Part,
    at: Span,
    around: Stack,
    mark: Mark,
    token: Sign,
) -> Result<Option<Kind>, AllocError>
    ensures { IfOk result (λ o. option_map kind o ≡ plain.after_universe_at (before b) (part a) at (stack around) mark (sign token)) }
{
    match mark {
        Mark::Brace => Ok(Some(Kind::Term(TermState::Level(b, a, around)))),
        _ => bare_behind(alloc, b, a, at, around, mark, token),
    }
}

/// Behind `Type @ {`.
fn after_level(b: Before, a: Part, around: Stack, mark: Mark, token: Sign) -> Option<Kind>
    ensures { option_map kind result ≡ plain.step (plain.level_begins (before b) (part a) (stack around)) mark (sign token) }
{
    if same(Mark::Number, mark) {
        Some(Kind::Term(TermState::LevelClose(b, a, token.value, around)))
    } else {
        None
    }
}

/// Behind the number of a level.
fn after_number(
    b: Before,
    a: Part,
    level: u8,
    around: Stack,
    mark: Mark,
    token: Sign,
) -> Option<Kind>
    ensures { option_map kind result ≡ plain.step (term_state (terms.LevelClose b a level around)) mark (sign token) }
{
    if same(Mark::Unbrace, mark) {
        Some(have(b, level_part(a, level, token.place), around))
    } else {
        None
    }
}

/// Behind `.(`.
fn after_project(b: Before, a: Part, around: Stack, mark: Mark, token: Sign) -> Option<Kind>
    ensures { option_map kind result ≡ plain.projection_named (before b) (part a) (stack around) mark (sign token) }
{
    match mark {
        Mark::Ident | Mark::Pair(_) => {
            Some(Kind::Term(TermState::ProjectClose(b, a, token.whole, around)))
        }
        _ => None,
    }
}

/// Behind the name of a projection.
fn after_projection(
    alloc: Global,
    b: Before,
    a: Part,
    name: NameId,
    around: Stack,
    mark: Mark,
    token: Sign,
) -> Result<Option<Kind>, AllocError>
    ensures { IfOk result (λ o. option_map kind o ≡ plain.step (plain.projected_name (before b) (part a) (stack around) name) mark (sign token)) }
{
    if same(Mark::Close, mark) {
        let projected = projected_part(alloc, a, name, token.place)?;
        Ok(Some(have(b, projected, around)))
    } else {
        Ok(None)
    }
}

impl TermState {
    /// What comes behind a token; `None` where there is no way on.
    pub fn after(self, alloc: Global, mark: Mark, token: Sign) -> Result<Option<Kind>, AllocError>
        ensures { IfOk result (λ o. option_map kind o ≡ plain.step (term_state self) mark (sign token)) }
    {
        match self {
            TermState::Want(b, k) => wanted(b, k, mark, token),
            TermState::Have(b, a, e, k) => after_argument(alloc, b, a, e, k, mark, token),
            TermState::More(b, k) => after_carrier(alloc, b, k, mark, token),
            TermState::Bare(b, x, k) => Ok(bare_named(b, x, k, mark, token)),
            TermState::UniverseAt(b, a, x, k) => {
                after_universe_at(alloc, b, a, x, k, mark, token)
            }
            TermState::Level(b, a, k) => Ok(after_level(b, a, k, mark, token)),
            TermState::LevelClose(b, a, n, k) => Ok(after_number(b, a, n, k, mark, token)),
            TermState::Projecting(b, a, k) => Ok(after_project(b, a, k, mark, token)),
            TermState::ProjectClose(b, a, n, k) => {
                after_projection(alloc, b, a, n, k, mark, token)
            }
        }
    }

    /// The nesting of a token, and the number of the argument that it begins.
    pub fn measure(&self, mark: Mark) -> Measure
        ensures { (w : leaf.Sign) → IsMeasure result (plain.read (term_state self.now) mark w) }
    {
        match self {
            TermState::Want(b, k) => wanted_measure(b, k, mark),
            TermState::Have(b, _, e, k) => behind(b, *e, k, mark),
            TermState::More(b, k) => making_measure(b, k, mark),
            TermState::Bare(_, _, k) => within(k),
            TermState::UniverseAt(b, _, _, k) => universe_at(b, k, mark),
            TermState::Level(_, _, k) => within(k),
            TermState::LevelClose(_, _, _, k) => within(k),
            TermState::Projecting(_, _, k) => within(k),
            TermState::ProjectClose(_, _, _, k) => within(k),
        }
    }

    /// Whether an argument that the token begins has begun a token before.
    pub fn is_late(&self, mark: Mark) -> bool
        ensures { (w : leaf.Sign) (n : ℕ) → place_of (plain.read (term_state self.now) mark w) n ≡ cond result (n - 1) n }
    {
        match self {
            TermState::UniverseAt(_, _, _, _) => !same(Mark::Brace, mark),
            TermState::Want(_, _) | TermState::Have(_, _, _, _) => false,
            TermState::More(_, _) | TermState::Bare(_, _, _) => false,
            TermState::Level(_, _, _) | TermState::LevelClose(_, _, _, _) => false,
            TermState::Projecting(_, _, _) | TermState::ProjectClose(_, _, _, _) => false,
        }
    }

    /// Whether a known token has to come.
    pub fn is_row(&self) -> bool
        ensures { result ≡ is_row (term_state self.now) }
    {
        match self {
            TermState::Level(_, _, _) | TermState::LevelClose(_, _, _, _) => true,
            TermState::ProjectClose(_, _, _, _) => true,
            TermState::Want(_, _) | TermState::Have(_, _, _, _) => false,
            TermState::More(_, _) | TermState::Bare(_, _, _) => false,
            TermState::UniverseAt(_, _, _, _) | TermState::Projecting(_, _, _) => false,
        }
    }
}
