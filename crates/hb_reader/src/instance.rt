//! Instances.
ghost use Rattle.std.specs.Prelude.{◌≡◌, ◌++◌, ◌∷◌, [], Some, IfOk, option_map};
ghost use Rattle.hb_grammar.specs.Grammar as grammar;
ghost use Rattle.hb_grammar.specs.declared.mark.Mark as marks;
ghost use Rattle.hb_grammar.specs.Leaf as leaf;
ghost use Rattle.hb_grammar.specs.Machine as plain;
ghost use Rattle.hb_reader.specs.declared.instance.InstanceState.TheVariants as instances;
ghost use Rattle.hb_reader.specs.Measures.{IsMeasure, bracketed_leaf};
ghost use Rattle.hb_reader.specs.Needs.{is_row};
ghost use Rattle.hb_reader.specs.Signs.{sign};
ghost use Rattle.hb_reader.specs.States.{kind, placing, instance_state};
ghost use Rattle.hb_reader.specs.Views.{instance_of};

use super::frame::{Base, InstanceOf};
use super::kind::Kind;
use super::marks::same;
use super::measure::Measure;
use super::part::{joined, name_part};
use super::places::carrier_part;
use super::sign::Sign;
use super::spine::{Before, Spine};
use super::stack::Stack;
use super::term::{TermState, want_on};
use hb_base::Span;
use hb_grammar::{Mark, Second};
use hb_raw::Word;
use std::alloc::{AllocError, Global};

/// What has a carrier with arguments: an instance with a factory, or with a builder.
#[derive(Drop)]
pub enum Placing {
    Factory(InstanceOf, Word),
    /// The factory's word, and the whole.
    Builder(InstanceOf, Word, Word),
}

/// A place in an instance.
#[derive(Drop)]
pub enum InstanceState {
    Conditioned(InstanceOf),
    /// Behind the `(` of a condition.
    Name(InstanceOf),
    Names(InstanceOf, Vec<Word>),
    /// Behind the `:` of a condition.
    Type(InstanceOf, Vec<Word>),
    Close(InstanceOf, Vec<Word>, Option<Word>),
    /// Behind `:` and behind `:=`.
    Factory(InstanceOf),
    Build(InstanceOf),
    Placing(Placing),
    /// Behind the `(` of a carrier.
    PlaceName(Placing, Span),
    PlaceNames(Placing, Span, Word, Vec<Word>),
    /// The `:=` behind a carrier.
    Becomes(InstanceOf, Word, Word, Vec<Word>),
}

/// Words with one more.
fn with_word(mut words: Vec<Word>, word: Word) -> Result<Vec<Word>, AllocError>
    ensures { IfOk result (λ r. r.items ≡ words.items ++ (word ∷ [])) }
{
    words.push(word)?;
    Ok(words)
}

/// Conditions with one more for each word.
fn with_conditions(
    mut all: Vec<(Word, Option<Word>)>,
    words: &Vec<Word>,
    structure: Option<Word>,
) -> Result<Vec<(Word, Option<Word>)>, AllocError>
    ensures { IfOk result (λ r. r.items ≡ all.items ++ grammar.conditions words.now.items structure) }
{
    for word in words.iter() {
        all.push((*word, structure))?;
    }
    Ok(all)
}

/// Behind conditions.
fn after_conditions(of: InstanceOf, mark: Mark) -> Option<Kind>
    ensures { option_map kind result ≡ plain.after_conditions (instance_of of) mark }
{
    match mark {
        Mark::Open => Some(Kind::Instance(InstanceState::Name(of))),
        Mark::Colon => Some(Kind::Instance(InstanceState::Factory(of))),
        Mark::Becomes => Some(Kind::Instance(InstanceState::Build(of))),
        _ => None,
    }
}

/// The first name of a condition.
fn after_condition_open(
    alloc: Global,
    of: InstanceOf,
    mark: Mark,
    token: Sign,
) -> Result<Option<Kind>, AllocError>
    ensures { IfOk result (λ o. option_map kind o ≡ plain.step (instance_state (instances.Name of)) mark (sign token)) }
{
    if same(Mark::Ident, mark) {
        let words = with_word(Vec::new(alloc), token.word())?;
        Ok(Some(Kind::Instance(InstanceState::Names(of, words))))
    } else {
        Ok(None)
    }
}

/// Behind the names of a condition.
fn after_condition_names(
    of: InstanceOf,
    words: Vec<Word>,
    mark: Mark,
    token: Sign,
) -> Result<Option<Kind>, AllocError>
    ensures { IfOk result (λ o. option_map kind o ≡ plain.after_condition_names (instance_of of) words.items mark (sign token)) }
{
    match mark {
        Mark::Ident => {
            let more = with_word(words, token.word())?;
            Ok(Some(Kind::Instance(InstanceState::Names(of, more))))
        }
        Mark::Colon => Ok(Some(Kind::Instance(InstanceState::Type(of, words)))),
        _ => Ok(None),
    }
}

/// The type of a condition.
fn after_condition_type(of: InstanceOf, words: Vec<Word>, mark: Mark, token: Sign) -> Option<Kind>
    ensures { option_map kind result ≡ plain.step (plain.condition_typed (instance_of of) words.items) mark (sign token) }
{
    if same(Mark::Universe, mark) {
        Some(Kind::Instance(InstanceState::Close(of, words, None)))
    } else if same(Mark::Pair(Second::Carried), mark) {
        let structure = Some(token.first_word());
        Some(Kind::Instance(InstanceState::Close(of, words, structure)))
    } else {
        None
    }
}

/// The `)` of a condition.
fn after_condition(
    of: InstanceOf,
    words: Vec<Word>,
    structure: Option<Word>,
    mark: Mark,
) -> Result<Option<Kind>, AllocError>
    ensures { (w : leaf.Sign) → IfOk result (λ o. option_map kind o ≡ plain.step (instance_state (instances.Close of words structure)) mark w) }
{
    if !same(Mark::Close, mark) {
        return Ok(None);
    }
    let InstanceOf {
        start,
        name,
        conditions,
    } = of;
    let conditions = with_conditions(conditions, &words, structure)?;
    let of = InstanceOf {
        start,
        name,
        conditions,
    };
    Ok(Some(Kind::Instance(InstanceState::Conditioned(of))))
}

/// The factory of an instance.
fn after_colon(of: InstanceOf, mark: Mark, token: Sign) -> Option<Kind>
    ensures { option_map kind result ≡ plain.step (instance_state (instances.Factory of)) mark (sign token) }
{
    if same(Mark::Ident, mark) {
        let placing = Placing::Factory(of, token.word());
        Some(Kind::Instance(InstanceState::Placing(placing)))
    } else {
        None
    }
}

/// The builder of an instance.
fn after_becomes(of: InstanceOf, mark: Mark, token: Sign) -> Option<Kind>
    ensures { option_map kind result ≡ plain.step (instance_state (instances.Build of)) mark (sign token) }
{
    if same(Mark::Pair(Second::Build), mark) {
        let placing = Placing::Builder(of, token.first_word(), token.word());
        Some(Kind::Instance(InstanceState::Placing(placing)))
    } else {
        None
    }
}

/// Behind a carrier with its arguments.
fn placed(
    alloc: Global,
    p: Placing,
    carrier: Word,
    args: Vec<Word>,
    extent: Span,
) -> Result<Option<Kind>, AllocError>
    ensures { IfOk result (λ o. option_map kind o ≡ Some (plain.placed (placing p) carrier args.items extent)) }
{
    match p {
        Placing::Factory(of, factory) => {
            let state = InstanceState::Becomes(of, factory, carrier, args);
            Ok(Some(Kind::Instance(state)))
        }
        Placing::Builder(of, factory, build) => {
            let at = carrier_part(alloc, carrier, &args, extent)?;
            let spine = Spine::head(alloc, name_part(build)).with_argument(at)?;
            let around = Stack::on(alloc, Base::BuildValue(of, factory, carrier, args));
            Ok(Some(Kind::Term(TermState::More(Before::Making(spine), around))))
        }
    }
}

/// A carrier begins.
fn after_placing(
    alloc: Global,
    p: Placing,
    mark: Mark,
    token: Sign,
) -> Result<Option<Kind>, AllocError>
    ensures { IfOk result (λ o. option_map kind o ≡ plain.after_placing (placing p) mark (sign token)) }
{
    match mark {
        Mark::Ident => placed(alloc, p, token.word(), Vec::new(alloc), token.place),
        Mark::Open => Ok(Some(Kind::Instance(InstanceState::PlaceName(p, token.place)))),
        _ => Ok(None),
    }
}

/// Behind the `(` of a carrier.
fn after_place_open(alloc: Global, p: Placing, start: Span, mark: Mark, token: Sign) -> Option<Kind>
    ensures { option_map kind result ≡ plain.step (instance_state (instances.PlaceName p start)) mark (sign token) }
{
    if same(Mark::Ident, mark) {
        let state = InstanceState::PlaceNames(p, start, token.word(), Vec::new(alloc));
        Some(Kind::Instance(state))
    } else {
        None
    }
}

/// Behind the names of a carrier.
fn after_place_names(
    alloc: Global,
    p: Placing,
    start: Span,
    carrier: Word,
    args: Vec<Word>,
    mark: Mark,
    token: Sign,
) -> Result<Option<Kind>, AllocError>
    ensures { IfOk result (λ o. option_map kind o ≡ plain.after_place_names (placing p) start carrier args.items mark (sign token)) }
{
    match mark {
        Mark::Ident => {
            let more = with_word(args, token.word())?;
            Ok(Some(Kind::Instance(InstanceState::PlaceNames(p, start, carrier, more))))
        }
        Mark::Close => placed(alloc, p, carrier, args, joined(start, token.place)),
        _ => Ok(None),
    }
}

/// The `:=` behind a carrier.
fn after_carrier(
    alloc: Global,
    of: InstanceOf,
    factory: Word,
    carrier: Word,
    args: Vec<Word>,
    mark: Mark,
) -> Option<Kind>
    ensures { (w : leaf.Sign) → option_map kind result ≡ plain.step (instance_state (instances.Becomes of factory carrier args)) mark w }
{
    if same(Mark::Becomes, mark) {
        Some(want_on(alloc, Base::InstanceValue(of, factory, carrier, args)))
    } else {
        None
    }
}

impl InstanceState {
    /// What comes behind a token; `None` where there is no way on.
    pub fn after(self, alloc: Global, mark: Mark, token: Sign) -> Result<Option<Kind>, AllocError>
        ensures { IfOk result (λ o. option_map kind o ≡ plain.step (instance_state self) mark (sign token)) }
    {
        match self {
            InstanceState::Conditioned(i) => Ok(after_conditions(i, mark)),
            InstanceState::Name(i) => after_condition_open(alloc, i, mark, token),
            InstanceState::Names(i, ws) => after_condition_names(i, ws, mark, token),
            InstanceState::Type(i, ws) => Ok(after_condition_type(i, ws, mark, token)),
            InstanceState::Close(i, ws, s) => after_condition(i, ws, s, mark),
            InstanceState::Factory(i) => Ok(after_colon(i, mark, token)),
            InstanceState::Build(i) => Ok(after_becomes(i, mark, token)),
            InstanceState::Placing(p) => after_placing(alloc, p, mark, token),
            InstanceState::PlaceName(p, x) => Ok(after_place_open(alloc, p, x, mark, token)),
            InstanceState::PlaceNames(p, x, k, ws) => {
                after_place_names(alloc, p, x, k, ws, mark, token)
            }
            InstanceState::Becomes(i, f, k, ws) => Ok(after_carrier(alloc, i, f, k, ws, mark)),
        }
    }

    /// The nesting of a token, and the number of the argument that it begins.
    pub fn measure(&self, mark: Mark) -> Measure
        ensures { (w : leaf.Sign) → IsMeasure result (plain.read (instance_state self.now) mark w) }
    {
        match self {
            InstanceState::Conditioned(_) => bracket(mark, 0),
            InstanceState::Name(_) => flat(1, 0),
            InstanceState::Names(_, _) => flat(1, 0),
            InstanceState::Type(_, _) => flat(1, 0),
            InstanceState::Close(_, _, _) => flat(1, 0),
            InstanceState::Factory(_) => flat(0, 0),
            InstanceState::Build(_) => flat(0, 0),
            InstanceState::Placing(p) => bracket(mark, p.argument()),
            InstanceState::PlaceName(_, _) => flat(1, 0),
            InstanceState::PlaceNames(_, _, _, ws) => place(mark, ws),
            InstanceState::Becomes(_, _, _, _) => flat(0, 0),
        }
    }

    /// Whether a known token has to come.
    pub fn is_row(&self) -> bool
        ensures { result ≡ is_row (instance_state self.now) }
    {
        match self {
            InstanceState::Name(_) | InstanceState::Type(_, _) => true,
            InstanceState::Close(_, _, _) | InstanceState::PlaceName(_, _) => true,
            InstanceState::Factory(_) | InstanceState::Build(_) => true,
            InstanceState::Becomes(_, _, _, _) => true,
            InstanceState::Conditioned(_) | InstanceState::Names(_, _) => false,
            InstanceState::Placing(_) | InstanceState::PlaceNames(_, _, _, _) => false,
        }
    }
}

impl Placing {
    /// The number of the argument that the carrier is.
    fn argument(&self) -> u64
        ensures { result ≡ plain.placing_argument (placing self.now) }
    {
        match self {
            Placing::Factory(_, _) => 0,
            Placing::Builder(_, _, _) => 1,
        }
    }
}

/// The counts of a token.
pub fn flat(nested: u64, applied: u64) -> Measure
    ensures { result ≡ record { nested = nested; applied = applied } }
{
    Measure { nested, applied }
}

/// A token that may be `(`.
fn bracket(mark: Mark, applied: u64) -> Measure
    ensures { (w : leaf.Sign) → IsMeasure result (bracketed_leaf mark w applied) }
{
    match mark {
        Mark::Open => flat(1, applied),
        _ => flat(0, applied),
    }
}

/// A token behind the names of a carrier.
fn place(mark: Mark, args: &Vec<Word>) -> Measure
    ensures { (w : leaf.Sign) → IsMeasure result (plain.place_leaf args.now.items mark w) }
{
    match mark {
        Mark::Ident => flat(1, args.len() as u64 + 1),
        _ => flat(1, 0),
    }
}
