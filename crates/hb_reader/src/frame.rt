//! What is open around a term.
ghost use Rattle.std.specs.Prelude.{◌≡◌};
ghost use Rattle.hb_raw.specs.Views.{group, groups};
ghost use Rattle.hb_grammar.specs.Machine as plain;
ghost use Rattle.hb_reader.specs.Frames.{frame_of, base_of, nesting_of};
ghost use Rattle.hb_reader.specs.Measures.{counted};
ghost use Rattle.hb_reader.specs.Views.{bound_by, bound_in};

use super::part::Part;
use super::spine::Before;
use hb_base::{NameId, Span};
use hb_raw::{Binder, Field, Item, Raw, Word};

/// Bound names with their places.
pub type Bounds = Vec<(Option<NameId>, Span)>;

/// A mixin or factory up to its fields.
#[derive(Drop)]
pub struct RecordOf {
    pub is_factory: bool,
    pub start: Span,
    pub name: Word,
    pub carrier: Word,
    pub items: Vec<Item>,
}

/// An instance up to its factory.
#[derive(Drop)]
pub struct InstanceOf {
    pub start: Span,
    pub name: Option<Word>,
    pub conditions: Vec<(Word, Option<Word>)>,
}

/// The word that begins binders in a term.
#[derive(Clone, Copy)]
pub enum Opener {
    Forall(Span),
    Fun(Span),
}

/// What is open around a term inside another term.
#[derive(Drop)]
pub enum Frame {
    /// Behind `a ->`.
    Right(Part),
    /// Behind `f (`.
    Inside(Before, Span),
    /// Behind `f (t :`.
    Casting(Before, Span, Part),
    /// The type of a lone list of binders, of a group in its brackets, and what they bind.
    Lone(Opener, Bounds),
    GroupType(Opener, Vec<Binder>, Bounds),
    Body(Opener, Vec<Binder>),
}

/// What a term is in its sentence.
#[derive(Drop)]
pub enum Base {
    AxiomType(Span, Word),
    /// The type of a group in the brackets of a definition's binders.
    DefinitionGroup(Span, Word, Vec<Binder>, Bounds),
    DefinitionType(Span, Word, Vec<Binder>),
    DefinitionBody(Span, Word, Vec<Binder>, Option<Raw>),
    FieldType(RecordOf, Vec<Field>, Word),
    InstanceValue(InstanceOf, Word, Word, Vec<Word>),
    BuildValue(InstanceOf, Word, Word, Vec<Word>),
    CarrierFound(Span, Word),
}

/// How many bound names, arrows and brackets are around a term, and around what closes it. A number
/// stands still at the end of its type.
#[derive(Clone, Copy)]
pub struct Nesting {
    pub within: u64,
    pub closing: u64,
}

/// How many names a group binds.
#[tactic(auto, using(crate::proofs::GroupLemmas::bound_by_of))]
fn name_count(g: &Binder) -> u64
    ensures { result ≡ bound_by (group g.now) }
{
    match g {
        Binder { names, ty: _ } => names.len() as u64,
    }
}

/// How many names groups bind.
fn bound_count(gs: &Vec<Binder>) -> u64
    ensures { result ≡ counted (bound_in (groups gs.now.items)) }
{
    let mut sum: u64 = 0;
    for g in gs.iter() {
        sum = sum.saturating_add(name_count(g));
    }
    sum
}

impl Nesting {
    fn new(within: u64, closing: u64) -> Nesting
        ensures { result ≡ record { within = within; closing = closing } }
    {
        Nesting { within, closing }
    }
}

impl Frame {
    /// The nesting in it, where that around it is known.
    pub fn nesting(&self, around: Nesting) -> Nesting
        ensures { (k : plain.Stack) → around ≡ nesting_of k → result ≡ nesting_of (frame_of self.now k) }
    {
        let within = around.within;
        let bracketed = within.saturating_add(1);
        match self {
            Frame::Right(_) => Nesting::new(bracketed, around.closing),
            Frame::Inside(_, _) => Nesting::new(bracketed, bracketed),
            Frame::Casting(_, _, _) => Nesting::new(bracketed, bracketed),
            Frame::Lone(_, _) => Nesting::new(within, within),
            Frame::GroupType(_, gs, _) => {
                Nesting::new(bracketed.saturating_add(bound_count(gs)), bracketed)
            }
            Frame::Body(_, gs) => {
                Nesting::new(within.saturating_add(bound_count(gs)), around.closing)
            }
        }
    }
}

impl Base {
    /// The nesting in it.
    pub fn nesting(&self) -> Nesting
        ensures { result ≡ nesting_of (base_of self.now) }
    {
        match self {
            Base::DefinitionGroup(_, _, gs, _) => Nesting::new(
                bound_count(gs).saturating_add(1),
                1,
            ),
            Base::DefinitionType(_, _, gs) => Nesting::new(bound_count(gs), 0),
            Base::DefinitionBody(_, _, gs, _) => Nesting::new(bound_count(gs), 0),
            Base::AxiomType(_, _) | Base::CarrierFound(_, _) => Nesting::new(0, 0),
            Base::FieldType(_, _, _) => Nesting::new(0, 0),
            Base::InstanceValue(_, _, _, _) | Base::BuildValue(_, _, _, _) => Nesting::new(0, 0),
        }
    }
}
