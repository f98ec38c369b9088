//! The state of the reader between two tokens.
ghost use Rattle.std.specs.Prelude.{◌≡◌, ◌↔◌, ◌-◌, ℕ, IsTrue, IfOk, IfErr, None, cond, option_map};
ghost use Rattle.hb_raw.specs.Views.{command};
ghost use Rattle.hb_grammar.specs.Leaf as leaf;
ghost use Rattle.hb_grammar.specs.Places.{IsWithin, place_of};
ghost use Rattle.hb_grammar.specs.Machine as plain;
ghost use Rattle.hb_reader.specs.declared.kind.Kind.TheVariants as kinds;
ghost use Rattle.hb_reader.specs.Measures.{IsMeasure};
ghost use Rattle.hb_reader.specs.Needs.{Agree, need, is_row};
ghost use Rattle.hb_reader.specs.Signs.{sign};
ghost use Rattle.hb_reader.specs.States.{kind, state, finished_in, is_between};

use super::begin::begins;
use super::instance::flat;
use super::kind::Kind;
use super::marks::same;
use super::measure::Measure;
use super::need::{Need, name_need, row_need};
use super::sign::Sign;
use hb_grammar::Mark;
use hb_raw::Command;
use std::alloc::{AllocError, Global};

/// The state of the reader between two tokens.
#[derive(Drop)]
pub struct State {
    pub(crate) kind: Kind,
}

impl Kind {
    /// What comes behind a token; `None` where there is no way on.
    fn after(self, alloc: Global, mark: Mark, token: Sign) -> Result<Option<Kind>, AllocError>
        ensures { IfOk result (λ o. option_map kind o ≡ plain.step (kind self) mark (sign token)) }
    {
        match self {
            Kind::Begin => Ok(begins(mark, token)),
            Kind::Done(_) => Ok(None),
            Kind::Finish(command) => Ok(after_finish(command, mark)),
            Kind::Row(r) => Ok(r.after(alloc, mark, token)),
            Kind::Term(t) => t.after(alloc, mark, token),
            Kind::Binder(b) => b.after(alloc, mark, token),
            Kind::List(l) => l.after(alloc, mark, token),
            Kind::Instance(i) => i.after(alloc, mark, token),
        }
    }

    /// The nesting of a token, and the number of the argument that it begins.
    fn measure(&self, mark: Mark) -> Measure
        ensures { (w : leaf.Sign) → IsMeasure result (plain.read (kind self.now) mark w) }
    {
        match self {
            Kind::Begin => flat(0, 0),
            Kind::Done(_) => flat(0, 0),
            Kind::Finish(_) => flat(0, 0),
            Kind::Row(r) => flat(u64::from(r.nesting(mark)), 0),
            Kind::Term(t) => t.measure(mark),
            Kind::Binder(b) => b.measure(mark),
            Kind::List(_) => flat(0, 0),
            Kind::Instance(i) => i.measure(mark),
        }
    }

    /// Whether an argument that the token begins has begun a token before.
    fn is_late(&self, mark: Mark) -> bool
        ensures { (w : leaf.Sign) (n : ℕ) → place_of (plain.read (kind self.now) mark w) n ≡ cond result (n - 1) n }
    {
        match self {
            Kind::Begin | Kind::Done(_) | Kind::Finish(_) => false,
            Kind::Row(_) => false,
            Kind::Term(t) => t.is_late(mark),
            Kind::Binder(_) => false,
            Kind::List(_) => false,
            Kind::Instance(_) => false,
        }
    }

    /// Whether the reader is between two sentences.
    fn is_begin(&self) -> bool
        ensures { result ≡ is_between (kind self.now) }
    {
        match self {
            Kind::Begin => true,
            Kind::Done(_) | Kind::Finish(_) => false,
            Kind::Row(_) => false,
            Kind::Term(_) => false,
            Kind::Binder(_) => false,
            Kind::List(_) => false,
            Kind::Instance(_) => false,
        }
    }

    /// Whether a known token has to come.
    fn is_row(&self) -> bool
        ensures { result ≡ is_row (kind self.now) }
    {
        match self {
            Kind::Begin | Kind::Done(_) => false,
            Kind::Finish(_) => true,
            Kind::Row(_) => true,
            Kind::Term(t) => t.is_row(),
            Kind::Binder(_) => false,
            Kind::List(l) => l.is_row(),
            Kind::Instance(i) => i.is_row(),
        }
    }

    /// Which of the token's numbers the step reads.
    fn needs(&self, mark: Mark) -> Need
        ensures { result ≡ need (kind self.now) mark }
    {
        if self.is_begin() {
            Need::Nothing
        } else if self.is_row() {
            row_need(mark)
        } else {
            name_need(mark)
        }
    }
}

/// The point that ends a sentence.
fn after_finish(command: Command, mark: Mark) -> Option<Kind>
    ensures { (w : leaf.Sign) → option_map kind result ≡ plain.step (kind (kinds.Finish command)) mark w }
{
    if same(Mark::End, mark) {
        Some(Kind::Done(command))
    } else {
        None
    }
}

impl State {
    /// Between two sentences.
    pub fn begin() -> State
        ensures { state result ≡ plain.begin }
    {
        State { kind: Kind::Begin }
    }

    /// Whether the reader is between two sentences.
    pub fn is_begin(&self) -> bool
        ensures { result ≡ is_between (state self.now) }
    {
        self.kind.is_begin()
    }

    /// The state behind one more token; `None` where there is no way on.
    pub fn step(self, alloc: Global, mark: Mark, token: Sign) -> Result<Option<State>, AllocError>
        ensures steps { IfOk result (λ o. option_map state o ≡ plain.step (state self) mark (sign token)) }
    {
        match self.kind.after(alloc, mark, token)? {
            Some(kind) => Ok(Some(State { kind })),
            None => Ok(None),
        }
    }

    /// Which of the token's numbers the step reads: with others in the place of those that it
    /// doesn't, it leads to the same state.
    pub fn needs(&self, mark: Mark) -> Need
        ensures exactly { result ≡ need (state self.now) mark }
        ensures suffices { (w v : leaf.Sign) → Agree result w v → plain.step (state self.now) mark w ≡ plain.step (state self.now) mark v }
    {
        self.kind.needs(mark)
    }

    /// Whether the token is within the greatest nesting and the greatest number of arguments.
    pub fn fits(&self, mark: Mark, nested: u32, applied: u32) -> bool
        ensures within { (w : leaf.Sign) → IsTrue result ↔ IsWithin (record { nested = nested; applied = applied }) (plain.read (state self.now) mark w) }
    {
        let measure = self.kind.measure(mark);
        measure.nested <= u64::from(nested) && measure.applied <= u64::from(applied)
    }

    /// Whether an argument that the token begins has begun a token before.
    pub fn is_late(&self, mark: Mark) -> bool
        ensures place { (w : leaf.Sign) (n : ℕ) → place_of (plain.read (state self.now) mark w) n ≡ cond result (n - 1) n }
    {
        self.kind.is_late(mark)
    }

    /// The sentence that ended with the last token; else the state as it is.
    pub fn finished(self) -> Result<Command, State>
        ensures ended { IfOk result (λ c. state self ≡ plain.done (command c)) }
        ensures same { IfErr result (λ s. state s ≡ state self) }
        ensures going { IfErr result (λ s. finished_in (state s) ≡ None) }
    {
        match self.kind {
            Kind::Done(c) => Ok(c),
            kind => Err(State { kind }),
        }
    }
}
