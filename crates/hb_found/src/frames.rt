//! Walks, and the looks that wait for the walk of an argument.
use crate::ends::End;
use crate::key::Key;
use hb_order::StructId;
use hb_sets::MixSet;
use hb_term::{ConstId, Part, Term};
use std::vec::Vec;

/// A walk for the first key that has a set: its first term, before whose look `start` moves were taken, and
/// its next one, before whose look there are `moves`.
#[derive(Drop)]
pub(crate) struct Walker {
    pub(crate) set: MixSet,
    pub(crate) start: u64,
    pub(crate) first: Term,
    pub(crate) next: Part,
    pub(crate) moves: u64,
}

/// The look at a constant with arguments, in its walk: what it needs of each, the values of the first `at`
/// arguments, and the moves after the looks at these.
#[derive(Drop)]
pub(crate) struct Frame {
    pub(crate) walker: Walker,
    pub(crate) constant: ConstId,
    pub(crate) needs: Vec<Option<StructId>>,
    pub(crate) args: Vec<Term>,
    pub(crate) at: usize,
    pub(crate) values: Option<Vec<Term>>,
    pub(crate) moves: u64,
}

/// A look that waits for the walk of its next argument, of which it needs the structure.
#[derive(Drop)]
pub(crate) struct Waiting {
    pub(crate) frame: Frame,
    pub(crate) structure: StructId,
}

/// What the look at one term sees: a key that has the set, none, or a constant that takes it where its
/// arguments have what it needs of them.
#[derive(Drop)]
pub(crate) enum Seen {
    Has(Key),
    Lacks,
    Asks(ConstId, Vec<Option<StructId>>, Vec<Term>),
}

/// What follows for one walk: it waits for that of an argument, it goes on, or it ends.
#[derive(Drop)]
pub(crate) enum Then {
    Waits(Walker, Waiting),
    Goes(Walker),
    Ends(End),
}

/// What follows for all: a walk goes on while others wait, the last of them first; or the first one ends.
#[derive(Drop)]
pub(crate) enum Next {
    Goes(Walker, Vec<Waiting>),
    Ends(End),
}

/// The walk that is asked for.
#[derive(Clone, Copy)]
pub(crate) struct Asked<'a> {
    pub(crate) set: &'a MixSet,
    pub(crate) start: u64,
    pub(crate) carrier: &'a Term,
}

/// What a look sees, and the moves after it.
#[derive(Drop)]
pub(crate) struct Sight {
    pub(crate) seen: Seen,
    pub(crate) moves: u64,
}
