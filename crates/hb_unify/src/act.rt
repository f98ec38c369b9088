//! What equations do.
use hb_base::NameId;
use hb_equations::Relation;
use hb_order::StructId;
use hb_term::{ConstId, RecId, Term};

/// An equation between terms of depth `depth`.
#[derive(Drop)]
pub struct Goal {
    pub depth: u32,
    pub relation: Relation,
    pub left: Term,
    pub right: Term,
}

/// It becomes others; a hole gets a value; two holes get coercions of a new hole of this depth; it stays, and is
/// stuck; or it ends the run.
#[derive(Drop)]
pub enum Act {
    Becomes(Vec<Goal>),
    Gives(u32, Term),
    Shares(u32, ConstId, u32, ConstId, u32),
    Stays,
    Ends(Cause),
}

/// Why a run ends without a solution; terms are kept with their depth.
#[derive(Drop)]
pub enum Cause {
    Stuck(u32, Term, Term),
    NoInstance(NameId, u32, Term),
    Spent(u32, Term),
    NoMoves,
    NoMemory,
}

/// The two sides of an equation between terms of depth `depth`, whose holes with values are put in.
#[derive(Clone, Copy)]
pub struct Sides<'a> {
    pub depth: u32,
    pub relation: Relation,
    pub left: &'a Term,
    pub right: &'a Term,
}

/// What an equation does, and the moves taken after it.
#[derive(Drop)]
pub struct Taken {
    pub act: Act,
    pub moves: u64,
}

/// A hole and its value.
#[derive(Drop)]
pub struct Value {
    pub at: u32,
    pub value: Term,
}

/// `x.(S.sort)` of a hole.
#[derive(Clone, Copy)]
pub struct SortOf {
    pub at: u32,
    pub structure: StructId,
}

/// A term whose head is unfolded, with the place of its constant.
#[derive(Drop)]
pub struct Unfolded {
    pub declared: u32,
    pub term: Term,
}

/// The fields of a full application of a maker.
#[derive(Drop)]
pub struct Made {
    pub made_by: RecId,
    pub fields: Vec<Term>,
}
