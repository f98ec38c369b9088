//! The holes of a command, and the equations between terms with them.
ghost use Rattle.std.specs.Prelude.{◌≡◌, ◌++◌, ◌∷◌, [], map, length, replicate, slice_get, IfOk, OnOk, OnErr};
ghost use Rattle.std.specs.Option.{option_map};
ghost use Rattle.hb_term.specs.Meaning.{tree};
ghost use Rattle.hb_holes.specs.Holes.{filled, blank};
ghost use Rattle.hb_holes.specs.Places.{places};
ghost use Rattle.hb_keys.specs.Setting.{local_of};
ghost use Rattle.hb_equations.specs.Machine.{state};
ghost use Rattle.hb_unify.specs.Plain.{goal_of};
ghost use Rattle.hb_unify.specs.Problems.{passed, value_in, depth_in, given_setting, equation_goal, ProblemAnswer};

use crate::act::{Cause, Goal};
use crate::machine::solve;
use crate::refused::UnifyRefused;
use hb_base::Limits;
use hb_env::Env;
use hb_equations::Relation;
use hb_found::Reads;
use hb_hier::Hier;
use hb_holes::Slot;
use hb_tables::{Carrier, Tables};
use hb_term::{Scoped, Sort, Term};
use std::alloc::{AllocError, Global};
use std::vec::Vec;

/// What a command has used so far: moves, and numbers of holes. A command begins with zeros.
#[derive(Clone, Copy, Debug, PartialEq, Eq)]
pub struct Work {
    pub moves: u64,
    pub holes: u32,
}

/// The holes of one term of a command, numbered after those of its earlier terms, and the moves taken. The
/// places of the earlier holes are closed.
#[derive(Drop)]
pub struct Problem {
    pub holes: Vec<Slot>,
    pub first: u32,
    pub moves: u64,
}

/// An equation between two terms of the same depth.
#[derive(Drop)]
pub struct Equation {
    pub a: Scoped,
    pub b: Scoped,
    pub relation: Relation,
}

impl Problem {
    /// A problem without holes, after what the command has used.
    pub fn new(alloc: Global, work: Work) -> Result<Problem, AllocError>
        ensures holes { IfOk result (λ p. places p.holes.items ≡ replicate work.holes passed) }
        ensures moves { IfOk result (λ p. (p.moves ≡ work.moves) × (p.first ≡ work.holes)) }
    {
        let mut holes = Vec::new(alloc);
        for _at in 0..work.holes {
            holes.push(Slot {
                depth: 0,
                value: Some(Term::Sort(Sort::Prop)),
            })?;
        }
        Ok(Problem {
            holes,
            first: work.holes,
            moves: work.moves,
        })
    }

    /// A new hole, whose value may have `depth` variables: its number. Its type plays no part.
    pub fn hole(&mut self, depth: u32, ty: Option<Term>) -> Result<u32, AllocError>
        ensures number { IfOk result (λ h. h ≡ length self.old.holes.items) }
        ensures added { OnOk result (places self.new.holes.items ≡ places self.old.holes.items ++ blank depth ∷ []) }
        ensures unchanged { OnErr result (places self.new.holes.items ≡ places self.old.holes.items) }
        ensures moves { self.new.moves ≡ self.old.moves }
    {
        let _ty = ty;
        let number = u32::try_from(self.holes.len()).map_err(|_| AllocError)?;
        self.holes.push(Slot { depth, value: None })?;
        Ok(number)
    }

    /// The value of a hole of the problem, if it has one.
    pub fn value(&self, hole: u32) -> Option<&Term>
        ensures { option_map (λ t. tree t.now) result ≡ value_in self.now.first hole (slice_get (places self.now.holes.items) hole) }
    {
        if hole < self.first {
            return None;
        }
        match self.holes.get(hole as usize) {
            None => None,
            Some(slot) => slot.value.as_ref(),
        }
    }

    /// The depth of a hole. None exactly where the problem hasn't the hole.
    pub fn depth(&self, hole: u32) -> Option<u32>
        ensures { result ≡ depth_in self.now.first hole (slice_get (places self.now.holes.items) hole) }
    {
        if hole < self.first {
            return None;
        }
        match self.holes.get(hole as usize) {
            None => None,
            Some(slot) => Some(slot.depth),
        }
    }

    /// A term of depth `depth` with the values of its holes put in.
    pub fn filled(&self, alloc: Global, depth: u32, t: &Term) -> Result<Term, AllocError>
        ensures { IfOk result (λ u. tree u ≡ filled (places self.now.holes.items) depth (tree t.now)) }
    {
        hb_holes::fill(alloc, &self.holes, depth, t)
    }

    /// What the command has used with this problem.
    pub fn work(&self) -> Result<Work, AllocError>
        ensures { IfOk result (λ w. (w.moves ≡ self.now.moves) × (w.holes ≡ length self.now.holes.items)) }
    {
        Ok(Work {
            moves: self.moves,
            holes: u32::try_from(self.holes.len()).map_err(|_| AllocError)?,
        })
    }

    /// Solves an equation between terms of the depth of its first: the holes that get values have them, by the
    /// rules of the machine, and each of its moves is counted.
    pub fn solve(
        self,
        alloc: Global,
        env: &Env,
        hier: &Hier,
        tables: &Tables,
        local: Option<&Carrier>,
        equation: Equation,
        limits: &Limits,
    ) -> Result<Problem, UnifyRefused>
        ensures { ProblemAnswer (given_setting env.now hier.now tables.now (option_map (λ c. local_of c.now) local.entry) limits.now) (state self.moves (places self.holes.items) (equation_goal equation ∷ [])) result }
    {
        let reads = Reads {
            env,
            hier,
            tables,
            local,
            limits,
        };
        let Problem {
            holes,
            first,
            moves,
        } = self;
        match solve(alloc, reads, holes, moves, as_goal(equation)) {
            Ok(machine) => Ok(Problem {
                holes: machine.holes,
                first,
                moves: machine.moves,
            }),
            Err(cause) => Err(UnifyRefused::of(cause)),
        }
    }
}

/// The equation between terms of one depth.
fn as_goal(equation: Equation) -> Goal
    ensures { goal_of result ≡ equation_goal equation }
{
    let depth = equation.a.depth();
    Goal {
        depth,
        relation: equation.relation,
        left: equation.a.into_term(),
        right: equation.b.into_term(),
    }
}
