//! What elaboration changes.

use crate::local::Local;
use hb_base::{NameId, Span};
use hb_holes::{Slot, fill};
use hb_term::{Sort, Term};
use std::alloc::{AllocError, Global};

/// The moves and holes that a command has used so far. A command begins with zeros.
#[derive(Clone, Copy)]
pub struct Work {
    pub moves: u64,
    pub holes: u32,
}

/// The moves taken, the holes, where each was born, and the bound names, the outermost first.
#[derive(Drop)]
pub struct Desk {
    pub moves: u64,
    pub holes: Vec<Slot>,
    births: Vec<Span>,
    scopes: Vec<(Option<NameId>, Term)>,
    depth: u32,
}

/// The place of holes that were born before this term of the command; each of them has a value.
const EARLIER: Span = Span {
    file: 0,
    from: 0,
    to: 0,
};

impl Desk {
    /// A desk with the names of `local`. The holes that the command has used before have a value.
    pub fn new(alloc: Global, local: &Local<'_>, work: Work) -> Result<Desk, AllocError> {
        let mut scopes = Vec::new(alloc);
        for scope in &local.scopes {
            scopes.push((scope.0, scope.1.copy()?))?;
        }
        let depth = u32::try_from(scopes.len()).map_err(|_| AllocError)?;
        let mut holes = Vec::new(alloc);
        let mut births = Vec::new(alloc);
        for _ in 0..work.holes {
            holes.push(Slot {
                depth: 0,
                value: Some(Term::Sort(Sort::Prop)),
            })?;
            births.push(EARLIER)?;
        }
        Ok(Desk {
            moves: work.moves,
            holes,
            births,
            scopes,
            depth,
        })
    }

    /// What the command has used so far.
    pub fn work(&self) -> Result<Work, AllocError> {
        Ok(Work {
            moves: self.moves,
            holes: u32::try_from(self.holes.len()).map_err(|_| AllocError)?,
        })
    }

    /// How many names are bound.
    pub fn depth(&self) -> u32 {
        self.depth
    }

    /// A new hole in this scope, born at the place: its number.
    pub fn born(&mut self, span: Span) -> Result<u32, AllocError> {
        let number = u32::try_from(self.holes.len()).map_err(|_| AllocError)?;
        self.holes.push(Slot {
            depth: self.depth,
            value: None,
        })?;
        self.births.push(span)?;
        Ok(number)
    }

    /// The holes that unification made were born at the place.
    pub(crate) fn bear(&mut self, span: Span) -> Result<(), AllocError> {
        for _ in self.births.len()..self.holes.len() {
            self.births.push(span)?;
        }
        Ok(())
    }

    /// Binds a name of the type.
    pub fn bind(&mut self, name: Option<NameId>, ty: &Term) -> Result<(), AllocError> {
        let depth = self.depth.checked_add(1).ok_or(AllocError)?;
        self.scopes.push((name, ty.copy()?))?;
        self.depth = depth;
        Ok(())
    }

    /// Leaves the innermost name.
    pub fn unbind(&mut self) {
        if let Some(_innermost) = self.scopes.pop() {
            self.depth = self.depth.saturating_sub(1);
        }
    }

    /// The innermost variable of the name, with its type.
    pub(crate) fn variable(
        &self,
        alloc: Global,
        name: NameId,
    ) -> Result<Option<(Term, Term)>, AllocError> {
        let mut passed: u32 = 0;
        for scope in self.scopes.iter().rev() {
            let next = passed.checked_add(1).ok_or(AllocError)?;
            if let Some(bound) = scope.0 {
                if bound.0 == name.0 {
                    let ty = scope.1.try_lift(alloc, next, 0)?;
                    return Ok(Some((Term::Rel(passed), ty)));
                }
            }
            passed = next;
        }
        Ok(None)
    }

    /// A term of this scope, with the values of its holes put in.
    pub fn seen(&self, alloc: Global, t: &Term) -> Result<Term, AllocError> {
        fill(alloc, &self.holes, self.depth, t)
    }

    /// Where the first hole was born that is deeper than this scope and has no value.
    pub fn first_open(&self) -> Option<Span> {
        for (slot, birth) in self.holes.iter().zip(&self.births) {
            if slot.value.is_none() && slot.depth > self.depth {
                return Some(*birth);
            }
        }
        None
    }

    /// Where the first hole was born that has no value.
    pub fn any_open(&self) -> Option<Span> {
        for (slot, birth) in self.holes.iter().zip(&self.births) {
            if slot.value.is_none() {
                return Some(*birth);
            }
        }
        None
    }
}
