//! The variables around a place.
use std::alloc::{AllocError, Global};

/// What binds a variable.
#[derive(Clone, Copy, Debug, PartialEq, Eq)]
pub enum Bound {
    /// A written binder: its variable is `_d` with its own depth.
    Written,
    /// An arrow, whose variable has no name.
    Arrow,
    /// A field of the record that is read, whose variable has the field's name.
    Field,
}

/// The variables around a place, the outermost first.
#[derive(Drop)]
pub struct Scope {
    bound: Vec<Bound>,
}

impl Scope {
    /// No variables.
    pub fn new(alloc: Global) -> Scope {
        Scope {
            bound: Vec::new(alloc),
        }
    }

    /// How many variables there are.
    pub fn depth(&self) -> usize {
        self.bound.len()
    }

    /// One more variable, inside of the others.
    pub fn enter(&mut self, bound: Bound) -> Result<(), AllocError> {
        self.bound.push(bound)?;
        Ok(())
    }

    /// The innermost variable ends.
    pub fn leave(&mut self) {
        self.bound.pop();
    }

    /// All variables end.
    pub fn clear(&mut self) {
        self.bound.clear();
    }

    /// The variable of the written binder inside of `level` others.
    pub fn written(&self, level: u32) -> Option<u32> {
        match self.bound.get(level as usize) {
            Some(Bound::Written) => self.variable(level as usize),
            _ => None,
        }
    }

    /// The variable whose binder stands inside of `level` others.
    pub fn variable(&self, level: usize) -> Option<u32> {
        let outside = level.checked_add(1)?;
        u32::try_from(self.bound.len().checked_sub(outside)?).ok()
    }
}
