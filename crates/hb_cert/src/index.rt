//! Terms in contexts that something is known of.
use hb_term::{Sort, Term, View};
use indexmap::IndexMap;
use std::alloc::{AllocError, Global};
use std::vec::Vec;

/// What tells most terms apart: the context, the form of the root, and two numbers of its parts.
type Shape = (u32, u8, u64, u64);

/// A term with what is known of it, and the entry before it of the same shape.
#[derive(Drop)]
struct Known {
    term: Term,
    number: Option<u32>,
    before: Option<u32>,
}

/// Numbers of terms in contexts; an entry that is open has none yet.
#[derive(Drop)]
pub(crate) struct Index {
    last: IndexMap<Shape, u32>,
    known: Vec<Known>,
}

impl Index {
    /// No terms.
    pub(crate) fn new(alloc: Global) -> Index {
        Index {
            last: IndexMap::new(alloc),
            known: Vec::new(alloc),
        }
    }

    /// What is known of the term in the context: nothing, that it is open, or its number.
    pub(crate) fn find(&self, context: u32, term: &Term) -> Option<Option<u32>> {
        let mut now = self.last.get(&shape(context, term)).copied();
        for _entry in 0..self.known.len() {
            let Some(at) = now else {
                return None;
            };
            let Some(known) = self.known.get(at as usize) else {
                return None;
            };
            if known.term.same(term) {
                return Some(known.number);
            }
            now = known.before;
        }
        None
    }

    /// Adds the term with a number, or open: the place of its entry.
    pub(crate) fn add(
        &mut self,
        context: u32,
        term: &Term,
        number: Option<u32>,
    ) -> Result<u32, AllocError> {
        let at = u32::try_from(self.known.len()).map_err(|_| AllocError)?;
        let shape = shape(context, term);
        let before = self.last.get(&shape).copied();
        self.known.push(Known {
            term: term.copy()?,
            number,
            before,
        })?;
        self.last.insert(shape, at)?;
        Ok(at)
    }

    /// The entry gets its number.
    pub(crate) fn close(&mut self, at: u32, number: u32) {
        if let Some(known) = self.known.get_mut(at as usize) {
            known.number = Some(number);
        }
    }
}

/// The shape of a term in a context.
fn shape(context: u32, term: &Term) -> Shape {
    match term.view() {
        View::Sort(Sort::Prop) => (context, 0, 0, 0),
        View::Sort(Sort::Level(level)) => (context, 1, u64::from(level), 0),
        View::Rel(variable) => (context, 2, u64::from(variable), 0),
        View::Pi(a, b) => (context, 3, a.nodes(), b.nodes()),
        View::Lam(a, b) => (context, 4, a.nodes(), b.nodes()),
        View::App(f, a) => (context, 5, f.nodes(), a.nodes()),
        View::Const(c) => (context, 6, u64::from(c.decl), u64::from(c.maker)),
        View::Proj(rec, field, _) => (context, 7, u64::from(rec.0), u64::from(field)),
        View::Hole(hole) => (context, 8, u64::from(hole), 0),
    }
}
