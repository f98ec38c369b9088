//! Names in terms.
use crate::error::Stop;
use crate::level::{is_variable, variable_depth};
use crate::mark::Mark;
use crate::name::held;
use crate::reader::{Reader, Sign};
use crate::state::State;
use hb_base::Names;
use hb_env::Named;
use hb_term::{RecId, Sort, Term};

impl Reader {
    /// The term of a name. One that is nothing before is told, and stands for any leaf.
    pub fn named(&mut self, names: &Names, sign: Sign<'_>) -> Term {
        let found = if is_variable(sign.text) {
            self.variable_term(sign.text)
        } else {
            self.constant_term(names, sign.text)
        };
        match found {
            Some(term) => term,
            None => {
                self.misses = true;
                Term::Sort(Sort::Prop)
            }
        }
    }

    /// The variable of a written binder.
    fn variable_term(&self, text: &[u8]) -> Option<Term> {
        let level = variable_depth(text)?;
        Some(Term::Rel(self.scope.written(level)?))
    }

    /// A field that was read of the record, or else a constant.
    fn constant_term(&self, names: &Names, text: &[u8]) -> Option<Term> {
        let name = held(names, text)?;
        if let Some(level) = self.draft.field_level(name) {
            return Some(Term::Rel(self.scope.variable(level)?));
        }
        match self.table.get(name) {
            Some(Named::Const(constant)) => Some(Term::Const(constant)),
            _ => None,
        }
    }

    /// The name of a projected field.
    pub fn projected(&mut self, names: &Names, sign: Sign<'_>) -> Result<State, Stop> {
        if sign.mark != Mark::Name {
            return Err(Stop::Stuck);
        }
        let (rec, field) = match self.field_of(names, sign.text) {
            Some(found) => found,
            None => {
                self.misses = true;
                (RecId(0), 0)
            }
        };
        match self.spine.last.take() {
            Some(of) => {
                let term = Term::proj(self.alloc, rec, field, of)?;
                self.spine.last = Some(term);
                Ok(State::FieldEnd)
            }
            None => Err(Stop::Stuck),
        }
    }

    /// The field of a name.
    fn field_of(&self, names: &Names, text: &[u8]) -> Option<(RecId, u16)> {
        let name = held(names, text)?;
        match self.table.get(name) {
            Some(Named::Proj(rec, field)) => Some((rec, field)),
            _ => None,
        }
    }
}
