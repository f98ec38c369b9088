//! The kept values of a refusal in setting.
use hb_base::NameId;
use hb_env::Env;
use hb_hier::Hier;
use hb_report::{Value, count_word, name_text};
use hb_term::Scoped;
use hb_world::World;
use hb_writer::term_front;
use std::alloc::{AllocError, Global};

/// The most bytes of a term's text.
const MOST_TEXT: usize = 300;

/// What a refusal speaks of: names and hierarchy of its session, what that declares, and the name of the
/// refused file.
#[derive(Clone, Copy)]
pub struct Setting<'a> {
    pub alloc: Global,
    pub world: &'a World,
    pub env: &'a Env,
    pub file: &'a str,
}

impl<'a> Setting<'a> {
    /// The hierarchy of the session.
    pub(crate) fn hier(self) -> &'a Hier {
        &self.world.hier
    }

    /// The text of a kept value.
    pub(crate) fn value(self, value: &Value<'_>) -> Result<String, AllocError> {
        match value {
            Value::Name(name) => self.name(*name),
            Value::Term(term) => self.term(term),
            Value::Count(count) => String::from_str(self.alloc, count_word(*count)),
        }
    }

    /// The text of a name.
    pub(crate) fn name(self, name: NameId) -> Result<String, AllocError> {
        name_text(self.alloc, &self.world.names, name)
    }

    /// The text of a term, cut where it is long.
    pub(crate) fn term(self, term: &Scoped) -> Result<String, AllocError> {
        let names = &self.world.names;
        let text = term_front(self.alloc, names, self.env, term, MOST_TEXT + 1)?;
        if text.as_bytes().len() <= MOST_TEXT {
            return Ok(text);
        }
        let front = text.as_bytes().get(..MOST_TEXT).unwrap_or(&[]);
        let front = String::from_utf8_lossy(self.alloc, front)?;
        format!(in self.alloc; "{front}...")
    }
}
