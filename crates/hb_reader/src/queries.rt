//! Commands of names alone.
ghost use Rattle.std.specs.Prelude.{◌≡◌, option_map};
ghost use Rattle.hb_grammar.specs.Machine as plain;
ghost use Rattle.hb_reader.specs.Rows.{taking, query_row};
ghost use Rattle.hb_reader.specs.Signs.{sign};
ghost use Rattle.hb_reader.specs.States.{kind};

use super::frame::Base;
use super::kind::{Kind, finish};
use super::marks::same;
use super::row::Row;
use super::sign::Sign;
use super::spine::Before;
use super::stack::Stack;
use super::term::TermState;
use hb_base::Span;
use hb_grammar::Mark;
use hb_raw::{Command, CommandKind, Word};
use std::alloc::Global;

/// A place in a command of names alone.
#[derive(Clone, Copy)]
pub enum QueryRow {
    JoinFirst(Span),
    JoinSecond(Span, Word),
    FindStructure(Span),
    RequireImported(Span),
    HowtoFirst(Span),
    HowtoSecond(Span, Word),
    AboutName(Span),
}

impl QueryRow {
    /// The token that has to come.
    pub fn mark(self) -> Mark
        ensures { result ≡ (query_row self).mark }
    {
        match self {
            QueryRow::JoinFirst(_) | QueryRow::JoinSecond(_, _) => Mark::Ident,
            QueryRow::HowtoFirst(_) | QueryRow::HowtoSecond(_, _) => Mark::Ident,
            QueryRow::FindStructure(_) => Mark::Ident,
            QueryRow::RequireImported(_) | QueryRow::AboutName(_) => Mark::Ident,
        }
    }

    /// What comes behind it.
    pub fn behind(self, alloc: Global, token: Sign) -> Kind
        ensures { kind result ≡ (query_row self).behind (sign token) }
    {
        let word = token.word();
        match self {
            QueryRow::JoinFirst(x) => Kind::Row(Row::Query(QueryRow::JoinSecond(x, word))),
            QueryRow::JoinSecond(x, a) => finish(x, CommandKind::Join { a, b: word }),
            QueryRow::FindStructure(x) => {
                let around = Stack::on(alloc, Base::CarrierFound(x, word));
                Kind::Term(TermState::Want(Before::Alone, around))
            }
            QueryRow::RequireImported(x) => finish(x, CommandKind::Require { name: word }),
            QueryRow::HowtoFirst(x) => Kind::Row(Row::Query(QueryRow::HowtoSecond(x, word))),
            QueryRow::HowtoSecond(x, structure) => {
                finish(
                    x,
                    CommandKind::Howto {
                        structure,
                        carrier: word,
                    },
                )
            }
            QueryRow::AboutName(x) => finish(x, CommandKind::About { name: word }),
        }
    }

    /// What comes behind a token; `None` where another has to come.
    pub fn after(self, alloc: Global, mark: Mark, token: Sign) -> Option<Kind>
        ensures { option_map kind result ≡ plain.step (taking (query_row self)) mark (sign token) }
    {
        if same(self.mark(), mark) {
            Some(self.behind(alloc, token))
        } else {
            None
        }
    }
}
