//! The first tokens of an axiom, and of a definition.
ghost use Rattle.std.specs.Prelude.{◌≡◌, option_map};
ghost use Rattle.hb_grammar.specs.Machine as plain;
ghost use Rattle.hb_reader.specs.Rows.{taking, head_row};
ghost use Rattle.hb_reader.specs.Signs.{sign};
ghost use Rattle.hb_reader.specs.States.{kind};

use super::binder::BinderState;
use super::frame::Base;
use super::kind::Kind;
use super::marks::same;
use super::row::Row;
use super::sign::Sign;
use super::stack::Binding;
use super::term::want_on;
use hb_base::Span;
use hb_grammar::Mark;
use hb_raw::Word;
use std::alloc::Global;

/// A place among the first tokens of an axiom or a definition.
#[derive(Clone, Copy)]
pub enum HeadRow {
    AxiomName(Span),
    AxiomColon(Span, Word),
    DefinitionName(Span),
}

impl HeadRow {
    /// The token that has to come.
    pub fn mark(self) -> Mark
        ensures { result ≡ (head_row self).mark }
    {
        match self {
            HeadRow::AxiomName(_) | HeadRow::DefinitionName(_) => Mark::Ident,
            HeadRow::AxiomColon(_, _) => Mark::Colon,
        }
    }

    /// What comes behind it.
    pub fn behind(self, alloc: Global, token: Sign) -> Kind
        ensures { kind result ≡ (head_row self).behind (sign token) }
    {
        match self {
            HeadRow::AxiomName(x) => Kind::Row(Row::Head(HeadRow::AxiomColon(x, token.word()))),
            HeadRow::AxiomColon(x, n) => { want_on(alloc, Base::AxiomType(x, n)) }
            HeadRow::DefinitionName(x) => {
                let name = Binding::Definition(x, token.word());
                Kind::Binder(BinderState::Groups(name, Vec::new(alloc)))
            }
        }
    }

    /// What comes behind a token; `None` where another has to come.
    pub fn after(self, alloc: Global, mark: Mark, token: Sign) -> Option<Kind>
        ensures { option_map kind result ≡ plain.step (taking (head_row self)) mark (sign token) }
    {
        if same(self.mark(), mark) {
            Some(self.behind(alloc, token))
        } else {
            None
        }
    }
}
