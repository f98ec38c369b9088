//! The first tokens of a structure, and of an instance.
ghost use Rattle.std.specs.Prelude.{◌≡◌, option_map};
ghost use Rattle.hb_grammar.specs.Machine as plain;
ghost use Rattle.hb_reader.specs.Rows.{taking, structure_row};
ghost use Rattle.hb_reader.specs.Signs.{sign};
ghost use Rattle.hb_reader.specs.States.{kind};

use super::fork::Fork;
use super::kind::Kind;
use super::listing::{ListState, Listing};
use super::marks::same;
use super::row::Row;
use super::sign::Sign;
use hb_base::Span;
use hb_grammar::Mark;
use hb_raw::Word;
use std::alloc::Global;

/// A place among the first tokens of a structure or an instance.
#[derive(Clone, Copy)]
pub enum StructureRow {
    /// `Definition` behind `HB.structure`.
    Definition(Span),
    Name(Span),
    Becomes(Span, Word),
    Brace(Span, Word),
    Carrier(Span, Word),
    Of(Span, Word, Word),
    /// `Definition` behind `HB.instance`.
    Instance(Span),
}

impl StructureRow {
    /// The token that has to come.
    pub fn mark(self) -> Mark
        ensures { result ≡ (structure_row self).mark }
    {
        match self {
            StructureRow::Definition(_) | StructureRow::Instance(_) => Mark::Definition,
            StructureRow::Name(_) | StructureRow::Carrier(_, _) => Mark::Ident,
            StructureRow::Becomes(_, _) => Mark::Becomes,
            StructureRow::Brace(_, _) => Mark::Brace,
            StructureRow::Of(_, _, _) => Mark::Of,
        }
    }

    /// What comes behind it.
    pub fn behind(self, alloc: Global, token: Sign) -> Kind
        ensures { kind result ≡ (structure_row self).behind (sign token) }
    {
        let word = token.word();
        match self {
            StructureRow::Definition(x) => Kind::Row(Row::Structure(StructureRow::Name(x))),
            StructureRow::Name(x) => Kind::Row(Row::Structure(StructureRow::Becomes(x, word))),
            StructureRow::Becomes(x, n) => Kind::Row(Row::Structure(StructureRow::Brace(x, n))),
            StructureRow::Brace(x, n) => Kind::Row(Row::Structure(StructureRow::Carrier(x, n))),
            StructureRow::Carrier(x, n) => {
                Kind::Row(Row::Structure(StructureRow::Of(x, n, word)))
            }
            StructureRow::Of(start, name, carrier) => {
                let of = Listing::Structure {
                    start,
                    name,
                    carrier,
                };
                Kind::List(ListState::Factory(of, Vec::new(alloc)))
            }
            StructureRow::Instance(x) => Kind::Row(Row::Fork(Fork::InstanceName(x))),
        }
    }

    /// What comes behind a token; `None` where another has to come.
    pub fn after(self, alloc: Global, mark: Mark, token: Sign) -> Option<Kind>
        ensures { option_map kind result ≡ plain.step (taking (structure_row self)) mark (sign token) }
    {
        if same(self.mark(), mark) {
            Some(self.behind(alloc, token))
        } else {
            None
        }
    }
}
