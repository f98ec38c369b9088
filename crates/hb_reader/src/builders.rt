//! What comes behind the carrier of `HB.builders`.
ghost use Rattle.std.specs.Prelude.{◌≡◌, option_map};
ghost use Rattle.hb_grammar.specs.Machine as plain;
ghost use Rattle.hb_reader.specs.Rows.{taking, builders_row};
ghost use Rattle.hb_reader.specs.Signs.{sign};
ghost use Rattle.hb_reader.specs.States.{kind};

use super::kind::{Kind, finish};
use super::marks::same;
use super::row::Row;
use super::sign::Sign;
use hb_base::Span;
use hb_grammar::Mark;
use hb_raw::{CommandKind, Item, Word};

/// A place behind the carrier of `HB.builders`.
#[derive(Clone, Copy)]
pub enum BuildersRow {
    /// Behind `(`.
    Var(Span, Word),
    Colon(Span, Word, Word),
    Factory(Span, Word, Word),
    Item(Span, Word, Word, Word),
    Close(Span, Word, Word, Item),
    /// Behind `of`.
    OfFactory(Span, Word),
    OfItem(Span, Word, Word),
}

impl BuildersRow {
    /// The token that has to come.
    pub fn mark(self) -> Mark
        ensures { result ≡ (builders_row self).mark }
    {
        match self {
            BuildersRow::Var(_, _) | BuildersRow::OfFactory(_, _) => Mark::Ident,
            BuildersRow::Factory(_, _, _) | BuildersRow::OfItem(_, _, _) => Mark::Ident,
            BuildersRow::Item(_, _, _, _) => Mark::Ident,
            BuildersRow::Colon(_, _, _) => Mark::Colon,
            BuildersRow::Close(_, _, _, _) => Mark::Close,
        }
    }

    /// The brackets around it.
    pub fn nesting(self) -> u32
        ensures { result ≡ (builders_row self).nest }
    {
        match self {
            BuildersRow::OfFactory(_, _) | BuildersRow::OfItem(_, _, _) => 0,
            BuildersRow::Var(_, _) | BuildersRow::Colon(_, _, _) => 1,
            BuildersRow::Factory(_, _, _) | BuildersRow::Item(_, _, _, _) => 1,
            BuildersRow::Close(_, _, _, _) => 1,
        }
    }

    /// What comes behind it.
    pub fn behind(self, token: Sign) -> Kind
        ensures { kind result ≡ (builders_row self).behind (sign token) }
    {
        let word = token.word();
        match self {
            BuildersRow::Var(x, c) => Kind::Row(Row::Builders(BuildersRow::Colon(x, c, word))),
            BuildersRow::Colon(x, c, v) => {
                Kind::Row(Row::Builders(BuildersRow::Factory(x, c, v)))
            }
            BuildersRow::Factory(x, c, v) => {
                Kind::Row(Row::Builders(BuildersRow::Item(x, c, v, word)))
            }
            BuildersRow::Item(x, c, v, factory) => {
                let item = Item {
                    factory,
                    carrier: word,
                };
                Kind::Row(Row::Builders(BuildersRow::Close(x, c, v, item)))
            }
            BuildersRow::Close(x, carrier, v, item) => {
                let var = Some(v);
                finish(x, CommandKind::Builders { carrier, var, item })
            }
            BuildersRow::OfFactory(x, c) => {
                Kind::Row(Row::Builders(BuildersRow::OfItem(x, c, word)))
            }
            BuildersRow::OfItem(x, carrier, factory) => {
                let item = Item {
                    factory,
                    carrier: word,
                };
                let var = None;
                finish(x, CommandKind::Builders { carrier, var, item })
            }
        }
    }

    /// What comes behind a token; `None` where another has to come.
    pub fn after(self, mark: Mark, token: Sign) -> Option<Kind>
        ensures { option_map kind result ≡ plain.step (taking (builders_row self)) mark (sign token) }
    {
        if same(self.mark(), mark) {
            Some(self.behind(token))
        } else {
            None
        }
    }
}
