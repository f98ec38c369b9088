//! Carriers without arguments, and what comes before them.
ghost use Rattle.std.specs.Prelude.{◌≡◌, option_map};
ghost use Rattle.hb_grammar.specs.Machine as plain;
ghost use Rattle.hb_reader.specs.Rows.{taking, carrier_row, carried};
ghost use Rattle.hb_reader.specs.Signs.{sign};
ghost use Rattle.hb_reader.specs.States.{kind};

use super::fork::Fork;
use super::kind::Kind;
use super::marks::same;
use super::row::Row;
use super::sign::Sign;
use hb_base::Span;
use hb_grammar::Mark;
use hb_raw::Word;

/// What has a carrier without arguments.
#[derive(Clone, Copy)]
pub enum Carrying {
    Record {
        is_factory: bool,
        start: Span,
        name: Word,
    },
    Builders {
        start: Span,
    },
}

/// A place up to the end of a carrier without arguments.
#[derive(Clone, Copy)]
pub enum CarrierRow {
    /// `Record` behind `HB.mixin` or `HB.factory`.
    RecordWord(bool, Span),
    RecordName(bool, Span),
    /// `Context` behind `HB.builders`.
    BuildersContext(Span),
    /// Behind `(`.
    Name(Carrying),
    Colon(Carrying, Word),
    Universe(Carrying, Word),
    Close(Carrying, Word),
}

impl Carrying {
    /// Behind the carrier.
    pub fn carried(self, carrier: Word) -> Kind
        ensures { kind result ≡ carried self carrier }
    {
        match self {
            Carrying::Record {
                is_factory,
                start,
                name,
            } => Kind::Row(Row::Fork(Fork::Carried(is_factory, start, name, carrier))),
            Carrying::Builders { start } => Kind::Row(Row::Fork(Fork::Builders(start, carrier))),
        }
    }
}

impl CarrierRow {
    /// The token that has to come.
    pub fn mark(self) -> Mark
        ensures { result ≡ (carrier_row self).mark }
    {
        match self {
            CarrierRow::RecordWord(_, _) => Mark::Record,
            CarrierRow::RecordName(_, _) | CarrierRow::Name(_) => Mark::Ident,
            CarrierRow::BuildersContext(_) => Mark::Context,
            CarrierRow::Colon(_, _) => Mark::Colon,
            CarrierRow::Universe(_, _) => Mark::Universe,
            CarrierRow::Close(_, _) => Mark::Close,
        }
    }

    /// The brackets around it.
    pub fn nesting(self) -> u32
        ensures { result ≡ (carrier_row self).nest }
    {
        match self {
            CarrierRow::RecordWord(_, _)
            | CarrierRow::RecordName(_, _)
            | CarrierRow::BuildersContext(_) => 0,
            CarrierRow::Name(_) | CarrierRow::Colon(_, _) => 1,
            CarrierRow::Universe(_, _) | CarrierRow::Close(_, _) => 1,
        }
    }

    /// What comes behind it.
    pub fn behind(self, token: Sign) -> Kind
        ensures { kind result ≡ (carrier_row self).behind (sign token) }
    {
        match self {
            CarrierRow::RecordWord(is_factory, start) => {
                Kind::Row(Row::Carrier(CarrierRow::RecordName(is_factory, start)))
            }
            CarrierRow::RecordName(is_factory, start) => {
                let name = token.word();
                let of = Carrying::Record {
                    is_factory,
                    start,
                    name,
                };
                Kind::Row(Row::Fork(Fork::Carrier(of)))
            }
            CarrierRow::BuildersContext(start) => {
                Kind::Row(Row::Fork(Fork::Carrier(Carrying::Builders { start })))
            }
            CarrierRow::Name(of) => Kind::Row(Row::Carrier(CarrierRow::Colon(of, token.word()))),
            CarrierRow::Colon(of, w) => Kind::Row(Row::Carrier(CarrierRow::Universe(of, w))),
            CarrierRow::Universe(of, w) => Kind::Row(Row::Carrier(CarrierRow::Close(of, w))),
            CarrierRow::Close(of, w) => of.carried(w),
        }
    }

    /// What comes behind a token; `None` where another has to come.
    pub fn after(self, mark: Mark, token: Sign) -> Option<Kind>
        ensures { option_map kind result ≡ plain.step (taking (carrier_row self)) mark (sign token) }
    {
        if same(self.mark(), mark) {
            Some(self.behind(token))
        } else {
            None
        }
    }
}
