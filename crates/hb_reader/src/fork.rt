//! Places where one of two tokens has to come.
ghost use Rattle.std.specs.Prelude.{◌≡◌, [], option_map};
ghost use Rattle.hb_grammar.specs.Leaf as leaf;
ghost use Rattle.hb_grammar.specs.Machine as plain;
ghost use Rattle.hb_reader.specs.Rows.{forking, first_way, second_way};
ghost use Rattle.hb_reader.specs.Signs.{sign};
ghost use Rattle.hb_reader.specs.States.{kind};

use super::builders::BuildersRow;
use super::carrier::{CarrierRow, Carrying};
use super::frame::{InstanceOf, RecordOf};
use super::instance::InstanceState;
use super::kind::{Kind, finish};
use super::listing::{ListState, Listing};
use super::marks::same;
use super::queries::QueryRow;
use super::row::Row;
use super::sign::Sign;
use hb_base::Span;
use hb_grammar::Mark;
use hb_raw::{CommandKind, Word};
use std::alloc::Global;

/// A place where one of two tokens has to come.
#[derive(Clone, Copy)]
pub enum Fork {
    /// A carrier: a name, or `(`.
    Carrier(Carrying),
    /// Behind the carrier of a mixin or factory: `of`, or `:=`.
    Carried(bool, Span, Word, Word),
    /// Behind the carrier of builders: `(`, or `of`.
    Builders(Span, Word),
    /// The name of an instance, or `_`.
    InstanceName(Span),
    /// A name, or `Import`.
    Require(Span),
}

/// An instance without conditions so far.
fn instance_named(alloc: Global, start: Span, name: Option<Word>) -> Kind
    ensures { kind result ≡ plain.instance_named start name }
{
    let of = InstanceOf {
        start,
        name,
        conditions: Vec::new(alloc),
    };
    Kind::Instance(InstanceState::Conditioned(of))
}

/// A mixin or factory without items, before its fields.
fn fields_begin(alloc: Global, is_factory: bool, start: Span, name: Word, carrier: Word) -> Kind
    ensures { kind result ≡ plain.fields_begin (record { kind = is_factory; start = start; name = name; carrier = carrier; items = [] }) }
{
    let of = RecordOf {
        is_factory,
        start,
        name,
        carrier,
        items: Vec::new(alloc),
    };
    Kind::List(ListState::Brace(of))
}

impl Fork {
    /// The first of the two tokens.
    pub fn first_mark(self) -> Mark
        ensures { result ≡ (first_way self).mark }
    {
        match self {
            Fork::Carrier(_) | Fork::InstanceName(_) | Fork::Require(_) => Mark::Ident,
            Fork::Carried(_, _, _, _) => Mark::Of,
            Fork::Builders(_, _) => Mark::Open,
        }
    }

    /// The second of the two tokens.
    pub fn second_mark(self) -> Mark
        ensures { result ≡ (second_way self).mark }
    {
        match self {
            Fork::Carrier(_) => Mark::Open,
            Fork::Carried(_, _, _, _) => Mark::Becomes,
            Fork::Builders(_, _) => Mark::Of,
            Fork::InstanceName(_) => Mark::Hole,
            Fork::Require(_) => Mark::Import,
        }
    }

    /// The brackets around the first.
    pub fn first_nesting(self) -> u32
        ensures { result ≡ (first_way self).nest }
    {
        match self {
            Fork::Builders(_, _) => 1,
            Fork::Carrier(_) | Fork::Carried(_, _, _, _) => 0,
            Fork::InstanceName(_) | Fork::Require(_) => 0,
        }
    }

    /// The brackets around the second.
    pub fn second_nesting(self) -> u32
        ensures { result ≡ (second_way self).nest }
    {
        match self {
            Fork::Carrier(_) => 1,
            Fork::Carried(_, _, _, _) | Fork::Builders(_, _) => 0,
            Fork::InstanceName(_) | Fork::Require(_) => 0,
        }
    }

    /// What comes behind the first.
    pub fn behind_first(self, alloc: Global, token: Sign) -> Kind
        ensures { kind result ≡ (first_way self).behind (sign token) }
    {
        match self {
            Fork::Carrier(of) => of.carried(token.word()),
            Fork::Carried(is_factory, start, name, carrier) => {
                let of = Listing::Record {
                    is_factory,
                    start,
                    name,
                    carrier,
                };
                Kind::List(ListState::Factory(of, Vec::new(alloc)))
            }
            Fork::Builders(x, c) => Kind::Row(Row::Builders(BuildersRow::Var(x, c))),
            Fork::InstanceName(x) => instance_named(alloc, x, Some(token.word())),
            Fork::Require(x) => finish(x, CommandKind::Require { name: token.word() }),
        }
    }

    /// What comes behind the second.
    pub fn behind_second(self, alloc: Global) -> Kind
        ensures { (w : leaf.Sign) → kind result ≡ (second_way self).behind w }
    {
        match self {
            Fork::Carrier(of) => Kind::Row(Row::Carrier(CarrierRow::Name(of))),
            Fork::Carried(is_factory, start, name, carrier) => {
                fields_begin(alloc, is_factory, start, name, carrier)
            }
            Fork::Builders(x, c) => Kind::Row(Row::Builders(BuildersRow::OfFactory(x, c))),
            Fork::InstanceName(x) => instance_named(alloc, x, None),
            Fork::Require(x) => Kind::Row(Row::Query(QueryRow::RequireImported(x))),
        }
    }

    /// What comes behind a token; `None` where another has to come.
    pub fn after(self, alloc: Global, mark: Mark, token: Sign) -> Option<Kind>
        ensures { option_map kind result ≡ plain.step (forking self) mark (sign token) }
    {
        if same(self.first_mark(), mark) {
            Some(self.behind_first(alloc, token))
        } else if same(self.second_mark(), mark) {
            Some(self.behind_second(alloc))
        } else {
            None
        }
    }

    /// The brackets around a token.
    pub fn nesting(self, mark: Mark) -> u32
        ensures { (w : leaf.Sign) → plain.read (forking self) mark w ≡ leaf.leaf mark w result 0 }
    {
        if same(self.first_mark(), mark) {
            self.first_nesting()
        } else {
            self.second_nesting()
        }
    }
}
