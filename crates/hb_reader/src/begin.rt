//! The first word of a sentence.
ghost use Rattle.std.specs.Prelude.{◌≡◌, option_map};
ghost use Rattle.hb_grammar.specs.Machine as plain;
ghost use Rattle.hb_reader.specs.Signs.{sign};
ghost use Rattle.hb_reader.specs.States.{kind};

use super::carrier::CarrierRow;
use super::fork::Fork;
use super::heads::HeadRow;
use super::kind::{Kind, finish};
use super::queries::QueryRow;
use super::row::Row;
use super::sign::Sign;
use super::structures::StructureRow;
use hb_base::Span;
use hb_grammar::{Mark, Second};
use hb_raw::CommandKind;

/// The first word of a sentence; `None` where none begins so.
pub fn begins(mark: Mark, token: Sign) -> Option<Kind>
    ensures { option_map kind result ≡ plain.begins mark (sign token) }
{
    let at = token.place;
    match mark {
        Mark::Axiom => Some(Kind::Row(Row::Head(HeadRow::AxiomName(at)))),
        Mark::Definition => Some(Kind::Row(Row::Head(HeadRow::DefinitionName(at)))),
        Mark::Require => Some(Kind::Row(Row::Fork(Fork::Require(at)))),
        Mark::Pair(second) => words_begin(second, at),
        _ => None,
    }
}

/// The first word of a command of hierarchies, by its second part.
fn words_begin(second: Second, at: Span) -> Option<Kind>
    ensures { option_map kind result ≡ plain.words_begin second at }
{
    match second {
        Second::Mixin => Some(Kind::Row(Row::Carrier(CarrierRow::RecordWord(false, at)))),
        Second::Factory => Some(Kind::Row(Row::Carrier(CarrierRow::RecordWord(true, at)))),
        Second::Builders => Some(Kind::Row(Row::Carrier(CarrierRow::BuildersContext(at)))),
        Second::End => Some(finish(at, CommandKind::End)),
        Second::Structure => Some(Kind::Row(Row::Structure(StructureRow::Definition(at)))),
        Second::Instance => Some(Kind::Row(Row::Structure(StructureRow::Instance(at)))),
        Second::Join => Some(Kind::Row(Row::Query(QueryRow::JoinFirst(at)))),
        Second::Find => Some(Kind::Row(Row::Query(QueryRow::FindStructure(at)))),
        Second::Howto => Some(Kind::Row(Row::Query(QueryRow::HowtoFirst(at)))),
        Second::About => Some(Kind::Row(Row::Query(QueryRow::AboutName(at)))),
        Second::Plain | Second::Build | Second::Carried => None,
    }
}
