//! Rows of tokens of which each is known, and that hold names and places alone.
ghost use Rattle.std.specs.Prelude.{◌≡◌, option_map};
ghost use Rattle.hb_grammar.specs.Leaf as leaf;
ghost use Rattle.hb_grammar.specs.Machine as plain;
ghost use Rattle.hb_reader.specs.Rows.{row};
ghost use Rattle.hb_reader.specs.Signs.{sign};
ghost use Rattle.hb_reader.specs.States.{kind};

use super::builders::BuildersRow;
use super::carrier::CarrierRow;
use super::fork::Fork;
use super::heads::HeadRow;
use super::kind::Kind;
use super::queries::QueryRow;
use super::sign::Sign;
use super::structures::StructureRow;
use hb_grammar::Mark;
use std::alloc::Global;

/// A place in a row of tokens, by the command.
#[derive(Clone, Copy)]
pub enum Row {
    Head(HeadRow),
    Query(QueryRow),
    Carrier(CarrierRow),
    Builders(BuildersRow),
    Structure(StructureRow),
    Fork(Fork),
}

impl Row {
    /// What comes behind a token; `None` where another has to come.
    pub fn after(self, alloc: Global, mark: Mark, token: Sign) -> Option<Kind>
        ensures { option_map kind result ≡ plain.step (row self) mark (sign token) }
    {
        match self {
            Row::Head(r) => r.after(alloc, mark, token),
            Row::Query(r) => r.after(alloc, mark, token),
            Row::Carrier(r) => r.after(mark, token),
            Row::Builders(r) => r.after(mark, token),
            Row::Structure(r) => r.after(alloc, mark, token),
            Row::Fork(f) => f.after(alloc, mark, token),
        }
    }

    /// The brackets around a token.
    pub fn nesting(self, mark: Mark) -> u32
        ensures { (w : leaf.Sign) → plain.read (row self) mark w ≡ leaf.leaf mark w result 0 }
    {
        match self {
            Row::Head(_) | Row::Query(_) | Row::Structure(_) => 0,
            Row::Carrier(r) => r.nesting(),
            Row::Builders(r) => r.nesting(),
            Row::Fork(f) => f.nesting(mark),
        }
    }
}
