//! What the reader is in the middle of.
ghost use Rattle.std.specs.Prelude.{◌≡◌};
ghost use Rattle.hb_raw.specs.Views.{act};
ghost use Rattle.hb_grammar.specs.Machine as plain;
ghost use Rattle.hb_reader.specs.States.{kind};

use super::binder::BinderState;
use super::instance::InstanceState;
use super::listing::ListState;
use super::row::Row;
use super::term::TermState;
use hb_base::Span;
use hb_raw::{Command, CommandKind};

/// What the reader is in the middle of.
#[derive(Drop)]
pub enum Kind {
    /// Between two sentences.
    Begin,
    /// A sentence has ended.
    Done(Command),
    /// The point that ends a sentence has to come.
    Finish(Command),
    /// A row of known tokens.
    Row(Row),
    Term(TermState),
    Binder(BinderState),
    List(ListState),
    Instance(InstanceState),
}

/// A sentence that its point has to end.
pub fn finish(start: Span, command: CommandKind) -> Kind
    ensures { kind result ≡ plain.finishes start (act command) }
{
    Kind::Finish(Command {
        span: start,
        kind: command,
    })
}
