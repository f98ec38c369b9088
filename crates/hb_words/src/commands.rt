//! The words of each row as a simple command: its options and its arguments.
ghost use Rattle.std.specs.Prelude.{◌≡◌, IfOk, false};
ghost use Rattle.clap.specs.Words.{app_of, rule_of, with_rule};
ghost use Rattle.hb_words.specs.Commands as spec;

use crate::row::Row;
use clap::{Arg, ArgAction, Command};
use std::alloc::{AllocError, Global};

/// The command of a row.
pub(crate) fn command_of<'a>(alloc: Global, row: Row) -> Result<Command<'a>, AllocError>
    ensures { IfOk result (λ c. app_of c ≡ spec.row_app row) }
{
    match row {
        Row::Compile => {
            let command = with(stepped(alloc)?, option(alloc, "rocq"))?;
            let command = with(command, option(alloc, "listing"))?;
            with(command, several(alloc, "FILE", true))
        }
        Row::Save => {
            let command = with(stepped(alloc)?, one(alloc, "LIB"))?;
            with(command, several(alloc, "FILE", true))
        }
        Row::Core => with(stepped(alloc)?, one(alloc, "FILE")),
        Row::Refactor => {
            let command = with(stepped(alloc)?, one(alloc, "OLD"))?;
            let command = with(command, one(alloc, "NEW"))?;
            with(command, several(alloc, "CLIENT", false))
        }
        Row::Sample => {
            let command = with(plain(alloc), one(alloc, "NUMBER"))?;
            with(command, one(alloc, "SIZE"))
        }
        Row::Show => with(plain(alloc), one(alloc, "FILE")),
        Row::Certify => {
            let command = with(stepped(alloc)?, one(alloc, "CERT"))?;
            with(command, several(alloc, "FILE", true))
        }
        Row::Verify => with(plain(alloc), one(alloc, "CERT")),
    }
}

/// The command with one argument more.
fn with<'a>(command: Command<'a>, arg: Arg<'a>) -> Result<Command<'a>, AllocError>
    requires { arg.global ≡ false }
    ensures { IfOk result (λ c. app_of c ≡ with_rule (app_of command.entry) (rule_of arg.entry)) }
{
    command.arg(arg)
}

/// A command without arguments, help or version.
fn plain<'a>(alloc: Global) -> Command<'a>
    ensures { app_of result ≡ spec.plain }
{
    Command::new(alloc, "hbc").disable_help_flag(true)
}

/// A command that takes a number of steps.
fn stepped<'a>(alloc: Global) -> Result<Command<'a>, AllocError>
    ensures { IfOk result (λ c. app_of c ≡ spec.stepped) }
{
    with(plain(alloc), option(alloc, "steps"))
}

/// An option with one value, which stands at most once.
fn option<'a>(alloc: Global, name: &'a str) -> Arg<'a>
    ensures rule { rule_of result ≡ spec.option name.entry.now }
    ensures local { result.global ≡ false }
{
    Arg::new(alloc, name).long(name).action(ArgAction::Set)
}

/// An argument that has to be there.
fn one<'a>(alloc: Global, name: &'a str) -> Arg<'a>
    ensures rule { rule_of result ≡ spec.one name.entry.now }
    ensures local { result.global ≡ false }
{
    Arg::new(alloc, name).required(true).action(ArgAction::Set)
}

/// A last argument that may take several values, and may have to be there.
fn several<'a>(alloc: Global, name: &'a str, required: bool) -> Arg<'a>
    ensures rule { rule_of result ≡ spec.several required name.entry.now }
    ensures local { result.global ≡ false }
{
    Arg::new(alloc, name)
        .num_args(1..)
        .action(ArgAction::Append)
        .required(required)
}
