//! From words to a job.
ghost use Rattle.std.specs.Prelude.{◌≡◌, [], IfOk, IfSome, OnOk, map};
ghost use Rattle.clap.specs.Words.{fault_of, found_of, matches_of as values_in, rows_of};
ghost use Rattle.hb_words.specs.Asked.{AsksFor};
ghost use Rattle.hb_words.specs.Commands.{row_app};

use crate::commands::command_of;
use crate::job::Job;
use crate::jobs::{WordsFault, job_of};
use crate::row::Row;
use clap::ArgMatches;
use clap::error::ErrorKind;
use hb_writer::Kind;
use std::alloc::{AllocError, Global};

/// The job that the words ask for. `None` where they are in no row of the usage text.
pub fn read_words<'a>(alloc: Global, words: &'a [&'a str]) -> Result<Option<Job>, AllocError>
    ensures asked { IfOk result (λ job. IfSome job (AsksFor (map (λ word. word.now) words.now))) }
{
    match read_row(alloc, words) {
        Ok(job) => Ok(Some(job)),
        Err(WordsFault::NoRow) => Ok(None),
        Err(WordsFault::NoMemory) => Err(AllocError),
    }
}

/// The job of the row that the first word chooses.
fn read_row<'a>(alloc: Global, words: &'a [&'a str]) -> Result<Job, WordsFault>
    ensures asked { IfOk result (AsksFor (map (λ word. word.now) words.now)) }
{
    let first = words.first().ok_or(WordsFault::NoRow)?;
    let row = Row::of(first).ok_or(WordsFault::NoRow)?;
    let matches = matches_of(alloc, row, words)?;
    job_of(alloc, row, &matches)
}

/// What the command of a row finds in the words.
fn matches_of<'a>(
    alloc: Global,
    row: Row,
    words: &'a [&'a str],
) -> Result<ArgMatches<'a>, WordsFault>
    ensures fits { OnOk result (fault_of (row_app row) (map (λ word. word.now) words.now) ≡ []) }
    ensures found { IfOk result (λ m.
        rows_of (found_of m) ≡ values_in (row_app row) (map (λ word. word.now) words.now)) }
{
    let command = command_of(alloc, row)?;
    match command.try_get_matches_from(words) {
        Ok(matches) => Ok(matches),
        Err(error) if error.kind() == ErrorKind::OutOfMemory => Err(WordsFault::NoMemory),
        Err(_) => Err(WordsFault::NoRow),
    }
}

/// The texts that the words ask to write, each with the name of its file: first that for Rocq, then the
/// listing. Only `compile` asks for any.
pub fn wanted_emitters<'a>(
    alloc: Global,
    words: &'a [&'a str],
) -> Result<Vec<(Kind, String)>, AllocError> {
    let mut wanted = Vec::new(alloc);
    if let Some(Job::Compile { rocq, listing, .. }) = read_words(alloc, words)? {
        if let Some(name) = rocq {
            wanted.push((Kind::Rocq, name))?;
        }
        if let Some(name) = listing {
            wanted.push((Kind::Listing, name))?;
        }
    }
    Ok(wanted)
}
