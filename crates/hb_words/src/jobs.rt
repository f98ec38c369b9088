//! The job of each row, of what its command found.
ghost use Rattle.std.specs.Prelude.{◌≡◌, ◌≤◌, IfOk, IsTrue, Some, codes, map, string_bytes};
ghost use Rattle.std.specs.Option.{option_map};
ghost use Rattle.clap.specs.Words.{first_of, found_of, rows_of};
ghost use Rattle.hb_words.specs.Asked.{all_values, one_value, HasValues, IsNumberOf};
ghost use Rattle.hb_words.specs.Jobs.{IsAllowed, IsSteps};
ghost use Rattle.hb_words.specs.Numbers.{IsNumber};
ghost use Rattle.hb_words.specs.declared.row.Row.TheVariants as rows;

use crate::files::{are_clients, are_files, is_certificate, is_library};
use crate::job::Job;
use crate::numbers::number;
use crate::row::Row;
use clap::ArgMatches;
use std::alloc::{AllocError, Global};

/// The most steps.
const MOST_STEPS: u64 = 4_294_967_295;

/// The sizes of a sample.
const LEAST_SIZE: u64 = 2;

const MOST_SIZE: u64 = 200;

/// Why words are no job.
#[derive(Drop)]
pub(crate) enum WordsFault {
    /// They are in no row of the usage text.
    NoRow,
    /// Out of memory.
    NoMemory,
}

impl From<AllocError> for WordsFault {
    fn from(_: AllocError) -> WordsFault {
        WordsFault::NoMemory
    }
}

/// The job of a row.
pub(crate) fn job_of(alloc: Global, row: Row, matches: &ArgMatches<'_>) -> Result<Job, WordsFault>
    ensures allowed { IfOk result IsAllowed }
    ensures values { IfOk result (HasValues row (rows_of (found_of matches.now))) }
{
    match row {
        Row::Compile => compile_job(alloc, matches),
        Row::Save => save_job(alloc, matches),
        Row::Core => core_job(alloc, matches),
        Row::Refactor => refactor_job(alloc, matches),
        Row::Sample => sample_job(matches),
        Row::Show => show_job(alloc, matches),
        Row::Certify => certify_job(alloc, matches),
        Row::Verify => verify_job(alloc, matches),
    }
}

fn compile_job(alloc: Global, matches: &ArgMatches<'_>) -> Result<Job, WordsFault>
    ensures allowed { IfOk result IsAllowed }
    ensures values { IfOk result (HasValues rows.Compile (rows_of (found_of matches.now))) }
{
    let steps = steps_of(matches)?;
    let files = values_of(alloc, matches, "FILE")?;
    wanted(are_files(&files))?;
    Ok(Job::Compile {
        steps,
        rocq: option_of(alloc, matches, "rocq")?,
        listing: option_of(alloc, matches, "listing")?,
        files,
    })
}

fn save_job(alloc: Global, matches: &ArgMatches<'_>) -> Result<Job, WordsFault>
    ensures allowed { IfOk result IsAllowed }
    ensures values { IfOk result (HasValues rows.Save (rows_of (found_of matches.now))) }
{
    let steps = steps_of(matches)?;
    let lib = value_of(matches, "LIB")?;
    let files = values_of(alloc, matches, "FILE")?;
    wanted(is_library(lib))?;
    wanted(are_files(&files))?;
    Ok(Job::Save {
        steps,
        lib: String::from_str(alloc, lib)?,
        files,
    })
}

fn core_job(alloc: Global, matches: &ArgMatches<'_>) -> Result<Job, WordsFault>
    ensures allowed { IfOk result IsAllowed }
    ensures values { IfOk result (HasValues rows.Core (rows_of (found_of matches.now))) }
{
    let steps = steps_of(matches)?;
    let file = value_of(matches, "FILE")?;
    wanted(!is_library(file))?;
    Ok(Job::Core {
        steps,
        file: String::from_str(alloc, file)?,
    })
}

fn refactor_job(alloc: Global, matches: &ArgMatches<'_>) -> Result<Job, WordsFault>
    ensures allowed { IfOk result IsAllowed }
    ensures values { IfOk result (HasValues rows.Refactor (rows_of (found_of matches.now))) }
{
    let steps = steps_of(matches)?;
    let old = value_of(matches, "OLD")?;
    let new = value_of(matches, "NEW")?;
    let clients = values_of(alloc, matches, "CLIENT")?;
    wanted(are_clients(&clients))?;
    Ok(Job::Refactor {
        steps,
        old: String::from_str(alloc, old)?,
        new: String::from_str(alloc, new)?,
        clients,
    })
}

fn sample_job(matches: &ArgMatches<'_>) -> Result<Job, WordsFault>
    ensures allowed { IfOk result IsAllowed }
    ensures values { IfOk result (HasValues rows.Sample (rows_of (found_of matches.now))) }
{
    let number = number(value_of(matches, "NUMBER")?, u64::MAX)?;
    let size = size_of(value_of(matches, "SIZE")?)?;
    Ok(Job::Sample { number, size })
}

fn show_job(alloc: Global, matches: &ArgMatches<'_>) -> Result<Job, WordsFault>
    ensures allowed { IfOk result IsAllowed }
    ensures values { IfOk result (HasValues rows.Show (rows_of (found_of matches.now))) }
{
    let file = value_of(matches, "FILE")?;
    wanted(!is_library(file))?;
    Ok(Job::Show {
        file: String::from_str(alloc, file)?,
    })
}

fn certify_job(alloc: Global, matches: &ArgMatches<'_>) -> Result<Job, WordsFault>
    ensures allowed { IfOk result IsAllowed }
    ensures values { IfOk result (HasValues rows.Certify (rows_of (found_of matches.now))) }
{
    let steps = steps_of(matches)?;
    let cert = value_of(matches, "CERT")?;
    let files = values_of(alloc, matches, "FILE")?;
    wanted(is_certificate(cert))?;
    wanted(are_files(&files))?;
    Ok(Job::Certify {
        steps,
        cert: String::from_str(alloc, cert)?,
        files,
    })
}

fn verify_job(alloc: Global, matches: &ArgMatches<'_>) -> Result<Job, WordsFault>
    ensures allowed { IfOk result IsAllowed }
    ensures values { IfOk result (HasValues rows.Verify (rows_of (found_of matches.now))) }
{
    let cert = value_of(matches, "CERT")?;
    wanted(is_certificate(cert))?;
    Ok(Job::Verify {
        cert: String::from_str(alloc, cert)?,
    })
}

/// Goes on where a rule is met.
fn wanted(met: bool) -> Result<(), WordsFault>
    ensures { IfOk result (λ _. IsTrue met) }
{
    if met { Ok(()) } else { Err(WordsFault::NoRow) }
}

/// The number of steps, where the option is there.
fn steps_of(matches: &ArgMatches<'_>) -> Result<Option<u64>, WordsFault>
    ensures allowed { IfOk result IsSteps }
    ensures written { IfOk result (IsNumberOf (first_of (codes "steps") (rows_of (found_of matches.now)))) }
{
    match matches.get_str("steps") {
        None => Ok(None),
        Some(text) => {
            let steps = number(text, MOST_STEPS)?;
            wanted(steps > 0)?;
            Ok(Some(steps))
        }
    }
}

/// The size of a sample.
fn size_of(text: &str) -> Result<u16, WordsFault>
    ensures allowed { IfOk result (λ n. (2 ≤ n) × (n ≤ 200)) }
    ensures written { IfOk result (IsNumber text.now) }
{
    let size = number(text, MOST_SIZE)?;
    wanted(size >= LEAST_SIZE)?;
    Ok(size as u16)
}

/// The one value of an argument that has to be there.
fn value_of<'a>(matches: &ArgMatches<'a>, id: &str) -> Result<&'a str, WordsFault>
    ensures { IfOk result (λ text. one_value id.now (rows_of (found_of matches.now)) text.now) }
{
    match matches.get_str(id) {
        Some(text) => Ok(text),
        None => Err(WordsFault::NoRow),
    }
}

/// All values of an argument, as texts of their own.
fn values_of(alloc: Global, matches: &ArgMatches<'_>, id: &str) -> Result<Vec<String>, AllocError>
    ensures { IfOk result (λ texts.
        map string_bytes texts.items ≡ all_values id.now (rows_of (found_of matches.now))) }
{
    match matches.get_strs(id) {
        Some(values) => owned(alloc, values),
        None => Ok(Vec::new(alloc)),
    }
}

/// The value of an option, where it is there.
fn option_of(
    alloc: Global,
    matches: &ArgMatches<'_>,
    id: &str,
) -> Result<Option<String>, WordsFault>
    ensures { IfOk result (λ text.
        option_map string_bytes text ≡ first_of id.now (rows_of (found_of matches.now))) }
{
    match matches.get_str(id) {
        None => Ok(None),
        Some(text) => Ok(Some(String::from_str(alloc, text)?)),
    }
}

/// The texts, as values of their own.
fn owned(alloc: Global, texts: &[&str]) -> Result<Vec<String>, AllocError>
    ensures { IfOk result (λ all. map string_bytes all.items ≡ map (λ t. t.now) texts.now) }
{
    let mut all = Vec::new(alloc);
    for text in texts {
        all.push(String::from_str(alloc, text)?)?;
    }
    Ok(all)
}
