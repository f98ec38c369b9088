//! The lines of `HB.howto`.
ghost use Rattle.std.specs.Prelude.{◌≡◌, IfOk, string_bytes, length, take};
ghost use Rattle.hb_events.specs.Events as spec;

use hb_base::{NameId, Names};
use hb_report::name_text;
use std::alloc::{AllocError, Global};

/// The most lists that are printed.
const MOST_LISTS: usize = 1_000;

/// How many lines there are for so many lists.
pub(crate) fn way_count(count: usize) -> u64
    ensures { result ≡ spec.way_count count }
{
    if count == 0 {
        1
    } else if count <= MOST_LISTS {
        count as u64
    } else {
        MOST_LISTS as u64 + 1
    }
}

/// A line for each of the first lists, and how many more there are. Out of memory is the one error.
pub(crate) fn ways_text(
    alloc: Global,
    names: &Names,
    head: &str,
    lists: &[Vec<NameId>],
) -> Result<String, AllocError>
    ensures { IfOk result (λ s. string_bytes s ≡ spec.ways_text names.now head.now lists.now) }
{
    if lists.is_empty() {
        return format!(in alloc; "{head} none\n");
    }
    let lines = way_lines(alloc, names, head, shown(lists))?;
    let more = more_line(alloc, head, lists.len())?;
    format!(in alloc; "{lines}{more}")
}

/// The lists that are printed.
fn shown(lists: &[Vec<NameId>]) -> &[Vec<NameId>]
    ensures { result.now ≡ take 1000 lists.now }
{
    if lists.len() <= MOST_LISTS {
        lists
    } else {
        &lists[..MOST_LISTS]
    }
}

/// How many lists there are beyond those that are printed.
fn more_line(alloc: Global, head: &str, count: usize) -> Result<String, AllocError>
    ensures { IfOk result (λ s. string_bytes s ≡ spec.more_line head.now count) }
{
    if count <= MOST_LISTS {
        Ok(String::new(alloc))
    } else {
        let more = count - MOST_LISTS;
        format!(in alloc; "{head} and {more} more\n")
    }
}

/// A line for each list.
fn way_lines(
    alloc: Global,
    names: &Names,
    head: &str,
    lists: &[Vec<NameId>],
) -> Result<String, AllocError>
    ensures { IfOk result (λ s. string_bytes s ≡ spec.way_lines names.now head.now lists.now) }
{
    match lists {
        [] => Ok(String::new(alloc)),
        [first, rest @ ..] => {
            let way = way_text(alloc, names, first.as_slice())?;
            let more = way_lines(alloc, names, head, rest)?;
            format!(in alloc; "{head}{way}\n{more}")
        }
    }
}

/// The names of a list, behind commas.
fn way_text(alloc: Global, names: &Names, list: &[NameId]) -> Result<String, AllocError>
    ensures { IfOk result (λ s. string_bytes s ≡ spec.way_text names.now list.now) }
{
    match list {
        [] => Ok(String::new(alloc)),
        [only] => {
            let text = name_text(alloc, names, *only)?;
            format!(in alloc; " {text}")
        }
        [first, rest @ ..] => {
            let text = name_text(alloc, names, *first)?;
            let more = way_text(alloc, names, rest)?;
            format!(in alloc; " {text},{more}")
        }
    }
}
