//! The lines of the report.
ghost use Rattle.std.specs.Prelude.{◌≡◌, IfOk, map, string_bytes};
ghost use Rattle.hb_report.specs.Lines as spec;

use crate::refusals::{Telling, title, values};
use crate::values::{name_text, values_text};
use hb_base::{NameId, Names, Span};
use hb_env::{Env, Refusal};
use std::alloc::{AllocError, Global};

/// The line of a refusal in a file: `refused NUMBER FILE FROM TO NAME VALUES`, or `spent FILE FROM TO
/// (t)` and `spent FILE FROM TO moves` for spent budgets. Want of memory has no line: its text is empty.
/// Out of memory is the one error.
pub fn refused_line(
    alloc: Global,
    names: &Names,
    env: &Env,
    file: &str,
    refusal: &Refusal,
) -> Result<String, AllocError>
    ensures { IfOk result (λ line. string_bytes line ≡ spec.refusal_line names.now env.now file.now refusal.now.span refusal.now.what) }
{
    let place = place_text(alloc, file, refusal.span)?;
    let values = values(alloc, &refusal.what)?;
    let text = values_text(alloc, names, env, values.as_slice())?;
    match title(&refusal.what) {
        Telling::Numbered(number, word) => {
            format!(in alloc; "refused {number} {place} {word}{text}\n")
        }
        Telling::Spent => format!(in alloc; "spent {place}{text}\n"),
        Telling::UsedUp => format!(in alloc; "spent {place} moves\n"),
        Telling::Untold => Ok(String::new(alloc)),
    }
}

/// The name of a file with a place in it.
fn place_text(alloc: Global, file: &str, span: Span) -> Result<String, AllocError>
    ensures { IfOk result (λ s. string_bytes s ≡ spec.place_text file.now span) }
{
    let (from, to) = (span.from, span.to);
    format!(in alloc; "{file} {from} {to}")
}

/// A line of a word and a text, as `axiom nat`. Out of memory is the one error.
pub fn event_line(alloc: Global, word: &str, text: &str) -> Result<String, AllocError>
    ensures { IfOk result (λ line. string_bytes line ≡ spec.event_line word.now text.now) }
{
    format!(in alloc; "{word} {text}\n")
}

/// A line of a head and names, each behind a space, or `none` behind the head where there are none. A
/// name that isn't held is written by its number. Out of memory is the one error.
pub fn list_line(
    alloc: Global,
    head: &str,
    names: &Names,
    list: &[NameId],
) -> Result<String, AllocError>
    ensures { IfOk result (λ line. string_bytes line ≡ spec.list_line head.now names.now (map (λ n. n.0) list.now)) }
{
    if list.is_empty() {
        return format!(in alloc; "{head} none\n");
    }
    let text = names_text(alloc, names, list)?;
    format!(in alloc; "{head}{text}\n")
}

/// The names one after another, each behind a space.
fn names_text(alloc: Global, names: &Names, list: &[NameId]) -> Result<String, AllocError>
    ensures { IfOk result (λ s. string_bytes s ≡ spec.names_text names.now (map (λ n. n.0) list.now)) }
{
    match list {
        [] => Ok(String::new(alloc)),
        [first, rest @ ..] => {
            let text = name_text(alloc, names, *first)?;
            let more = names_text(alloc, names, rest)?;
            format!(in alloc; " {text}{more}")
        }
    }
}
