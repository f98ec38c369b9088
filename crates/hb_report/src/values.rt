//! The values of refusals.
ghost use Rattle.std.specs.Prelude.{◌≡◌, ◌++◌, IfOk, OnOk, map, slice_get, string_bytes};
ghost use Rattle.hb_report.specs.Lines as spec;
ghost use Rattle.hb_report.specs.Lines.{printed};
ghost use Rattle.hb_writer.specs.Text.{text_or_number};

use crate::cut::term_cut;
use crate::refusals::Value;
use hb_base::{Count, NameId, Names};
use hb_env::Env;
use std::alloc::{AllocError, Global};

/// The values one after another, each behind a space.
pub(crate) fn values_text(
    alloc: Global,
    names: &Names,
    env: &Env,
    values: &[Value<'_>],
) -> Result<String, AllocError>
    ensures { IfOk result (λ s. string_bytes s ≡ spec.values_text names.now env.now (map printed values.now)) }
{
    match values {
        [] => Ok(String::new(alloc)),
        [first, rest @ ..] => {
            let text = value_text(alloc, names, env, first)?;
            let more = values_text(alloc, names, env, rest)?;
            format!(in alloc; "{text}{more}")
        }
    }
}

/// A value behind a space.
fn value_text(
    alloc: Global,
    names: &Names,
    env: &Env,
    value: &Value<'_>,
) -> Result<String, AllocError>
    ensures { IfOk result (λ s. string_bytes s ≡ spec.value_text names.now env.now (printed value.now)) }
{
    match value {
        Value::Name(name) => {
            let text = name_text(alloc, names, *name)?;
            format!(in alloc; " {text}")
        }
        Value::Term(term) => {
            let text = term_cut(alloc, names, env, term)?;
            format!(in alloc; " ({text})")
        }
        Value::Count(count) => {
            let word = count_word(*count);
            format!(in alloc; " {word}")
        }
    }
}

/// The text of a name, or `!n` with its number n where it isn't held. Out of memory is the one error.
pub fn name_text(alloc: Global, names: &Names, name: NameId) -> Result<String, AllocError>
    ensures { IfOk result (λ s. string_bytes s ≡ spec.name_of names.now name.0) }
{
    if (name.0 as usize) < names.len() {
        return String::from_str(alloc, names.text(name));
    }
    let number = name.0;
    format!(in alloc; "!{number}")
}

/// The word of a count.
pub fn count_word(count: Count) -> &'static str
    ensures { result.now ≡ spec.count_word count }
{
    match count {
        Count::Names => "names",
        Count::Mixins => "mixins",
        Count::Factories => "factories",
        Count::Structures => "structures",
        Count::Declarations => "declarations",
        Count::Fields => "fields",
        Count::Nodes => "nodes",
        Count::Files => "files",
    }
}
