//! The whole diagnosis.
use crate::differ::difference;
use crate::joins::missing_structures;
use crate::paint::{Colour, painted};
use crate::place::place_of;
use crate::sentences::texts_of;
use crate::setting::Setting;
use crate::told::{Told, filled};
use crate::ways::{ways_at, ways_behind};
use hb_env::{Refusal, What};
use std::alloc::AllocError;

/// The diagnosis of a refusal in a file: `file:line:column`, the line with its place marked,
/// a sentence of what is wrong, and what to do about it. Lines and columns count from 1, columns in
/// characters, or in bytes where the line isn't UTF-8. Where there is no source it is the sentence alone.
/// Out of memory is the one error.
pub fn explain(
    setting: Setting<'_>,
    refusal: &Refusal,
    source: Option<&[u8]>,
    coloured: bool,
) -> Result<String, AllocError> {
    let alloc = setting.alloc;
    let told = told_of(setting, refusal, source.unwrap_or(&[]))?;
    let sentence = told.sentence.as_str();
    match source {
        Some(bytes) => {
            let head = head(setting, refusal, bytes, coloured)?;
            let cure = painted(alloc, coloured, Colour::Cure, told.cure.as_str())?;
            format!(in alloc; "{head}{sentence}\n{cure}\n")
        }
        None => format!(in alloc; "{sentence}\n"),
    }
}

/// What is told of a refusal, of which session and source may tell more than the kept values.
fn told_of(setting: Setting<'_>, refusal: &Refusal, source: &[u8]) -> Result<Told, AllocError> {
    let what = &refusal.what;
    let mut told = filled(setting, what, texts_of(what))?;
    let behind = refusal.span.to as usize;
    let cure = match what {
        What::NotConvertible(a, b) => {
            told.sentence.push_str(difference(setting, a, b)?.as_str())?;
            None
        }
        What::MissingJoin(a, b, _) => Some(missing_structures(setting, *a, *b, source, behind)?),
        What::MissingMixin(mixin) => ways_behind(setting, *mixin, source, behind)?,
        What::NoInstance(wanted, carrier) => ways_at(setting, *wanted, carrier)?,
        _ => None,
    };
    if let Some(cure) = cure {
        told.cure = cure;
    }
    Ok(told)
}

/// The place, and its line with the place marked, where the refusal is of a text.
fn head(
    setting: Setting<'_>,
    refusal: &Refusal,
    source: &[u8],
    coloured: bool,
) -> Result<String, AllocError> {
    let alloc = setting.alloc;
    let file = setting.file;
    if !has_line(&refusal.what) || is_binary(file) {
        let byte = refusal.span.from;
        return format!(in alloc; "{file}, byte {byte}\n");
    }
    let place = place_of(alloc, source, refusal.span)?;
    let (line, column) = (place.line, place.column);
    let at = format!(in alloc; "{file}:{line}:{column}")?;
    let at = painted(alloc, coloured, Colour::Place, at.as_str())?;
    let text = place.text(alloc)?;
    let mark = place.mark(alloc)?;
    let mark = painted(alloc, coloured, Colour::Mark, mark.as_str())?;
    format!(in alloc; "{at}\n    {text}\n    {mark}\n")
}

/// Whether a file is no text by its ending: a library or a certificate.
fn is_binary(file: &str) -> bool {
    let name = file.as_bytes();
    name.ends_with(b".hbl") || name.ends_with(b".hbcert")
}

/// Whether the refusal is of a line, and not of a whole file or of what isn't a text.
fn has_line(what: &What) -> bool {
    match what {
        What::FileTooLong | What::Absent | What::BadLibrary | What::BadCertificate => false,
        What::LostName(_) | What::NeedsMore(_, _) | What::GivesLess(_, _) => false,
        What::StructureLost(_) | What::StructureChanged(_, _) | What::FieldsChanged(_) => false,
        _ => true,
    }
}
