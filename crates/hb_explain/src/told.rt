//! What is told of a refusal.
use crate::setting::Setting;
use hb_env::What;
use hb_report::refused_values;
use std::alloc::AllocError;

/// What is wrong, and what to do about it.
#[derive(Drop)]
pub(crate) struct Told {
    pub(crate) sentence: String,
    pub(crate) cure: String,
}

/// A sentence with a place `%` for each kept value in turn and `#` for the file's name, and a cure.
pub(crate) type Texts = (&'static str, &'static str);

/// The texts with the kept values in their places.
pub(crate) fn filled(setting: Setting<'_>, what: &What, texts: Texts) -> Result<Told, AllocError> {
    let values = refused_values(setting.alloc, what)?;
    let mut sentence = String::new(setting.alloc);
    let mut next: usize = 0;
    for c in texts.0.chars() {
        if c == '%' {
            if let Some(value) = values.as_slice().get(next) {
                sentence.push_str(setting.value(value)?.as_str())?;
            }
            next = next.saturating_add(1);
        } else if c == '#' {
            sentence.push_str(setting.file)?;
        } else {
            sentence.push(c)?;
        }
    }
    let cure = String::from_str(setting.alloc, texts.1)?;
    Ok(Told { sentence, cure })
}
