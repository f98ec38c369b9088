//! Names of a text.
ghost use Rattle.hb_core.specs.Names.{Extends};

use crate::error::Stop;
use crate::level::is_variable;
use hb_base::{NameId, Names, Span};

/// The bytes at the place, as far as the text has them.
pub(crate) fn piece(bytes: &[u8], place: Span) -> &[u8] {
    let from = (place.from as usize).min(bytes.len());
    let rest = &bytes[from..];
    let count = (place.to.saturating_sub(place.from) as usize).min(rest.len());
    &rest[..count]
}

/// The number of a name that is declared, new where it is new. A variable's name isn't declared.
pub(crate) fn declared(names: &mut Names, text: &[u8]) -> Result<NameId, Stop>
    ensures { Extends names.old names.new }
{
    if is_variable(text) {
        return Err(Stop::Stuck);
    }
    number(names, text)
}

/// The number of a name, new where it is new.
pub(crate) fn number(names: &mut Names, text: &[u8]) -> Result<NameId, Stop>
    ensures { Extends names.old names.new }
{
    match str::from_utf8(text) {
        Ok(text) => match names.number(text) {
            Ok(name) => Ok(name),
            Err(refused) => Err(Stop::from(refused)),
        },
        Err(_) => Err(Stop::Stuck),
    }
}

/// The number of a name that is held.
pub(crate) fn held(names: &Names, text: &[u8]) -> Option<NameId> {
    match str::from_utf8(text) {
        Ok(text) => names.find(text),
        Err(_) => None,
    }
}
