//! The bytes at a place.
ghost use Rattle.std.specs.Prelude.{◌≡◌};
ghost use Rattle.hb_parse.specs.Marks as spec;

use hb_base::Span;

/// The bytes at the place, as far as the text has them.
pub(crate) fn piece(bytes: &[u8], place: Span) -> &[u8]
    ensures { result.now ≡ spec.piece bytes.now place }
{
    let from = (place.from as usize).min(bytes.len());
    let rest = &bytes[from..];
    let count = (place.to.saturating_sub(place.from) as usize).min(rest.len());
    &rest[..count]
}
