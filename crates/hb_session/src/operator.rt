//! Where a source has operators or notations, which the grammar without them refuses.
ghost use Rattle.std.specs.Prelude.{◌≡◌, IsTrue};
ghost use Rattle.hb_session.specs.Source as spec;
ghost use Rattle.hb_session.specs.Source.{StopsAtNotation};

use hb_env::{Refusal, What};

/// Whether a source, refused so by the grammar without notations, may be one with notations: its bytes are no
/// tokens without operators, or no command goes on with the first word of a notation.
pub fn stops_at_notation(bytes: &[u8], refusal: &Refusal) -> bool
    ensures { IsTrue result → StopsAtNotation bytes.now refusal.now.span refusal.now.what }
{
    match &refusal.what {
        What::Lex => true,
        What::Syntax => begins_notation(bytes, refusal.span.from),
        _ => false,
    }
}

/// Whether the first word of the sentence of a notation stands at the place.
fn begins_notation(bytes: &[u8], at: u32) -> bool
    ensures { result ≡ spec.begins_notation bytes.now at }
{
    let from = (at as usize).min(bytes.len());
    let rest = &bytes[from..];
    rest.starts_with(b"Infix") || rest.starts_with(b"Prefix")
}
