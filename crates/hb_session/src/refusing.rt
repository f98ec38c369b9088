//! Refusals at places.
ghost use Rattle.std.specs.Prelude.{◌≡◌};
ghost use Rattle.hb_session.specs.Source as spec;

use hb_base::Span;
use hb_env::{Refusal, What};

/// A refusal at a place.
pub(crate) fn at(span: Span, what: What) -> Refusal
    ensures { result ≡ record { span = span; what = what } }
{
    Refusal { span, what }
}

/// The place at a byte of a file.
pub fn at_byte(file: u16, byte: u32) -> Span
    ensures { result ≡ spec.at_byte file byte }
{
    Span {
        file,
        from: byte,
        to: byte,
    }
}
