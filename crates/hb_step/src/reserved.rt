//! Names that are kept for generated ones.
ghost use Rattle.std.specs.Prelude.{◌≡◌};
ghost use Rattle.hb_step.specs.Reserved as spec;

/// Whether a declared name is kept for generated ones: `HB_` with more, or `_` and digits.
pub fn is_reserved(name: &str) -> bool
    ensures { result ≡ spec.is_reserved name.now }
{
    let bytes = name.as_bytes();
    if bytes.starts_with(b"HB_") {
        return true;
    }
    match bytes {
        [b'_', digits @ ..] => are_digits(digits),
        _ => false,
    }
}

/// Whether the bytes are digits, at least one.
fn are_digits(bytes: &[u8]) -> bool
    ensures { result ≡ spec.are_digits bytes.now }
{
    match bytes {
        [] => false,
        [last] => is_digit(*last),
        [first, rest @ ..] => is_digit(*first) && are_digits(rest),
    }
}

/// Whether a byte is a decimal digit.
fn is_digit(b: u8) -> bool
    ensures { result ≡ spec.is_digit b }
{
    b'0' <= b && b <= b'9'
}

/// Whether the name of a mixin, factory, structure or field is kept, as generated names end in it.
pub fn is_reserved_part(name: &str) -> bool
    ensures { result ≡ spec.is_reserved_part name.now }
{
    name == "type"
        || name == "sort"
        || name == "class"
        || name == "Pack"
        || name == "Class"
        || name == "axioms_"
        || name == "Build"
}
