//! Written levels, and the digits of variables.
ghost use Rattle.std.specs.Prelude.{◌≡◌};
ghost use Rattle.hb_core.specs.Levels.{level_of};

/// The level that the digits are, or 64 for each above 63.
pub(crate) fn level(digits: &[u8]) -> u8
    ensures { result ≡ level_of digits.now }
{
    let mut level: u32 = 0;
    for digit in digits {
        level = (10 * level + u32::from(digit.saturating_sub(b'0'))).min(64);
    }
    level as u8
}

/// Whether a name is that of a variable: `_` and digits.
pub(crate) fn is_variable(text: &[u8]) -> bool {
    match text {
        [b'_', digits @ ..] => !digits.is_empty() && digits.iter().all(|d| d.is_ascii_digit()),
        _ => false,
    }
}

/// The depth that a variable's name writes, without leading zeros. `None` where the name is no
/// variable's, has leading zeros, or writes a number that is no depth.
pub(crate) fn variable_depth(text: &[u8]) -> Option<u32> {
    match text {
        [b'_', digits @ ..] => plain_number(digits),
        _ => None,
    }
}

/// The number that the digits write, without leading zeros.
fn plain_number(digits: &[u8]) -> Option<u32> {
    match digits {
        [] => None,
        [b'0'] => Some(0),
        [b'0', ..] => None,
        _ => number(digits),
    }
}

/// The number that the digits write.
fn number(digits: &[u8]) -> Option<u32> {
    let mut number: u32 = 0;
    for digit in digits {
        if !digit.is_ascii_digit() {
            return None;
        }
        let tens = number.checked_mul(10)?;
        number = tens.checked_add(u32::from(digit.saturating_sub(b'0')))?;
    }
    Some(number)
}
