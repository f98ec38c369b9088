//! Written levels.
ghost use Rattle.std.specs.Prelude.{◌≡◌};
ghost use Rattle.hb_parse.specs.Marks.{level_of};

/// The level that the digits are, or 64 for each above 63.
pub(crate) fn level(digits: &[u8]) -> u8
    ensures { result ≡ level_of digits.now }
{
    let mut level: u32 = 0;
    for digit in digits {
        level = (10 * level + u32::from(digit.saturating_sub(b'0'))).min(64);
    }
    level as u8
}
