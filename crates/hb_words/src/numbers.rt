//! Numbers on the command line: digits alone, of any length.
ghost use Rattle.std.specs.Prelude.{◌≡◌, ◌≤◌, IfOk};
ghost use Rattle.hb_words.specs.Numbers as spec;
ghost use Rattle.hb_words.specs.Numbers.{IsDigit, IsNumber};

use crate::jobs::WordsFault;

/// The number that digits write. `NoRow` where there are none, where something else stands among them,
/// or where it is above `most`.
pub(crate) fn number(text: &str, most: u64) -> Result<u64, WordsFault>
    ensures least { IfOk result (λ n. n ≤ most) }
    ensures written { IfOk result (IsNumber text.now) }
{
    let digits = text.as_bytes();
    if digits.is_empty() {
        return Err(WordsFault::NoRow);
    }
    let mut value: u64 = 0;
    for digit in digits {
        value = longer(value, *digit, most)?;
    }
    Ok(value)
}

/// A number with one more digit.
fn longer(value: u64, digit: u8, most: u64) -> Result<u64, WordsFault>
    ensures least { IfOk result (λ n. n ≤ most) }
    ensures written { IfOk result (λ n. IsDigit digit × (n ≡ spec.longer value digit)) }
{
    if !digit.is_ascii_digit() {
        return Err(WordsFault::NoRow);
    }
    let tens = value.checked_mul(10).ok_or(WordsFault::NoRow)?;
    let sum = tens
        .checked_add(u64::from(digit - b'0'))
        .ok_or(WordsFault::NoRow)?;
    if sum <= most {
        Ok(sum)
    } else {
        Err(WordsFault::NoRow)
    }
}
