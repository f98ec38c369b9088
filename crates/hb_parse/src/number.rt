//! Numbers of the names that a token needs.
ghost use Rattle.std.specs.Prelude.{◌≡◌, ◌≤◌, ℕ, Err, IfOk, IfErr, OnOk, OnErr, length, false};
ghost use Rattle.std.specs.Str.{IsAscii};
ghost use Rattle.hb_base.specs.Names.{is_named, with_name};
ghost use Rattle.hb_base.specs.declared.names.NamesRefused.TheVariants.{TooMany};
ghost use Rattle.hb_parse.specs.Numbers.{Extends, IsNumber, AreNumbers, AddsText, AddsParts, Counts, Lacks, needed, number_uses, with_names};
ghost use Rattle.hb_parse.specs.Uses.{name_uses};

use super::mark::first;
use hb_base::{NameId, Names, NamesRefused};
use hb_reader::Need;

/// What stands in the place of a number that isn't needed.
pub(crate) const NONE: NameId = NameId(0);

/// The number of an ASCII text, new where it is new.
fn number(names: &mut Names, text: &[u8]) -> Result<NameId, NamesRefused>
    requires { IsAscii text.now }
    ensures number { IfOk result (IsNumber names.new text.now) }
    ensures added { OnOk result (names.new ≡ with_name names.old text.now) }
    ensures unchanged { OnErr result (names.new ≡ names.old) }
    ensures grown { length names.old ≤ length names.new }
    ensures text { AddsText names.old names.new text.now }
    ensures counted { IfOk result (λ id. (i : ℕ) → Counts i names.old names.new (name_uses i id)) }
    ensures too_many { result ≡ Err TooMany → (is_named names.old text.now ≡ false) × (65535 ≤ length names.old) }
{
    match str::from_utf8(text) {
        Ok(text) => names.number(text),
        Err(_) => unreachable!(),
    }
}

/// The numbers of the whole text and of its first part, where they are needed.
pub(crate) fn numbers(
    names: &mut Names,
    need: Need,
    text: &[u8],
) -> Result<(NameId, NameId), NamesRefused>
    requires { IsAscii text.now }
    ensures numbers { IfOk result (λ n. AreNumbers names.new need text.now n.0 n.1) }
    ensures added { OnOk result (names.new ≡ with_names names.old (needed need text.now)) }
    ensures kept { Extends names.old names.new }
    ensures parts { AddsParts names.old names.new text.now }
    ensures counted { IfOk result (λ n. (i : ℕ) → Counts i names.old names.new (number_uses i need n.0 n.1)) }
    ensures too_many { result ≡ Err TooMany → (65535 ≤ length names.new) × Lacks names.new need text.now }
{
    match need {
        Need::Nothing => Ok((NONE, NONE)),
        Need::Whole => Ok((number(names, text)?, NONE)),
        Need::First => Ok((NONE, number(names, first(text))?)),
        Need::Both => {
            let first = number(names, first(text))?;
            let whole = number(names, text)?;
            Ok((whole, first))
        }
    }
}
