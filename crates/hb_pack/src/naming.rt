//! The numbers of generated names.
ghost use Rattle.std.specs.Prelude.{◌≡◌, ℕ, List, IfOk, codes};
ghost use Rattle.hb_generated.specs.Names as generated;
ghost use Rattle.hb_generated.specs.Session.{IsPrefix};

use crate::error::PackRefused;
use hb_base::{NameId, Names};
use std::alloc::Global;

/// The number of the name with the word after it, also when more names follow.
pub(crate) fn followed(
    alloc: Global,
    names: &mut Names,
    name: NameId,
    word: &str,
) -> Result<NameId, PackRefused>
    ensures number { IfOk result
        (λ id. (N : List (List ℕ)) → IsPrefix names.new N → generated.followed N name.0 word.now ≡ id.0) }
    ensures kept { IsPrefix names.old names.new }
{
    if names.len() <= usize::from(name.0) {
        return Err(PackRefused::NoMemory);
    }
    let mut text = String::from_str(alloc, names.text(name))?;
    text.push_str(word)?;
    Ok(names.number(&text)?)
}

/// The number of the two names with the word between them, also when more names follow.
pub(crate) fn between(
    alloc: Global,
    names: &mut Names,
    before: NameId,
    word: &str,
    after: NameId,
) -> Result<NameId, PackRefused>
    ensures number { IfOk result
        (λ id. (N : List (List ℕ)) → IsPrefix names.new N
        → generated.between N before.0 word.now after.0 ≡ id.0) }
    ensures kept { IsPrefix names.old names.new }
{
    if names.len() <= usize::from(before.0) || names.len() <= usize::from(after.0) {
        return Err(PackRefused::NoMemory);
    }
    let mut text = String::from_str(alloc, names.text(before))?;
    text.push_str(word)?;
    text.push_str(names.text(after))?;
    Ok(names.number(&text)?)
}
