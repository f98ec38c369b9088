//! Names that are made of others.
ghost use Rattle.std.specs.Prelude.{◌≡◌, ◌++◌, [], ◌∷◌, ℕ, List, Some, IfOk, IfErr, IfSome, OnOk, codes, slice_get, string_bytes};
ghost use Rattle.hb_base.specs.Names.{NumbersAreUnique};
ghost use Rattle.hb_mixin.specs.Naming.{IsFollowed, IsMakerName, IsFieldName};
ghost use Rattle.hb_mixin.specs.Refusing.{HasNoNumber, HasNoRoom, HasNoRoomFor};
ghost use Rattle.hb_mixin.specs.Steps.{OrNoMemory};
ghost use Rattle.hb_world.specs.Taking.{Extends};

use hb_base::{Count, NameId, Names, NamesRefused, Span};
use hb_env::{Refusal, What};
use hb_step::refused;
use std::alloc::{AllocError, Global};

/// The number of the name of the maker.
pub(crate) fn maker_name(
    alloc: Global,
    names: &mut Names,
    name: NameId,
    place: Span,
) -> Result<NameId, Refusal>
    ensures kept { Extends names.old names.new }
    ensures number { IfOk result (λ id. IsMakerName names.new name id.0) }
    ensures unique { OnOk result (NumbersAreUnique names.new) }
    ensures refused { IfErr result (OrNoMemory (HasNoRoomFor names.new name (codes ".Build") place)) }
{
    followed(alloc, names, name, ".Build", place)
}

/// The number of the whole name of a field: that of what it belongs to, a point, and its own.
pub(crate) fn field_name(
    alloc: Global,
    names: &mut Names,
    name: NameId,
    field: NameId,
    place: Span,
) -> Result<NameId, Refusal>
    ensures kept { Extends names.old names.new }
    ensures number { IfOk result (λ id. IsFieldName names.new name field id.0) }
    ensures refused { IfErr result (OrNoMemory (HasNoNumber names.new name (field ∷ []) place)) }
{
    let Ok(word) = field_word(alloc, names, field) else {
        return Err(refused(place, What::NoMemory));
    };
    followed(alloc, names, name, &word, place)
}

/// What stands behind the name of what a field belongs to: a point, and its own name.
fn field_word(alloc: Global, names: &Names, field: NameId) -> Result<String, AllocError>
    ensures { IfOk result
        (λ w. (t : List ℕ) × (slice_get names.now field.0 ≡ Some t) × (string_bytes w ≡ codes "." ++ t)) }
{
    let Some(own) = text_of(names, field) else {
        return Err(AllocError);
    };
    let mut word = String::from_str(alloc, ".")?;
    word.push_str(own)?;
    Ok(word)
}

/// The number of the name with the word behind it.
fn followed(
    alloc: Global,
    names: &mut Names,
    name: NameId,
    word: &str,
    place: Span,
) -> Result<NameId, Refusal>
    ensures kept { Extends names.old names.new }
    ensures number { IfOk result (λ id. IsFollowed names.new name word.now id.0) }
    ensures unique { OnOk result (NumbersAreUnique names.new) }
    ensures refused { IfErr result (OrNoMemory (HasNoRoomFor names.new name word.now place)) }
{
    let Ok(text) = text_with(alloc, names, name, word) else {
        return Err(refused(place, What::NoMemory));
    };
    numbered(names, &text, place)
}

/// The text of the name with the word behind it. A name that isn't held has none.
fn text_with(alloc: Global, names: &Names, name: NameId, word: &str) -> Result<String, AllocError>
    ensures { IfOk result
        (λ w. (t : List ℕ) × (slice_get names.now name.0 ≡ Some t) × (string_bytes w ≡ t ++ word.now)) }
{
    let Some(own) = text_of(names, name) else {
        return Err(AllocError);
    };
    let mut text = String::from_str(alloc, own)?;
    text.push_str(word)?;
    Ok(text)
}

/// The number of the text.
pub(crate) fn numbered(names: &mut Names, text: &str, place: Span) -> Result<NameId, Refusal>
    ensures kept { Extends names.old names.new }
    ensures number { IfOk result (λ id. slice_get names.new id.0 ≡ Some text.now) }
    ensures unique { OnOk result (NumbersAreUnique names.new) }
    ensures refused { IfErr result (OrNoMemory (HasNoRoom names.new text.now place)) }
{
    match names.number(text) {
        Ok(id) => Ok(id),
        Err(NamesRefused::TooMany) => Err(refused(place, What::TooMany(Count::Names))),
        Err(NamesRefused::NoMemory) => Err(refused(place, What::NoMemory)),
    }
}

/// The text of the name, where it is held.
pub(crate) fn text_of(names: &Names, name: NameId) -> Option<&str>
    ensures { IfSome result (λ t. slice_get names.now name.0 ≡ Some t.now) }
{
    if usize::from(name.0) < names.len() {
        Some(names.text(name))
    } else {
        None
    }
}
