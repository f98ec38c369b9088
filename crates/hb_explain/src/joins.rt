//! The structures that are missing where a join is.
use crate::behind::words_behind;
use crate::setting::Setting;
use hb_base::NameId;
use hb_hier::{Hier, Known};
use hb_order::{MixinId, StructId};
use hb_sets::MixSet;
use std::alloc::{AllocError, Global};

/// The most missing structures that are listed.
const MOST_FOUND: usize = 12;

/// The most structures inside of one that are looked at.
const MOST_INSIDE: usize = 96;

/// The most words of a structure's list.
const MOST_WORDS: usize = 512;

/// The sentences of the structures that are missing where the join of two structures isn't inside of a
/// refused one, whose list is read from the source behind its name.
pub(crate) fn missing_structures(
    setting: Setting<'_>,
    a: NameId,
    b: NameId,
    source: &[u8],
    behind: usize,
) -> Result<String, AllocError> {
    let hier = setting.hier();
    let first = hier.brought([a, b].as_slice());
    let whole = whole_set(setting, source, behind, &first)?;
    let found = missing(setting.alloc, hier, first, &whole)?;
    let mut text = String::new(setting.alloc);
    for set in &found {
        if !text.is_empty() {
            text.push('\n')?;
        }
        text.push_str(ready(setting, set)?.as_str())?;
    }
    Ok(text)
}

/// The mixins of the refused structure: what the list behind its name brings, or at least these where that
/// can't be read.
fn whole_set(
    setting: Setting<'_>,
    source: &[u8],
    behind: usize,
    least: &MixSet,
) -> Result<MixSet, AllocError> {
    let names = &setting.world.names;
    let list = words_behind(setting.alloc, source, behind, MOST_WORDS)?;
    let mut items = Vec::new(setting.alloc);
    for (at, word) in list.iter().enumerate() {
        if 2 <= at && at % 2 == 0 {
            if let Some(name) = names.find(word) {
                items.push(name)?;
            }
        }
    }
    let whole = setting.hier().brought(items.as_slice());
    if least.subset(&whole) {
        Ok(whole)
    } else {
        Ok(least.copy())
    }
}

/// The sets of the structures that are missing inside of the whole one, so that this one has its join, and
/// those inside of them, each before those that have more. No set is listed that another one makes needless.
fn missing(
    alloc: Global,
    hier: &Hier,
    first: MixSet,
    whole: &MixSet,
) -> Result<Vec<MixSet>, AllocError> {
    let mut found = Vec::new(alloc);
    add_missing(alloc, hier, whole, &mut found)?;
    if !is_held(&found, &first) {
        found.push(first)?;
    }
    for at in 0..MOST_FOUND {
        if let Some(set) = found.as_slice().get(at) {
            let set = set.copy();
            add_missing(alloc, hier, &set, &mut found)?;
        }
    }
    ordered(alloc, found)
}

/// Adds the sets that are missing inside of one, each time one that no other missing one has all of: with
/// it, those that it has all of are no longer missing.
fn add_missing(
    alloc: Global,
    hier: &Hier,
    set: &MixSet,
    found: &mut Vec<MixSet>,
) -> Result<(), AllocError> {
    let mut inside = inside_of(alloc, hier, set, found)?;
    for _ in 0..MOST_FOUND {
        if found.len() >= MOST_FOUND {
            return Ok(());
        }
        let Some(union) = largest_missing(hier, set, &inside) else {
            return Ok(());
        };
        inside.push(union.copy())?;
        found.push(union)?;
    }
    Ok(())
}

/// A set that is missing inside of one, and that no other missing one has all of: a union of two sets inside
/// of it that no set inside of it holds, where a declared structure that doesn't hold the whole of it does.
fn largest_missing(hier: &Hier, set: &MixSet, inside: &Vec<MixSet>) -> Option<MixSet> {
    let mut largest = None;
    for a in 0..MOST_INSIDE {
        for b in 0..a {
            if let Some(union) = union_of(inside, a, b) {
                if has_all_of(&union, &largest) && is_missing(hier, set, inside, &union) {
                    largest = Some(union);
                }
            }
        }
    }
    largest
}

/// Whether a set has all of another, if there is one.
fn has_all_of(set: &MixSet, other: &Option<MixSet>) -> bool {
    match other {
        Some(other) => other.subset(set),
        None => true,
    }
}

/// Whether one of the sets has all of another.
fn is_held(sets: &Vec<MixSet>, set: &MixSet) -> bool {
    for one in sets {
        if set.subset(one) {
            return true;
        }
    }
    false
}

/// The sets strictly inside of one that are declared or found.
fn inside_of(
    alloc: Global,
    hier: &Hier,
    set: &MixSet,
    found: &Vec<MixSet>,
) -> Result<Vec<MixSet>, AllocError> {
    let mut inside = Vec::new(alloc);
    for s in 0..hier.structures() {
        add_inside(hier.mix(StructId(s)), set, &mut inside)?;
    }
    for other in found {
        add_inside(other, set, &mut inside)?;
    }
    Ok(inside)
}

/// Adds a set where it is strictly inside of another.
fn add_inside(one: &MixSet, set: &MixSet, inside: &mut Vec<MixSet>) -> Result<(), AllocError> {
    if one.subset(set) && !set.subset(one) {
        inside.push(one.copy())?;
    }
    Ok(())
}

/// The union of two sets of a list.
fn union_of(list: &Vec<MixSet>, a: usize, b: usize) -> Option<MixSet> {
    let one = list.as_slice().get(a)?;
    let other = list.as_slice().get(b)?;
    Some(one.union(other))
}

/// Whether no set inside holds the union, and a declared structure does that doesn't hold the whole set.
fn is_missing(hier: &Hier, set: &MixSet, inside: &Vec<MixSet>, union: &MixSet) -> bool {
    if is_held(inside, union) {
        return false;
    }
    for s in 0..hier.structures() {
        let declared = hier.mix(StructId(s));
        if union.subset(declared) && !set.subset(declared) {
            return true;
        }
    }
    false
}

/// The sets, each before those that have more.
fn ordered(alloc: Global, sets: Vec<MixSet>) -> Result<Vec<MixSet>, AllocError> {
    let mut out = Vec::new(alloc);
    for set in sets {
        let at = place_in(&out, &set).min(out.len());
        out.insert(at, set)?;
    }
    Ok(out)
}

/// The place of the first set that has all of one; the end where none has.
fn place_in(sets: &Vec<MixSet>, set: &MixSet) -> usize {
    for (at, other) in sets.iter().enumerate() {
        if set.subset(other) {
            return at;
        }
    }
    sets.len()
}

/// The sentence that declares a missing structure, and before which one it is to stand.
fn ready(setting: Setting<'_>, set: &MixSet) -> Result<String, AllocError> {
    let hier = setting.hier();
    let alloc = setting.alloc;
    let name = new_name(setting, set)?;
    let items = items(setting, set)?;
    let sentence = format!(in alloc; "    HB.structure Definition {name} := {{ A of {items} }}.")?;
    match first_above(hier, set) {
        Some(above) => {
            let above = setting.name(above)?;
            format!(in alloc; "Declare before `{above}`:\n{sentence}")
        }
        None => format!(in alloc; "Declare before it:\n{sentence}"),
    }
}

/// The first declared structure that has all of a set.
fn first_above(hier: &Hier, set: &MixSet) -> Option<NameId> {
    for s in 0..hier.structures() {
        if set.subset(hier.mix(StructId(s))) {
            return hier.name(Known::Structure(StructId(s)));
        }
    }
    None
}

/// The list of a structure that has these mixins.
fn items(setting: Setting<'_>, set: &MixSet) -> Result<String, AllocError> {
    let hier = setting.hier();
    let mut text = String::new(setting.alloc);
    for m in 0..1024u16 {
        if set.has(m) {
            if let Some(name) = hier.name(Known::Mixin(MixinId(m))) {
                if !text.is_empty() {
                    text.push_str(" & ")?;
                }
                text.push_str(setting.name(name)?.as_str())?;
                text.push_str(" A")?;
            }
        }
    }
    Ok(text)
}

/// A name for a structure of these mixins: those of the first two declared structures that have them
/// together, or else `Join`, and marks behind it where that is taken.
fn new_name(setting: Setting<'_>, set: &MixSet) -> Result<String, AllocError> {
    let mut name = match first_pair(setting.hier(), set) {
        Some((a, b)) => {
            let (a, b) = (setting.name(a)?, setting.name(b)?);
            format!(in setting.alloc; "{a}_{b}")?
        }
        None => String::from_str(setting.alloc, "Join")?,
    };
    for _ in 0..MOST_FOUND {
        if setting.world.names.find(name.as_str()).is_some() {
            name.push('\'')?;
        }
    }
    Ok(name)
}

/// The first two declared structures whose mixins are these together.
fn first_pair(hier: &Hier, set: &MixSet) -> Option<(NameId, NameId)> {
    for b in 0..hier.structures() {
        for a in 0..b {
            if hier.mix(StructId(a)).union(hier.mix(StructId(b))).same(set) {
                let first = hier.name(Known::Structure(StructId(a)))?;
                let second = hier.name(Known::Structure(StructId(b)))?;
                return Some((first, second));
            }
        }
    }
    None
}
