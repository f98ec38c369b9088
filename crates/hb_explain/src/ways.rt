//! The instances that give a carrier what it lacks.
use crate::behind::words_behind;
use crate::setting::Setting;
use hb_base::NameId;
use hb_env::Named;
use hb_hier::{Hier, Known};
use hb_howto::howto;
use hb_order::{MixinId, StructId};
use hb_sets::MixSet;
use hb_term::{Scoped, Term, View};
use std::alloc::{AllocError, Global};

/// The commands that give a mixin to the carrier that stands behind a place, where one does.
pub(crate) fn ways_behind(
    setting: Setting<'_>,
    mixin: NameId,
    source: &[u8],
    behind: usize,
) -> Result<Option<String>, AllocError> {
    let found = words_behind(setting.alloc, source, behind, 1)?;
    match found.as_slice().first() {
        Some(carrier) => ways(setting, mixin, carrier, &given_to(setting, carrier)),
        None => Ok(None),
    }
}

/// The commands that give a mixin, factory or structure to a type, where that is a constant.
pub(crate) fn ways_at(
    setting: Setting<'_>,
    wanted: NameId,
    carrier: &Scoped,
) -> Result<Option<String>, AllocError> {
    match carrier.term().view() {
        View::Const(constant) => {
            let text = setting.term(carrier)?;
            let given = setting.hier().given(constant);
            ways(setting, wanted, text.as_str(), given)
        }
        _ => Ok(None),
    }
}

/// What was given to a carrier of this name.
fn given_to(setting: Setting<'_>, carrier: &str) -> MixSet {
    let world = setting.world;
    let Some(name) = world.names.find(carrier) else {
        return MixSet::empty();
    };
    if let Some(section) = &world.section {
        if section.carrier == name {
            return given_here(section.own.given.as_slice());
        }
    }
    match setting.env.lookup(name) {
        Some(Named::Const(constant)) => world.hier.given(constant).copy(),
        Some(Named::Proj(_, _)) => MixSet::empty(),
        None => MixSet::empty(),
    }
}

/// The mixins of a section's carrier.
fn given_here(values: &[(MixinId, Term)]) -> MixSet {
    let mut given = MixSet::empty();
    for (mixin, _) in values {
        if mixin.0 < 1024 {
            given = given.with(mixin.0);
        }
    }
    given
}

/// The commands that give a carrier what is wanted: its own where nothing else is lacking, the shortest
/// list of `HB.howto`, or else an instance of each mixin that is lacking. `None` where nothing is.
fn ways(
    setting: Setting<'_>,
    wanted: NameId,
    carrier: &str,
    given: &MixSet,
) -> Result<Option<String>, AllocError> {
    let list = list(setting.alloc, setting.hier(), wanted, given)?;
    if list.is_empty() {
        return Ok(None);
    }
    let mut text = String::from_str(setting.alloc, "Give before:")?;
    for name in &list {
        text.push_str(line(setting, *name, carrier)?.as_str())?;
    }
    Ok(Some(text))
}

/// The mixins and factories that give what is wanted, in order.
fn list(
    alloc: Global,
    hier: &Hier,
    wanted: NameId,
    given: &MixSet,
) -> Result<Vec<NameId>, AllocError> {
    if !is_structure(hier, wanted) && required(hier, wanted).subset(given) {
        return [wanted].to_vec(alloc);
    }
    if let Some(s) = structure_with(hier, wanted) {
        if let Some(list) = shortest(alloc, hier, s, given)? {
            return Ok(list);
        }
    }
    lacking(alloc, hier, wanted, given)
}

/// Whether the name is a structure's.
fn is_structure(hier: &Hier, name: NameId) -> bool {
    matches!(hier.known(name), Some(Known::Structure(_)))
}

/// What a mixin or factory requires.
fn required(hier: &Hier, name: NameId) -> MixSet {
    match hier.known(name) {
        Some(known) => hier.req(known),
        None => MixSet::empty(),
    }
}

/// The structure of the name, or the first that has the mixin of the name.
fn structure_with(hier: &Hier, name: NameId) -> Option<StructId> {
    match hier.known(name)? {
        Known::Structure(s) => Some(s),
        Known::Mixin(m) => hier.structures_with(m).first().copied(),
        Known::Factory(_) => None,
    }
}

/// The first of the shortest lists that give a structure, if there is one.
fn shortest(
    alloc: Global,
    hier: &Hier,
    s: StructId,
    given: &MixSet,
) -> Result<Option<Vec<NameId>>, AllocError> {
    if s.0 >= hier.structures() {
        return Ok(None);
    }
    match howto(alloc, hier, s, given) {
        Ok(lists) => Ok(lists.into_iter().next()),
        Err(_) => Ok(None),
    }
}

/// The mixins that are wanted or required and not given, in the order of declaration.
fn lacking(
    alloc: Global,
    hier: &Hier,
    name: NameId,
    given: &MixSet,
) -> Result<Vec<NameId>, AllocError> {
    let lacking = hier.brought([name].as_slice()).minus(given);
    let mut list = Vec::new(alloc);
    for m in 0..1024u16 {
        if lacking.has(m) {
            if let Some(name) = hier.name(Known::Mixin(MixinId(m))) {
                list.push(name)?;
            }
        }
    }
    Ok(list)
}

/// The command that gives a carrier a mixin or factory, with its fields' names for their values.
fn line(setting: Setting<'_>, name: NameId, carrier: &str) -> Result<String, AllocError> {
    let factory = setting.name(name)?;
    let mut text = format!(in setting.alloc;
        "\n    HB.instance Definition _ := {factory}.Build {carrier}"
    )?;
    for field in fields(setting.hier(), name) {
        text.push(' ')?;
        text.push_str(setting.name(*field)?.as_str())?;
    }
    text.push('.')?;
    Ok(text)
}

/// The names of the fields.
fn fields(hier: &Hier, name: NameId) -> &[NameId] {
    match hier.known(name) {
        Some(known) => hier.fields(known),
        None => &[],
    }
}
