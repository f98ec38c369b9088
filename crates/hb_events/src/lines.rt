//! The lines of what accepted commands report.
ghost use Rattle.std.specs.Prelude.{◌≡◌, ◌∷◌, [], IfOk, Some, codes, string_bytes};
ghost use Rattle.hb_world.specs.Worlds.{background};
ghost use Rattle.hb_events.specs.Events as spec;
ghost use Rattle.hb_order.specs.Heirs.{mix};
ghost use Rattle.hb_hier.specs.Hierarchy.{name_of, provided, sets};
ghost use Rattle.hb_report.specs.Lines as lines;
ghost use Rattle.hb_writer.specs.Text.{joined};

use crate::about::about_line;
use crate::event::{Event, Had};
use crate::howto::{way_count, ways_text};
use crate::listing::{mixin_names, push_name};
use crate::news::new_structures;
use hb_base::{NameId, Names};
use hb_env::Env;
use hb_hier::{Hier, Known};
use hb_order::{FactoryId, StructId};
use hb_report::{event_line, list_line, name_text};
use hb_sets::MixSet;
use hb_term::Scoped;
use hb_world::World;
use hb_writer::term_text;
use std::alloc::{AllocError, Global};

/// How many lines an event has.
pub fn event_count(event: &Event) -> u64
    ensures { result ≡ spec.line_count event.now }
{
    match event {
        Event::Howto { lists, .. } => way_count(lists.len()),
        _ => 1,
    }
}

/// The lines of an event, in the session after it: with its world and what it declares. Out of memory is
/// the one error.
pub fn event_text(
    alloc: Global,
    world: &World,
    env: &Env,
    event: &Event,
) -> Result<String, AllocError>
    ensures { IfOk result (λ t. spec.IsToldAs env.now (background world.now) event.now (string_bytes t)) }
{
    let names = &world.names;
    let hier = &world.hier;
    match event {
        Event::Axiom(name) => named(alloc, names, "axiom", *name),
        Event::Definition(name) => named(alloc, names, "definition", *name),
        Event::Mixin(name) => named(alloc, names, "mixin", *name),
        Event::Factory(name) => named(alloc, names, "factory", *name),
        Event::Builders(name) => named(alloc, names, "builders", *name),
        Event::Core(name) => named(alloc, names, "core", *name),
        Event::Require(name) => named(alloc, names, "require", *name),
        Event::End(factory) => end_line(alloc, names, hier, *factory),
        Event::Structure(s) => structure_line(alloc, names, hier, *s),
        Event::Instance {
            factory,
            carrier,
            had,
        } => instance_line(alloc, world, env, *factory, *carrier, had),
        Event::Join { a, b, join } => join_line(alloc, names, hier, *a, *b, *join),
        Event::Find { structure, key } => find_line(alloc, names, env, *structure, key),
        Event::Given { structure, carrier } => {
            let head = head_of_two(alloc, names, "howto", *structure, *carrier)?;
            format!(in alloc; "{head} given\n")
        }
        Event::Howto {
            structure,
            carrier,
            lists,
        } => {
            let head = head_of_two(alloc, names, "howto", *structure, *carrier)?;
            ways_text(alloc, names, head.as_str(), lists.as_slice())
        }
        Event::About { name, known } => {
            let text = name_text(alloc, names, *name)?;
            about_line(alloc, names, hier, text.as_str(), *known)
        }
    }
}

/// A line of a word and a name.
fn named(alloc: Global, names: &Names, word: &str, name: NameId) -> Result<String, AllocError>
    ensures { IfOk result (λ t. string_bytes t ≡ lines.event_line word.now (lines.name_of names.now name.0)) }
{
    let text = name_text(alloc, names, name)?;
    event_line(alloc, word, text.as_str())
}

/// A word, two names and a colon.
fn head_of_two(
    alloc: Global,
    names: &Names,
    word: &str,
    first: NameId,
    second: NameId,
) -> Result<String, AllocError>
    ensures { IfOk result (λ t. string_bytes t
        ≡ spec.head_of_two word.now (lines.name_of names.now first.0) (lines.name_of names.now second.0)) }
{
    let first = name_text(alloc, names, first)?;
    let second = name_text(alloc, names, second)?;
    format!(in alloc; "{word} {first} {second}:")
}

/// A line of a word, a name and the names of a set; nothing without a name.
fn set_line(
    alloc: Global,
    names: &Names,
    hier: &Hier,
    word: &str,
    name: NameId,
    set: &MixSet,
) -> Result<String, AllocError>
    ensures { IfOk result (λ t. string_bytes t ≡ spec.set_line names.now hier.now word.now (Some name) set.now) }
{
    let text = name_text(alloc, names, name)?;
    let head = format!(in alloc; "{word} {text}:")?;
    let list = mixin_names(alloc, hier, set)?;
    list_line(alloc, head.as_str(), names, list.as_slice())
}

/// The line of a factory whose section ended.
fn end_line(
    alloc: Global,
    names: &Names,
    hier: &Hier,
    factory: FactoryId,
) -> Result<String, AllocError>
    ensures { IfOk result (λ t. string_bytes t ≡ spec.set_line names.now hier.now (codes "end")
        (name_of hier.now (Known.Factory factory)) (provided hier.now (Known.Factory factory))) }
{
    let known = Known::Factory(factory);
    match hier.name(known) {
        Some(name) => set_line(alloc, names, hier, "end", name, &hier.prov(known)),
        None => Ok(String::new(alloc)),
    }
}

/// The line of a structure that was declared.
fn structure_line(
    alloc: Global,
    names: &Names,
    hier: &Hier,
    s: StructId,
) -> Result<String, AllocError>
    ensures { IfOk result (λ t. string_bytes t ≡ spec.set_line names.now hier.now (codes "structure")
        (name_of hier.now (Known.Structure s)) (mix (sets hier.now) s.0)) }
{
    match hier.name(Known::Structure(s)) {
        Some(name) => set_line(alloc, names, hier, "structure", name, hier.mix(s)),
        None => Ok(String::new(alloc)),
    }
}

/// The line of an instance, with the structures that its carrier newly has.
fn instance_line(
    alloc: Global,
    world: &World,
    env: &Env,
    factory: NameId,
    carrier: NameId,
    had: &Had,
) -> Result<String, AllocError>
    ensures { IfOk result (λ t. spec.IsInstanceLine env.now (background world.now) factory carrier had.now (string_bytes t)) }
{
    let head = head_of_two(alloc, &world.names, "instance", factory, carrier)?;
    let list = new_structures(alloc, world, env, carrier, had)?;
    list_line(alloc, head.as_str(), &world.names, list.as_slice())
}

/// The line of a join.
fn join_line(
    alloc: Global,
    names: &Names,
    hier: &Hier,
    a: NameId,
    b: NameId,
    join: Option<StructId>,
) -> Result<String, AllocError>
    ensures { IfOk result (λ t. string_bytes t ≡ lines.list_line
        (spec.head_of_two (codes "join") (lines.name_of names.now a.0) (lines.name_of names.now b.0))
        names.now (spec.numbers (spec.join_names hier.now join))) }
{
    let head = head_of_two(alloc, names, "join", a, b)?;
    let mut list = Vec::new(alloc);
    match join {
        Some(s) => push_name(hier, Known::Structure(s), &mut list)?,
        None => {}
    }
    list_line(alloc, head.as_str(), names, list.as_slice())
}

/// The line of a key, or of none.
fn find_line(
    alloc: Global,
    names: &Names,
    env: &Env,
    structure: NameId,
    key: &Option<Scoped>,
) -> Result<String, AllocError>
    ensures { IfOk result (λ t. string_bytes t ≡ joined (codes "find " ∷ lines.name_of names.now structure.0
        ∷ codes ": " ∷ spec.key_text names.now env.now key.now ∷ codes "\n" ∷ [])) }
{
    let name = name_text(alloc, names, structure)?;
    let text = key_text(alloc, names, env, key)?;
    format!(in alloc; "find {name}: {text}\n")
}

/// The text of a key, or `none`.
fn key_text(
    alloc: Global,
    names: &Names,
    env: &Env,
    key: &Option<Scoped>,
) -> Result<String, AllocError>
    ensures { IfOk result (λ t. string_bytes t ≡ spec.key_text names.now env.now key.now) }
{
    match key {
        Some(key) => term_text(alloc, names, env, key),
        None => String::from_str(alloc, "none"),
    }
}
