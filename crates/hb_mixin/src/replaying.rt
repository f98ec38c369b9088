//! Taking an entry of a library.
ghost use Rattle.std.specs.Prelude.{◌≡◌, ◌++◌, None, IfOk, IfSome, OnOk, OnErr, codes, string_bytes};
ghost use Rattle.hb_env.specs.Plain.{plains, plain_fields};
ghost use Rattle.hb_world.specs.Worlds.{background, IsAsBefore};
ghost use Rattle.hb_world.specs.Taking.{Extends};
ghost use Rattle.hb_mixin.specs.Adding.{IsLoaded};
ghost use Rattle.hb_mixin.specs.Declaring.{HasDeclaredOf};
ghost use Rattle.hb_mixin.specs.Naming.{IsFollowed, IsFieldName};
ghost use Rattle.hb_mixin.specs.Fields.{AreNamesOf, AreFirstNames};

use crate::declaring::{Kind, Naming, add, check_counts, check_made_names, record_for};
use crate::naming::{maker_name, numbered, text_of};
use hb_base::{Limits, NameId, Names, Span};
use hb_env::{Decl, Entry, Head, Places, Refusal, What};
use hb_items::{bad_library, check_names, not_made, same_params};
use hb_kernel::Theory;
use hb_pack::mixin_params;
use hb_step::{not_reserved, not_reserved_part, not_taken, outside_section, refused};
use hb_term::Term;
use hb_world::World;
use std::alloc::{AllocError, Global};
use std::vec::Vec;

/// The parts of an entry's record.
#[derive(Clone, Copy)]
struct Record<'a> {
    name: NameId,
    maker: NameId,
    params: &'a [Term],
    level: u8,
    fields: &'a [(NameId, Term)],
}

/// Takes the entry of a mixin or a factory, as `apply` takes the command. A refusal stands at the entry;
/// where its declarations aren't those of its head it is `BadLibrary`, at their count, or at the declaration.
pub fn replay(
    alloc: Global,
    theory: &mut Theory,
    world: &mut World,
    entry: &Entry,
    places: &Places,
    limits: &Limits,
) -> Result<(), Refusal>
    ensures unchanged { OnErr result (theory.new ≡ theory.old) }
    ensures as_before { OnErr result (IsAsBefore (background world.old) (background world.new)) }
    ensures grown { OnOk result (theory.new ≡ theory.old ++ plains entry.now.decls.items) }
    ensures names { Extends world.old.names world.new.names }
    ensures hier { OnOk result
        (HasDeclaredOf world.new.names theory.old entry.now.head (plains entry.now.decls.items) world.old.hier
        world.new.hier) }
    ensures outside { OnOk result (world.old.section ≡ None) }
    ensures section { OnOk result (world.new.section ≡ world.old.section) }
{
    match &entry.head {
        Head::Mixin { items } => load(
            alloc,
            theory,
            world,
            entry,
            places,
            Kind::Mixin,
            items,
            limits,
        ),
        Head::Factory { items } => load(
            alloc,
            theory,
            world,
            entry,
            places,
            Kind::Factory,
            items,
            limits,
        ),
        Head::Core
        | Head::Axiom
        | Head::Definition
        | Head::Builders { .. }
        | Head::End
        | Head::Structure { .. }
        | Head::Instance { .. }
        | Head::Require { .. } => Err(refused(places.span, What::NotYet)),
    }
}

/// Takes the entry of a mixin or a factory with the items.
fn load(
    alloc: Global,
    theory: &mut Theory,
    world: &mut World,
    entry: &Entry,
    places: &Places,
    kind: Kind,
    items: &[NameId],
    limits: &Limits,
) -> Result<(), Refusal>
    ensures unchanged { OnErr result (theory.new ≡ theory.old) }
    ensures as_before { OnErr result (IsAsBefore (background world.old) (background world.new)) }
    ensures grown { OnOk result (theory.new ≡ theory.old ++ plains entry.now.decls.items) }
    ensures names { Extends world.old.names world.new.names }
    ensures loaded { OnOk result
        (IsLoaded world.new.names theory.old kind items.now (plains entry.now.decls.items) world.old.hier
        world.new.hier) }
    ensures outside { OnOk result (world.old.section ≡ None) }
    ensures section { OnOk result (world.new.section ≡ world.old.section) }
{
    outside_section(world, places.span)?;
    let (record, at) = record_of(entry, places)?;
    let shorts = check_record(alloc, theory, world, record, places, at, items)?;
    let Ok(fields) = copied(alloc, record.fields) else {
        return Err(refused(places.span, What::NoMemory));
    };
    let naming = Naming {
        kind,
        name: record.name,
        items,
        shorts: &shorts,
    };
    declare_loaded(
        alloc,
        theory,
        world,
        naming,
        fields,
        record.level,
        entry,
        places,
        limits,
    )
}

/// Declares it, with the declarations of the entry.
fn declare_loaded(
    alloc: Global,
    theory: &mut Theory,
    world: &mut World,
    naming: Naming<'_>,
    fields: Vec<(NameId, Term)>,
    level: u8,
    entry: &Entry,
    places: &Places,
    limits: &Limits,
) -> Result<(), Refusal>
    ensures unchanged { OnErr result (theory.new ≡ theory.old) }
    ensures as_before { OnErr result (IsAsBefore (background world.old) (background world.new)) }
    ensures grown { OnOk result (theory.new ≡ theory.old ++ plains entry.now.decls.items) }
    ensures names { Extends world.old.names world.new.names }
    ensures loaded { OnOk result
        (AreNamesOf world.old.names naming.entry.name naming.entry.shorts.now fields.items
        → IsLoaded world.new.names theory.old naming.entry.kind naming.entry.items.now
        (plains entry.now.decls.items) world.old.hier world.new.hier) }
    ensures section { OnOk result (world.new.section ≡ world.old.section) }
{
    let span = places.span;
    let decls = record_for(
        alloc,
        theory.env(),
        world,
        naming,
        fields,
        Some(level),
        span,
    )?;
    check_made(entry, places, &decls)?;
    check_made_names(theory.env(), &world.hier, &decls, span)?;
    check_counts(theory.env(), &world.hier, naming.kind, &decls, span)?;
    let _added = add(
        alloc,
        theory,
        &mut world.hier,
        naming,
        decls,
        false,
        span,
        limits,
    )?;
    Ok(())
}

/// The entry's declarations are those that are made.
fn check_made(entry: &Entry, places: &Places, made: &[Decl]) -> Result<(), Refusal>
    ensures { OnOk result (plains entry.now.decls.items ≡ plains made.now) }
{
    match not_made(entry, places, made) {
        Some(at) => Err(bad_library(places, at)),
        None => Ok(()),
    }
}

/// The one record of the entry, and its place.
fn record_of<'a>(entry: &'a Entry, places: &Places) -> Result<(Record<'a>, u32), Refusal> {
    let ([decl], [at]) = (entry.decls.as_slice(), places.decls.as_slice()) else {
        return Err(bad_library(places, places.count));
    };
    match decl {
        Decl::Record {
            name,
            maker,
            params,
            level,
            fields,
        } => Ok((
            Record {
                name: *name,
                maker: *maker,
                params,
                level: *level,
                fields,
            },
            *at,
        )),
        _ => Err(bad_library(places, *at)),
    }
}

/// The names and the items are allowed, and the rest of the record is what is generated. Answers the
/// fields' own names.
#[tactic(auto, using(crate::proofs::NamingLemmas::whole_stays))]
fn check_record(
    alloc: Global,
    theory: &Theory,
    world: &mut World,
    record: Record<'_>,
    places: &Places,
    at: u32,
    items: &[NameId],
) -> Result<Vec<NameId>, Refusal>
    ensures as_before { IsAsBefore (background world.old) (background world.new) }
    ensures section { world.new.section ≡ world.old.section }
    ensures named { IfOk result
        (λ ss. AreNamesOf world.new.names record.entry.name ss.items record.entry.fields.now) }
{
    let span = places.span;
    not_reserved(&world.names, record.name, span)?;
    not_reserved_part(&world.names, record.name, span)?;
    let (shorts, numbered) = own_names(alloc, &mut world.names, record, span);
    check_short_names(&world.names, &shorts, span)?;
    not_taken(theory.env(), &world.hier, record.name, span)?;
    check_names(&world.hier, items, span)?;
    numbered?;
    let maker = maker_name(alloc, &mut world.names, record.name, span)?;
    let required = world.hier.brought(items);
    let Ok(params) = mixin_params(alloc, theory.env(), &world.hier, &required) else {
        return Err(refused(span, What::NoMemory));
    };
    if shorts.len() != record.fields.len() || maker.0 != record.maker.0 {
        return Err(bad_library(places, at));
    }
    if !same_params(record.params, &params) {
        return Err(bad_library(places, at));
    }
    Ok(shorts)
}

/// The fields' own names aren't kept.
fn check_short_names(names: &Names, shorts: &[NameId], span: Span) -> Result<(), Refusal> {
    for short in shorts {
        not_reserved_part(names, *short, span)?;
    }
    Ok(())
}

/// The fields' own names, what stands after the record's name and a point, up to the first that isn't so,
/// or that gets no number.
fn own_names(
    alloc: Global,
    names: &mut Names,
    record: Record<'_>,
    span: Span,
) -> (Vec<NameId>, Result<(), Refusal>)
    ensures kept { Extends names.old names.new }
    ensures named { AreFirstNames names.new record.entry.name result.0.items record.entry.fields.now }
{
    let mut own = Vec::new(alloc);
    for field in record.fields {
        match own_name(alloc, names, record.name, field.0, span) {
            Ok(Some(id)) => match own.push(id) {
                Ok(()) => {}
                Err(_) => return (own, Err(refused(span, What::NoMemory))),
            },
            Ok(None) => return (own, Ok(())),
            Err(refusal) => return (own, Err(refusal)),
        }
    }
    (own, Ok(()))
}

/// The number of a field's own name, where it has one.
fn own_name(
    alloc: Global,
    names: &mut Names,
    name: NameId,
    field: NameId,
    span: Span,
) -> Result<Option<NameId>, Refusal>
    ensures kept { Extends names.old names.new }
    ensures named { IfOk result (λ o. IfSome o (λ id. IsFieldName names.new name id field.0)) }
{
    match own_text(alloc, names, name, field) {
        Ok(Some(text)) => match numbered(names, &text, span) {
            Ok(id) => Ok(Some(id)),
            Err(refusal) => Err(refusal),
        },
        Ok(None) => Ok(None),
        Err(_) => Err(refused(span, What::NoMemory)),
    }
}

/// The text of a field's own name, an identifier of at most 255 bytes that is no keyword.
fn own_text(
    alloc: Global,
    names: &Names,
    name: NameId,
    field: NameId,
) -> Result<Option<String>, AllocError>
    ensures { IfOk result (λ o. IfSome o (λ s. IsFollowed names.now name (codes "." ++ string_bytes s) field.0)) }
{
    let (Some(front), Some(whole)) = (text_of(names, name), text_of(names, field)) else {
        return Ok(None);
    };
    let Some(own) = own_part(front, whole) else {
        return Ok(None);
    };
    if !is_identifier(own) {
        return Ok(None);
    }
    Ok(Some(String::from_str(alloc, own)?))
}

/// What stands behind the front and a point.
fn own_part<'a>(front: &str, whole: &'a str) -> Option<&'a str>
    ensures { IfSome result (λ own. whole.now ≡ front.now ++ (codes "." ++ own.now)) }
{
    let rest = whole.strip_prefix(front)?;
    rest.strip_prefix(".")
}

/// Whether the text can be a field's written name.
fn is_identifier(text: &str) -> bool {
    let bytes = text.as_bytes();
    if bytes.is_empty() || bytes.len() > 255 || is_keyword(text) {
        return false;
    }
    bytes.iter().all(|b| *b != b'.') && !bytes[0].is_ascii_digit()
}

/// Whether the text is a word of the grammar.
fn is_keyword(text: &str) -> bool {
    matches!(
        text.as_bytes(),
        b"_" | b"Axiom"
            | b"Context"
            | b"Definition"
            | b"Import"
            | b"Prop"
            | b"Record"
            | b"Require"
            | b"Type"
            | b"forall"
            | b"fun"
            | b"of"
    )
}

/// Copies of the fields.
fn copied(alloc: Global, fields: &[(NameId, Term)]) -> Result<Vec<(NameId, Term)>, AllocError>
    ensures { IfOk result (λ fs. plain_fields fs.items ≡ plain_fields fields.now) }
{
    let mut all = Vec::new(alloc);
    for field in fields {
        all.push((field.0, field.1.copy()?))?;
    }
    Ok(all)
}
