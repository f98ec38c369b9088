//! Declaring the record of a mixin or a factory.
ghost use Rattle.std.specs.Prelude.{◌≡◌, ◌++◌, ◌∷◌, [], ℕ, List, false, None, IfOk, IfErr, OnOk, OnErr, codes};
ghost use Rattle.std.specs.Option.{unwrap_or};
ghost use Rattle.hb_calculus.specs.Budget.{budget};
ghost use Rattle.hb_env.specs.Plain.{plain, plains, plain_fields};
ghost use Rattle.hb_env.specs.declared.refusal.What.TheVariants.{NoMemory};
ghost use Rattle.hb_generated.specs.State.{State, Own};
ghost use Rattle.hb_generated.specs.State as generated;
ghost use Rattle.hb_generated.specs.Generating.{gen_record};
ghost use Rattle.hb_hier.specs.Hierarchy as hierarchy;
ghost use Rattle.hb_pack.specs.Packing.{IsRecordOf};
ghost use Rattle.hb_world.specs.Worlds.{background, IsAsBefore};
ghost use Rattle.hb_world.specs.Taking.{Extends};
ghost use Rattle.hb_mixin.specs.Adding.{with_kind, making};
ghost use Rattle.hb_mixin.specs.Declaring.{AreMade};
ghost use Rattle.hb_mixin.specs.Fields.{AreNamesOf};
ghost use Rattle.hb_mixin.specs.Refusing.{refusal, HasNoRoomFor, NotDeclared};
ghost use Rattle.hb_mixin.specs.Steps.{family, leveled, AddFails, HasUnfit, IsNotAdded, IsNotTaken, OrNoMemory, PassesCount};
ghost use Rattle.hb_items.specs.Items.{told};
ghost use Rattle.hb_kernel.specs.Answers.{AddRefusal};
ghost use Rattle.hb_step.specs.Adding.{NotAdded};

use crate::naming::maker_name;
use hb_base::{Count, Limits, NameId, Span};
use hb_env::{Decl, Env, Refusal, What};
use hb_hier::{Hier, HierRefused};
use hb_items::of_hierarchy;
use hb_kernel::{KernelRefused, Theory};
use hb_pack::mixin_decl;
use hb_step::{first_taken, of_kernel, passed_count, refused};
use hb_term::{Sort, Term, View};
use hb_world::World;
use std::alloc::{AllocError, Global};
use std::vec::Vec;

/// Whether it is a mixin or a factory.
#[derive(Clone, Copy)]
pub(crate) enum Kind {
    Mixin,
    Factory,
}

/// The names of a mixin or a factory: its own, those of its list, and those of its fields.
#[derive(Clone, Copy)]
pub(crate) struct Naming<'a> {
    pub kind: Kind,
    pub name: NameId,
    pub items: &'a [NameId],
    pub shorts: &'a [NameId],
}

/// Declares it with the fields, whose names are whole, and answers its record. Without a level it gets the
/// least.
pub(crate) fn declare(
    alloc: Global,
    theory: &mut Theory,
    world: &mut World,
    naming: Naming<'_>,
    fields: Vec<(NameId, Term)>,
    level: Option<u8>,
    place: Span,
    limits: &Limits,
) -> Result<Vec<Decl>, Refusal>
    ensures unchanged { OnErr result (theory.new ≡ theory.old) }
    ensures as_before { OnErr result (IsAsBefore (background world.old) (background world.new)) }
    ensures grown { IfOk result (λ ds. theory.new ≡ theory.old ++ plains ds.items) }
    ensures names { Extends world.old.names world.new.names }
    ensures hier { OnOk result
        (world.new.hier ≡ with_kind naming.entry.kind world.old.hier naming.entry.name
        naming.entry.items.now naming.entry.shorts.now) }
    ensures section { world.new.section ≡ world.old.section }
    ensures refused { IfErr result
        (λ r. AreNamesOf world.old.names naming.entry.name naming.entry.shorts.now fields.items
        → NotDeclared world.new.names theory.old world.old.hier (budget limits.now) (family naming.entry.kind)
        naming.entry.name naming.entry.items.now naming.entry.shorts.now place r) }
{
    let decls = record_for(alloc, theory.env(), world, naming, fields, level, place)?;
    check_made_names(theory.env(), &world.hier, &decls, place)?;
    check_counts(theory.env(), &world.hier, naming.kind, &decls, place)?;
    add(
        alloc,
        theory,
        &mut world.hier,
        naming,
        decls,
        level.is_none(),
        place,
        limits,
    )
}

/// Its record, as a list.
pub(crate) fn record_for(
    alloc: Global,
    env: &Env,
    world: &mut World,
    naming: Naming<'_>,
    fields: Vec<(NameId, Term)>,
    level: Option<u8>,
    place: Span,
) -> Result<Vec<Decl>, Refusal>
    ensures as_before { IsAsBefore (background world.old) (background world.new) }
    ensures section { world.new.section ≡ world.old.section }
    ensures made { IfOk result
        (λ ds. AreNamesOf world.old.names naming.entry.name naming.entry.shorts.now fields.items
        → AreMade world.new.names env.now world.old.hier (making naming.entry.kind naming.entry.items.now)
        naming.entry.name naming.entry.shorts.now (plains ds.items)) }
    ensures refused { IfErr result
        (OrNoMemory (HasNoRoomFor world.new.names naming.entry.name (codes ".Build") place)) }
{
    let maker = maker_name(alloc, &mut world.names, naming.name, place)?;
    let decl = record_of(alloc, env, &world.hier, naming, maker, fields, level, place)?;
    match one(alloc, decl) {
        Ok(decls) => Ok(decls),
        Err(_) => Err(refused(place, What::NoMemory)),
    }
}

/// The list of the one declaration.
fn one(alloc: Global, decl: Decl) -> Result<Vec<Decl>, AllocError>
    ensures { IfOk result (λ ds. plains ds.items ≡ plain decl ∷ []) }
{
    let mut decls = Vec::new(alloc);
    decls.push(decl)?;
    Ok(decls)
}

/// The record.
fn record_of(
    alloc: Global,
    env: &Env,
    hier: &Hier,
    naming: Naming<'_>,
    maker: NameId,
    fields: Vec<(NameId, Term)>,
    level: Option<u8>,
    place: Span,
) -> Result<Decl, Refusal>
    ensures made { IfOk result
        (λ d. (N : List (List ℕ)) (S : State) (o : Own)
        → IsRecordOf N S naming.entry.items.now o env.now hier.now naming.entry.name.0 maker.0
        (hierarchy.brought hier.now naming.entry.items.now) (unwrap_or level 0) (plain_fields fields.items)
        → plain d ∷ [] ≡ generated.decls (gen_record N S naming.entry.items.now o)) }
    ensures refused { IfErr result (λ r. r.what ≡ NoMemory) }
{
    let required = hier.brought(naming.items);
    let level = level.unwrap_or(0);
    match mixin_decl(
        alloc,
        env,
        hier,
        naming.name,
        maker,
        &required,
        fields,
        level,
    ) {
        Ok(decl) => Ok(decl),
        Err(_) => Err(refused(place, What::NoMemory)),
    }
}

/// The names of the declarations are new.
pub(crate) fn check_made_names(
    env: &Env,
    hier: &Hier,
    decls: &[Decl],
    place: Span,
) -> Result<(), Refusal>
    ensures refused { IfErr result (HasUnfit env.now hier.now (plains decls.now) place) }
{
    match first_taken(env, hier, &[], decls) {
        Some(taken) => Err(refused(place, What::Redeclared(taken))),
        None => Ok(()),
    }
}

/// No count is passed.
pub(crate) fn check_counts(
    env: &Env,
    hier: &Hier,
    kind: Kind,
    decls: &[Decl],
    place: Span,
) -> Result<(), Refusal>
    ensures refused { IfErr result (PassesCount env.now hier.now kind (plains decls.now) place) }
{
    match kind {
        Kind::Mixin => {
            if hier.mixins() == 1024 {
                return Err(refused(place, What::TooMany(Count::Mixins)));
            }
        }
        Kind::Factory => {
            if hier.factories() == 1024 {
                return Err(refused(place, What::TooMany(Count::Factories)));
            }
        }
    }
    match passed_count(env, decls) {
        Some(count) => Err(refused(place, What::TooMany(count))),
        None => Ok(()),
    }
}

/// Adds the one record to the theory, and the mixin or factory to the hierarchy.
pub(crate) fn add(
    alloc: Global,
    theory: &mut Theory,
    hier: &mut Hier,
    naming: Naming<'_>,
    decls: Vec<Decl>,
    least: bool,
    place: Span,
    limits: &Limits,
) -> Result<Vec<Decl>, Refusal>
    ensures unchanged { OnErr result (theory.new ≡ theory.old) }
    ensures hier_same { OnErr result (hier.new ≡ hier.old) }
    ensures grown { IfOk result (λ ds. theory.new ≡ theory.old ++ plains ds.items) }
    ensures kept { least ≡ false → IfOk result (λ ds. plains ds.items ≡ plains decls.items) }
    ensures hier { OnOk result
        (hier.new ≡ with_kind naming.entry.kind hier.old naming.entry.name naming.entry.items.now
        naming.entry.shorts.now) }
    ensures refused { IfErr result
        (AddFails theory.old hier.old (budget limits.now) naming.entry.kind naming.entry.name
        naming.entry.items.now (plains decls.items) place) }
{
    let before = theory.env().len();
    let added = add_records(alloc, theory, decls, least, place, limits)?;
    match add_to_hierarchy(hier, naming, place) {
        Ok(()) => Ok(added),
        Err(refusal) => {
            theory.cut(before);
            Err(refusal)
        }
    }
}

/// Adds the mixin or factory to the hierarchy.
fn add_to_hierarchy(hier: &mut Hier, naming: Naming<'_>, place: Span) -> Result<(), Refusal>
    ensures hier_same { OnErr result (hier.new ≡ hier.old) }
    ensures hier { OnOk result
        (hier.new ≡ with_kind naming.entry.kind hier.old naming.entry.name naming.entry.items.now
        naming.entry.shorts.now) }
    ensures refused { IfErr result
        (IsNotTaken hier.old naming.entry.kind naming.entry.name naming.entry.items.now place) }
{
    if hier.known(naming.name).is_some() {
        return Err(refused(place, What::Redeclared(naming.name)));
    }
    match naming.kind {
        Kind::Mixin => match hier.add_mixin(naming.name, naming.items, naming.shorts) {
            Ok(_) => Ok(()),
            Err(fault) => Err(of_adding(hier, naming.name, fault, place)),
        },
        Kind::Factory => match hier.add_factory(naming.name, naming.items, naming.shorts) {
            Ok(_) => Ok(()),
            Err(fault) => Err(of_adding(hier, naming.name, fault, place)),
        },
    }
}

/// The refusal of the hierarchy.
fn of_adding(hier: &Hier, name: NameId, fault: HierRefused, place: Span) -> Refusal
    ensures { result ≡ refusal place (told hier.now name fault) }
{
    refused(place, of_hierarchy(hier, name, fault))
}

/// Adds the records, one or none, with the least level where that is asked.
fn add_records(
    alloc: Global,
    theory: &mut Theory,
    decls: Vec<Decl>,
    least: bool,
    place: Span,
    limits: &Limits,
) -> Result<Vec<Decl>, Refusal>
    ensures unchanged { OnErr result (theory.new ≡ theory.old) }
    ensures grown { IfOk result (λ ds. theory.new ≡ theory.old ++ plains ds.items) }
    ensures kept { least ≡ false → IfOk result (λ ds. plains ds.items ≡ plains decls.items) }
    ensures refused { IfErr result
        (λ r. (d : _) → plains decls.items ≡ d ∷ []
        → OrNoMemory (IsNotAdded theory.old (budget limits.now) d place) r) }
{
    let mut decls = decls;
    let (Some(decl), None) = (decls.pop(), decls.pop()) else {
        return Err(refused(place, What::NoMemory));
    };
    let Ok(()) = decls.reserve(1) else {
        return Err(refused(place, What::NoMemory));
    };
    let added = add_record(alloc, theory, decl, least, place, limits)?;
    decls.push_reserved(added);
    Ok(decls)
}

/// Adds the record, with the least level where that is asked.
fn add_record(
    alloc: Global,
    theory: &mut Theory,
    decl: Decl,
    least: bool,
    place: Span,
    limits: &Limits,
) -> Result<Decl, Refusal>
    ensures unchanged { OnErr result (theory.new ≡ theory.old) }
    ensures grown { IfOk result (λ d. theory.new ≡ theory.old ++ plain d ∷ []) }
    ensures kept { least ≡ false → IfOk result (λ d. d ≡ decl) }
    ensures refused { IfErr result (IsNotAdded theory.old (budget limits.now) (plain decl) place) }
{
    match add_copy(alloc, theory, &decl, limits) {
        Ok(()) => Ok(decl),
        Err(fault) => match wanted_level(&fault, least) {
            Some(level) => add_leveled(alloc, theory, with_level(decl, level), place, limits),
            None => Err(refused(place, of_kernel(fault))),
        },
    }
}

/// Adds the record with its level.
fn add_leveled(
    alloc: Global,
    theory: &mut Theory,
    decl: Decl,
    place: Span,
    limits: &Limits,
) -> Result<Decl, Refusal>
    ensures unchanged { OnErr result (theory.new ≡ theory.old) }
    ensures grown { IfOk result (λ d. theory.new ≡ theory.old ++ plain d ∷ []) }
    ensures refused { IfErr result
        (λ r. (r.span ≡ place) × NotAdded theory.old (budget limits.now) (plain decl) r.what) }
{
    match add_copy(alloc, theory, &decl, limits) {
        Ok(()) => Ok(decl),
        Err(fault) => Err(refused(place, of_kernel(fault))),
    }
}

/// Adds a copy of the declaration.
fn add_copy(
    alloc: Global,
    theory: &mut Theory,
    decl: &Decl,
    limits: &Limits,
) -> Result<(), KernelRefused>
    ensures unchanged { OnErr result (theory.new ≡ theory.old) }
    ensures grown { OnOk result (theory.new ≡ theory.old ++ plain decl.now ∷ []) }
    ensures refused { IfErr result (AddRefusal theory.old (budget limits.now) (plain decl.now)) }
{
    let Ok(copy) = decl.copy(alloc) else {
        return Err(KernelRefused::NoMemory);
    };
    match theory.add(copy, limits) {
        Ok(_) => Ok(()),
        Err(fault) => Err(fault),
    }
}

/// The least level, where it is asked and a record of level 0 is refused for its level: the first of the
/// two sorts.
fn wanted_level(fault: &KernelRefused, least: bool) -> Option<u8>
    ensures { least ≡ false → result ≡ None }
{
    if !least {
        return None;
    }
    let KernelRefused::NotConvertible(wanted, given) = fault else {
        return None;
    };
    match (wanted.term().view(), given.term().view()) {
        (View::Sort(Sort::Level(level)), View::Sort(Sort::Level(0))) => Some(level),
        _ => None,
    }
}

/// The record with the level.
fn with_level(decl: Decl, least: u8) -> Decl
    ensures { plain result ≡ leveled least (plain decl) }
{
    match decl {
        Decl::Record {
            name,
            maker,
            params,
            level: _,
            fields,
        } => Decl::Record {
            name,
            maker,
            params,
            level: least,
            fields,
        },
        other => other,
    }
}
