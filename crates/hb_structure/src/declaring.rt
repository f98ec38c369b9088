//! Declaring a structure.
ghost use Rattle.std.specs.Prelude.{◌≡◌, ◌++◌, ℕ, List, length, IfOk, IfErr, OnOk, OnErr};
ghost use Rattle.hb_calculus.specs.Budget.{budget};
ghost use Rattle.hb_env.specs.Plain.{plains};
ghost use Rattle.hb_env.specs.declared.refusal.What.TheVariants as what;
ghost use Rattle.hb_generated.specs.Generating.{entries_of};
ghost use Rattle.hb_generated.specs.Session.{IsPrefix};
ghost use Rattle.hb_generated.specs.State as generated;
ghost use Rattle.hb_givings.specs.Givings.{carriers_of};
ghost use Rattle.hb_pack.specs.Roles as roles_spec;
ghost use Rattle.hb_pack.specs.declared.roles.Role as role_type;
ghost use Rattle.hb_world.specs.Worlds.{background, IsAsBefore};
ghost use Rattle.hb_world.specs.Taking.{Extends};
ghost use Rattle.hb_hier.specs.Undoing.{Grew};
ghost use Rattle.hb_hier.specs.Declaring.{with_structure};
ghost use Rattle.hb_tables.specs.Growing as growing;
ghost use Rattle.hb_step.specs.Marks.{Since};
ghost use Rattle.hb_structure.specs.Making.{IsShape, IsMade};
ghost use Rattle.hb_structure.specs.Refusing.{WantCause, ShapeCause, GroupCause, MakeCause, AddCause, DeclareCause};

use hb_base::{Limits, NameId, Names, Span};
use hb_env::{Decl, Env, Refusal, What};
use hb_hier::Hier;
use hb_items::of_hierarchy;
use hb_kernel::Theory;
use hb_pack::{Made, PackRefused, Role, enter, shape_decls, shape_roles, taken_decls};
use hb_sets::MixSet;
use hb_step::{Mark, add_all, first_taken, passed_count, refused};
use hb_tables::Tables;
use hb_term::ConstId;
use hb_world::World;
use std::alloc::{AllocError, Global};
use std::vec::Vec;

/// Declares the structure in the hierarchy and the tables, with the instances of the carriers that came
/// before it. Answers its declarations, which the theory doesn't have yet. It may leave a part behind where
/// it is refused.
pub(crate) fn made(
    alloc: Global,
    theory: &Theory,
    world: &mut World,
    name: NameId,
    items: &[NameId],
    set: &MixSet,
    place: Span,
) -> Result<Vec<Decl>, Refusal>
    ensures since { Since theory.now (background world.old) theory.now (background world.new) }
    ensures hier { OnOk result (world.new.hier ≡ with_structure world.old.hier name items.now) }
    ensures section { world.new.section ≡ world.old.section }
    ensures made { IfOk result
        (λ ds. IsMade world.new.names theory.now (background world.old) name items.now set.now (plains ds.items)) }
    ensures refused { IfErr result (MakeCause theory.now (background world.old) name items.now set.now place) }
{
    match shaped(alloc, theory, world, name, items, set, place) {
        Err(refusal) => Err(refusal),
        Ok(decls) => match served(alloc, theory, world, decls, place) {
            Ok(decls) => Ok(decls),
            Err(refusal) => Err(refusal),
        },
    }
}

/// The structure's records, operations and coercions, with the structure in the hierarchy and the tables.
#[tactic(auto, using(crate::proofs::GrowLemmas::since_of))]
fn shaped(
    alloc: Global,
    theory: &Theory,
    world: &mut World,
    name: NameId,
    items: &[NameId],
    set: &MixSet,
    place: Span,
) -> Result<Vec<Decl>, Refusal>
    ensures since { Since theory.now (background world.old) theory.now (background world.new) }
    ensures hier { OnOk result (world.new.hier ≡ with_structure world.old.hier name items.now) }
    ensures section { world.new.section ≡ world.old.section }
    ensures shape { IfOk result
        (λ ds. IsShape world.new.names theory.now world.old.hier world.old.tables name set.now (plains ds.items)) }
    ensures tables { OnOk result
        ((rs : List role_type.Role) × (world.new.tables ≡ roles_spec.entered (length theory.now) rs world.old.tables)) }
    ensures refused { IfErr result (MakeCause theory.now (background world.old) name items.now set.now place) }
{
    let env = theory.env();
    let decls = match shape(
        alloc,
        env,
        &mut world.names,
        &world.hier,
        &world.tables,
        name,
        set,
        place,
    ) {
        Ok(decls) => decls,
        Err(refusal) => return Err(refusal),
    };
    let roles = match roles_of(alloc, &world.hier, set, place) {
        Ok(roles) => roles,
        Err(refusal) => return Err(refusal),
    };
    match grouped(&mut world.hier, name, items, place) {
        Ok(()) => {}
        Err(refusal) => return Err(refusal),
    }
    match entered(&mut world.tables, env.len(), &roles, place) {
        Ok(()) => Ok(decls),
        Err(refusal) => Err(refusal),
    }
}

/// The structure's records, operations and coercions, whose names are new.
#[tactic(auto, using(crate::proofs::GrowLemmas::extends_same))]
fn shape(
    alloc: Global,
    env: &Env,
    names: &mut Names,
    hier: &Hier,
    tables: &Tables,
    name: NameId,
    set: &MixSet,
    place: Span,
) -> Result<Vec<Decl>, Refusal>
    ensures names { Extends names.old names.new }
    ensures shape { IfOk result
        (λ ds. IsShape names.new env.now hier.now tables.now name set.now (plains ds.items)) }
    ensures refused { IfErr result
        (ShapeCause names.new env.now hier.now tables.now name set.now place) }
{
    let decls = match shape_decls(alloc, env, names, hier, tables, name, set) {
        Ok(decls) => decls,
        Err(fault) => return Err(of_pack(fault, place)),
    };
    match first_taken(env, hier, &[name], &decls) {
        Some(taken) => Err(refused(place, What::Redeclared(taken))),
        None => Ok(decls),
    }
}

/// Adds the structure to the hierarchy.
#[tactic(auto, using(crate::proofs::GrowLemmas::hier_same))]
fn grouped(hier: &mut Hier, name: NameId, items: &[NameId], place: Span) -> Result<(), Refusal>
    ensures grew { Grew hier.old hier.new }
    ensures added { OnOk result (hier.new ≡ with_structure hier.old name items.now) }
    ensures refused { IfErr result (GroupCause hier.old name items.now place) }
{
    if hier.known(name).is_some() {
        return Err(refused(place, What::Redeclared(name)));
    }
    match hier.add_structure(name, items) {
        Ok(_) => Ok(()),
        Err(fault) => Err(refused(place, of_hierarchy(hier, name, fault))),
    }
}

/// What the structure's declarations are to the tables, in the hierarchy before it.
fn roles_of(alloc: Global, hier: &Hier, set: &MixSet, place: Span) -> Result<Vec<Role>, Refusal>
    ensures { IfErr result (WantCause place) }
{
    match shape_roles(alloc, hier, set) {
        Ok(roles) => Ok(roles),
        Err(_) => Err(refused(place, What::NoMemory)),
    }
}

/// Enters what was declared for the structure from a place on.
#[tactic(auto, using(crate::proofs::GrowLemmas::tables_same))]
fn entered(tables: &mut Tables, at: u32, roles: &[Role], place: Span) -> Result<(), Refusal>
    ensures grew { growing.Grew tables.old tables.new }
    ensures roles { OnOk result (tables.new ≡ roles_spec.entered at roles.now tables.old) }
    ensures refused { IfErr result (WantCause place) }
{
    match enter(tables, at, roles) {
        Ok(()) => Ok(()),
        Err(_) => Err(refused(place, What::NoMemory)),
    }
}

/// The declarations with the instances of all carriers, of what they newly take, which are entered.
#[tactic(auto, using(crate::proofs::GrowLemmas::since_of))]
fn served(
    alloc: Global,
    theory: &Theory,
    world: &mut World,
    decls: Vec<Decl>,
    place: Span,
) -> Result<Vec<Decl>, Refusal>
    ensures since { Since theory.now (background world.old) theory.now (background world.new) }
    ensures hier { world.new.hier ≡ world.old.hier }
    ensures section { world.new.section ≡ world.old.section }
    ensures more { IfOk result
        (λ ds. (N : List (List ℕ)) → IsPrefix world.new.names N
        → plains ds.items
        ≡ plains decls.items
        ++ generated.decls (entries_of N theory.now world.old.tables world.old.hier (carriers_of world.old.hier.givings))) }
    ensures refused { IfErr result (WantCause place) }
{
    let env = theory.env();
    let taken = match instances(
        alloc,
        env,
        &mut world.names,
        &world.hier,
        &world.tables,
        place,
    ) {
        Ok(taken) => taken,
        Err(refusal) => return Err(refusal),
    };
    let Made { decls: more, roles } = taken;
    match entered_at(&mut world.tables, env.len(), decls.len(), &roles, place) {
        Ok(()) => match joined(decls, more, place) {
            Ok(decls) => Ok(decls),
            Err(refusal) => Err(refusal),
        },
        Err(refusal) => Err(refusal),
    }
}

/// Both lists, one after the other.
fn joined(decls: Vec<Decl>, more: Vec<Decl>, place: Span) -> Result<Vec<Decl>, Refusal>
    ensures both { IfOk result (λ ds. plains ds.items ≡ plains decls.items ++ plains more.items) }
    ensures refused { IfErr result (WantCause place) }
{
    let mut decls = decls;
    let mut more = more;
    match decls.append(&mut more) {
        Ok(()) => Ok(decls),
        Err(_) => Err(refused(place, What::NoMemory)),
    }
}

/// Enters the instances that stand behind so many declarations of the command.
#[tactic(auto, using(crate::proofs::GrowLemmas::tables_same))]
fn entered_at(
    tables: &mut Tables,
    declared: u32,
    before: usize,
    roles: &[Role],
    place: Span,
) -> Result<(), Refusal>
    ensures grew { growing.Grew tables.old tables.new }
    ensures refused { IfErr result (WantCause place) }
{
    if before > 262_144 {
        return Err(refused(place, What::NoMemory));
    }
    match enter(tables, declared.saturating_add(before as u32), roles) {
        Ok(()) => Ok(()),
        Err(_) => Err(refused(place, What::NoMemory)),
    }
}

/// The instances at all carriers, of what they newly take.
#[tactic(auto, using(crate::proofs::GrowLemmas::extends_same))]
fn instances(
    alloc: Global,
    env: &Env,
    names: &mut Names,
    hier: &Hier,
    tables: &Tables,
    place: Span,
) -> Result<Made, Refusal>
    ensures names { Extends names.old names.new }
    ensures entries { IfOk result
        (λ m. (N : List (List ℕ)) → IsPrefix names.new N
        → plains m.decls.items
        ≡ generated.decls (entries_of N env.now tables.now hier.now (carriers_of hier.now.givings))) }
    ensures refused { IfErr result (WantCause place) }
{
    let carriers = match copied(alloc, hier.carriers()) {
        Ok(carriers) => carriers,
        Err(_) => return Err(refused(place, What::NoMemory)),
    };
    match taken_decls(alloc, env, names, hier, tables, &carriers) {
        Ok(made) => Ok(made),
        Err(fault) => Err(of_pack(fault, place)),
    }
}

/// A copy of the list.
fn copied(alloc: Global, carriers: &[ConstId]) -> Result<Vec<ConstId>, AllocError>
    ensures { IfOk result (λ ks. ks.items ≡ carriers.now) }
{
    Vec::from_slice(alloc, carriers)
}

/// The refusal of generated declarations, at the place.
fn of_pack(fault: PackRefused, place: Span) -> Refusal
    ensures { WantCause place result }
{
    match fault {
        PackRefused::TooMany(count) => refused(place, What::TooMany(count)),
        PackRefused::NoMemory => refused(place, What::NoMemory),
    }
}

/// Adds the declarations to the theory: their names are new, no count is passed, and the kernel accepts
/// them.
pub(crate) fn accept(
    alloc: Global,
    theory: &mut Theory,
    world: &World,
    decls: Vec<Decl>,
    name: NameId,
    limits: &Limits,
    place: Span,
) -> Result<Vec<Decl>, Refusal>
    ensures added { IfOk result (λ ds. theory.new ≡ theory.old ++ plains ds.items) }
    ensures same { IfOk result (λ ds. ds ≡ decls) }
    ensures unchanged { OnErr result (theory.new ≡ theory.old) }
    ensures refused { IfErr result
        (AddCause (budget limits.now) theory.old world.now.hier name (plains decls.items) place) }
{
    if let Some(taken) = first_taken(theory.env(), &world.hier, &[name], &decls) {
        return Err(refused(place, What::Redeclared(taken)));
    }
    if let Some(count) = passed_count(theory.env(), &decls) {
        return Err(refused(place, What::TooMany(count)));
    }
    match add_all(alloc, theory, &decls, limits, place) {
        Ok(()) => Ok(decls),
        Err(refusal) => Err(refusal),
    }
}

/// Declares the structure and adds what it makes to the theory, or takes all back but the names.
pub(crate) fn declared(
    alloc: Global,
    theory: &mut Theory,
    world: &mut World,
    name: NameId,
    items: &[NameId],
    set: &MixSet,
    limits: &Limits,
    place: Span,
) -> Result<Vec<Decl>, Refusal>
    ensures added { IfOk result (λ ds. theory.new ≡ theory.old ++ plains ds.items) }
    ensures unchanged { OnErr result (theory.new ≡ theory.old) }
    ensures as_before { OnErr result (IsAsBefore (background world.old) (background world.new)) }
    ensures names { Extends world.old.names world.new.names }
    ensures hier { OnOk result (world.new.hier ≡ with_structure world.old.hier name items.now) }
    ensures section { OnOk result (world.new.section ≡ world.old.section) }
    ensures made { IfOk result
        (λ ds. IsMade world.new.names theory.old (background world.old) name items.now set.now (plains ds.items)) }
    ensures refused { IfErr result
        (DeclareCause theory.old (background world.old) (budget limits.now) name items.now set.now place) }
{
    let mark = Mark::new(theory, world);
    match made(alloc, theory, world, name, items, set, place) {
        Ok(decls) => match accept(alloc, theory, world, decls, name, limits, place) {
            Ok(decls) => Ok(decls),
            Err(refusal) => {
                mark.undo(theory, world);
                Err(refusal)
            }
        },
        Err(refusal) => {
            mark.undo(theory, world);
            Err(refusal)
        }
    }
}
