//! Declaring an instance.
ghost use Rattle.std.specs.Prelude.{◌≡◌, ◌++◌, List, OnOk, OnErr, IfOk};
ghost use Rattle.hb_env.specs.Plain.{plains};
ghost use Rattle.hb_hier.specs.Undoing as hiers;
ghost use Rattle.hb_tables.specs.Growing as growing;
ghost use Rattle.hb_world.specs.Worlds.{background, IsAsBefore};
ghost use Rattle.hb_instance.specs.Giving.{after, Keeps};
ghost use Rattle.hb_instance.specs.Growing.{HasGrown};

use crate::coherent::{Constants, check_coherent};
use crate::keeping::grown_section;
use crate::target::{Allowed, Target, are_structures};
use hb_base::{Limits, NameId, Span};
use hb_env::{Decl, Env, Refusal, What};
use hb_hier::Hier;
use hb_items::of_hierarchy;
use hb_kernel::Theory;
use hb_pack::{Made as Pack, PackRefused, Role, enter, given_decls, taken_decls};
use hb_step::{add_all, first_taken, passed_count, refused};
use hb_tables::Tables;
use hb_term::Term;
use hb_world::World;
use std::alloc::Global;
use std::mem;
use std::vec::Vec;

/// The places of an instance's refusals: of its names and counts, and of all else.
#[derive(Clone, Copy)]
pub(crate) struct Spots {
    pub place: Span,
    pub factory: Span,
}

/// The declarations of an instance, of which the first so many are the value's and what it gives, with
/// these roles.
#[derive(Drop)]
pub(crate) struct Prepared {
    pub decls: Vec<Decl>,
    pub own: usize,
    pub roles: Vec<Role>,
}

/// Makes the declarations of the instance, and gives what it gives, before the declarations are added to the
/// theory. A part may be left behind where it is refused.
pub(crate) fn prepare(
    alloc: Global,
    env: &Env,
    world: &mut World,
    allowed: &Allowed,
    name: Option<NameId>,
    value: Term,
    spots: Spots,
) -> Result<Prepared, Refusal>
    ensures grown { HasGrown (background world.old) (background world.new) }
    ensures gave { OnOk result (world.new.hier ≡ after world.old.hier allowed.now.target
        allowed.now.factory) }
    ensures section { OnOk result (Keeps allowed.now.gives (background world.old).section
        (background world.new).section) }
{
    let own = give(alloc, env, world, allowed, name, value, spots)?;
    let taken = take(alloc, env, world, allowed, &own, spots)?;
    joined(own, taken, spots)
}

/// The value and what it gives.
fn give(
    alloc: Global,
    env: &Env,
    world: &mut World,
    allowed: &Allowed,
    name: Option<NameId>,
    value: Term,
    spots: Spots,
) -> Result<Pack, Refusal>
    ensures grown { HasGrown (background world.old) (background world.new) }
    ensures gave { OnOk result (world.new.hier ≡ after world.old.hier allowed.now.target
        allowed.now.factory) }
    ensures section { OnOk result (Keeps allowed.now.gives (background world.old).section
        (background world.new).section) }
{
    let named = name.is_some();
    let own = given(alloc, env, world, allowed, name, value, spots.place)?;
    keep(alloc, env, world, allowed, &own, named, spots.factory)?;
    Ok(own)
}

/// The instances of structures that the carrier newly takes.
fn take(
    alloc: Global,
    env: &Env,
    world: &mut World,
    allowed: &Allowed,
    own: &Pack,
    spots: Spots,
) -> Result<Pack, Refusal>
    ensures grown { HasGrown (background world.old) (background world.new) }
    ensures same { world.new.hier ≡ world.old.hier }
    ensures section { (background world.new).section ≡ (background world.old).section }
{
    let taken = taken(alloc, env, world, allowed, spots.place)?;
    enter_after(&mut world.tables, env, own, &taken.roles, spots.factory)?;
    Ok(taken)
}

/// Both lists of declarations, one after the other.
fn joined(own: Pack, taken: Pack, spots: Spots) -> Result<Prepared, Refusal> {
    let Pack { decls, roles } = own;
    let Pack {
        decls: mut more,
        roles: _,
    } = taken;
    let count = decls.len();
    let mut decls = decls;
    let Ok(()) = decls.append(&mut more) else {
        return Err(refused(spots.factory, What::NoMemory));
    };
    Ok(Prepared {
        decls,
        own: count,
        roles,
    })
}

/// The declarations of the value and of what it gives.
fn given(
    alloc: Global,
    env: &Env,
    world: &mut World,
    allowed: &Allowed,
    name: Option<NameId>,
    value: Term,
    place: Span,
) -> Result<Pack, Refusal>
    ensures { IsAsBefore (background world.old) (background world.new) }
{
    let made = given_decls(
        alloc,
        env,
        &mut world.names,
        &world.hier,
        &world.tables,
        allowed.place(&world.section),
        world.made,
        name,
        allowed.known,
        value,
    );
    of_pack(made, place)
}

/// The instances of structures that the carrier newly takes: none in a section.
fn taken(
    alloc: Global,
    env: &Env,
    world: &mut World,
    allowed: &Allowed,
    place: Span,
) -> Result<Pack, Refusal>
    ensures { IsAsBefore (background world.old) (background world.new) }
{
    match &allowed.target {
        Target::Local(_) => Ok(Pack::new(alloc)),
        Target::Constant(k, _) => {
            let made = taken_decls(
                alloc,
                env,
                &mut world.names,
                &world.hier,
                &world.tables,
                &[*k],
            );
            of_pack(made, place)
        }
    }
}

/// The refusal of generated declarations, at the place.
fn of_pack(made: Result<Pack, PackRefused>, place: Span) -> Result<Pack, Refusal> {
    match made {
        Ok(made) => Ok(made),
        Err(PackRefused::TooMany(count)) => Err(refused(place, What::TooMany(count))),
        Err(PackRefused::NoMemory) => Err(refused(place, What::NoMemory)),
    }
}

/// Gives in the hierarchy, or in the section, and enters the constants in the tables.
fn keep(
    alloc: Global,
    env: &Env,
    world: &mut World,
    allowed: &Allowed,
    own: &Pack,
    named: bool,
    factory: Span,
) -> Result<(), Refusal>
    ensures grown { HasGrown (background world.old) (background world.new) }
    ensures gave { OnOk result (world.new.hier ≡ after world.old.hier allowed.now.target
        allowed.now.factory) }
    ensures section { OnOk result (Keeps allowed.now.gives (background world.old).section
        (background world.new).section) }
{
    give_constant(&mut world.hier, allowed, factory)?;
    enter_at(&mut world.tables, env.len(), &own.roles, factory)?;
    world.made = more_made(world.made, own.decls.len(), named);
    let open = mem::replace(&mut world.section, None);
    let (section, kept) = grown_section(
        alloc,
        &world.hier,
        &world.tables,
        open,
        &allowed.gives,
        own,
        factory,
    );
    world.section = section;
    kept
}

/// How many names are made up, after so many declarations, of which the first may have a written name.
fn more_made(made: u32, count: usize, named: bool) -> u32 {
    let new = if named {
        count.saturating_sub(1)
    } else {
        count
    };
    match u32::try_from(new) {
        Ok(new) => made.saturating_add(new),
        Err(_) => made,
    }
}

/// Gives at a constant.
#[tactic(auto, using(hb_hier::proofs::GrewLemmas::grew_same))]
fn give_constant(hier: &mut Hier, allowed: &Allowed, factory: Span) -> Result<(), Refusal>
    ensures grew { hiers.Grew hier.old hier.new }
    ensures gave { OnOk result (hier.new ≡ after hier.old allowed.now.target allowed.now.factory) }
{
    let Target::Constant(k, binders) = &allowed.target else {
        return Ok(());
    };
    let alike = match hier.binders(*k) {
        Some(count) => usize::from(count) == binders.len(),
        None => true,
    };
    if !alike || binders.len() > 255 || hier.mark().givings == u32::MAX {
        return Err(refused(factory, What::NotCarrier(allowed.carrier)));
    }
    if !are_structures(hier, binders) {
        return Err(refused(factory, What::NotCarrier(allowed.carrier)));
    }
    match hier.give(*k, binders, allowed.factory) {
        Ok(_) => Ok(()),
        Err(fault) => Err(refused(factory, of_hierarchy(hier, allowed.carrier, fault))),
    }
}

/// Enters the roles in the tables, the first at the place.
fn enter_at(tables: &mut Tables, at: u32, roles: &[Role], factory: Span) -> Result<(), Refusal>
    ensures { growing.Grew tables.old tables.new }
{
    match enter(tables, at, roles) {
        Ok(()) => Ok(()),
        Err(_) => Err(refused(factory, What::NoMemory)),
    }
}

/// The same, after the declarations.
#[tactic(auto, using(hb_tables::proofs::GrowLemmas::grew_same))]
fn enter_after(
    tables: &mut Tables,
    env: &Env,
    own: &Pack,
    roles: &[Role],
    factory: Span,
) -> Result<(), Refusal>
    ensures { growing.Grew tables.old tables.new }
{
    let at = match u32::try_from(own.decls.len()) {
        Ok(count) => env.len().saturating_add(count),
        Err(_) => return Err(refused(factory, What::NoMemory)),
    };
    enter_at(tables, at, roles, factory)
}

/// Adds the declarations to the theory: the mixins that are built have the wanted types, the names are new,
/// no count is passed, and the kernel accepts them.
pub(crate) fn settle(
    alloc: Global,
    theory: &mut Theory,
    hier: &Hier,
    carrier: NameId,
    prepared: &Prepared,
    spots: Spots,
    limits: &Limits,
) -> Result<(), Refusal>
    ensures unchanged { OnErr result (theory.new ≡ theory.old) }
    ensures grown { OnOk result (theory.new ≡ theory.old ++ plains prepared.now.decls.items) }
{
    let made = constants(prepared);
    check_coherent(alloc, theory, hier, carrier, made, spots.factory, limits)?;
    accept(alloc, theory, hier, &prepared.decls, spots, limits)
}

/// The constants of the value and of what it gives.
fn constants(prepared: &Prepared) -> Constants<'_> {
    let own = if prepared.own <= prepared.decls.len() {
        prepared.own
    } else {
        prepared.decls.len()
    };
    Constants {
        decls: &prepared.decls[..own],
        roles: &prepared.roles,
    }
}

/// The names are new, no count is passed, and the kernel accepts the declarations.
fn accept(
    alloc: Global,
    theory: &mut Theory,
    hier: &Hier,
    decls: &[Decl],
    spots: Spots,
    limits: &Limits,
) -> Result<(), Refusal>
    ensures unchanged { OnErr result (theory.new ≡ theory.old) }
    ensures grown { OnOk result (theory.new ≡ theory.old ++ plains decls.now) }
{
    if let Some(taken) = first_taken(theory.env(), hier, &[], decls) {
        return Err(refused(spots.place, What::Redeclared(taken)));
    }
    if let Some(count) = passed_count(theory.env(), decls) {
        return Err(refused(spots.place, What::TooMany(count)));
    }
    add_all(alloc, theory, decls, limits, spots.factory)
}
