//! What generated declarations are to the tables.
ghost use Rattle.std.specs.Prelude.{◌≡◌, ◌++◌, ◌∷◌, [], length, OnOk};
ghost use Rattle.hb_tables.specs.Growing.{Grew};
ghost use Rattle.hb_generated.specs.Entering as entering;
ghost use Rattle.hb_generated.specs.State as generated;
ghost use Rattle.hb_pack.specs.Roles as spec;
ghost use Rattle.hb_pack.specs.Roles.{entered};

use hb_env::Decl;
use hb_hier::{FactoryId, MixinId, StructId};
use hb_tables::Tables;
use hb_term::{ConstId, RecId};
use std::alloc::{AllocError, Global};
use std::vec::Vec;

/// What a generated declaration is to the tables.
#[derive(Clone, Copy)]
pub enum Role {
    /// Nothing.
    Plain,
    /// The package record of the structure, which stands just after its class record.
    Pack(StructId),
    /// An operation of the structure.
    Operation(StructId),
    /// The coercion from the first structure to the second.
    Coercion(StructId, StructId),
    /// The instance of the structure at the carrier.
    Entry(StructId, ConstId),
    /// The value of the mixin at the carrier.
    Value(ConstId, MixinId),
    /// The constant that builds the mixin for the factory.
    Builder(FactoryId, MixinId),
}

/// Generated declarations, each with its role.
#[derive(Drop)]
pub struct Made {
    pub decls: Vec<Decl>,
    pub roles: Vec<Role>,
}

impl Made {
    /// No declarations.
    pub fn new(alloc: Global) -> Made
        ensures decls { result.decls.items ≡ [] }
        ensures roles { result.roles.items ≡ [] }
    {
        Made {
            decls: Vec::new(alloc),
            roles: Vec::new(alloc),
        }
    }

    /// Adds a declaration.
    pub(crate) fn push(&mut self, role: Role, decl: Decl) -> Result<(), AllocError>
        ensures decls { OnOk result (self.new.decls.items ≡ self.old.decls.items ++ decl ∷ []) }
        ensures roles { OnOk result (self.new.roles.items ≡ self.old.roles.items ++ role ∷ []) }
    {
        self.decls.push(decl)?;
        self.roles.push(role)?;
        Ok(())
    }
}

/// Adds to the tables what declarations with the roles are, the first at the place. Where a key is taken, or
/// a number doesn't fit, that is answered as want of memory: no session has such. A part may be left behind.
pub fn enter(tables: &mut Tables, at: u32, roles: &[Role]) -> Result<(), AllocError>
    ensures entered { OnOk result (tables.new ≡ entered at roles.now tables.old) }
    ensures grew { Grew tables.old tables.new }
{
    let mut place = at;
    for role in roles {
        enter_one(tables, place, *role)?;
        match place.checked_add(1) {
            Some(next) => place = next,
            None => return Err(AllocError),
        }
    }
    Ok(())
}

/// The constant of the declaration at the place.
pub(crate) fn constant(at: u32) -> ConstId
    ensures { result ≡ entering.constant at }
{
    ConstId {
        decl: at,
        maker: false,
    }
}

/// Adds what the declaration at the place is.
#[tactic(auto, using(hb_tables::proofs::GrowLemmas::grew_same))]
fn enter_one(tables: &mut Tables, at: u32, role: Role) -> Result<(), AllocError>
    ensures entered { OnOk result (tables.new ≡ entering.enter_one at (spec.role role) tables.old) }
    ensures grew { Grew tables.old tables.new }
{
    match role {
        Role::Plain => Ok(()),
        Role::Pack(s) => enter_pack(tables, at, s),
        Role::Operation(s) => enter_operation(tables, at, s),
        Role::Coercion(s, t) => enter_coercion(tables, at, s, t),
        Role::Entry(s, k) => enter_entry(tables, at, s, k),
        Role::Value(k, m) => enter_value(tables, at, k, m),
        Role::Builder(f, m) => enter_builder(tables, at, f, m),
    }
}

/// Adds the records of the structure.
#[tactic(auto, using(hb_tables::proofs::GrowLemmas::grew_same))]
fn enter_pack(tables: &mut Tables, at: u32, s: StructId) -> Result<(), AllocError>
    ensures entered { OnOk result (tables.new ≡ entering.enter_one at (generated.pack s.0) tables.old) }
    ensures grew { Grew tables.old tables.new }
{
    let class = RecId(at.saturating_sub(1));
    if tables.records(s).is_some() || tables.structure_of(RecId(at)).is_some() {
        return Err(AllocError);
    }
    if tables.mark().structures == u32::MAX {
        return Err(AllocError);
    }
    tables.add_structure(s, class, RecId(at))
}

/// Adds the operation of the structure.
#[tactic(auto, using(hb_tables::proofs::GrowLemmas::grew_same))]
fn enter_operation(tables: &mut Tables, at: u32, s: StructId) -> Result<(), AllocError>
    ensures entered { OnOk result (tables.new ≡ entering.enter_one at (generated.operation s.0) tables.old) }
    ensures grew { Grew tables.old tables.new }
{
    let own = constant(at);
    if tables.operation(own).is_some() || tables.mark().operations == u32::MAX {
        return Err(AllocError);
    }
    tables.add_operation(own, s)
}

/// Adds the coercion.
#[tactic(auto, using(hb_tables::proofs::GrowLemmas::grew_same))]
fn enter_coercion(tables: &mut Tables, at: u32, s: StructId, t: StructId) -> Result<(), AllocError>
    ensures entered { OnOk result (tables.new ≡ entering.enter_one at (generated.coercion s.0 t.0) tables.old) }
    ensures grew { Grew tables.old tables.new }
{
    if tables.coercion(s, t).is_some() || tables.mark().coercions == u32::MAX {
        return Err(AllocError);
    }
    tables.add_coercion(s, t, constant(at))
}

/// Adds the instance of the structure at the carrier.
#[tactic(auto, using(hb_tables::proofs::GrowLemmas::grew_same))]
fn enter_entry(tables: &mut Tables, at: u32, s: StructId, k: ConstId) -> Result<(), AllocError>
    ensures entered { OnOk result (tables.new ≡ entering.enter_one at (generated.entry s.0 k) tables.old) }
    ensures grew { Grew tables.old tables.new }
{
    if tables.entry(s, k).is_some() || tables.mark().entries == u32::MAX {
        return Err(AllocError);
    }
    tables.add_entry(s, k, constant(at))
}

/// Adds the value of the mixin at the carrier.
#[tactic(auto, using(hb_tables::proofs::GrowLemmas::grew_same))]
fn enter_value(tables: &mut Tables, at: u32, k: ConstId, m: MixinId) -> Result<(), AllocError>
    ensures entered { OnOk result (tables.new ≡ entering.enter_one at (generated.value k m.0) tables.old) }
    ensures grew { Grew tables.old tables.new }
{
    if tables.mixin(k, m).is_some() || tables.mark().mixins == u32::MAX {
        return Err(AllocError);
    }
    tables.add_mixin(k, m, constant(at))
}

/// Adds the constant that builds the mixin for the factory.
#[tactic(auto, using(hb_tables::proofs::GrowLemmas::grew_same))]
fn enter_builder(tables: &mut Tables, at: u32, f: FactoryId, m: MixinId) -> Result<(), AllocError>
    ensures entered { OnOk result (tables.new ≡ entering.enter_one at (generated.builder f.0 m.0) tables.old) }
    ensures grew { Grew tables.old tables.new }
{
    if tables.builder(f, m).is_some() || tables.mark().builders == u32::MAX {
        return Err(AllocError);
    }
    tables.add_builder(f, m, constant(at))
}
