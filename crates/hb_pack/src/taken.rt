//! Instances of structures at the constants that take them.
ghost use Rattle.std.specs.Prelude.{◌≡◌, ℕ, ◌<◌, ◌++◌, List, length, map, IfOk, OnOk, slice_get, slice_index_or};
ghost use Rattle.hb_order.specs.Heirs.{mix};
ghost use Rattle.hb_order.specs.Needs.{Takes};
ghost use Rattle.hb_env.specs.Plain.{plain, plains, trees};
ghost use Rattle.hb_term.specs.Meaning.{tree};
ghost use Rattle.hb_givings.specs.Givings.{givings_at};
ghost use Rattle.hb_hier.specs.Hierarchy.{sets, ungrouped};
ghost use Rattle.hb_generated.specs.State.{decls};
ghost use Rattle.hb_generated.specs.Names.{name_at};
ghost use Rattle.hb_generated.specs.Generating as generating;
ghost use Rattle.hb_generated.specs.Session.{IsPrefix};
ghost use Rattle.hb_calculus.specs.Telescopes.{variables};
ghost use Rattle.hb_paths.specs.Carriers.{instance_at};
ghost use Rattle.hb_generated.specs.Reading.{numbers, shape_of, coercion_in, value_in, condition_at};
ghost use Rattle.hb_generated.specs.Reading as reading;
ghost use Rattle.hb_pack.specs.Packing.{plain_or_none, one_entry};

use crate::arguments::{asked_types, carrier_at, value_at};
use crate::coercions::layout_of;
use crate::error::PackRefused;
use crate::layout::Layout;
use crate::lists::count_of;
use crate::look::name_of;
use crate::naming::between;
use crate::need::{needs, takes};
use crate::roles::{Made, Role};
use crate::terms::{former, functions_over, products_over, variables};
use hb_base::{NameId, Names};
use hb_env::{Decl, Env};
use hb_hier::{Hier, Known, StructId};
use hb_tables::Tables;
use hb_term::{ConstId, Term};
use std::alloc::{AllocError, Global};
use std::vec::Vec;

/// The instances at the carriers, in their order, of each structure that they take and have none of. The
/// hierarchy and the tables have what the command declared and gave.
pub fn taken_decls(
    alloc: Global,
    env: &Env,
    names: &mut Names,
    hier: &Hier,
    tables: &Tables,
    carriers: &[ConstId],
) -> Result<Made, PackRefused>
    ensures declarations { IfOk result
        (λ m. (N : List (List ℕ)) → IsPrefix names.new N
        → plains m.decls.items ≡ decls (generating.entries_of N env.now tables.now hier.now carriers.now)) }
    ensures alike { IfOk result (λ m. length m.roles.items ≡ length m.decls.items) }
    ensures kept { IsPrefix names.old names.new }
{
    let mut made = Made::new(alloc);
    for k in carriers {
        entries_at(alloc, env, names, hier, tables, *k, &mut made)?;
    }
    Ok(made)
}

/// The instances at one carrier.
fn entries_at(
    alloc: Global,
    env: &Env,
    names: &mut Names,
    hier: &Hier,
    tables: &Tables,
    carrier: ConstId,
    made: &mut Made,
) -> Result<(), PackRefused>
    requires { length made.old.roles.items ≡ length made.old.decls.items }
    ensures declarations { OnOk result
        ((N : List (List ℕ)) → IsPrefix names.new N
        → plains made.new.decls.items
        ≡ plains made.old.decls.items ++ decls (generating.entries_at N env.now tables.now hier.now carrier)) }
    ensures alike { OnOk result (length made.new.roles.items ≡ length made.new.decls.items) }
    ensures kept { IsPrefix names.old names.new }
{
    for t in 0..hier.structures() {
        let decl = entry_of(alloc, env, names, hier, tables, carrier, StructId(t))?;
        push_some(made, Role::Entry(StructId(t), carrier), decl)?;
    }
    Ok(())
}

/// Adds the declaration, if there is one.
fn push_some(made: &mut Made, role: Role, decl: Option<Decl>) -> Result<(), AllocError>
    requires { length made.old.roles.items ≡ length made.old.decls.items }
    ensures decls { OnOk result (plains made.new.decls.items ≡ plains made.old.decls.items ++ plain_or_none decl) }
    ensures alike { OnOk result (length made.new.roles.items ≡ length made.new.decls.items) }
{
    match decl {
        Some(decl) => made.push(role, decl),
        None => Ok(()),
    }
}

/// The instance of the structure at the carrier, if it takes it and has none.
fn entry_of(
    alloc: Global,
    env: &Env,
    names: &mut Names,
    hier: &Hier,
    tables: &Tables,
    carrier: ConstId,
    t: StructId,
) -> Result<Option<Decl>, PackRefused>
    requires { t.0 < length hier.now.structures }
    ensures entry { IfOk result
        (λ d. (N : List (List ℕ)) → IsPrefix names.new N
        → plain_or_none d
        ≡ one_entry N env.now tables.now hier.now carrier t.0 (slice_index_or hier.now.structures t.0 ungrouped)) }
    ensures kept { IsPrefix names.old names.new }
{
    if tables.entry(t, carrier).is_some() {
        return Ok(None);
    }
    if !takes(hier, carrier, t) {
        return Ok(None);
    }
    let decl = instance_of(alloc, env, names, hier, tables, carrier, t)?;
    Ok(Some(decl))
}

/// The instance of the structure at the carrier, which takes it.
fn instance_of(
    alloc: Global,
    env: &Env,
    names: &mut Names,
    hier: &Hier,
    tables: &Tables,
    carrier: ConstId,
    t: StructId,
) -> Result<Decl, PackRefused>
    requires within { t.0 < length hier.now.structures }
    requires takes { Takes (sets hier.now) (givings_at hier.now.givings carrier) (mix (sets hier.now) t.0) }
    ensures instance { IfOk result
        (λ d. (N : List (List ℕ)) → IsPrefix names.new N
        → plain d
        ≡ generating.instance_of N env.now tables.now hier.now carrier t.0 (slice_index_or hier.now.structures t.0 ungrouped).name.0) }
    ensures kept { IsPrefix names.old names.new }
{
    let asked = needs(alloc, hier, carrier, hier.mix(t))?;
    let before = declared_name(env, carrier.decl);
    let own = between(
        alloc,
        names,
        before,
        "_is_",
        name_of(hier, Known::Structure(t)),
    )?;
    let layout = layout_of(alloc, hier, tables, t)?;
    let context = asked_types(alloc, tables, &asked)?;
    let ty = products_over(alloc, &context, former(layout.pack))?;
    let value = value_of(alloc, hier, tables, carrier, &asked, &layout)?;
    let body = functions_over(alloc, &context, value)?;
    Ok(Decl::Def {
        name: own,
        ty,
        body,
    })
}

/// The value of the structure at the carrier, under binders with these needs.
fn value_of(
    alloc: Global,
    hier: &Hier,
    tables: &Tables,
    carrier: ConstId,
    asked: &[Option<StructId>],
    layout: &Layout,
) -> Result<Term, AllocError>
    ensures { IfOk result
        (λ v. tree v
        ≡ instance_at (shape_of tables.now (sets hier.now)) (coercion_in tables.now) carrier (value_in tables.now carrier) (condition_at hier.now carrier) layout.now (numbers asked.now) (variables (length (numbers asked.now)) 0)) }
{
    let args = variables(alloc, count_of(asked.len())?)?;
    let own = carrier_at(alloc, tables, carrier, asked, &args)?;
    let values = values_at(alloc, hier, tables, carrier, asked, &args, &layout.mixins)?;
    let value = layout.packed(alloc, own, &values)?;
    Ok(value)
}

/// What the carrier at the arguments has for each of the mixins.
fn values_at(
    alloc: Global,
    hier: &Hier,
    tables: &Tables,
    carrier: ConstId,
    asked: &[Option<StructId>],
    args: &[Term],
    mixins: &[u16],
) -> Result<Vec<Term>, AllocError>
    ensures { IfOk result
        (λ ts. trees ts.items
        ≡ map (λ m. reading.value_at tables.now hier.now carrier (numbers asked.now) (trees args.now) m) mixins.now) }
{
    let mut values = Vec::new(alloc);
    for m in mixins {
        values.push(value_at(alloc, hier, tables, carrier, asked, args, *m)?)?;
    }
    Ok(values)
}

/// The name of the declaration at the place.
pub(crate) fn declared_name(env: &Env, at: u32) -> NameId
    ensures { result.0 ≡ name_at (slice_get env.now at) }
{
    match env.decl(at) {
        Some(Decl::Axiom { name, .. } | Decl::Def { name, .. } | Decl::Record { name, .. }) =>
            *name,
        None => NameId(0),
    }
}
