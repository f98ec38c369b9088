//! The coercions of a structure.
ghost use Rattle.std.specs.Prelude.{◌≡◌, ℕ, ◌<◌, ◌≤◌, List, length, ◌++◌, slice_index_or, IfOk, OnOk};
ghost use Rattle.hb_tree.specs.Tree.{pi};
ghost use Rattle.hb_env.specs.Plain.{plain, plains};
ghost use Rattle.hb_calculus.specs.Declarations.{a_definition};
ghost use Rattle.hb_calculus.specs.Telescopes as telescopes;
ghost use Rattle.hb_hier.specs.Hierarchy.{sets, ungrouped};
ghost use Rattle.hb_paths.specs.Packs as packs;
ghost use Rattle.hb_generated.specs.State.{decls};
ghost use Rattle.hb_generated.specs.Reading as reading;
ghost use Rattle.hb_generated.specs.Generating as generating;
ghost use Rattle.hb_generated.specs.Session.{IsPrefix};
ghost use Rattle.hb_pack.specs.Packing.{plain_or_none, one_coercion};

use crate::error::PackRefused;
use crate::layout::Layout;
use crate::lists::listed;
use crate::look::name_of;
use crate::naming::between;
use crate::terms::former;
use hb_base::{NameId, Names};
use hb_env::Decl;
use hb_hier::{Hier, Known, StructId};
use hb_sets::MixSet;
use hb_tables::Tables;
use hb_term::{RecId, Term};
use std::alloc::{AllocError, Global};
use std::vec::Vec;

/// Whether the first set lies strictly inside the other.
pub(crate) fn is_inside(inner: &MixSet, outer: &MixSet) -> bool
    ensures { result ≡ reading.is_inside inner.now outer.now }
{
    inner.subset(outer) && !outer.subset(inner)
}

/// How values of the declared structure are made.
pub(crate) fn layout_of(
    alloc: Global,
    hier: &Hier,
    tables: &Tables,
    s: StructId,
) -> Result<Layout, AllocError>
    requires { s.0 < length hier.now.structures }
    ensures { IfOk result (λ l. l ≡ reading.shape_of tables.now (sets hier.now) s.0) }
{
    let (class, pack) = match tables.records(s) {
        Some(records) => records,
        None => (RecId(0), RecId(0)),
    };
    Ok(Layout {
        class,
        pack,
        mixins: listed(alloc, hier.mix(s))?,
    })
}

/// The coercion of the name.
fn coercion(alloc: Global, name: NameId, from: &Layout, to: &Layout) -> Result<Decl, AllocError>
    ensures { IfOk result
        (λ d. plain d
        ≡ a_definition name.0 (pi (telescopes.former from.now.pack) (telescopes.former to.now.pack)) (packs.coercion_body from.now to.now)) }
{
    Ok(Decl::Def {
        name,
        ty: Term::pi(alloc, former(from.pack), former(to.pack))?,
        body: from.coercion_body(alloc, to)?,
    })
}

/// The coercion to the structure `t`, if its set lies strictly inside.
fn coercion_to(
    alloc: Global,
    names: &mut Names,
    hier: &Hier,
    tables: &Tables,
    name: NameId,
    from: &Layout,
    set: &MixSet,
    t: StructId,
) -> Result<Option<Decl>, PackRefused>
    requires within { t.0 < length hier.now.structures }
    ensures coercion { IfOk result
        (λ d. (N : List (List ℕ)) → IsPrefix names.new N
        → plain_or_none d
        ≡ one_coercion N hier.now tables.now name.0 from.now set.now t.0 (slice_index_or hier.now.structures t.0 ungrouped)) }
    ensures kept { IsPrefix names.old names.new }
{
    if !is_inside(hier.mix(t), set) {
        return Ok(None);
    }
    let other = name_of(hier, Known::Structure(t));
    let own = between(alloc, names, name, "_to_", other)?;
    let to = layout_of(alloc, hier, tables, t)?;
    Ok(Some(coercion(alloc, own, from, &to)?))
}

/// Adds the declaration, if there is one.
fn push_some(made: &mut Vec<Decl>, decl: Option<Decl>) -> Result<(), AllocError>
    ensures { OnOk result (plains made.new.items ≡ plains made.old.items ++ plain_or_none decl) }
{
    if let Some(decl) = decl {
        made.push(decl)?;
    }
    Ok(())
}

/// The coercions from the structure of the name, which has the set, to those that lie strictly inside.
pub(crate) fn coercions(
    alloc: Global,
    names: &mut Names,
    hier: &Hier,
    tables: &Tables,
    name: NameId,
    from: &Layout,
    set: &MixSet,
) -> Result<Vec<Decl>, PackRefused>
    ensures coercions { IfOk result
        (λ ds. (N : List (List ℕ)) (s : ℕ) → IsPrefix names.new N
        → plains ds.items
        ≡ decls (generating.coercions N hier.now tables.now s name.0 from.now set.now 0 hier.now.structures)) }
    ensures kept { IsPrefix names.old names.new }
{
    let mut made = Vec::new(alloc);
    for t in 0..hier.structures() {
        let decl = coercion_to(alloc, names, hier, tables, name, from, set, StructId(t))?;
        push_some(&mut made, decl)?;
    }
    Ok(made)
}
