//! Arguments of carriers, brought to what is asked of them.
ghost use Rattle.std.specs.Prelude.{◌≡◌, ℕ, List, map, IfOk};
ghost use Rattle.std.specs.Option.{option_map};
ghost use Rattle.hb_sets.specs.Set.{Set};
ghost use Rattle.hb_term.specs.Meaning.{tree};
ghost use Rattle.hb_env.specs.Plain.{trees};
ghost use Rattle.hb_hier.specs.Hierarchy.{Hierarchy};
ghost use Rattle.hb_tables.specs.Maps.{records_of};
ghost use Rattle.hb_paths.specs.Carriers as carriers;
ghost use Rattle.hb_generated.specs.Reading as reading;
ghost use Rattle.hb_generated.specs.Reading.{shape_of, coercion_in, numbers};

use crate::roles::constant;
use crate::terms::{apply_to, former};
use hb_hier::{Hier, MixinId, StructId};
use hb_tables::Tables;
use hb_term::{ConstId, RecId, Sort, Term};
use std::alloc::{AllocError, Global};
use std::vec::Vec;

/// The package record of the structure.
fn pack_of(tables: &Tables, s: StructId) -> RecId
    ensures { result.0 ≡ reading.pack_of (records_of tables.now s) }
{
    match tables.records(s) {
        Some((_class, pack)) => pack,
        None => RecId(0),
    }
}

/// The constant that stands where the tables have none.
pub(crate) fn const_or_first(found: Option<ConstId>) -> ConstId
    ensures { result ≡ reading.const_or_first found }
{
    match found {
        Some(c) => c,
        None => constant(0),
    }
}

/// The type of an argument of which this is asked.
fn asked_type(tables: &Tables, asked: Option<StructId>) -> Term
    ensures { (h : List Set) → tree result ≡ carriers.asked_type (shape_of tables.now h) (option_map (λ s. s.0) asked) }
{
    match asked {
        Some(s) => former(pack_of(tables, s)),
        None => Term::Sort(Sort::Level(0)),
    }
}

/// The types of arguments of which these are asked.
pub fn asked_types(
    alloc: Global,
    tables: &Tables,
    asked: &[Option<StructId>],
) -> Result<Vec<Term>, AllocError>
    ensures { IfOk result
        (λ ts. (h : List Set) → trees ts.items ≡ map (carriers.asked_type (shape_of tables.now h)) (numbers asked.now)) }
{
    let mut types = Vec::new(alloc);
    for s in asked {
        types.push(asked_type(tables, *s))?;
    }
    Ok(types)
}

/// The argument, a value of the structure `from` or a type, brought to `to`.
fn brought(
    alloc: Global,
    tables: &Tables,
    from: Option<StructId>,
    to: Option<StructId>,
    arg: &Term,
) -> Result<Term, AllocError>
    ensures { IfOk result
        (λ t. (h : List Set)
        → tree t
        ≡ carriers.brought (shape_of tables.now h) (coercion_in tables.now) (option_map (λ s. s.0) from) (option_map (λ s. s.0) to) (tree arg.now)) }
{
    match (from, to) {
        (None, _) => arg.copy(),
        (Some(u), None) => Term::proj(alloc, pack_of(tables, u), 0, arg.copy()?),
        (Some(u), Some(w)) => {
            if u.0 == w.0 {
                return arg.copy();
            }
            let coercion = const_or_first(tables.coercion(u, w)).decl;
            Term::app(alloc, Term::Const(constant(coercion)), arg.copy()?)
        }
    }
}

/// The arguments, each brought to its own, as far as there is one.
pub(crate) fn all_brought(
    alloc: Global,
    tables: &Tables,
    from: &[Option<StructId>],
    to: &[Option<StructId>],
    args: &[Term],
) -> Result<Vec<Term>, AllocError>
    ensures { IfOk result
        (λ ts. (h : List Set)
        → trees ts.items
        ≡ carriers.all_brought (shape_of tables.now h) (coercion_in tables.now) (numbers from.now) (numbers to.now) (trees args.now)) }
{
    let mut terms = Vec::new(alloc);
    for at in 0..args.len().min(from.len()).min(to.len()) {
        terms.push(brought(alloc, tables, from[at], to[at], &args[at])?)?;
    }
    Ok(terms)
}

/// Nothing asked of as many arguments.
fn nones(alloc: Global, asked: &[Option<StructId>]) -> Result<Vec<Option<StructId>>, AllocError>
    ensures { IfOk result (λ ns. numbers ns.items ≡ carriers.nones (numbers asked.now)) }
{
    let mut none = Vec::new(alloc);
    for _asked in asked {
        none.push(None)?;
    }
    Ok(none)
}

/// The carrier at the arguments, of which these are asked.
pub(crate) fn carrier_at(
    alloc: Global,
    tables: &Tables,
    carrier: ConstId,
    asked: &[Option<StructId>],
    args: &[Term],
) -> Result<Term, AllocError>
    ensures { IfOk result
        (λ t. (h : Hierarchy) → tree t ≡ reading.carrier_at tables.now h carrier (numbers asked.now) (trees args.now)) }
{
    let none = nones(alloc, asked)?;
    let bare = all_brought(alloc, tables, asked, &none, args)?;
    apply_to(alloc, Term::Const(carrier), &bare)
}

/// What the carrier at the arguments has for the mixin.
pub(crate) fn value_at(
    alloc: Global,
    hier: &Hier,
    tables: &Tables,
    carrier: ConstId,
    asked: &[Option<StructId>],
    args: &[Term],
    m: u16,
) -> Result<Term, AllocError>
    ensures { IfOk result
        (λ t. tree t ≡ reading.value_at tables.now hier.now carrier (numbers asked.now) (trees args.now) m) }
{
    let value = const_or_first(tables.mixin(carrier, MixinId(m)));
    let condition = hier.condition(carrier, MixinId(m));
    let own = all_brought(alloc, tables, asked, condition, args)?;
    apply_to(alloc, Term::Const(value), &own)
}
