//! A hierarchy in the manner of a library of algebra, and the same with one join left out.
use crate::both::{Both, mixin_name, mixins, nothing, structure};
use crate::ways::{compare_joins, join};
use hb_base::NameId;
use hb_hier::{HierRefused, StructId};
use std::alloc::{AllocError, Global};
use std::vec::Vec;

// The mixins, each a bit.
const MUL: u32 = 1 << 0;

const ASSOC: u32 = 1 << 1;

const UNIT: u32 = 1 << 2;

const COMM: u32 = 1 << 3;

const INV: u32 = 1 << 4;

const ADD: u32 = 1 << 5;

const NEG: u32 = 1 << 6;

const DISTR: u32 = 1 << 7;

const DIV: u32 = 1 << 8;

const SCALE: u32 = 1 << 9;

const LE: u32 = 1 << 10;

const MEET: u32 = 1 << 11;

const TOTAL: u32 = 1 << 12;

const OPEN: u32 = 1 << 13;

const UNIFORM: u32 = 1 << 14;

const NORM: u32 = 1 << 15;

const COMPLETE: u32 = 1 << 16;

// The structures, each by its mixins.
const MAGMA: u32 = MUL;

const SEMIGROUP: u32 = MAGMA | ASSOC;

const MONOID: u32 = SEMIGROUP | UNIT;

const GROUP: u32 = MONOID | INV;

const COMM_MAGMA: u32 = MAGMA | COMM;

const COMM_SEMIGROUP: u32 = SEMIGROUP | COMM;

const COMM_MONOID: u32 = MONOID | COMM;

const COMM_GROUP: u32 = GROUP | COMM;

const ADD_MONOID: u32 = ADD;

const ADD_GROUP: u32 = ADD_MONOID | NEG;

const SEMIRING: u32 = MONOID | ADD_MONOID | DISTR;

const RING: u32 = SEMIRING | ADD_GROUP;

const COMM_SEMIRING: u32 = SEMIRING | COMM;

const COMM_RING: u32 = RING | COMM;

const FIELD: u32 = COMM_RING | DIV;

const MODULE: u32 = ADD_GROUP | SCALE;

const ALGEBRA: u32 = RING | MODULE;

const COMM_ALGEBRA: u32 = COMM_RING | MODULE;

const POSET: u32 = LE;

const LATTICE: u32 = POSET | MEET;

const CHAIN: u32 = LATTICE | TOTAL;

const SPACE: u32 = OPEN;

const UNIFORM_SPACE: u32 = SPACE | UNIFORM;

const ORDERED_MONOID: u32 = MONOID | POSET;

const ORDERED_COMM_MONOID: u32 = COMM_MONOID | POSET;

const ORDERED_GROUP: u32 = GROUP | POSET;

const ORDERED_COMM_GROUP: u32 = COMM_GROUP | POSET;

const ORDERED_ADD_GROUP: u32 = ADD_GROUP | POSET;

const ORDERED_RING: u32 = RING | POSET;

const ORDERED_COMM_RING: u32 = COMM_RING | POSET;

const ORDERED_FIELD: u32 = FIELD | CHAIN;

const TOP_MONOID: u32 = MONOID | SPACE;

const TOP_COMM_MONOID: u32 = COMM_MONOID | SPACE;

const TOP_GROUP: u32 = GROUP | SPACE;

const TOP_COMM_GROUP: u32 = COMM_GROUP | SPACE;

const TOP_ADD_GROUP: u32 = ADD_GROUP | UNIFORM_SPACE;

const TOP_MODULE: u32 = MODULE | UNIFORM_SPACE;

const TOP_RING: u32 = RING | UNIFORM_SPACE;

const TOP_COMM_RING: u32 = COMM_RING | UNIFORM_SPACE;

const TOP_FIELD: u32 = FIELD | UNIFORM_SPACE;

const TOP_ALGEBRA: u32 = ALGEBRA | UNIFORM_SPACE;

const TOP_COMM_ALGEBRA: u32 = COMM_ALGEBRA | UNIFORM_SPACE;

const ORDERED_SPACE: u32 = POSET | SPACE;

const TOP_ORDERED_FIELD: u32 = ORDERED_FIELD | TOP_FIELD;

const NORMED_MODULE: u32 = TOP_MODULE | NORM;

const NORMED_ALGEBRA: u32 = TOP_ALGEBRA | NORM;

const BANACH_SPACE: u32 = NORMED_MODULE | COMPLETE;

const BANACH_ALGEBRA: u32 = NORMED_ALGEBRA | COMPLETE;

/// The structures in the order of declaration: a join stands before what it is needed for.
const LIBRARY: [u32; 48] = [
    MAGMA,
    SEMIGROUP,
    MONOID,
    GROUP,
    COMM_MAGMA,
    COMM_SEMIGROUP,
    COMM_MONOID,
    COMM_GROUP,
    ADD_MONOID,
    ADD_GROUP,
    SEMIRING,
    RING,
    COMM_SEMIRING,
    COMM_RING,
    FIELD,
    MODULE,
    ALGEBRA,
    COMM_ALGEBRA,
    POSET,
    LATTICE,
    CHAIN,
    SPACE,
    UNIFORM_SPACE,
    ORDERED_MONOID,
    ORDERED_COMM_MONOID,
    ORDERED_GROUP,
    ORDERED_COMM_GROUP,
    ORDERED_ADD_GROUP,
    ORDERED_RING,
    ORDERED_COMM_RING,
    ORDERED_FIELD,
    TOP_MONOID,
    TOP_COMM_MONOID,
    TOP_GROUP,
    TOP_COMM_GROUP,
    TOP_ADD_GROUP,
    TOP_MODULE,
    TOP_RING,
    TOP_COMM_RING,
    TOP_FIELD,
    TOP_ALGEBRA,
    TOP_COMM_ALGEBRA,
    ORDERED_SPACE,
    TOP_ORDERED_FIELD,
    NORMED_MODULE,
    NORMED_ALGEBRA,
    BANACH_SPACE,
    BANACH_ALGEBRA,
];

/// The names of the mixins of a structure.
fn items(alloc: Global, structure: u32) -> Result<Vec<NameId>, AllocError> {
    let mut names = Vec::new(alloc);
    for m in 0..17u16 {
        if (structure >> m) & 1 == 1 {
            names.push(mixin_name(m))?;
        }
    }
    Ok(names)
}

/// Declares the structures in order, but for one that is left out, and answers the first that is refused,
/// with the reason.
fn build(pair: &mut Both, left_out: u32) -> Result<Option<(u32, HierRefused)>, HierRefused> {
    mixins(pair, 17)?;
    for s in &LIBRARY {
        if *s != left_out {
            if let Some(why) = declare(pair, *s)? {
                return Ok(Some((*s, why)));
            }
        }
    }
    Ok(None)
}

/// Declares one structure in both ways, and answers why it was refused, if it was.
fn declare(pair: &mut Both, s: u32) -> Result<Option<HierRefused>, HierRefused> {
    let names = items(pair.alloc, s)?;
    structure(pair, &names)
}

/// The place of a structure in the library, 48 for none.
fn place(structure: u32) -> u16 {
    let mut at: u16 = 0;
    for s in &LIBRARY {
        if *s == structure {
            return at;
        }
        at = at.saturating_add(1);
    }
    at
}

/// Whether the join of two structures is the third.
fn is_join(pair: &Both, a: u32, b: u32, j: u32) -> bool {
    join(&pair.hier, place(a), place(b)) == Some(StructId(place(j)))
}

/// Whether they have none.
fn have_none(pair: &Both, a: u32, b: u32) -> bool {
    join(&pair.hier, place(a), place(b)).is_none()
}

/// Whether the joins of algebraic structures are these.
fn has_algebraic_joins(pair: &Both) -> bool {
    is_join(pair, COMM_SEMIGROUP, MONOID, COMM_MONOID)
        && is_join(pair, MAGMA, ADD_MONOID, SEMIRING)
        && is_join(pair, COMM_MAGMA, ADD_GROUP, COMM_RING)
        && is_join(pair, SEMIRING, MODULE, ALGEBRA)
        && have_none(pair, GROUP, ADD_MONOID)
        && have_none(pair, FIELD, MODULE)
}

/// Whether those of ordered and of topological ones are these.
fn has_mixed_joins(pair: &Both) -> bool {
    is_join(pair, MONOID, POSET, ORDERED_MONOID)
        && is_join(pair, SEMIRING, POSET, ORDERED_RING)
        && is_join(pair, LATTICE, MAGMA, ORDERED_FIELD)
        && is_join(pair, TOP_MONOID, UNIFORM_SPACE, TOP_RING)
        && is_join(pair, BANACH_SPACE, MAGMA, BANACH_ALGEBRA)
        && have_none(pair, TOP_GROUP, UNIFORM_SPACE)
}

/// Whether the whole library is accepted, with these joins.
fn is_accepted(alloc: Global) -> Result<bool, HierRefused> {
    let mut pair = nothing(alloc)?;
    let refused = build(&mut pair, 0)?;
    compare_joins(&mut pair);
    let right = has_algebraic_joins(&pair) && has_mixed_joins(&pair);
    Ok(refused.is_none() && pair.hier.structures() == 48 && pair.different == 0 && right)
}

#[test]
fn a_library_of_algebra_has_its_joins(rt: HostRuntime) -> Result<(), HierRefused> {
    assert!(rt; is_accepted(rt.alloc())?);
    Ok(())
}

/// Whether the library without one structure is refused at the other, since the join of two is missing.
fn is_refused_at(
    alloc: Global,
    left_out: u32,
    at: u32,
    why: HierRefused,
) -> Result<bool, HierRefused> {
    let mut pair = nothing(alloc)?;
    let found = build(&mut pair, left_out)?;
    Ok(pair.different == 0 && found == Some((at, why)))
}

/// Without rings the next heir of magmas and additive groups is that of commutative rings, place 12.
fn misses_rings(alloc: Global) -> Result<bool, HierRefused> {
    let why = HierRefused::MissingJoin(StructId(0), StructId(9), StructId(12));
    is_refused_at(alloc, RING, ALGEBRA, why)
}

/// Without topological additive groups that of additive monoids and spaces is that of topological modules,
/// place 35.
fn misses_topological_groups(alloc: Global) -> Result<bool, HierRefused> {
    let why = HierRefused::MissingJoin(StructId(8), StructId(21), StructId(35));
    is_refused_at(alloc, TOP_ADD_GROUP, TOP_RING, why)
}

#[test]
fn a_join_that_is_left_out_is_missed(rt: HostRuntime) -> Result<(), HierRefused> {
    let alloc = rt.alloc();
    assert!(rt; misses_rings(alloc)? && misses_topological_groups(alloc)?);
    Ok(())
}
