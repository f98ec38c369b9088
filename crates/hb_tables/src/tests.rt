//! Coercions, a path and two instances, worked out by hand.
use crate::Tables;
use hb_order::StructId;
use hb_term::Term;
use hb_tree::ConstId;
use std::alloc::{AllocError, Global};

/// The constant declared at the place, or the maker of the record declared there.
fn constant(decl: u32, maker: bool) -> ConstId {
    ConstId { decl, maker }
}

/// The place of a constant, 0 for none.
fn place(c: Option<ConstId>) -> u32 {
    match c {
        Some(c) => c.decl,
        None => 0,
    }
}

/// Adds a coercion, if there is none yet.
fn coerce(t: &mut Tables, a: u16, b: u16, c: u32) -> Result<(), AllocError> {
    let (a, b) = (StructId(a), StructId(b));
    if t.mark().coercions < u32::MAX && t.coercion(a, b).is_none() {
        t.add_coercion(a, b, constant(c, false))?;
    }
    Ok(())
}

/// The place of the coercion, 0 for none.
fn coercion(t: &Tables, a: u16, b: u16) -> u32 {
    place(t.coercion(StructId(a), StructId(b)))
}

/// The constant that the path is, 0 where there is none.
fn path(t: &Tables, a: u16, b: u16) -> Result<u32, AllocError> {
    match t.path(StructId(a), StructId(b))? {
        Some(Term::Const(c)) => Ok(c.decl),
        Some(_other) => Ok(1),
        None => Ok(0),
    }
}

/// Whether the coercion from 1 to 2 is there, that back isn't, and the path says the same.
fn is_directed(t: &Tables) -> Result<bool, AllocError> {
    let coerced = coercion(t, 1, 2) == 70 && coercion(t, 2, 1) == 0;
    Ok(coerced && path(t, 1, 2)? == 70 && path(t, 2, 1)? == 0)
}

/// Adds a coercion from 1 to 2, and undoes a second one.
fn directed(alloc: Global) -> Result<bool, AllocError> {
    let mut t = Tables::new(alloc)?;
    coerce(&mut t, 1, 2, 70)?;
    let mark = t.mark();
    coerce(&mut t, 2, 1, 71)?;
    t.undo(mark);
    is_directed(&t)
}

#[test]
fn coercions_and_paths_have_a_direction(rt: HostRuntime) -> Result<(), AllocError> {
    assert!(rt; directed(rt.alloc())?);
    Ok(())
}

/// Adds an instance of structure 4, if there is none yet.
fn instance(t: &mut Tables, carrier: ConstId, c: u32) -> Result<(), AllocError> {
    if t.mark().entries < u32::MAX && t.entry(StructId(4), carrier).is_none() {
        t.add_entry(StructId(4), carrier, constant(c, false))?;
    }
    Ok(())
}

/// Gives instances to a constant and to a maker of the same number.
fn distinct(alloc: Global) -> Result<bool, AllocError> {
    let mut t = Tables::new(alloc)?;
    instance(&mut t, constant(9, false), 80)?;
    instance(&mut t, constant(9, true), 81)?;
    let first = place(t.entry(StructId(4), constant(9, false)));
    let second = place(t.entry(StructId(4), constant(9, true)));
    Ok(first == 80 && second == 81)
}

#[test]
fn a_maker_and_a_constant_are_two_carriers(rt: HostRuntime) -> Result<(), AllocError> {
    assert!(rt; distinct(rt.alloc())?);
    Ok(())
}
