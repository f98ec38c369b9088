//! Instances at a few carriers, worked out by hand.
use crate::Givings;
use hb_order::{MixinId, StructId};
use hb_sets::MixSet;
use hb_tree::ConstId;
use std::alloc::AllocError;

/// Adds an instance that asks one structure.
fn add(g: &mut Givings, carrier: ConstId, s: u16, gives: &MixSet) -> Result<(), AllocError> {
    if g.len() == u32::MAX {
        return Ok(());
    }
    g.push(carrier, &[Some(StructId(s))], gives.copy())
}

/// The structure that was asked of the first argument where the mixin was given.
fn asked(g: &Givings, carrier: ConstId, m: u16) -> Option<u16> {
    match g.condition(carrier, MixinId(m)).first() {
        Some(Some(s)) => Some(s.0),
        _ => None,
    }
}

/// A constant, or with `maker` the constructor of its record.
fn constant(decl: u32, maker: bool) -> ConstId {
    ConstId { decl, maker }
}

#[test]
fn the_first_instance_of_a_mixin_is_its_condition(rt: HostRuntime) -> Result<(), AllocError> {
    let mut g = Givings::new(rt.alloc())?;
    let group = constant(7, false);
    let maker = constant(7, true);
    let two = MixSet::empty().with(2);
    let four = two.with(4);
    add(&mut g, group, 0, &two)?;
    add(&mut g, maker, 1, &two)?;
    add(&mut g, group, 3, &four)?;
    assert_eq!(rt; g.carriers().len(), 2);
    assert!(rt; g.given(group).same(&four));
    assert!(rt; g.given(maker).same(&two));
    assert_eq!(rt; asked(&g, group, 2), Some(0));
    assert_eq!(rt; asked(&g, group, 4), Some(3));
    assert_eq!(rt; asked(&g, maker, 2), Some(1));
    assert_eq!(rt; asked(&g, maker, 4), None);
    Ok(())
}

#[test]
fn cut_goes_back_to_what_was(rt: HostRuntime) -> Result<(), AllocError> {
    let mut g = Givings::new(rt.alloc())?;
    let ring = constant(8, false);
    let two = MixSet::empty().with(2);
    let four = two.with(4);
    add(&mut g, ring, 0, &two)?;
    add(&mut g, ring, 1, &four)?;
    g.cut(1);
    assert_eq!(rt; g.len(), 1);
    assert!(rt; g.given(ring).same(&two));
    assert_eq!(rt; asked(&g, ring, 4), None);
    g.cut(0);
    assert_eq!(rt; g.binders(ring), None);
    assert_eq!(rt; g.carriers().len(), 0);
    add(&mut g, ring, 5, &two)?;
    assert_eq!(rt; asked(&g, ring, 2), Some(5));
    Ok(())
}

#[test]
fn the_first_instance_counts_the_binders(rt: HostRuntime) -> Result<(), AllocError> {
    let mut g = Givings::new(rt.alloc())?;
    let ring = constant(8, false);
    g.push(ring, &[None, Some(StructId(2))], MixSet::empty())?;
    add(&mut g, ring, 1, &MixSet::empty())?;
    assert_eq!(rt; g.binders(ring), Some(2));
    assert_eq!(rt; g.binders(constant(8, true)), None);
    Ok(())
}
