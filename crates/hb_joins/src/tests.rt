//! Small hierarchies that were worked out by hand.
use crate::Joins;
use hb_order::{MixinId, StructId};
use hb_sets::MixSet;
use std::alloc::{AllocError, Global};

/// The set of the mixins.
fn set_of(mixins: &[u16]) -> MixSet {
    let mut set = MixSet::empty();
    for m in mixins {
        if *m < 1024 {
            set = set.with(*m);
        }
    }
    set
}

/// Declares a structure with the mixins, where it is allowed, and answers whether it is.
fn add(j: &mut Joins, mixins: &[u16]) -> Result<bool, AllocError> {
    let set = set_of(mixins);
    if j.len() == 1024 || !j.allows(&set) {
        return Ok(false);
    }
    j.add(set)?;
    Ok(true)
}

/// The number of the join. None where there is none.
fn join(j: &Joins, a: u16, b: u16) -> Option<u16> {
    if a < j.len() && b < j.len() {
        j.join_of(StructId(a), StructId(b)).map(|s| s.0)
    } else {
        None
    }
}

/// Structures 0 {0}, 1 {0, 1}, 2 {0, 2} and 3 {0, 1, 2}.
fn diamond(alloc: Global) -> Result<Joins, AllocError> {
    let mut j = Joins::new(alloc)?;
    add(&mut j, &[0])?;
    add(&mut j, &[0, 1])?;
    add(&mut j, &[0, 2])?;
    add(&mut j, &[0, 1, 2])?;
    Ok(j)
}

#[test]
fn the_top_of_a_diamond_is_the_join(rt: HostRuntime) -> Result<(), AllocError> {
    let j = diamond(rt.alloc())?;
    assert_eq!(rt; j.len(), 4);
    for (a, b, want) in [
        (1, 2, Some(3)),
        (2, 1, Some(3)),
        (0, 2, Some(2)),
        (3, 0, Some(3)),
        (1, 1, Some(1)),
    ] {
        assert_eq!(rt; join(&j, a, b), want, "of {a} and {b}");
    }
    if j.len() == 4 {
        assert!(rt; j.heir(StructId(3), StructId(1)));
        assert!(rt; !j.heir(StructId(2), StructId(1)));
        assert!(rt; j.set(StructId(2)).same(&set_of(&[2, 0])));
    }
    Ok(())
}

#[test]
fn a_mixin_is_held_by_those_that_have_it(rt: HostRuntime) -> Result<(), AllocError> {
    let j = diamond(rt.alloc())?;
    for (m, want) in [(0, &[0, 1, 2, 3][..]), (1, &[1, 3]), (2, &[2, 3]), (3, &[])] {
        let holders = j.structures_with(MixinId(m));
        assert_eq!(rt; holders.len(), want.len());
        for (s, n) in holders.iter().zip(want) {
            assert_eq!(rt; s.0, *n, "at {m}");
        }
    }
    Ok(())
}

#[test]
fn a_set_that_misses_a_join_is_found(rt: HostRuntime) -> Result<(), AllocError> {
    let mut j = diamond(rt.alloc())?;
    let misses = set_of(&[0, 1, 2, 5]);
    assert!(rt; j.allows(&misses));
    assert_eq!(rt; j.first_missing(&misses), None);
    assert!(rt; add(&mut j, &[3])?);
    assert!(rt; add(&mut j, &[0, 1, 3, 4])?);
    assert_eq!(rt;
        j.first_missing(&set_of(&[0, 1, 3, 6])),
        Some((StructId(0), StructId(4), StructId(5)))
    );
    assert_eq!(rt; j.first_same(&set_of(&[0, 2])), Some(StructId(2)));
    assert_eq!(rt; j.first_above(&set_of(&[1])), Some(StructId(1)));
    assert_eq!(rt; j.first_above(&misses), None);
    assert!(rt; !j.allows(&set_of(&[])));
    Ok(())
}

#[test]
fn what_is_cut_can_be_added_in_another_way(rt: HostRuntime) -> Result<(), AllocError> {
    let mut j = diamond(rt.alloc())?;
    j.cut(3);
    assert_eq!(rt; j.len(), 3);
    assert_eq!(rt; join(&j, 1, 2), None);
    assert_eq!(rt; join(&j, 0, 2), Some(2));
    assert_eq!(rt; j.structures_with(MixinId(1)).len(), 1);
    assert!(rt; add(&mut j, &[7])?);
    assert!(rt; add(&mut j, &[0, 1, 2, 8])?);
    assert_eq!(rt; join(&j, 2, 1), Some(4));
    assert_eq!(rt; join(&j, 3, 1), None);
    assert_eq!(rt; j.structures_with(MixinId(1)).last(), Some(&StructId(4)));
    Ok(())
}

#[test]
fn the_joins_of_a_chain_are_the_later_ones(rt: HostRuntime) -> Result<(), AllocError> {
    let mut j = Joins::new(rt.alloc())?;
    let mut set = MixSet::empty();
    for n in 0..100 {
        set = set.with(n);
        if j.len() < 1024 && j.allows(&set) {
            j.add(set.copy())?;
        }
    }
    assert_eq!(rt; j.len(), 100);
    assert_eq!(rt; join(&j, 17, 80), Some(80));
    assert_eq!(rt; join(&j, 99, 0), Some(99));
    assert_eq!(rt; j.structures_with(MixinId(90)).len(), 10);
    Ok(())
}
