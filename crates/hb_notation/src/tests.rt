//! The list of notations.
use crate::{Notation, Notations, Side};
use hb_base::NameId;
use std::test::*;

#[test]
fn a_level_has_one_side(rt: HostRuntime) -> Result<(), Fail> {
    let mut notations = Notations::new(rt.alloc());
    let left = Notation {
        op: NameId(0),
        name: NameId(1),
        level: 50,
        side: Side::Left,
    };
    let right = Notation {
        op: NameId(2),
        side: Side::Right,
        ..left
    };
    assert!(rt; notations.add(left).is_ok());
    assert!(rt; notations.add(right).is_err());
    assert_eq!(rt; notations.all().len(), 1);
    Ok(())
}
