//! A small library in the style of packed classes, and changes to it that are refused.
use crate::want::{Kind, Want, accepted, is_refused, name_at};
use crate::write::{Form, Line};
use hb_base::Limits;
use std::test::*;

const MIXIN: Form = Form::Record {
    level: 0,
    params: 1,
};

const MIXIN_OVER_1: Form = Form::Record {
    level: 0,
    params: 2,
};

const MIXIN_OVER_2: Form = Form::Record {
    level: 0,
    params: 3,
};

const PACKED: Form = Form::Record {
    level: 1,
    params: 0,
};

/// Equality; the classes of magmas, semigroups, pointed types and monoids, each a mixin, a record of its
/// mixins and a packed record, with their operations and coercions; and natural numbers.
const LIBRARY: [Line; 30] = [
    // 0 eq, 1 refl
    Line(
        Form::Def,
        "> T0 > v0 > v1 P  \\ T0 \\ v0 \\ v1 > > v2 P > @ v0 v2 @ v1 v2",
    ),
    Line(
        Form::Def,
        "> T0 > v0 @ @ @ c0 v1 v0 v0  \\ T0 \\ v0 \\ > v1 P \\ @ v0 v1 v0",
    ),
    // 2 IsMag, 3 its class, 4 its structure, 5 op
    Line(MIXIN, "T0  > v0 > v1 v2"),
    Line(MIXIN, "T0  @ c2 v0"),
    Line(PACKED, "T0  @ c3 v0"),
    Line(
        Form::Def,
        "> c4 > p4.0 v0 > p4.0 v1 p4.0 v2  \\ c4 p2.0 p3.0 p4.1 v0",
    ),
    // 6 IsSemigroup over a magma, 7 its class, 8 its structure
    Line(
        MIXIN_OVER_1,
        "T0 @ c2 v0  > v1 > v2 > v3 @ @ @ c0 v4 @ @ p2.0 v3 v2 @ @ p2.0 v3 v1 v0 @ @ p2.0 v3 @ @ p2.0 v3 v2 v1 v0",
    ),
    Line(MIXIN, "T0  @ c2 v0  @ @ c6 v1 v0"),
    Line(PACKED, "T0  @ c7 v0"),
    // 9 from semigroups to magmas, 10 associativity by the operation of magmas
    Line(
        Form::Def,
        "> c8 c4  \\ c8 @ @ m4 p8.0 v0 @ @ m3 p8.0 v0 p7.0 p8.1 v0",
    ),
    Line(
        Form::Def,
        "> c8 > p8.0 v0 > p8.0 v1 > p8.0 v2 @ @ @ c0 p8.0 v3 @ @ @ c5 @ c9 v3 v2 @ @ @ c5 @ c9 v3 v1 v0 @ @ @ c5 @ c9 v3 @ @ @ c5 @ c9 v3 v2 v1 v0  \\ c8 p6.0 p7.1 p8.1 v0",
    ),
    // 11 IsPt, 12 its class, 13 its structure, 14 pt
    Line(MIXIN, "T0  v0"),
    Line(MIXIN, "T0  @ c11 v0"),
    Line(PACKED, "T0  @ c12 v0"),
    Line(Form::Def, "> c13 p13.0 v0  \\ c13 p11.0 p12.0 p13.1 v0"),
    // 15 IsMonoid over a magma and a point, 16 its class, 17 its structure
    Line(
        MIXIN_OVER_2,
        "T0 @ c2 v0 @ c11 v1  > v2 @ @ @ c0 v3 @ @ p2.0 v2 p11.0 v1 v0 v0  > v3 @ @ @ c0 v4 @ @ p2.0 v3 v0 p11.0 v2 v0",
    ),
    Line(
        MIXIN,
        "T0  @ c2 v0  @ @ c6 v1 v0  @ c11 v2  @ @ @ c15 v3 v2 v0",
    ),
    Line(PACKED, "T0  @ c16 v0"),
    // 18 from monoids to semigroups, 19 to pointed types, 20 to magmas
    Line(
        Form::Def,
        "> c17 c8  \\ c17 @ @ m8 p17.0 v0 @ @ @ m7 p17.0 v0 p16.0 p17.1 v0 p16.1 p17.1 v0",
    ),
    Line(
        Form::Def,
        "> c17 c13  \\ c17 @ @ m13 p17.0 v0 @ @ m12 p17.0 v0 p16.2 p17.1 v0",
    ),
    Line(
        Form::Def,
        "> c17 c4  \\ c17 @ @ m4 p17.0 v0 @ @ m3 p17.0 v0 p16.0 p17.1 v0",
    ),
    // 21 nat, 22 zero, 23 add, 24 its associativity
    Line(Form::Axiom, "T0"),
    Line(Form::Axiom, "c21"),
    Line(Form::Axiom, "> c21 > c21 c21"),
    Line(
        Form::Axiom,
        "> c21 > c21 > c21 @ @ @ c0 c21 @ @ c23 v2 @ @ c23 v1 v0 @ @ c23 @ @ c23 v2 v1 v0",
    ),
    // 25 nat as a magma, 26 as a semigroup, 27 and 28 packed, 29 zero by way of the structures
    Line(Form::Def, "@ c2 c21  @ @ m2 c21 c23"),
    Line(Form::Def, "@ @ c6 c21 c25  @ @ @ m6 c21 c25 c24"),
    Line(Form::Def, "c4  @ @ m4 c21 @ @ m3 c21 c25"),
    Line(Form::Def, "c8  @ @ m8 c21 @ @ @ m7 c21 c25 c26"),
    Line(Form::Def, "p4.0 @ c9 c28  c22"),
];

/// A changed line in the place of another, and its refusal.
struct Change(usize, Line, Want);

const CHANGES: [Change; 10] = [
    // the proof of reflexivity hands on the property and not its proof
    Change(
        1,
        Line(
            Form::Def,
            "> T0 > v0 @ @ @ c0 v1 v0 v0  \\ T0 \\ v0 \\ > v1 P \\ @ v0 v1 v1",
        ),
        Want(
            Kind::NotConvertible,
            0,
            &[
                "> T0 > v0 > > v1 P > @ v0 v1 > v3 P",
                "> T0 > v0 > > v1 P > @ v0 v1 @ v1 v2",
            ],
        ),
    ),
    // a level one above the least, and one below
    Change(
        2,
        Line(
            Form::Record {
                level: 1,
                params: 1,
            },
            "T0  > v0 > v1 v2",
        ),
        Want(Kind::NotConvertible, 0, &["T0", "T1"]),
    ),
    Change(
        4,
        Line(
            Form::Record {
                level: 0,
                params: 0,
            },
            "T0  @ c3 v0",
        ),
        Want(Kind::NotConvertible, 0, &["T1", "T0"]),
    ),
    // the class is not applied to the carrier
    Change(
        4,
        Line(PACKED, "T0  c3"),
        Want(Kind::NotSort, 1, &["> T0 T0"]),
    ),
    // the operation of the class and not of its mixin
    Change(
        5,
        Line(
            Form::Def,
            "> c4 > p4.0 v0 > p4.0 v1 p4.0 v2  \\ c4 p2.0 p4.1 v0",
        ),
        Want(Kind::NotRecord, 1, &["@ c3 p4.0 v0"]),
    ),
    // no magma: its operation is asked of the carrier
    Change(
        6,
        Line(
            MIXIN,
            "T0  > v0 > v1 > v2 @ @ @ c0 v3 @ @ p2.0 v3 v2 @ @ p2.0 v3 v1 v0 v0",
        ),
        Want(Kind::NotRecord, 4, &["T0"]),
    ),
    // the class of semigroups for that of magmas
    Change(
        9,
        Line(Form::Def, "> c8 c4  \\ c8 @ @ m4 p8.0 v0 p8.1 v0"),
        Want(Kind::NotConvertible, 1, &["@ c7 p8.0 v0", "@ c3 p8.0 v0"]),
    ),
    // two mixins exchanged
    Change(
        16,
        Line(
            MIXIN,
            "T0  @ c2 v0  @ @ c6 v1 v0  @ c11 v2  @ @ @ c15 v3 v0 v2",
        ),
        Want(Kind::NotConvertible, 4, &["@ c11 v3", "@ c2 v3"]),
    ),
    // zero for the operation
    Change(
        25,
        Line(Form::Def, "@ c2 c21  @ @ m2 c21 c22"),
        Want(Kind::NotConvertible, 0, &["c21", "> c21 > c21 c21"]),
    ),
    // the operation for its associativity, whose wanted type is kept in normal form
    Change(
        26,
        Line(Form::Def, "@ @ c6 c21 c25  @ @ @ m6 c21 c25 c23"),
        Want(
            Kind::NotConvertible,
            0,
            &[
                "> c21 > c21 c21",
                "> c21 > c21 > c21 > > c21 P > @ v0 @ @ c23 v3 @ @ c23 v2 v1 @ v1 @ @ c23 @ @ c23 v4 v3 v2",
            ],
        ),
    ),
];

#[test]
fn the_library_is_accepted(rt: HostRuntime) -> Result<(), Fail> {
    let theory = accepted(rt.alloc(), &LIBRARY).map_err(|_e| "refused")?;
    assert_eq!(rt; theory.env().len(), 30);
    Ok(())
}

#[test]
fn each_change_is_refused(rt: HostRuntime) -> Result<(), Fail> {
    let alloc = rt.alloc();
    for Change(place, line, want) in &CHANGES {
        let mut theory = accepted(alloc, LIBRARY.get(..*place).ok_or("place")?).map_err(
            |_e| "refused",
        )?;
        let right = is_refused(
            alloc,
            &mut theory,
            name_at(*place),
            *line,
            &Limits::DEFAULT,
            *want,
        )?;
        assert!(rt; right);
    }
    Ok(())
}
