//! One declaration for each refusal and each kind of ask.
use crate::want::{Kind, Want, accepted, is_outcome, is_refused};
use crate::write::{Form, Line, term};
use hb_base::{Count, Limits, NameId};
use hb_env::Decl;
use std::alloc::{AllocError, Global};
use std::test::*;
use std::vec::Vec;

const PLAIN: Form = Form::Record {
    level: 0,
    params: 0,
};

/// What the declarations below stand on. Each has the names of its place times eight.
const BASE: [Line; 12] = [
    // 0 nat, 1 zero, 2 succ, 3 a property, 4 the property at zero for each number
    Line(Form::Axiom, "T0"),
    Line(Form::Axiom, "c0"),
    Line(Form::Axiom, "> c0 c0"),
    Line(Form::Axiom, "> c0 P"),
    Line(Form::Def, "> c0 P  \\ c0 @ c3 v0"),
    // 5 a point of a type, 6 a type with a point
    Line(
        Form::Record {
            level: 0,
            params: 1,
        },
        "T0  v0",
    ),
    Line(
        Form::Record {
            level: 1,
            params: 0,
        },
        "T0  v0",
    ),
    // 7 zero as a point, 8 the identity
    Line(Form::Def, "@ c5 c0  @ @ m5 c0 c1"),
    Line(Form::Def, "> T0 > v0 v1  \\ T0 \\ v0 v0"),
    // 9 another name of nat, 10 zero in it, 11 a function on it
    Line(Form::Def, "T0  c0"),
    Line(Form::Def, "c9  c1"),
    Line(Form::Axiom, "> c9 c0"),
];

/// A number of a name that is free.
const FREE: u16 = 1000;

/// The same limits with another number of steps, of nodes, or another depth.
const NO_STEP: Limits = Limits {
    steps: 0,
    nodes: 1_000,
    depth: 100,
};

const TWO_NODES: Limits = Limits {
    steps: 1_000,
    nodes: 2,
    depth: 100,
};

const FLAT: Limits = Limits {
    steps: 1_000,
    nodes: 1_000,
    depth: 1,
};

/// A declaration whose first name has this number, under limits, and its refusal.
struct Row(u16, Line, Limits, Want);

const BEFORE_THE_ASKS: [Row; 17] = [
    // the name of nat; the maker's name of the first record, also where nothing else is right
    Row(
        0,
        Line(Form::Axiom, "T0"),
        Limits::DEFAULT,
        Want(Kind::Redeclared(0), 0, &[]),
    ),
    Row(
        40,
        Line(Form::Axiom, "c99"),
        TWO_NODES,
        Want(Kind::Redeclared(40), 0, &[]),
    ),
    Row(
        39,
        Line(PLAIN, "c99"),
        Limits::DEFAULT,
        Want(Kind::Redeclared(40), 0, &[]),
    ),
    // a variable, a constant, a maker, a record, a field that is not declared, and a hole
    Row(
        FREE,
        Line(Form::Axiom, "v0"),
        Limits::DEFAULT,
        Want(Kind::Unscoped, 0, &[]),
    ),
    Row(
        FREE,
        Line(Form::Axiom, "> c0 v1"),
        Limits::DEFAULT,
        Want(Kind::Unscoped, 0, &[]),
    ),
    Row(
        FREE,
        Line(Form::Axiom, "c12"),
        Limits::DEFAULT,
        Want(Kind::Unscoped, 0, &[]),
    ),
    Row(
        FREE,
        Line(Form::Axiom, "m0"),
        Limits::DEFAULT,
        Want(Kind::Unscoped, 0, &[]),
    ),
    Row(
        FREE,
        Line(Form::Axiom, "p0.0 c7"),
        Limits::DEFAULT,
        Want(Kind::Unscoped, 0, &[]),
    ),
    Row(
        FREE,
        Line(Form::Axiom, "p5.1 c7"),
        Limits::DEFAULT,
        Want(Kind::Unscoped, 0, &[]),
    ),
    Row(
        FREE,
        Line(Form::Axiom, "> c0 ?"),
        Limits::DEFAULT,
        Want(Kind::Unscoped, 0, &[]),
    ),
    // in a body, in a field that names itself, and in a term that is too large or without a type
    Row(
        FREE,
        Line(Form::Def, "c0  v0"),
        Limits::DEFAULT,
        Want(Kind::Unscoped, 0, &[]),
    ),
    Row(
        FREE,
        Line(PLAIN, "T0  v1"),
        Limits::DEFAULT,
        Want(Kind::Unscoped, 0, &[]),
    ),
    Row(
        FREE,
        Line(Form::Def, "> c1 c1  c12"),
        TWO_NODES,
        Want(Kind::Unscoped, 0, &[]),
    ),
    // the first term that is too large, before an ask that fails
    Row(
        FREE,
        Line(Form::Axiom, "> c1 c1"),
        TWO_NODES,
        Want(Kind::Spent, 0, &["> c1 c1"]),
    ),
    Row(
        FREE,
        Line(Form::Axiom, "@ c2 c1"),
        FLAT,
        Want(Kind::Spent, 0, &["@ c2 c1"]),
    ),
    Row(
        FREE,
        Line(Form::Def, "c1  @ c2 c1"),
        TWO_NODES,
        Want(Kind::Spent, 0, &["@ c2 c1"]),
    ),
    Row(
        FREE,
        Line(
            Form::Record {
                level: 0,
                params: 1,
            },
            "c1  P  > v0 v2  > c0 c0",
        ),
        TWO_NODES,
        Want(Kind::Spent, 2, &["> v0 v2"]),
    ),
];

const ASKS: [Row; 29] = [
    // a form: the type of a type is no sort, and is kept as its weak head form
    Row(
        FREE,
        Line(Form::Axiom, "c1"),
        Limits::DEFAULT,
        Want(Kind::NotSort, 0, &["c0"]),
    ),
    Row(
        FREE,
        Line(Form::Axiom, "c10"),
        Limits::DEFAULT,
        Want(Kind::NotSort, 0, &["c0"]),
    ),
    Row(
        FREE,
        Line(Form::Axiom, "> c1 P"),
        Limits::DEFAULT,
        Want(Kind::NotSort, 0, &["c0"]),
    ),
    Row(
        FREE,
        Line(Form::Axiom, "> c0 v0"),
        Limits::DEFAULT,
        Want(Kind::NotSort, 1, &["c0"]),
    ),
    Row(
        FREE,
        Line(Form::Axiom, "c10"),
        NO_STEP,
        Want(Kind::Spent, 0, &["c9"]),
    ),
    // what is applied is no function; its form is asked before anything of the argument
    Row(
        FREE,
        Line(Form::Axiom, "@ c1 c1"),
        Limits::DEFAULT,
        Want(Kind::NotFunction, 0, &["c0"]),
    ),
    Row(
        FREE,
        Line(Form::Axiom, "@ c10 c1"),
        Limits::DEFAULT,
        Want(Kind::NotFunction, 0, &["c0"]),
    ),
    Row(
        FREE,
        Line(Form::Axiom, "@ @ c3 c1 @ c1 c1"),
        Limits::DEFAULT,
        Want(Kind::NotFunction, 0, &["P"]),
    ),
    Row(
        FREE,
        Line(Form::Def, "> c0 c0  \\ c0 @ v0 v0"),
        Limits::DEFAULT,
        Want(Kind::NotFunction, 1, &["c0"]),
    ),
    // what is projected is no record, or another one
    Row(
        FREE,
        Line(Form::Axiom, "p5.0 c1"),
        Limits::DEFAULT,
        Want(Kind::NotRecord, 0, &["c0"]),
    ),
    Row(
        FREE,
        Line(Form::Axiom, "p6.0 c7"),
        Limits::DEFAULT,
        Want(Kind::NotRecord, 0, &["@ c5 c0"]),
    ),
    Row(
        FREE,
        Line(Form::Axiom, "p5.0 @ m5 c0"),
        Limits::DEFAULT,
        Want(Kind::NotRecord, 0, &["> c0 @ c5 c0"]),
    ),
    // an argument against the domain, with the normal forms of both
    Row(
        FREE,
        Line(Form::Axiom, "@ c3 c3"),
        Limits::DEFAULT,
        Want(Kind::NotConvertible, 0, &["> c0 P", "c0"]),
    ),
    Row(
        FREE,
        Line(Form::Axiom, "@ c11 c3"),
        Limits::DEFAULT,
        Want(Kind::NotConvertible, 0, &["> c0 P", "c0"]),
    ),
    Row(
        FREE,
        Line(Form::Axiom, "@ c11 c3"),
        NO_STEP,
        Want(Kind::Spent, 0, &["c9"]),
    ),
    Row(
        FREE,
        Line(Form::Axiom, "> c0 @ c3 c3"),
        Limits::DEFAULT,
        Want(Kind::NotConvertible, 1, &["> c0 P", "c0"]),
    ),
    // the type of a definition is asked before its body, and then compared with that of the body
    Row(
        FREE,
        Line(Form::Def, "c1  @ c1 c1"),
        Limits::DEFAULT,
        Want(Kind::NotSort, 0, &["c0"]),
    ),
    Row(
        FREE,
        Line(Form::Def, "c0  @ @ c3 c1 c1"),
        Limits::DEFAULT,
        Want(Kind::NotFunction, 0, &["P"]),
    ),
    Row(
        FREE,
        Line(Form::Def, "c0  c3"),
        Limits::DEFAULT,
        Want(Kind::NotConvertible, 0, &["> c0 P", "c0"]),
    ),
    Row(
        FREE,
        Line(Form::Def, "c9  c3"),
        Limits::DEFAULT,
        Want(Kind::NotConvertible, 0, &["> c0 P", "c0"]),
    ),
    Row(
        FREE,
        Line(Form::Def, "P  c0"),
        Limits::DEFAULT,
        Want(Kind::NotConvertible, 0, &["T0", "P"]),
    ),
    // a parameter, a field under it, and a second field that names the first
    Row(
        FREE,
        Line(
            Form::Record {
                level: 0,
                params: 1,
            },
            "c1  P",
        ),
        Limits::DEFAULT,
        Want(Kind::NotSort, 0, &["c0"]),
    ),
    Row(
        FREE,
        Line(
            Form::Record {
                level: 0,
                params: 1,
            },
            "T0  c1",
        ),
        Limits::DEFAULT,
        Want(Kind::NotSort, 1, &["c0"]),
    ),
    Row(
        FREE,
        Line(PLAIN, "c0  v0"),
        Limits::DEFAULT,
        Want(Kind::NotSort, 1, &["c0"]),
    ),
    // the level: one too small, one too great, and one without fields
    Row(
        FREE,
        Line(PLAIN, "T0"),
        Limits::DEFAULT,
        Want(Kind::NotConvertible, 0, &["T1", "T0"]),
    ),
    Row(
        FREE,
        Line(
            Form::Record {
                level: 1,
                params: 0,
            },
            "c0  @ c3 v0",
        ),
        Limits::DEFAULT,
        Want(Kind::NotConvertible, 0, &["T0", "T1"]),
    ),
    Row(
        FREE,
        Line(
            Form::Record {
                level: 1,
                params: 0,
            },
            "",
        ),
        Limits::DEFAULT,
        Want(Kind::NotConvertible, 0, &["T0", "T1"]),
    ),
    // no sort is above the last level
    Row(
        FREE,
        Line(Form::Axiom, "T63"),
        Limits::DEFAULT,
        Want(Kind::LevelTooHigh, 0, &[]),
    ),
    Row(
        FREE,
        Line(Form::Def, "T0  > c0 T64"),
        Limits::DEFAULT,
        Want(Kind::LevelTooHigh, 0, &[]),
    ),
];

#[test]
fn what_goes_before_the_asks_is_refused(rt: HostRuntime) -> Result<(), Fail> {
    let alloc = rt.alloc();
    let mut theory = accepted(alloc, &BASE).map_err(|_e| "refused")?;
    for Row(name, line, limits, want) in &BEFORE_THE_ASKS {
        let right = is_refused(alloc, &mut theory, *name, *line, limits, *want)?;
        assert!(rt; right);
    }
    Ok(())
}

#[test]
fn each_ask_is_refused(rt: HostRuntime) -> Result<(), Fail> {
    let alloc = rt.alloc();
    let mut theory = accepted(alloc, &BASE).map_err(|_e| "refused")?;
    for Row(name, line, limits, want) in &ASKS {
        let right = is_refused(alloc, &mut theory, *name, *line, limits, *want)?;
        assert!(rt; right);
    }
    Ok(())
}

/// A record of so many fields of the type, of level 0.
fn wide(alloc: Global, ty: &str, count: u16) -> Result<Decl, AllocError> {
    let mut fields = Vec::new(alloc);
    for at in 0..count {
        fields.push((
            NameId(FREE.saturating_add(2).saturating_add(at)),
            term(alloc, ty)?,
        ))?;
    }
    Ok(Decl::Record {
        name: NameId(FREE),
        maker: NameId(FREE + 1),
        params: Vec::new(alloc),
        level: 0,
        fields,
    })
}

#[test]
fn a_count_is_asked_last(rt: HostRuntime) -> Result<(), Fail> {
    let alloc = rt.alloc();
    let mut theory = accepted(alloc, &BASE).map_err(|_e| "refused")?;
    let many = theory.add(wide(alloc, "c0", 256)?, &Limits::DEFAULT);
    assert!(rt; is_outcome(alloc, &many, Want(Kind::TooMany(Count::Fields), 0, &[]))?);
    let ill = theory.add(wide(alloc, "T0", 256)?, &Limits::DEFAULT);
    assert!(rt; is_outcome(alloc, &ill, Want(Kind::NotConvertible, 0, &["T1", "T0"]))?);
    assert!(rt;
        theory
            .add(wide(alloc, "c0", 255)?, &Limits::DEFAULT)
            .is_ok()
    );
    Ok(())
}
