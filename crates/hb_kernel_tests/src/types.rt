//! The environment of a theory.
use crate::want::{accepted, name_at};
use crate::write::{Form, Line, declaration, scoped};
use hb_base::Limits;
use hb_convert::{Verdict, convertible};
use std::test::*;

/// A point of a type; a type as a record; a value of that record.
const LINES: [Line; 3] = [
    Line(
        Form::Record {
            level: 0,
            params: 1,
        },
        "T0  v0",
    ),
    Line(
        Form::Record {
            level: 1,
            params: 0,
        },
        "T0",
    ),
    Line(Form::Axiom, "c1"),
];

#[test]
fn a_rebuilt_record_is_the_record(rt: HostRuntime) -> Result<(), Fail> {
    let alloc = rt.alloc();
    let theory = accepted(alloc, &LINES).map_err(|_e| "refused")?;
    let built = scoped(alloc, "@ m1 p1.0 c2", 0)?;
    let value = scoped(alloc, "c2", 0)?;
    let verdict = convertible(alloc, theory.env(), &built, &value, &Limits::DEFAULT);
    assert!(rt; matches!(verdict, Ok(Verdict::Yes)));
    Ok(())
}

#[test]
fn a_cut_theory_goes_on(rt: HostRuntime) -> Result<(), Fail> {
    let alloc = rt.alloc();
    let mut theory = accepted(alloc, &LINES).map_err(|_e| "refused")?;
    if theory.env().len() == 3 {
        theory.cut(1);
    }
    assert_eq!(rt; theory.env().len(), 1);
    let again = declaration(alloc, name_at(1), LINES[1])?;
    assert!(rt; theory.add(again, &Limits::DEFAULT).is_ok());
    Ok(())
}
