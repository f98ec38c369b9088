use crate::{Verdict, below, convertible};
use hb_base::Limits;
use hb_env::Env;
use hb_term::{Scoped, Sort, Term};
use std::alloc::{AllocError, Global};
use std::test::*;

/// `fun _ : Prop => _1 _0` in a scope of one variable.
fn expanded(alloc: Global) -> Result<Scoped, AllocError> {
    let applied = Term::app(alloc, Term::Rel(1), Term::Rel(0))?;
    Scoped::new(Term::lam(alloc, Term::Sort(Sort::Prop), applied)?, 1).ok_or(AllocError)
}

#[test]
fn a_function_is_its_eta_form(rt: HostRuntime) -> Result<(), Fail> {
    let alloc = rt.alloc();
    let env = Env::new(alloc)?;
    let long = expanded(alloc)?;
    let short = Scoped::new(Term::Rel(0), 1).ok_or("scoped")?;
    let verdict = convertible(alloc, &env, &long, &short, &Limits::DEFAULT);
    assert!(rt; matches!(verdict, Ok(Verdict::Yes)));
    Ok(())
}

#[test]
fn prop_is_below_types(rt: HostRuntime) -> Result<(), Fail> {
    let alloc = rt.alloc();
    let env = Env::new(alloc)?;
    let prop = Scoped::new(Term::Sort(Sort::Prop), 0).ok_or("scoped")?;
    let five = Scoped::new(Term::Sort(Sort::Level(5)), 0).ok_or("scoped")?;
    let up = below(alloc, &env, &prop, &five, &Limits::DEFAULT);
    assert!(rt; matches!(up, Ok(Verdict::Yes)));
    let down = below(alloc, &env, &five, &prop, &Limits::DEFAULT);
    assert!(rt; matches!(down, Ok(Verdict::No)));
    Ok(())
}
