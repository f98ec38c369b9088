use crate::looks_convertible;
use hb_base::Limits;
use hb_env::Env;
use hb_term::{Scoped, Sort, Term};
use std::alloc::{AllocError, Global};
use std::test::*;

/// `(fun _ : Prop => _0) Prop`.
fn redex(alloc: Global) -> Result<Scoped, AllocError> {
    let same = Term::lam(alloc, Term::Sort(Sort::Prop), Term::Rel(0))?;
    Scoped::new(Term::app(alloc, same, Term::Sort(Sort::Prop))?, 0).ok_or(AllocError)
}

#[test]
fn a_redex_looks_like_its_reduct(rt: HostRuntime) -> Result<(), Fail> {
    let alloc = rt.alloc();
    let env = Env::new(alloc)?;
    let first = redex(alloc)?;
    let second = Scoped::new(Term::Sort(Sort::Prop), 0).ok_or("scoped")?;
    let found = looks_convertible(alloc, &env, &first, &second, &Limits::DEFAULT)?;
    assert!(rt; found);
    Ok(())
}
