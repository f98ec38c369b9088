//! Conversion and cumulativity, and what they find with no normal form.
use super::terms::{closed, field, limits, repeated};
use crate::{COUPLE, DOUBLE, NATURAL, NEXT, ONE, SAME, World, ZERO, constant, maker};
use hb_base::Limits;
use hb_convert::{Verdict, below, convertible};
use hb_env::Env;
use hb_reduce::{ReduceRefused, nf};
use hb_term::{ConstId, Scoped, Sort, Term};
use std::alloc::{AllocError, Global};
use std::test::*;

/// What a comparison answers: the verdict, or which of the two terms `Spent` keeps.
#[derive(Clone, Copy, Debug, PartialEq, Eq)]
enum Outcome {
    Yes,
    No,
    First,
    Second,
    Nothing,
}

/// The outcome of an answer on the two terms.
fn outcome_of(answer: Result<Verdict, ReduceRefused>, a: &Scoped, b: &Scoped) -> Outcome {
    match answer {
        Ok(Verdict::Yes) => Outcome::Yes,
        Ok(Verdict::No) => Outcome::No,
        Err(ReduceRefused::Spent(kept)) => {
            if kept.term().same(a.term()) {
                Outcome::First
            } else if kept.term().same(b.term()) {
                Outcome::Second
            } else {
                Outcome::Nothing
            }
        }
        Err(ReduceRefused::NoMemory) => Outcome::Nothing,
    }
}

/// What `convertible` answers on two closed terms.
fn converts(
    alloc: Global,
    env: &Env,
    a: Term,
    b: Term,
    limits: &Limits,
) -> Result<Outcome, AllocError> {
    let a = closed(a)?;
    let b = closed(b)?;
    Ok(outcome_of(convertible(alloc, env, &a, &b, limits), &a, &b))
}

/// What `below` answers on two closed terms.
fn orders(
    alloc: Global,
    env: &Env,
    a: Term,
    b: Term,
    limits: &Limits,
) -> Result<Outcome, AllocError> {
    let a = closed(a)?;
    let b = closed(b)?;
    Ok(outcome_of(below(alloc, env, &a, &b, limits), &a, &b))
}

/// Whether the normal form of a closed term exceeds the limits.
fn exceeds(alloc: Global, env: &Env, t: Term, limits: &Limits) -> Result<bool, AllocError> {
    let t = closed(t)?;
    Ok(matches!(nf(alloc, env, &t, limits), Err(ReduceRefused::Spent(_))))
}

/// `double (double (double leaf))`.
fn thrice(alloc: Global, leaf: u32) -> Result<Term, AllocError> {
    repeated(alloc, DOUBLE, 3, constant(leaf))
}

/// What `convertible` answers on two doublings.
fn doublings(
    alloc: Global,
    env: &Env,
    a: u32,
    b: u32,
    limits: &Limits,
) -> Result<Outcome, AllocError> {
    let first = thrice(alloc, a)?;
    converts(alloc, env, first, thrice(alloc, b)?, limits)
}

#[test]
fn different_normal_forms_are_told_apart_within_the_limits(rt: HostRuntime) -> Result<(), Fail> {
    let alloc = rt.alloc();
    let world = World::new(alloc).map_err(|_e| "declared")?;
    let env = &world.env;
    let enough = limits(14, 1_000, 100);
    let little = limits(13, 1_000, 100);
    assert_eq!(rt; doublings(alloc, env, ZERO, ONE, &enough)?, Outcome::No);
    assert_eq!(rt; doublings(alloc, env, ZERO, ONE, &little)?, Outcome::First);
    let answer = converts(alloc, env, constant(ZERO), thrice(alloc, ONE)?, &little)?;
    assert_eq!(rt; answer, Outcome::Second);
    let answer = orders(alloc, env, constant(ZERO), thrice(alloc, ONE)?, &little)?;
    assert_eq!(rt; answer, Outcome::Second);
    Ok(())
}

/// `fun N => t _0` of a closed term.
fn expanded(alloc: Global, t: Term) -> Result<Term, AllocError> {
    let applied = Term::app(alloc, t, Term::Rel(0))?;
    Term::lam(alloc, constant(NATURAL), applied)
}

#[test]
fn a_function_converts_with_its_eta_form(rt: HostRuntime) -> Result<(), Fail> {
    let alloc = rt.alloc();
    let world = World::new(alloc).map_err(|_e| "declared")?;
    let long = expanded(alloc, constant(NEXT))?;
    let answer = converts(alloc, &world.env, long, constant(NEXT), &Limits::DEFAULT)?;
    assert_eq!(rt; answer, Outcome::Yes);
    Ok(())
}

/// What `below` answers on two sorts, on `N -> s` and `N -> t`, and on `s -> N` and `t -> N`.
fn sorts(alloc: Global, env: &Env, s: Sort, t: Sort) -> Result<[Outcome; 3], AllocError> {
    let most = &Limits::DEFAULT;
    let alone = orders(alloc, env, Term::Sort(s), Term::Sort(t), most)?;
    let low = Term::pi(alloc, constant(NATURAL), Term::Sort(s))?;
    let high = Term::pi(alloc, constant(NATURAL), Term::Sort(t))?;
    let to = orders(alloc, env, low, high, most)?;
    let low = Term::pi(alloc, Term::Sort(s), constant(NATURAL))?;
    let high = Term::pi(alloc, Term::Sort(t), constant(NATURAL))?;
    let from = orders(alloc, env, low, high, most)?;
    Ok([alone, to, from])
}

#[test]
fn sorts_are_ordered_in_codomains_alone(rt: HostRuntime) -> Result<(), Fail> {
    let alloc = rt.alloc();
    let world = World::new(alloc).map_err(|_e| "declared")?;
    let up = [Outcome::Yes, Outcome::Yes, Outcome::No];
    let down = [Outcome::No, Outcome::No, Outcome::No];
    for (s, t, want) in [
        (Sort::Prop, Sort::Level(5), up),
        (Sort::Prop, Sort::Level(1), up),
        (Sort::Level(1), Sort::Level(2), up),
        (Sort::Level(1), Sort::Prop, down),
    ] {
        assert_eq!(rt; sorts(alloc, &world.env, s, t)?, want);
    }
    Ok(())
}

#[test]
fn the_later_constant_is_unfolded_first(rt: HostRuntime) -> Result<(), Fail> {
    let alloc = rt.alloc();
    let mut world = World::new(alloc).map_err(|_e| "declared")?;
    let zero = ConstId {
        decl: ZERO,
        maker: false,
    };
    let near = world.chain(zero, 2_999).map_err(|_e| "declared")?;
    let last = world.chain(near, 1).map_err(|_e| "declared")?;
    let few = limits(1_000, 10, 10);
    let many = limits(3_000, 10, 10);
    for (a, b, limits, want) in [
        (last, near, &few, Outcome::Yes),
        (near, last, &few, Outcome::Yes),
        (last, zero, &few, Outcome::First),
        (last, zero, &many, Outcome::Yes),
    ] {
        let answer = converts(alloc, &world.env, Term::Const(a), Term::Const(b), limits)?;
        assert_eq!(rt; answer, want);
    }
    assert!(rt; exceeds(alloc, &world.env, Term::Const(near), &few)?);
    Ok(())
}

/// A term whose normal form has more than 2^31 nodes, or `same` of it.
fn growing(alloc: Global, redex: bool) -> Result<Term, AllocError> {
    let term = repeated(alloc, DOUBLE, 30, constant(ONE))?;
    if redex {
        Term::app(alloc, constant(SAME), term)
    } else {
        Ok(term)
    }
}

/// The same at depth 1,000.
fn deep(alloc: Global, redex: bool) -> Result<Term, AllocError> {
    repeated(alloc, NEXT, 1_000, growing(alloc, redex)?)
}

#[test]
fn deep_applications_are_compared_with_no_normal_form(rt: HostRuntime) -> Result<(), Fail> {
    let alloc = rt.alloc();
    let world = World::new(alloc).map_err(|_e| "declared")?;
    let env = &world.env;
    let none = limits(0, 1, 1);
    let few = limits(1_000, 10_000, 2_000);
    for (redex, limits) in [(false, &none), (true, &few)] {
        let first = deep(alloc, false)?;
        let answer = converts(alloc, env, first, deep(alloc, redex)?, limits)?;
        assert_eq!(rt; answer, Outcome::Yes);
        let first = deep(alloc, redex)?;
        let answer = orders(alloc, env, first, deep(alloc, false)?, limits)?;
        assert_eq!(rt; answer, Outcome::Yes);
    }
    assert!(rt; exceeds(alloc, env, deep(alloc, true)?, &few)?);
    Ok(())
}

/// The couple of the two projections of a term, the first of `same` of it.
fn remade(alloc: Global) -> Result<Term, AllocError> {
    let typed = Term::app(alloc, maker(COUPLE), constant(NATURAL))?;
    let half = Term::app(alloc, typed, field(alloc, 0, growing(alloc, true)?)?)?;
    let second = field(alloc, 1, growing(alloc, false)?)?;
    Term::app(alloc, half, second)
}

#[test]
fn eta_is_found_on_the_way(rt: HostRuntime) -> Result<(), Fail> {
    let alloc = rt.alloc();
    let world = World::new(alloc).map_err(|_e| "declared")?;
    let env = &world.env;
    let few = limits(1_000, 10_000, 2_000);
    let long = expanded(alloc, growing(alloc, true)?)?;
    let answer = converts(alloc, env, long, growing(alloc, false)?, &few)?;
    assert_eq!(rt; answer, Outcome::Yes);
    let short = growing(alloc, false)?;
    let answer = converts(alloc, env, short, remade(alloc)?, &few)?;
    assert_eq!(rt; answer, Outcome::Yes);
    Ok(())
}
