//! Where the budgets end, and what is no step.
use super::terms::{built, closed, field, limits, nodes_of, repeated};
use crate::{COUPLE, DOUBLE, NATURAL, ONE, OTHER, PAIR, World, ZERO, constant};
use hb_base::Limits;
use hb_env::Env;
use hb_term::{Scoped, Term};
use std::alloc::{AllocError, Global};
use std::test::*;

/// The nodes of the two answers of normal forms; `None` where they are `Spent` and keep the term.
fn normal(
    alloc: Global,
    env: &Env,
    term: &Scoped,
    limits: &Limits,
) -> Result<[Option<u64>; 2], &'static str> {
    let quick = nodes_of(hb_reduce::nf(alloc, env, term, limits), term)?;
    let plain = nodes_of(crate::nf(alloc, env, term, limits), term)?;
    Ok([quick, plain])
}

/// The same of weak head forms.
fn head(
    alloc: Global,
    env: &Env,
    term: &Scoped,
    limits: &Limits,
) -> Result<[Option<u64>; 2], &'static str> {
    let quick = nodes_of(hb_reduce::whnf(alloc, env, term, limits), term)?;
    let plain = nodes_of(crate::whnf(alloc, env, term, limits), term)?;
    Ok([quick, plain])
}

#[test]
fn normal_forms_are_spent_just_below_what_they_need(rt: HostRuntime) -> Result<(), Fail> {
    let alloc = rt.alloc();
    let world = World::new(alloc).map_err(|_e| "declared")?;
    let term = closed(repeated(alloc, DOUBLE, 3, constant(ONE))?)?;
    for (steps, nodes, depth, want) in [
        (14, 1_000, 100, Some(29)),
        (13, 1_000, 100, None),
        (14, 33, 100, Some(29)),
        (14, 32, 100, None),
        (14, 1_000, 9, Some(29)),
        (14, 1_000, 8, None),
        (15, 34, 10, Some(29)),
    ] {
        let answers = normal(alloc, &world.env, &term, &limits(steps, nodes, depth))?;
        assert_eq!(rt; answers, [want, want]);
    }
    Ok(())
}

#[test]
fn weak_head_forms_are_spent_just_below_what_they_need(rt: HostRuntime) -> Result<(), Fail> {
    let alloc = rt.alloc();
    let world = World::new(alloc).map_err(|_e| "declared")?;
    let term = closed(repeated(alloc, DOUBLE, 3, constant(ONE))?)?;
    for (steps, nodes, depth, want) in [
        (2, 1_000, 100, Some(13)),
        (1, 1_000, 100, None),
        (2, 13, 100, Some(13)),
        (2, 12, 100, None),
        (2, 1_000, 5, Some(13)),
        (2, 1_000, 4, None),
    ] {
        let answers = head(alloc, &world.env, &term, &limits(steps, nodes, depth))?;
        assert_eq!(rt; answers, [want, want]);
    }
    Ok(())
}

/// `fun N => fun N => pair _1 _0`.
fn expanded_twice(alloc: Global) -> Result<Scoped, AllocError> {
    let once = Term::app(alloc, constant(PAIR), Term::Rel(1))?;
    let applied = Term::app(alloc, once, Term::Rel(0))?;
    let inner = Term::lam(alloc, constant(NATURAL), applied)?;
    closed(Term::lam(alloc, constant(NATURAL), inner)?)
}

#[test]
fn eta_alone_may_pass_the_budget(rt: HostRuntime) -> Result<(), Fail> {
    let alloc = rt.alloc();
    let world = World::new(alloc).map_err(|_e| "declared")?;
    let term = expanded_twice(alloc)?;
    for (steps, want) in [(2, Some(1)), (1, None), (0, None)] {
        let limits = limits(steps, 1_000, 100);
        let answers = normal(alloc, &world.env, &term, &limits)?;
        assert_eq!(rt; answers, [want, want]);
        let answers = head(alloc, &world.env, &term, &limits)?;
        assert_eq!(rt; answers, [Some(9), Some(9)]);
    }
    Ok(())
}

#[test]
fn a_projection_steps_at_its_own_full_maker_alone(rt: HostRuntime) -> Result<(), Fail> {
    let alloc = rt.alloc();
    let world = World::new(alloc).map_err(|_e| "declared")?;
    for (maker, arguments, number, want) in [
        (COUPLE, 3, 0, 1),
        (COUPLE, 3, 1, 1),
        (COUPLE, 3, 2, 8),
        (COUPLE, 2, 0, 6),
        (COUPLE, 4, 0, 10),
        (OTHER, 3, 0, 8),
    ] {
        let made = built(alloc, maker, arguments, ZERO)?;
        let term = closed(field(alloc, number, made)?)?;
        let answers = normal(alloc, &world.env, &term, &limits(1, 1_000, 100))?;
        assert_eq!(rt; answers, [Some(want), Some(want)]);
    }
    Ok(())
}
