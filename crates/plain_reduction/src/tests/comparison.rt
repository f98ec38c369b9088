//! Both ways of reduction on generated terms.
use super::terms::limits;
use crate::{Lots, World, generated};
use hb_base::Limits;
use hb_env::Env;
use hb_reduce::ReduceRefused;
use hb_term::Scoped;
use std::alloc::{AllocError, Global};
use std::test::*;

/// How many pairs of answers are the same form, `Spent` with the term, or anything else.
#[derive(Drop)]
struct Tally {
    forms: u32,
    spent: u32,
    others: u32,
}

impl Tally {
    fn new() -> Tally {
        Tally {
            forms: 0,
            spent: 0,
            others: 0,
        }
    }

    /// Counts two answers on the term.
    fn count(
        &mut self,
        of: &Scoped,
        a: Result<Scoped, ReduceRefused>,
        b: Result<Scoped, ReduceRefused>,
    ) {
        if let Some(same) = both_forms(&a, &b) {
            self.add(same, true);
        } else {
            self.add(both_spent(of, &a, &b), false);
        }
    }

    /// Counts one pair.
    fn add(&mut self, same: bool, formed: bool) {
        if !same {
            self.others = self.others.saturating_add(1);
        } else if formed {
            self.forms = self.forms.saturating_add(1);
        } else {
            self.spent = self.spent.saturating_add(1);
        }
    }
}

/// Whether two forms are the same; nothing where one of the answers is none.
fn both_forms(
    a: &Result<Scoped, ReduceRefused>,
    b: &Result<Scoped, ReduceRefused>,
) -> Option<bool> {
    match (a, b) {
        (Ok(x), Ok(y)) => Some(are_same(x, y)),
        _ => None,
    }
}

/// Whether both answers are `Spent` with the term.
fn both_spent(
    of: &Scoped,
    a: &Result<Scoped, ReduceRefused>,
    b: &Result<Scoped, ReduceRefused>,
) -> bool {
    match (a, b) {
        (Err(ReduceRefused::Spent(x)), Err(ReduceRefused::Spent(y))) => {
            are_same(x, of) && are_same(y, of)
        }
        _ => false,
    }
}

/// Whether both are the same term in the same scope.
fn are_same(a: &Scoped, b: &Scoped) -> bool {
    a.term().same(b.term()) && a.depth() == b.depth()
}

/// The generated term of the number.
fn numbered(alloc: Global, number: u64) -> Result<Scoped, AllocError> {
    let mut lots = Lots::new(number);
    let depth = lots.draw(3);
    Scoped::new(generated(alloc, &mut lots, depth, 5)?, depth).ok_or(AllocError)
}

/// Counts the answers of both ways on the term.
fn compare(alloc: Global, env: &Env, term: &Scoped, limits: &Limits, tally: &mut Tally) {
    let quick = hb_reduce::nf(alloc, env, term, limits);
    tally.count(term, quick, crate::nf(alloc, env, term, limits));
    let head = hb_reduce::whnf(alloc, env, term, limits);
    tally.count(term, head, crate::whnf(alloc, env, term, limits));
}

#[test]
fn both_ways_answer_alike(rt: HostRuntime) -> Result<(), Fail> {
    let alloc = rt.alloc();
    let world = World::new(alloc).map_err(|_e| "declared")?;
    let mut tally = Tally::new();
    for number in 1..500u64 {
        let term = numbered(alloc, number)?;
        for (steps, nodes, depth) in [
            (0, 1_000, 100),
            (3, 1_000, 100),
            (40, 400, 60),
            (40, 20, 8),
        ] {
            let limits = limits(steps, nodes, depth);
            compare(alloc, &world.env, &term, &limits, &mut tally);
        }
    }
    assert_eq!(rt; tally.others, 0);
    assert!(rt; tally.forms > 1_000 && tally.spent > 250);
    Ok(())
}
