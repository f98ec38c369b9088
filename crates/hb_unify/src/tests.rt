use crate::{Equation, Problem, Work, found};
use hb_base::Limits;
use hb_env::Env;
use hb_equations::Relation;
use hb_hier::Hier;
use hb_sets::MixSet;
use hb_tables::Tables;
use hb_term::{ConstId, Scoped, Term};
use std::alloc::{AllocError, Global};
use std::test::*;

/// A constant in no scope.
fn constant() -> Result<Scoped, AllocError> {
    let term = Term::Const(ConstId {
        decl: 0,
        maker: false,
    });
    Scoped::new(term, 0).ok_or(AllocError)
}

/// Hole 0 against the constant.
fn equation() -> Result<Equation, AllocError> {
    Ok(Equation {
        a: Scoped::new(Term::Hole(0), 0).ok_or(AllocError)?,
        b: constant()?,
        relation: Relation::Equal,
    })
}

/// Hole 0, of depth 0.
fn begun(alloc: Global) -> Result<Problem, AllocError> {
    let mut problem = Problem::new(alloc, Work { moves: 0, holes: 0 })?;
    problem.hole(0, None)?;
    Ok(problem)
}

/// The moves after solving the equation.
fn solved(alloc: Global, env: &Env, hier: &Hier, tables: &Tables) -> Result<u64, AllocError> {
    let equation = equation()?;
    let problem = begun(alloc)?;
    match problem.solve(alloc, env, hier, tables, None, equation, &Limits::DEFAULT) {
        Ok(problem) => Ok(problem.moves),
        Err(_) => Err(AllocError),
    }
}

/// The moves of a walk along the constant, which has no instance and so no key.
fn looked(alloc: Global, env: &Env, hier: &Hier, tables: &Tables) -> Result<u64, AllocError> {
    let carrier = constant()?;
    let set = MixSet::empty().with(0);
    let mut work = Work { moves: 0, holes: 0 };
    match found(
        alloc,
        env,
        hier,
        tables,
        None,
        &set,
        &carrier,
        &mut work,
        &Limits::DEFAULT,
    ) {
        Ok(_) => Ok(work.moves),
        Err(_) => Err(AllocError),
    }
}

/// Both, where nothing is declared.
fn both(alloc: Global, env: &Env, hier: &Hier) -> Result<(u64, u64), AllocError> {
    let tables = Tables::new(alloc)?;
    Ok((
        solved(alloc, env, hier, &tables)?,
        looked(alloc, env, hier, &tables)?,
    ))
}

fn in_environment(alloc: Global, env: &Env) -> Result<(u64, u64), AllocError> {
    let hier = Hier::new(alloc)?;
    both(alloc, env, &hier)
}

fn outcome(alloc: Global) -> Result<(u64, u64), AllocError> {
    let env = Env::new(alloc)?;
    in_environment(alloc, &env)
}

#[test]
fn a_value_is_a_move_and_so_is_a_look(rt: HostRuntime) -> Result<(), AllocError> {
    assert_eq!(rt; outcome(rt.alloc())?, (1, 1));
    Ok(())
}
