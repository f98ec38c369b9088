ghost use Rattle.std.specs.Prelude.{◌≡◌, false};
ghost use Rattle.hb_tree.specs.Tree.{const};
ghost use Rattle.hb_term.specs.Meaning.{tree};

use crate::{ReduceRefused, nf, whnf};
use hb_base::{Limits, NameId};
use hb_env::{Decl, Env, EnvRefused};
use hb_term::{ConstId, Scoped, Sort, Term};
use std::alloc::{AllocError, Global};
use std::test::*;

fn constant(decl: u32) -> Term
    ensures { tree result ≡ const (record { decl = decl; maker = false }) }
{
    Term::Const(ConstId { decl, maker: false })
}

/// `N : Type`, `one : N`, `pair : N` (its type plays no part), and `double := fun N => pair _0 _0`.
fn doubling(alloc: Global) -> Result<Env, EnvRefused> {
    let mut env = Env::new(alloc)?;
    env.push(Decl::Axiom {
        name: NameId(0),
        ty: Term::Sort(Sort::Level(0)),
    })?;
    env.push(Decl::Axiom {
        name: NameId(1),
        ty: constant(0),
    })?;
    env.push(Decl::Axiom {
        name: NameId(2),
        ty: constant(0),
    })?;
    let once = Term::app(alloc, constant(2), Term::Rel(0))?;
    let twice = Term::app(alloc, once, Term::Rel(0))?;
    env.push(Decl::Def {
        name: NameId(3),
        ty: constant(0),
        body: Term::lam(alloc, constant(0), twice)?,
    })?;
    Ok(env)
}

/// `double (double (double one))`.
fn nested(alloc: Global) -> Result<Term, AllocError> {
    let mut term = constant(1);
    for _i in 0..3u32 {
        term = Term::app(alloc, constant(3), term)?;
    }
    Ok(term)
}

#[test]
fn a_doubling_takes_all_its_steps(rt: HostRuntime) -> Result<(), Fail> {
    let alloc = rt.alloc();
    let env = doubling(alloc).map_err(|_e| "declared")?;
    let term = Scoped::new(nested(alloc)?, 0).ok_or("scoped")?;
    for (steps, nodes) in [(14u64, Some(29u64)), (13, None)] {
        let limits = Limits {
            steps,
            nodes: 1_000_000,
            depth: 2_000,
        };
        match nf(alloc, &env, &term, &limits) {
            Ok(form) => assert_eq!(rt; Some(form.term().nodes()), nodes),
            Err(ReduceRefused::Spent(kept)) => {
                assert!(rt; nodes.is_none() && kept.term().same(term.term()));
            }
            Err(ReduceRefused::NoMemory) => return Err("out of memory".into()),
        }
    }
    let head = whnf(alloc, &env, &term, &Limits::DEFAULT).map_err(|_e| "reduced")?;
    assert_eq!(rt; head.term().nodes(), 13);
    Ok(())
}
