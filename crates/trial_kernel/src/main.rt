//! A trial of speed: 100,000 axioms and 100,000 small definitions are added to a theory, in four rounds, since
//! there are 65,536 names.
#![tactic(auto)]

use hb_base::{Limits, NameId};
use hb_env::Decl;
use hb_kernel::{KernelRefused, Theory};
use hb_term::{ConstId, Sort, Term};
use std::alloc::{AllocError, Global};
use std::io;

const ROUNDS: u32 = 4;

/// How many axioms a round adds, and as many definitions.
const EACH: u16 = 25_000;

/// What was added.
#[derive(Clone, Copy)]
struct Added {
    axioms: u32,
    definitions: u32,
}

fn main(rt: HostRuntime) -> io::Result<()> {
    match trial(rt.alloc()) {
        Ok(added) => {
            println!(rt; "axioms {}", added.axioms)?;
            println!(rt; "definitions {}", added.definitions)
        }
        Err(_refused) => println!(rt; "refused"),
    }
}

/// All rounds, each from the empty theory.
fn trial(alloc: Global) -> Result<Added, KernelRefused> {
    let mut added = Added {
        axioms: 0,
        definitions: 0,
    };
    let mut theory = Theory::new(alloc)?;
    for _round in 0..ROUNDS {
        theory.cut(0);
        round(alloc, &mut theory, &mut added)?;
    }
    Ok(added)
}

/// A type, and then functions on it: each an axiom, and a definition by it.
fn round(alloc: Global, theory: &mut Theory, added: &mut Added) -> Result<(), KernelRefused> {
    let ty = Decl::Axiom {
        name: NameId(0),
        ty: Term::Sort(Sort::Level(0)),
    };
    let nat = theory.add(ty, &Limits::DEFAULT)?;
    for at in 0..EACH {
        let f = theory.add(axiom(alloc, 2 * at + 1, nat)?, &Limits::DEFAULT)?;
        added.axioms = added.axioms.saturating_add(1);
        theory.add(definition(alloc, 2 * at + 2, nat, f)?, &Limits::DEFAULT)?;
        added.definitions = added.definitions.saturating_add(1);
    }
    Ok(())
}

/// An axiom of the type `nat -> nat`.
fn axiom(alloc: Global, name: u16, nat: ConstId) -> Result<Decl, AllocError> {
    Ok(Decl::Axiom {
        name: NameId(name),
        ty: arrow(alloc, nat)?,
    })
}

/// The definition `fun x : nat => f (f x)` of the type `nat -> nat`.
fn definition(alloc: Global, name: u16, nat: ConstId, f: ConstId) -> Result<Decl, AllocError> {
    let once = Term::app(alloc, Term::Const(f), Term::Rel(0))?;
    let twice = Term::app(alloc, Term::Const(f), once)?;
    Ok(Decl::Def {
        name: NameId(name),
        ty: arrow(alloc, nat)?,
        body: Term::lam(alloc, Term::Const(nat), twice)?,
    })
}

/// The type `nat -> nat`.
fn arrow(alloc: Global, nat: ConstId) -> Result<Term, AllocError> {
    Term::pi(alloc, Term::Const(nat), Term::Const(nat))
}
