use crate::{Kind, entry_text, term_front, term_text};
use hb_base::Names;
use hb_env::{Decl, Entry, Env, Head};
use hb_term::{ConstId, RecId, Scoped, Sort, Term};
use std::alloc::{AllocError, Global};
use std::test::*;

/// No names, and nothing declared.
fn declared(alloc: Global) -> Result<(Names, Env), Fail> {
    Ok((Names::new(alloc)?, Env::new(alloc)?))
}

fn constant(decl: u32, maker: bool) -> Term {
    Term::Const(ConstId { decl, maker })
}

/// The text of a term under `depth` variables.
fn text_of(alloc: Global, term: Term, depth: u32) -> Result<String, Fail> {
    let (names, env) = declared(alloc)?;
    let scoped = Scoped::new(term, depth).ok_or("in scope")?;
    Ok(term_text(alloc, &names, &env, &scoped)?)
}

/// `forall _0 : Type@{3}, _0 -> _0`.
fn identity(alloc: Global) -> Result<Term, AllocError> {
    let arrow = Term::pi(alloc, Term::Rel(0), Term::Rel(1))?;
    Term::pi(alloc, Term::Sort(Sort::Level(3)), arrow)
}

/// `c _1 (_0 ?4)` of the maker of record 1.
fn made(alloc: Global) -> Result<Term, AllocError> {
    let first = Term::app(alloc, constant(1, true), Term::Rel(0))?;
    let second = Term::app(alloc, Term::Rel(1), Term::Hole(4))?;
    Term::app(alloc, first, second)
}

/// `c -> c -> c` of the constant 1.
fn arrows(alloc: Global) -> Result<Term, AllocError> {
    let right = Term::pi(alloc, constant(1, false), constant(1, false))?;
    Term::pi(alloc, constant(1, false), right)
}

/// `fun _d : nat -> Prop => _d`, applied to a constant that isn't declared.
fn applied(alloc: Global) -> Result<Term, AllocError> {
    let arrow = Term::pi(alloc, constant(0, false), Term::Sort(Sort::Prop))?;
    let function = Term::lam(alloc, arrow, Term::Rel(0))?;
    Term::app(alloc, function, constant(7, false))
}

#[test]
fn products_and_functions_have_their_texts(rt: HostRuntime) -> Result<(), Fail> {
    let alloc = rt.alloc();
    let text = text_of(alloc, identity(alloc)?, 0)?;
    assert_eq!(rt; text.as_str(), "forall _0 : Type@{3}, _0 -> _0");
    let text = text_of(alloc, arrows(alloc)?, 0)?;
    assert_eq!(rt; text.as_str(), "!1 -> !1 -> !1");
    let left = Term::pi(alloc, arrows(alloc)?, constant(1, false))?;
    let text = text_of(alloc, left, 0)?;
    assert_eq!(rt; text.as_str(), "(!1 -> !1 -> !1) -> !1");
    let text = text_of(alloc, applied(alloc)?, 5)?;
    assert_eq!(rt; text.as_str(), "(fun _5 : !0 -> Prop => _5) !7");
    Ok(())
}

#[test]
fn makers_and_projections_have_their_texts(rt: HostRuntime) -> Result<(), Fail> {
    let alloc = rt.alloc();
    let text = text_of(alloc, made(alloc)?, 2)?;
    assert_eq!(rt; text.as_str(), "!1 _1 (_0 ?4)");
    let second = Term::proj(alloc, RecId(1), 1, made(alloc)?)?;
    let text = text_of(alloc, second, 2)?;
    assert_eq!(rt; text.as_str(), "(!1 _1 (_0 ?4)).(!1)");
    let other = Term::proj(alloc, RecId(0), 9, Term::Rel(0))?;
    let text = text_of(alloc, other, 1)?;
    assert_eq!(rt; text.as_str(), "_0.(!0)");
    Ok(())
}

/// `Prop` applied to itself, shared 2^60 times.
fn shared(alloc: Global) -> Result<Term, AllocError> {
    let mut shared = Term::Sort(Sort::Prop);
    for _ in 0..60 {
        shared = Term::app(alloc, shared.copy()?, shared)?;
    }
    Ok(shared)
}

/// 250,000 projections of a constant.
fn chain(alloc: Global) -> Result<Term, AllocError> {
    let mut chain = constant(0, false);
    for _ in 0..250_000 {
        chain = Term::proj(alloc, RecId(1), 0, chain)?;
    }
    Ok(chain)
}

#[test]
fn a_front_takes_no_more_than_its_bytes(rt: HostRuntime) -> Result<(), Fail> {
    let alloc = rt.alloc();
    let (names, env) = declared(alloc)?;
    let scoped = Scoped::new(shared(alloc)?, 0).ok_or("in scope")?;
    let front = term_front(alloc, &names, &env, &scoped, 20)?;
    assert!(rt; front.as_bytes().starts_with(b"Prop Prop (Prop Prop"));
    Ok(())
}

#[test]
fn a_chain_of_projections_takes_no_stack(rt: HostRuntime) -> Result<(), Fail> {
    let alloc = rt.alloc();
    let text = text_of(alloc, chain(alloc)?, 0)?;
    assert_eq!(rt; text.as_bytes().len(), 2 + 250_000 * 5);
    Ok(())
}

#[test]
fn an_entry_has_the_text_of_its_declarations(rt: HostRuntime) -> Result<(), Fail> {
    let alloc = rt.alloc();
    let (mut names, env) = declared(alloc)?;
    let mut decls = Vec::new(alloc);
    decls.push(Decl::Axiom {
        name: names.number("nat")?,
        ty: Term::Sort(Sort::Prop),
    })?;
    let entry = Entry {
        head: Head::Axiom,
        decls,
    };
    let text = entry_text(alloc, &names, &env, &entry, Kind::Rocq)?;
    assert_eq!(rt; text.as_str(), "Axiom nat : Prop.\n");
    Ok(())
}
