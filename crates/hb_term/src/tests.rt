use crate::{ConstId, Part, RecId, Scoped, Sort, Term, View};
use std::alloc::{AllocError, Global};
use std::test::*;
use std::vec::Vec;

fn constant(decl: u32) -> Term {
    Term::Const(ConstId { decl, maker: false })
}

/// `fun x : Prop => (x #1) #last`.
fn function(alloc: Global, last: u32) -> Result<Term, AllocError> {
    let first = Term::app(alloc, Term::Rel(0), Term::Rel(1))?;
    let body = Term::app(alloc, first, Term::Rel(last))?;
    Term::lam(alloc, Term::Sort(Sort::Prop), body)
}

/// `#rel c`.
fn applied(alloc: Global, rel: u32) -> Result<Term, AllocError> {
    Term::app(alloc, Term::Rel(rel), constant(9))
}

/// `forall x : #0, fun y : #1 => #2 #3`: variable 0 from outside, at no, one and two binders, and the
/// next one.
fn open_product(alloc: Global) -> Result<Term, AllocError> {
    let body = Term::app(alloc, Term::Rel(2), Term::Rel(3))?;
    let inside = Term::lam(alloc, Term::Rel(1), body)?;
    Term::pi(alloc, Term::Rel(0), inside)
}

/// The same with `#4 c` for variable 0: under the two binders the value is `#6 c`, and #3 has fallen.
fn filled_product(alloc: Global) -> Result<Term, AllocError> {
    let body = Term::app(alloc, applied(alloc, 6)?, Term::Rel(2))?;
    let inside = Term::lam(alloc, applied(alloc, 5)?, body)?;
    Term::pi(alloc, applied(alloc, 4)?, inside)
}

#[test]
fn lifting_raises_variables_from_outside(rt: HostRuntime) -> Result<(), Fail> {
    let alloc = rt.alloc();
    let before = function(alloc, 2)?;
    let after = function(alloc, 5)?;
    assert!(rt; before.try_lift(alloc, 3, 1)?.same(&after));
    assert!(rt; !before.try_lift(alloc, 3, 0)?.same(&after));
    assert!(rt; before.occurs(1) && !after.occurs(1));
    assert_eq!(rt; (before.nodes(), before.depth(), after.loose()), (7, 4, 5));
    assert!(rt; Term::Rel(7).lift(alloc, 2, 5)?.same(&Term::Rel(9)));
    assert!(rt; Term::Rel(u32::MAX).try_lift(alloc, 1, 0).is_err());
    Ok(())
}

#[test]
fn substitution_lifts_the_value_under_binders(rt: HostRuntime) -> Result<(), Fail> {
    let alloc = rt.alloc();
    let before = open_product(alloc)?;
    let after = before.try_subst(alloc, &applied(alloc, 4)?)?;
    assert!(rt; after.same(&filled_product(alloc)?));
    assert!(rt; before.copy()?.same(&before));
    let View::Pi(domain, _) = before.view() else {
        return Err("a product".into());
    };
    assert!(rt; domain.same(&Term::Rel(0)));
    assert!(rt;
        Term::Rel(0)
            .subst(alloc, &Term::Rel(7))?
            .same(&Term::Rel(7))
    );
    Ok(())
}

#[test]
fn terms_tell_fields_and_scopes_apart(rt: HostRuntime) -> Result<(), Fail> {
    let alloc = rt.alloc();
    let field = Term::proj(alloc, RecId(3), 1, Term::Rel(1))?;
    assert!(rt; !field.same(&Term::proj(alloc, RecId(3), 2, Term::Rel(1))?));
    assert!(rt; Scoped::new(field.copy()?, 1).is_none());
    let scoped = Scoped::new(field, 2).ok_or("in scope")?;
    assert_eq!(rt; (scoped.depth(), scoped.term().nodes()), (2, 2));
    assert_eq!(rt; scoped.into_term().loose(), 2);
    Ok(())
}

#[test]
fn a_term_of_many_shared_nodes_answers_at_once(rt: HostRuntime) -> Result<(), Fail> {
    let alloc = rt.alloc();
    let mut term = Term::Sort(Sort::Prop);
    for _ in 0..60 {
        term = Term::app(alloc, term.copy()?, term)?;
    }
    let nodes = 2_305_843_009_213_693_951;
    assert_eq!(rt; term.nodes(), nodes);
    assert_eq!(rt; term.try_lift(alloc, 1, 0)?.nodes(), nodes);
    assert_eq!(rt;
        term.try_subst(alloc, &Term::Sort(Sort::Prop))?.nodes(),
        nodes
    );
    assert_eq!(rt; term.copy()?.depth(), 61);
    assert!(rt; !term.occurs(0));
    for _ in 0..10 {
        term = Term::app(alloc, term.copy()?, term)?;
    }
    assert_eq!(rt; (term.nodes(), term.depth()), (u64::MAX, 71));
    Ok(())
}

/// A function of `levels` binders around variable 0.
fn deep(alloc: Global, levels: u32) -> Result<Term, AllocError> {
    let mut term = Term::Rel(0);
    for _ in 0..levels {
        term = Term::lam(alloc, Term::Sort(Sort::Level(0)), term)?;
    }
    Ok(term)
}

/// Variable 0 applied to so many constants.
fn spine(alloc: Global, arguments: u32) -> Result<Term, AllocError> {
    let mut term = Term::Rel(0);
    for at in 0..arguments {
        term = Term::app(alloc, term, constant(at))?;
    }
    Ok(term)
}

#[test]
fn deep_terms_fit_the_stack(rt: HostRuntime) -> Result<(), Fail> {
    let alloc = rt.alloc();
    let one = deep(alloc, 2_000)?;
    assert!(rt; one.same(&deep(alloc, 2_000)?) && !one.same(&deep(alloc, 1_999)?));
    let open = Term::app(alloc, one, Term::Rel(3))?;
    assert_eq!(rt; (open.try_lift(alloc, 1, 0)?.loose(), open.loose()), (5, 4));
    Ok(())
}

#[test]
fn long_spines_fit_the_stack(rt: HostRuntime) -> Result<(), Fail> {
    let alloc = rt.alloc();
    let long = spine(alloc, 50_000)?;
    assert_eq!(rt; (long.nodes(), long.depth()), (100_001, 50_001));
    assert!(rt; long.copy()?.same(&long) && long.same(&spine(alloc, 50_000)?));
    assert!(rt; !long.same(&spine(alloc, 49_999)?));
    assert_eq!(rt; Part::new(alloc, long)?.share()?.loose(), 1);
    Ok(())
}
