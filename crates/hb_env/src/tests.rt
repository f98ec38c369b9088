use crate::{Decl, Env, EnvRefused, Named};
use hb_base::NameId;
use hb_term::{ConstId, RecId, Sort, Term};
use std::alloc::{AllocError, Global};
use std::test::*;
use std::vec::Vec;

const NAT: NameId = NameId(0);

const TWO: NameId = NameId(1);

const BOX: NameId = NameId(2);

const MAKE: NameId = NameId(3);

const INSIDE: NameId = NameId(4);

const FREE: NameId = NameId(65_535);

fn constant(decl: u32, maker: bool) -> ConstId {
    ConstId { decl, maker }
}

/// `nat : Type`, `two : nat := nat`, and the record `box (A : Type) := make { inside : A }`.
fn small(alloc: Global) -> Result<Env, EnvRefused> {
    let mut env = Env::new(alloc)?;
    env.push(Decl::Axiom {
        name: NAT,
        ty: Term::Sort(Sort::Level(0)),
    })?;
    env.push(Decl::Def {
        name: TWO,
        ty: Term::Const(constant(0, false)),
        body: Term::Const(constant(0, false)),
    })?;
    let mut params = Vec::new(alloc);
    params
        .push(Term::Sort(Sort::Level(0)))
        .map_err(AllocError::from)?;
    let mut fields = Vec::new(alloc);
    fields
        .push((INSIDE, Term::Rel(0)))
        .map_err(AllocError::from)?;
    env.push(Decl::Record {
        name: BOX,
        maker: MAKE,
        params,
        level: 0,
        fields,
    })?;
    Ok(env)
}

#[test]
fn names_find_their_declarations(rt: HostRuntime) -> Result<(), Fail> {
    let mut env = small(rt.alloc()).map_err(|_e| "declared")?;
    for (name, named) in [
        (NAT, Some(Named::Const(constant(0, false)))),
        (TWO, Some(Named::Const(constant(1, false)))),
        (BOX, Some(Named::Const(constant(2, false)))),
        (MAKE, Some(Named::Const(constant(2, true)))),
        (INSIDE, Some(Named::Proj(RecId(2), 0))),
        (FREE, None),
    ] {
        assert_eq!(rt; env.lookup(name), named);
    }
    assert_eq!(rt; env.len(), 3);
    assert!(rt; env.decl(2).is_some() && env.decl(3).is_none());
    assert!(rt;
        env.body_of(constant(1, false)).is_some() && env.body_of(constant(0, false)).is_none()
    );
    env.cut(2);
    assert_eq!(rt;
        (env.lookup(MAKE), env.lookup(INSIDE), env.len()),
        (None, None, 2)
    );
    assert!(rt; env.lookup(TWO).is_some());
    Ok(())
}

#[test]
fn constants_have_their_types(rt: HostRuntime) -> Result<(), Fail> {
    let alloc = rt.alloc();
    let env = small(alloc).map_err(|_e| "declared")?;
    let applied = Term::app(alloc, Term::Const(constant(2, false)), Term::Rel(1))?;
    let made = Term::pi(
        alloc,
        Term::Sort(Sort::Level(0)),
        Term::pi(alloc, Term::Rel(0), applied)?,
    )?;
    assert!(rt;
        env.type_of(constant(2, true))?
            .is_some_and(|ty| ty.same(&made))
    );
    assert!(rt;
        env.type_of(constant(0, true))?.is_none() && env.type_of(constant(3, false))?.is_none()
    );
    Ok(())
}

#[test]
fn a_name_is_declared_once(rt: HostRuntime) -> Result<(), Fail> {
    let alloc = rt.alloc();
    let mut env = small(alloc).map_err(|_e| "declared")?;
    let again = env.push(Decl::Axiom {
        name: MAKE,
        ty: Term::Sort(Sort::Prop),
    });
    assert_eq!(rt; again, Err(EnvRefused::Redeclared(MAKE)));
    let twice = env.push(Decl::Record {
        name: FREE,
        maker: FREE,
        params: Vec::new(alloc),
        level: 0,
        fields: Vec::new(alloc),
    });
    assert_eq!(rt; twice, Err(EnvRefused::Redeclared(FREE)));
    assert_eq!(rt; env.len(), 3);
    Ok(())
}
