ghost use Rattle.std.specs.Prelude.{◌≡◌, [], ◌∷◌, IfOk};
ghost use Rattle.hb_tree.specs.Tree.{sort, rel, app};
ghost use Rattle.hb_calculus.specs.Declarations.{a_record};
ghost use Rattle.hb_env.specs.Plain.{plain};

use crate::{maker_type, projection_type};
use hb_base::NameId;
use hb_env::{Decl, Env, EnvRefused};
use hb_term::{RecId, Sort, Term};
use std::alloc::{AllocError, Global};
use std::test::*;
use std::vec::Vec;

/// The record `pointed (A : Type) := make { of : A; same : A of of }`.
fn pointed(alloc: Global) -> Result<Decl, AllocError>
    ensures { IfOk
        result
        (λ d.
        plain d ≡ a_record 0 1 (sort (Sort.Level 0) ∷ []) 0 ((2, rel 0) ∷ (3, app (app (rel 1) (rel 0)) (rel 0)) ∷ [])) }
{
    let mut params = Vec::new(alloc);
    params.push(Term::Sort(Sort::Level(0)))?;
    let same = Term::app(
        alloc,
        Term::app(alloc, Term::Rel(1), Term::Rel(0))?,
        Term::Rel(0),
    )?;
    let mut fields = Vec::new(alloc);
    fields.push((NameId(2), Term::Rel(0)))?;
    fields.push((NameId(3), same))?;
    Ok(Decl::Record {
        name: NameId(0),
        maker: NameId(1),
        params,
        level: 0,
        fields,
    })
}

/// An environment of that record alone.
fn declared(alloc: Global) -> Result<Env, EnvRefused>
    ensures { IfOk
        result
        (λ e.
        e ≡ a_record 0 1 (sort (Sort.Level 0) ∷ []) 0 ((2, rel 0) ∷ (3, app (app (rel 1) (rel 0)) (rel 0)) ∷ []) ∷ []) }
{
    let mut env = Env::new(alloc)?;
    env.push(pointed(alloc)?)?;
    Ok(env)
}

#[test]
fn projections_put_in_parameters_and_earlier_fields(rt: HostRuntime) -> Result<(), Fail> {
    let alloc = rt.alloc();
    let env = declared(alloc).map_err(|_e| "declared")?;
    let made = maker_type(&env, RecId(0))?;
    assert_eq!(rt; (made.nodes(), made.loose()), (13, 0));
    let params = [Term::Rel(7)];
    let first = projection_type(alloc, &env, RecId(0), 0, &params, &Term::Rel(3))?;
    assert!(rt; first.same(&Term::Rel(7)));
    let earlier = Term::proj(alloc, RecId(0), 0, Term::Rel(3))?;
    let again = earlier.copy()?;
    let want = Term::app(alloc, Term::app(alloc, Term::Rel(7), earlier)?, again)?;
    let second = projection_type(alloc, &env, RecId(0), 1, &params, &Term::Rel(3))?;
    assert!(rt; second.same(&want));
    Ok(())
}
