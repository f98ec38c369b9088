//! The asks of a term against its type, and of a declaration.
ghost use Rattle.std.specs.Prelude.{◌≡◌, ℕ, ◌++◌, OnOk, IfErr};
ghost use Rattle.hb_tree.specs.Tree.{sort};
ghost use Rattle.hb_tree.specs.declared.leaves.Sort.TheVariants.{Level};
ghost use Rattle.hb_term.specs.Meaning.{tree};
ghost use Rattle.hb_calculus.specs.Declarations.{a_record, field_types};
ghost use Rattle.hb_calculus.specs.Budget.{budget};
ghost use Rattle.hb_calculus.specs.Inference.{Checks, Accepts};
ghost use Rattle.hb_env.specs.Plain.{plain, trees, plain_fields};
ghost use Rattle.hb_kernel.specs.Answers.{NotCheckedAt, RefusesAt};
ghost use Rattle.hb_kernel.specs.Contexts.{types, IsContext};
ghost use Rattle.hb_kernel.specs.Faults.{FaultOf};
ghost use Rattle.hb_kernel.specs.Known.{AreKnownTypes};
ghost use Rattle.hb_kernel.specs.Scoping.{IsKnown, IsKnownDecl};

use crate::ask::in_scope;
use crate::compare::ask_below;
use crate::fault::Fault;
use crate::infer::{infer, type_sort};
use crate::scope::Context;
use crate::telescope::telescope_level;
use hb_base::{Limits, NameId};
use hb_env::{Decl, Env};
use hb_term::{Scoped, Sort, Term};
use std::alloc::Global;

/// The asks of a term against a type: those of the type, those of the term, and the comparison of both.
pub(crate) fn check<'t, 'c>(
    alloc: Global,
    env: &Env,
    limits: &Limits,
    context: &'c Context<'t, 'c>,
    depth: u32,
    t: &'t Term,
    ty: &'t Term,
) -> Result<(), Fault>
    requires context { IsContext (types context.now) depth }
    requires term { IsKnown env.now depth (tree t.now) }
    requires known { IsKnown env.now depth (tree ty.now) }
    ensures checked { OnOk result (Checks env.now (budget limits.now) (types context.now) (tree t.now) (tree ty.now)) }
    ensures fault { IfErr result (FaultOf (NotCheckedAt env.now (budget limits.now) (types context.now) (tree t.now) (tree ty.now))) }
{
    match type_sort(alloc, env, limits, context, depth, ty) {
        Ok(_) => {}
        Err(fault) => return Err(fault),
    }
    let inferred = match infer(alloc, env, limits, context, depth, t) {
        Ok(inferred) => inferred,
        Err(fault) => return Err(fault),
    };
    let wanted = in_scope(ty.copy()?, depth);
    match ask_below(alloc, env, limits, &inferred, &wanted) {
        Ok(()) => Ok(()),
        Err(fault) => Err(fault),
    }
}

/// The asks of a declaration.
pub(crate) fn accept(alloc: Global, env: &Env, limits: &Limits, decl: &Decl) -> Result<(), Fault>
    requires { IsKnownDecl env.now (plain decl.now) }
    ensures accepted { OnOk result (Accepts env.now (budget limits.now) (plain decl.now)) }
    ensures fault { IfErr result (FaultOf (RefusesAt env.now (budget limits.now) (plain decl.now))) }
{
    let context = Context::Empty;
    match decl {
        Decl::Axiom { ty, .. } => match type_sort(alloc, env, limits, &context, 0, ty) {
            Ok(_) => Ok(()),
            Err(fault) => Err(fault),
        },
        Decl::Def { ty, body, .. } => match check(alloc, env, limits, &context, 0, body, ty) {
            Ok(()) => Ok(()),
            Err(fault) => Err(fault),
        },
        Decl::Record {
            params,
            level,
            fields,
            ..
        } => accept_record(alloc, env, limits, params, *level, fields),
    }
}

/// The asks of a record: its types, and then its level.
fn accept_record(
    alloc: Global,
    env: &Env,
    limits: &Limits,
    params: &[Term],
    level: u8,
    fields: &[(NameId, Term)],
) -> Result<(), Fault>
    requires { AreKnownTypes env.now 0 (trees params.now ++ field_types (plain_fields fields.now)) }
    ensures accepted { OnOk
        result
        ((n m : ℕ) → Accepts env.now (budget limits.now) (a_record n m (trees params.now) level (plain_fields fields.now))) }
    ensures fault { IfErr
        result
        (FaultOf (λ c k. (n m : ℕ) → RefusesAt env.now (budget limits.now) (a_record n m (trees params.now) level (plain_fields fields.now)) c k)) }
{
    let context = Context::Empty;
    let least = match telescope_level(alloc, env, limits, &context, 0, params, fields) {
        Ok(least) => least,
        Err(fault) => return Err(fault),
    };
    if least == level {
        Ok(())
    } else {
        Err(Fault::Apart(level_sort(least), level_sort(level)))
    }
}

/// The sort of the level.
fn level_sort(level: u8) -> Scoped
    ensures term { tree result.term ≡ sort (Level level) }
    ensures depth { result.depth ≡ 0 }
{
    in_scope(Term::Sort(Sort::Level(level)), 0)
}
