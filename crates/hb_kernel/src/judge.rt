//! Judgements under a context that is handed in.
ghost use Rattle.std.specs.Prelude.{◌≡◌, ◌+◌, length, OnOk, IfOk, IfErr};
ghost use Rattle.hb_term.specs.Meaning.{tree};
ghost use Rattle.hb_calculus.specs.Budget.{budget};
ghost use Rattle.hb_calculus.specs.Inference.{Infers, Checks};
ghost use Rattle.hb_calculus.specs.Typing.{AreTypes, extended};
ghost use Rattle.hb_env.specs.Plain.{trees};
ghost use Rattle.hb_kernel.specs.Answers.{FailsAt, NotCheckedAt};
ghost use Rattle.hb_kernel.specs.Contexts.{types, IsContext};
ghost use Rattle.hb_kernel.specs.Faults.{FaultOf};
ghost use Rattle.hb_kernel.specs.Scoping.{IsKnown};

use crate::accept::check;
use crate::fault::Fault;
use crate::infer::infer;
use crate::scope::{Context, deeper};
use hb_base::Limits;
use hb_env::Env;
use hb_term::{Scoped, Term};
use std::alloc::Global;

/// The type of the term under the context with the types `rest` inside, the outermost first.
pub(crate) fn infer_under<'t, 'c>(
    alloc: Global,
    env: &Env,
    limits: &Limits,
    context: &'c Context<'t, 'c>,
    depth: u32,
    rest: &'t [Term],
    t: &'t Term,
) -> Result<Scoped, Fault>
    requires context { IsContext (types context.now) depth }
    requires types { AreTypes env.now (types context.now) (trees rest.now) }
    requires known { IsKnown env.now (depth + length rest.now) (tree t.now) }
    ensures inferred { IfOk result (λ ty. Infers env.now (budget limits.now) (extended (types context.now) (trees rest.now)) (tree t.now) (tree ty.term)) }
    ensures depth { IfOk result (λ ty. ty.depth ≡ depth + length rest.now) }
    ensures fault { IfErr result (FaultOf (FailsAt env.now (budget limits.now) (extended (types context.now) (trees rest.now)) (tree t.now))) }
{
    match rest {
        [] => match infer(alloc, env, limits, context, depth, t) {
            Ok(ty) => Ok(ty),
            Err(fault) => Err(fault),
        },
        [first, others @ ..] => {
            let inner = Context::Under(first, context);
            let under = deeper(depth)?;
            match infer_under(alloc, env, limits, &inner, under, others, t) {
                Ok(ty) => Ok(ty),
                Err(fault) => Err(fault),
            }
        }
    }
}

/// The asks of the term against the type, in the same way.
pub(crate) fn check_under<'t, 'c>(
    alloc: Global,
    env: &Env,
    limits: &Limits,
    context: &'c Context<'t, 'c>,
    depth: u32,
    rest: &'t [Term],
    t: &'t Term,
    ty: &'t Term,
) -> Result<(), Fault>
    requires context { IsContext (types context.now) depth }
    requires types { AreTypes env.now (types context.now) (trees rest.now) }
    requires term { IsKnown env.now (depth + length rest.now) (tree t.now) }
    requires known { IsKnown env.now (depth + length rest.now) (tree ty.now) }
    ensures checked { OnOk result (Checks env.now (budget limits.now) (extended (types context.now) (trees rest.now)) (tree t.now) (tree ty.now)) }
    ensures fault { IfErr
        result
        (FaultOf (NotCheckedAt env.now (budget limits.now) (extended (types context.now) (trees rest.now)) (tree t.now) (tree ty.now))) }
{
    match rest {
        [] => match check(alloc, env, limits, context, depth, t, ty) {
            Ok(()) => Ok(()),
            Err(fault) => Err(fault),
        },
        [first, others @ ..] => {
            let inner = Context::Under(first, context);
            let under = deeper(depth)?;
            match check_under(alloc, env, limits, &inner, under, others, t, ty) {
                Ok(()) => Ok(()),
                Err(fault) => Err(fault),
            }
        }
    }
}
