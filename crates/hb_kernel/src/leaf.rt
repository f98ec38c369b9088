//! The types of sorts, variables and constants.
ghost use Rattle.std.specs.Prelude.{◌≡◌, ◌<◌, List, length, IfOk, IfErr};
ghost use Rattle.hb_tree.specs.Tree.{sort, rel, const};
ghost use Rattle.hb_term.specs.Meaning.{tree};
ghost use Rattle.hb_calculus.specs.Declarations.{Decl};
ghost use Rattle.hb_calculus.specs.Budget.{Budget};
ghost use Rattle.hb_calculus.specs.Scope.{IsDeclared};
ghost use Rattle.hb_calculus.specs.Inference.{Infers};
ghost use Rattle.hb_kernel.specs.Answers.{FailsAt};
ghost use Rattle.hb_kernel.specs.Contexts.{types, IsContext};
ghost use Rattle.hb_kernel.specs.Faults.{FaultOf};

use crate::ask::in_scope;
use crate::fault::Fault;
use crate::scope::Context;
use hb_env::Env;
use hb_term::{ConstId, Scoped, Sort, Term};
use std::alloc::{AllocError, Global};

/// The type of a sort.
pub(crate) fn sort_type(context: &Context<'_, '_>, depth: u32, s: Sort) -> Result<Scoped, Fault>
    ensures inferred { IfOk result (λ ty. (E : List Decl) (L : Budget) → Infers E L (types context.now) (sort s) (tree ty.term)) }
    ensures depth { IfOk result (λ ty. ty.depth ≡ depth) }
    ensures fault { IfErr result (FaultOf (λ c n. (E : List Decl) (L : Budget) → FailsAt E L (types context.now) (sort s) c n)) }
{
    match s {
        Sort::Prop => Ok(in_scope(Term::Sort(Sort::Level(0)), depth)),
        Sort::Level(k) => {
            if k > 62 {
                return Err(Fault::LevelTooHigh);
            }
            Ok(in_scope(Term::Sort(Sort::Level(k + 1)), depth))
        }
    }
}

/// The type of a variable.
pub(crate) fn variable_type(
    alloc: Global,
    context: &Context<'_, '_>,
    depth: u32,
    v: u32,
) -> Result<Scoped, AllocError>
    requires context { IsContext (types context.now) depth }
    requires bound { v < depth }
    ensures inferred { IfOk result (λ ty. (E : List Decl) (L : Budget) → Infers E L (types context.now) (rel v) (tree ty.term)) }
    ensures depth { IfOk result (λ ty. ty.depth ≡ depth) }
{
    match context.get(v) {
        Some(ty) => {
            let lifted = ty.try_lift(alloc, v + 1, 0)?;
            Ok(in_scope(lifted, depth))
        }
        None => unreachable!(),
    }
}

/// The type of a constant.
pub(crate) fn constant_type(
    env: &Env,
    context: &Context<'_, '_>,
    depth: u32,
    c: ConstId,
) -> Result<Scoped, AllocError>
    requires { IsDeclared env.now (const c) }
    ensures inferred { IfOk result (λ ty. (L : Budget) → Infers env.now L (types context.now) (const c) (tree ty.term)) }
    ensures depth { IfOk result (λ ty. ty.depth ≡ depth) }
{
    let _count = env.len();
    match env.type_of(c)? {
        Some(ty) => Ok(in_scope(ty, depth)),
        None => unreachable!(),
    }
}
