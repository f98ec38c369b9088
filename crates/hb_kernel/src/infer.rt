//! Inferred types.
ghost use Rattle.std.specs.Prelude.{◌≡◌, ◌+◌, ◌≤◌, ◌∷◌, List, length, OnOk, IfOk, IfErr};
ghost use Rattle.hb_tree.specs.Tree.{Tree, pi, lam, app, proj, loose};
ghost use Rattle.hb_term.specs.Meaning.{tree};
ghost use Rattle.hb_calculus.specs.Budget.{budget};
ghost use Rattle.hb_calculus.specs.Inference.{Infers, SortIs, HeadIs};
ghost use Rattle.hb_kernel.specs.Scoping.{IsKnown};
ghost use Rattle.hb_kernel.specs.Answers.{FailsAt};
ghost use Rattle.hb_kernel.specs.Asks.{NotTypeAt, Applies};
ghost use Rattle.hb_kernel.specs.Contexts.{types, IsContext};
ghost use Rattle.hb_kernel.specs.Faults.{FaultOf};

use crate::arguments::record_of;
use crate::ask::{Product, in_scope, product_of, sort_of};
use crate::compare::ask_below;
use crate::fault::Fault;
use crate::leaf::{constant_type, sort_type, variable_type};
use crate::scope::{Context, deeper};
use crate::sort::product_sort;
use hb_base::Limits;
use hb_env::Env;
use hb_record::projection_type;
use hb_term::{Part, RecId, Scoped, Sort, Term};
use std::alloc::Global;

/// The type that the typing rules give the term, read as a recipe from left to right.
#[cycle(infer)]
pub(crate) fn infer<'t, 'c>(
    alloc: Global,
    env: &Env,
    limits: &Limits,
    context: &'c Context<'t, 'c>,
    depth: u32,
    t: &'t Term,
) -> Result<Scoped, Fault>
    requires context { IsContext (types context.now) depth }
    requires known { IsKnown env.now depth (tree t.now) }
    ensures inferred { IfOk result (λ ty. Infers env.now (budget limits.now) (types context.now) (tree t.now) (tree ty.term)) }
    ensures depth { IfOk result (λ ty. ty.depth ≡ depth) }
    ensures fault { IfErr result (FaultOf (FailsAt env.now (budget limits.now) (types context.now) (tree t.now))) }
{
    match t {
        Term::Sort(s) => sort_type(context, depth, *s),
        Term::Rel(v) => Ok(variable_type(alloc, context, depth, *v)?),
        Term::Const(c) => Ok(constant_type(env, context, depth, *c)?),
        Term::Pi(a, b) => product(alloc, env, limits, context, depth, a, b),
        Term::Lam(a, b) => function(alloc, env, limits, context, depth, a, b),
        Term::App(f, x) => application(alloc, env, limits, context, depth, f, x),
        Term::Proj(rec, field, of) => projection(
            alloc, env, limits, context, depth, *rec, *field, of,
        ),
        Term::Hole(_) => unreachable!(),
    }
}

/// The sort that the type `t` has.
#[cycle(infer)]
pub(crate) fn type_sort<'t, 'c>(
    alloc: Global,
    env: &Env,
    limits: &Limits,
    context: &'c Context<'t, 'c>,
    depth: u32,
    t: &'t Term,
) -> Result<Sort, Fault>
    requires context { IsContext (types context.now) depth }
    requires known { IsKnown env.now depth (tree t.now) }
    ensures sort { IfOk result (SortIs env.now (budget limits.now) (types context.now) (tree t.now)) }
    ensures fault { IfErr result (FaultOf (NotTypeAt env.now (budget limits.now) (types context.now) (tree t.now))) }
{
    let ty = match infer(alloc, env, limits, context, depth, t) {
        Ok(ty) => ty,
        Err(fault) => return Err(fault),
    };
    match sort_of(alloc, env, limits, &ty) {
        Ok(s) => Ok(s),
        Err(fault) => Err(fault),
    }
}

/// The type of a product.
#[cycle(infer)]
fn product<'t, 'c>(
    alloc: Global,
    env: &Env,
    limits: &Limits,
    context: &'c Context<'t, 'c>,
    depth: u32,
    a: &'t Part,
    b: &'t Part,
) -> Result<Scoped, Fault>
    requires context { IsContext (types context.now) depth }
    requires known { IsKnown env.now depth (pi a.now b.now) }
    ensures inferred { IfOk result (λ ty. Infers env.now (budget limits.now) (types context.now) (pi a.now b.now) (tree ty.term)) }
    ensures depth { IfOk result (λ ty. ty.depth ≡ depth) }
    ensures fault { IfErr result (FaultOf (FailsAt env.now (budget limits.now) (types context.now) (pi a.now b.now))) }
{
    let domain = match type_sort(alloc, env, limits, context, depth, a.as_ref()) {
        Ok(s) => s,
        Err(fault) => return Err(fault),
    };
    let inner = Context::Under(a.as_ref(), context);
    let under = deeper(depth)?;
    let codomain = match type_sort(alloc, env, limits, &inner, under, b.as_ref()) {
        Ok(s) => s,
        Err(fault) => return Err(fault),
    };
    Ok(in_scope(Term::Sort(product_sort(domain, codomain)), depth))
}

/// The type of a function.
#[cycle(infer)]
fn function<'t, 'c>(
    alloc: Global,
    env: &Env,
    limits: &Limits,
    context: &'c Context<'t, 'c>,
    depth: u32,
    a: &'t Part,
    b: &'t Part,
) -> Result<Scoped, Fault>
    requires context { IsContext (types context.now) depth }
    requires known { IsKnown env.now depth (lam a.now b.now) }
    ensures inferred { IfOk result (λ ty. Infers env.now (budget limits.now) (types context.now) (lam a.now b.now) (tree ty.term)) }
    ensures depth { IfOk result (λ ty. ty.depth ≡ depth) }
    ensures fault { IfErr result (FaultOf (FailsAt env.now (budget limits.now) (types context.now) (lam a.now b.now))) }
{
    match type_sort(alloc, env, limits, context, depth, a.as_ref()) {
        Ok(_) => {}
        Err(fault) => return Err(fault),
    }
    let inner = Context::Under(a.as_ref(), context);
    let under = deeper(depth)?;
    let ty = match infer(alloc, env, limits, &inner, under, b.as_ref()) {
        Ok(ty) => ty,
        Err(fault) => return Err(fault),
    };
    let product = Term::Pi(a.share()?, Part::new(alloc, ty.into_term())?);
    Ok(in_scope(product, depth))
}

/// The product that is the type of what is applied.
#[cycle(infer)]
fn applied<'t, 'c>(
    alloc: Global,
    env: &Env,
    limits: &Limits,
    context: &'c Context<'t, 'c>,
    depth: u32,
    f: &'t Part,
) -> Result<Product, Fault>
    requires context { IsContext (types context.now) depth }
    requires known { IsKnown env.now depth f.now }
    ensures product { IfOk result (λ p. Applies env.now (budget limits.now) (types context.now) f.now (tree p.domain.term) p.codomain) }
    ensures depth { IfOk result (λ p. p.domain.depth ≡ depth) }
    ensures in_scope { IfOk result (λ p. loose p.codomain ≤ depth + 1) }
    ensures fault { IfErr result (FaultOf (λ c n. (x : Tree) → FailsAt env.now (budget limits.now) (types context.now) (app f.now x) c n)) }
{
    let ty = match infer(alloc, env, limits, context, depth, f.as_ref()) {
        Ok(ty) => ty,
        Err(fault) => return Err(fault),
    };
    match product_of(alloc, env, limits, &ty) {
        Ok(product) => Ok(product),
        Err(fault) => Err(fault),
    }
}

/// The type of an application.
#[cycle(infer)]
fn application<'t, 'c>(
    alloc: Global,
    env: &Env,
    limits: &Limits,
    context: &'c Context<'t, 'c>,
    depth: u32,
    f: &'t Part,
    x: &'t Part,
) -> Result<Scoped, Fault>
    requires context { IsContext (types context.now) depth }
    requires known { IsKnown env.now depth (app f.now x.now) }
    ensures inferred { IfOk result (λ ty. Infers env.now (budget limits.now) (types context.now) (app f.now x.now) (tree ty.term)) }
    ensures depth { IfOk result (λ ty. ty.depth ≡ depth) }
    ensures fault { IfErr result (FaultOf (FailsAt env.now (budget limits.now) (types context.now) (app f.now x.now))) }
{
    let product = match applied(alloc, env, limits, context, depth, f) {
        Ok(product) => product,
        Err(fault) => return Err(fault),
    };
    let ty = match infer(alloc, env, limits, context, depth, x.as_ref()) {
        Ok(ty) => ty,
        Err(fault) => return Err(fault),
    };
    match ask_below(alloc, env, limits, &ty, &product.domain) {
        Ok(()) => {}
        Err(fault) => return Err(fault),
    }
    let result = product.codomain.subst(alloc, x, 0)?;
    Ok(in_scope(result.as_ref().copy()?, depth))
}

/// The type of a projection.
#[cycle(infer)]
fn projection<'t, 'c>(
    alloc: Global,
    env: &Env,
    limits: &Limits,
    context: &'c Context<'t, 'c>,
    depth: u32,
    rec: RecId,
    field: u16,
    of: &'t Part,
) -> Result<Scoped, Fault>
    requires context { IsContext (types context.now) depth }
    requires known { IsKnown env.now depth (proj rec field of.now) }
    ensures inferred { IfOk result (λ ty. Infers env.now (budget limits.now) (types context.now) (proj rec field of.now) (tree ty.term)) }
    ensures depth { IfOk result (λ ty. ty.depth ≡ depth) }
    ensures fault { IfErr result (FaultOf (FailsAt env.now (budget limits.now) (types context.now) (proj rec field of.now))) }
{
    let ty = match infer(alloc, env, limits, context, depth, of.as_ref()) {
        Ok(ty) => ty,
        Err(fault) => return Err(fault),
    };
    let params = match record_of(alloc, env, limits, rec, &ty) {
        Ok(params) => params,
        Err(fault) => return Err(fault),
    };
    let _count = env.len();
    let result = projection_type(alloc, env, rec, field, params.as_slice(), of.as_ref())?;
    Ok(in_scope(result, depth))
}
