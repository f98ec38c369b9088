//! Adding declarations.
ghost use Rattle.std.specs.Prelude.{◌≡◌, ◌++◌, ◌∷◌, [], ◌⊎◌, IfErr, OnOk, OnErr};
ghost use Rattle.hb_calculus.specs.Budget.{budget};
ghost use Rattle.hb_env.specs.Plain.{plain, plains};
ghost use Rattle.hb_step.specs.Adding.{AddFails, Stops};

use crate::refusals::{of_kernel, refused};
use hb_base::{Limits, Span};
use hb_env::{Decl, Refusal, What};
use hb_kernel::{KernelRefused, Theory};
use hb_reduce::whnf;
use hb_term::{Scoped, Term, View};
use std::alloc::Global;

/// Adds the declarations in order, all or none. What the kernel refuses stands at the place.
pub fn add_all(
    alloc: Global,
    theory: &mut Theory,
    decls: &[Decl],
    limits: &Limits,
    span: Span,
) -> Result<(), Refusal>
    ensures added { OnOk result (theory.new ≡ theory.old ++ plains decls.now) }
    ensures place { IfErr result (λ r. r.span ≡ span) }
    ensures stops { IfErr result (λ r. Stops (budget limits.now) theory.old (plains decls.now) r.what) }
    ensures unchanged { OnErr result (theory.new ≡ theory.old) }
{
    let before = theory.env().len();
    for decl in decls {
        match add_copy(alloc, theory, decl, limits, span) {
            Ok(()) => {}
            Err(refusal) => {
                theory.cut(before);
                return Err(refusal);
            }
        }
    }
    Ok(())
}

/// Adds one declaration.
fn add_copy(
    alloc: Global,
    theory: &mut Theory,
    decl: &Decl,
    limits: &Limits,
    span: Span,
) -> Result<(), Refusal>
    ensures added { OnOk result (theory.new ≡ theory.old ++ plain decl.now ∷ []) }
    ensures place { IfErr result (λ r. r.span ≡ span) }
    ensures fails { IfErr result (λ r. AddFails theory.old (budget limits.now) (plain decl.now) r.what) }
    ensures unchanged { OnErr result (theory.new ≡ theory.old) }
{
    let Ok(copy) = decl.copy(alloc) else {
        return Err(refused(span, What::NoMemory));
    };
    match theory.add(copy, limits) {
        Ok(_) => Ok(()),
        Err(fault) => Err(refused(span, of_kernel(fault))),
    }
}

/// Adds a definition or an axiom. What the kernel refuses stands at the written type where it is the type
/// that is refused, and else at the body; an axiom has its type at both.
pub fn add_definition(
    alloc: Global,
    theory: &mut Theory,
    decl: &Decl,
    limits: &Limits,
    ty: Span,
    body: Span,
) -> Result<(), Refusal>
    ensures added { OnOk result (theory.new ≡ theory.old ++ plain decl.now ∷ []) }
    ensures place { IfErr result (λ r. (r.span ≡ ty) ⊎ (r.span ≡ body)) }
    ensures fails { IfErr result (λ r. AddFails theory.old (budget limits.now) (plain decl.now) r.what) }
    ensures unchanged { OnErr result (theory.new ≡ theory.old) }
{
    let Ok(copy) = decl.copy(alloc) else {
        return Err(refused(body, What::NoMemory));
    };
    match theory.add(copy, limits) {
        Ok(_) => Ok(()),
        Err(fault) => {
            let span = blamed(alloc, theory, decl, limits, ty, body);
            Err(refused(span, of_kernel(fault)))
        }
    }
}

/// The place of what the kernel refuses: that of the type, or of the body.
fn blamed(
    alloc: Global,
    theory: &Theory,
    decl: &Decl,
    limits: &Limits,
    ty: Span,
    body: Span,
) -> Span
    ensures { (result ≡ ty) ⊎ (result ≡ body) }
{
    if is_types(alloc, theory, decl, limits) {
        ty
    } else {
        body
    }
}

/// Whether the kernel refuses the declared type itself: it is too large, or has no sort.
fn is_types(alloc: Global, theory: &Theory, decl: &Decl, limits: &Limits) -> bool {
    let (Decl::Axiom { ty, .. } | Decl::Def { ty, .. }) = decl else {
        return true;
    };
    if ty.nodes() > limits.nodes || ty.depth() > limits.depth {
        return true;
    }
    let Ok(ty) = ty.copy() else {
        return true;
    };
    let Some(ty) = Scoped::new(ty, 0) else {
        return true;
    };
    let kind = match theory.infer(&[], &ty, limits) {
        Ok(kind) => kind,
        Err(_) => return true,
    };
    match whnf(alloc, theory.env(), &kind, limits) {
        Ok(form) => !is_sort(form.term()),
        Err(_) => true,
    }
}

/// Whether the term is a sort.
fn is_sort(t: &Term) -> bool {
    match t.view() {
        View::Sort(_) => true,
        _ => false,
    }
}
