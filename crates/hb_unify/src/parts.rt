//! The parts of two terms of the same form.
ghost use Rattle.std.specs.Prelude.{◌≡◌, ◌+◌, map, length, Some, ◌∷◌, [], IfOk};
ghost use Rattle.std.specs.Option.{option_map};
ghost use Rattle.hb_tree.specs.Tree.{head_of, args_of, sort};
ghost use Rattle.hb_calculus.specs.Contraction as contraction;
ghost use Rattle.hb_equations.specs.declared.relation.Relation.TheVariants.{Equal};
ghost use Rattle.hb_term.specs.Meaning.{tree};
ghost use Rattle.hb_equations.specs.Forms as forms;
ghost use Rattle.hb_unify.specs.Plain.{goals};

use crate::act::Goal;
use hb_equations::Relation;
use hb_term::{Sort, Term, View};
use std::alloc::{AllocError, Global};

/// The equations of the parts of two terms of the same form.
pub fn parts(
    alloc: Global,
    depth: u32,
    relation: Relation,
    a: &Term,
    b: &Term,
) -> Result<Option<Vec<Goal>>, AllocError>
    ensures { IfOk result (λ o. option_map (λ qs. goals qs.items) o ≡ forms.parts depth relation (tree a.now) (tree b.now)) }
{
    match a.view() {
        View::Sort(s) => {
            if let View::Sort(t) = b.view() {
                return sort_parts(alloc, relation, s, t);
            }
        }
        View::Pi(x, c) => {
            if let View::Pi(y, d) = b.view() {
                return bound_parts(alloc, depth, relation, x, y, c, d);
            }
        }
        View::Lam(x, c) => {
            if let View::Lam(y, d) = b.view() {
                return bound_parts(alloc, depth, Relation::Equal, x, y, c, d);
            }
        }
        View::Proj(p, i, t) => {
            if let View::Proj(q, j, u) = b.view() {
                if p.0 == q.0 && i == j {
                    return one_part(alloc, depth, t, u);
                }
                return Ok(None);
            }
        }
        _ => {}
    }
    spines(alloc, depth, a, b)
}

fn sort_parts(
    alloc: Global,
    relation: Relation,
    s: Sort,
    t: Sort,
) -> Result<Option<Vec<Goal>>, AllocError>
    ensures { IfOk result (λ o. option_map (λ qs. goals qs.items) o ≡ forms.parts 0 relation (sort s) (sort t)) }
{
    if sorts_fit(relation, s, t) {
        Ok(Some(Vec::new(alloc)))
    } else {
        Ok(None)
    }
}

/// Whether sorts are the same, or in order.
fn sorts_fit(relation: Relation, s: Sort, t: Sort) -> bool
    ensures { result ≡ forms.sorts_fit relation s t }
{
    match relation {
        Relation::Equal => same_sort(s, t),
        Relation::Below => match (s, t) {
            (Sort::Prop, _) => true,
            (Sort::Level(_), Sort::Prop) => false,
            (Sort::Level(j), Sort::Level(k)) => j <= k,
        },
    }
}

fn same_sort(s: Sort, t: Sort) -> bool
    ensures { result ≡ contraction.same_sort s t }
{
    match (s, t) {
        (Sort::Prop, Sort::Prop) => true,
        (Sort::Prop, Sort::Level(_)) => false,
        (Sort::Level(_), Sort::Prop) => false,
        (Sort::Level(j), Sort::Level(k)) => j == k,
    }
}

/// The equation of domains, and of what stands under the binders.
fn bound_parts(
    alloc: Global,
    depth: u32,
    relation: Relation,
    x: &Term,
    y: &Term,
    c: &Term,
    d: &Term,
) -> Result<Option<Vec<Goal>>, AllocError>
    ensures { IfOk result (λ o. option_map (λ qs. goals qs.items) o ≡ Some (forms.goal depth Equal (tree x.now) (tree y.now) ∷ forms.goal (depth + 1) relation (tree c.now) (tree d.now) ∷ [])) }
{
    let under = depth.checked_add(1).ok_or(AllocError)?;
    let mut out = Vec::new(alloc);
    out.push(Goal {
        depth,
        relation: Relation::Equal,
        left: x.copy()?,
        right: y.copy()?,
    })?;
    out.push(Goal {
        depth: under,
        relation,
        left: c.copy()?,
        right: d.copy()?,
    })?;
    Ok(Some(out))
}

/// One equation of equal parts.
fn one_part(alloc: Global, depth: u32, t: &Term, u: &Term) -> Result<Option<Vec<Goal>>, AllocError>
    ensures { IfOk result (λ o. option_map (λ qs. goals qs.items) o ≡ Some (forms.goal depth Equal (tree t.now) (tree u.now) ∷ [])) }
{
    let mut out = Vec::new(alloc);
    out.push(Goal {
        depth,
        relation: Relation::Equal,
        left: t.copy()?,
        right: u.copy()?,
    })?;
    Ok(Some(out))
}

/// The equations of arguments, where the heads are the same.
fn spines(alloc: Global, depth: u32, a: &Term, b: &Term) -> Result<Option<Vec<Goal>>, AllocError>
    ensures { IfOk result (λ o. option_map (λ qs. goals qs.items) o ≡ forms.spines depth (tree a.now) (tree b.now)) }
{
    if !same_head(head(a), head(b)) {
        return Ok(None);
    }
    let xs = arguments(alloc, a)?;
    let ys = arguments(alloc, b)?;
    pairs(alloc, depth, &xs, &ys)
}

/// Whether both are the same constant or variable.
fn same_head(a: &Term, b: &Term) -> bool
    ensures { result ≡ forms.same_head (tree a.now) (tree b.now) }
{
    match a.view() {
        View::Const(c) => match b.view() {
            View::Const(d) => c.decl == d.decl && c.maker == d.maker,
            _ => false,
        },
        View::Rel(v) => match b.view() {
            View::Rel(w) => v == w,
            _ => false,
        },
        _ => false,
    }
}

/// The head of an application.
pub(crate) fn head(t: &Term) -> &Term
    ensures { tree result.now ≡ head_of (tree t.now) }
{
    match t.view() {
        View::App(f, _) => head(f),
        _ => t,
    }
}

/// The arguments in order.
pub(crate) fn arguments(alloc: Global, t: &Term) -> Result<Vec<Term>, AllocError>
    ensures { IfOk result (λ ts. map tree ts.items ≡ args_of (tree t.now)) }
{
    match t.view() {
        View::App(f, a) => {
            let mut ts = arguments(alloc, f)?;
            ts.push(a.copy()?)?;
            Ok(ts)
        }
        _ => Ok(Vec::new(alloc)),
    }
}

/// The equations of terms in order; none where there aren't as many.
pub(crate) fn pairs(
    alloc: Global,
    depth: u32,
    xs: &[Term],
    ys: &[Term],
) -> Result<Option<Vec<Goal>>, AllocError>
    ensures { IfOk result (λ o. option_map (λ qs. goals qs.items) o ≡ forms.pairs depth (map tree xs.now) (map tree ys.now)) }
{
    if xs.len() != ys.len() {
        return Ok(None);
    }
    let mut out = Vec::new(alloc);
    for at in 0..xs.len() {
        let x = &xs[at];
        let y = &ys[at];
        out.push(Goal {
            depth,
            relation: Relation::Equal,
            left: x.copy()?,
            right: y.copy()?,
        })?;
    }
    Ok(Some(out))
}
