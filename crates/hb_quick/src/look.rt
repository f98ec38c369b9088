//! A cheap look for terms that are convertible.
ghost use Rattle.std.specs.Prelude.{◌≡◌, IfOk, IsTrue};
ghost use Rattle.hb_tree.specs.Tree.{lam};
ghost use Rattle.hb_term.specs.Meaning.{tree};
ghost use Rattle.hb_calculus.specs.Conversion.{Convertible};
ghost use Rattle.hb_quick.specs.Looks.{AreProjections};

use crate::allowance::Allowance;
use crate::maker::full_maker;
use crate::unfold::unfold;
use hb_base::Limits;
use hb_env::Env;
use hb_term::{Part, RecId, Scoped, Term};
use std::alloc::{AllocError, Global};

/// The most rounds for one pair; its allowance ends them earlier.
const ROUNDS: u32 = 1_000_000;

/// Whether a cheap look finds the terms convertible: the same former with parts that look so, weak head
/// forms, the later constant unfolded first, and both eta rules. A false answer says nothing. No step is
/// taken and no term is made beyond the limits.
pub fn looks_convertible(
    alloc: Global,
    env: &Env,
    a: &Scoped,
    b: &Scoped,
    limits: &Limits,
) -> Result<bool, AllocError>
    ensures { IfOk result (λ y. IsTrue y → Convertible env.now (tree a.now.term) (tree b.now.term)) }
{
    let x = Part::new(alloc, a.term().copy()?)?;
    let y = Part::new(alloc, b.term().copy()?)?;
    let mut left = Allowance::new(limits);
    let levels = left.levels();
    let found = look(alloc, env, &x, &y, levels, &mut left)?;
    Ok(found)
}

/// Whether the terms are alike, or become so by steps at their heads, or by eta once no step is left.
#[cycle(look)]
fn look(
    alloc: Global,
    env: &Env,
    a: &Part,
    b: &Part,
    levels: u32,
    left: &mut Allowance,
) -> Result<bool, AllocError>
    ensures { IfOk result (λ y. IsTrue y → Convertible env.now a.now b.now) }
{
    if levels == 0 {
        return Ok(false);
    }
    let mut x = a.share()?;
    let mut y = b.share()?;
    for _round in 0..ROUNDS {
        if !left.take_pair() {
            return Ok(false);
        }
        if alike(alloc, env, &x, &y, levels - 1, left)? {
            return Ok(true);
        }
        match unfold(alloc, env, &x, &y, left)? {
            Some((u, v)) => {
                x = u;
                y = v;
            }
            None => {
                let found = alike_by_eta(alloc, env, &x, &y, levels - 1, left)?;
                return Ok(found);
            }
        }
    }
    Ok(false)
}

/// Whether both terms have the same former, of parts that look convertible. Arguments are compared in
/// order, after the heads, which are not unfolded.
#[cycle(look)]
fn alike(
    alloc: Global,
    env: &Env,
    a: &Part,
    b: &Part,
    levels: u32,
    left: &mut Allowance,
) -> Result<bool, AllocError>
    ensures { IfOk result (λ y. IsTrue y → Convertible env.now a.now b.now) }
{
    match (a.as_ref(), b.as_ref()) {
        (Term::Pi(p, q), Term::Pi(r, s)) => {
            if !look(alloc, env, p, r, levels, left)? {
                return Ok(false);
            }
            let found = look(alloc, env, q, s, levels, left)?;
            Ok(found)
        }
        (Term::Lam(p, q), Term::Lam(r, s)) => {
            if !look(alloc, env, p, r, levels, left)? {
                return Ok(false);
            }
            let found = look(alloc, env, q, s, levels, left)?;
            Ok(found)
        }
        (Term::App(f, p), Term::App(g, q)) => {
            if levels == 0 {
                return Ok(false);
            }
            if !alike(alloc, env, f, g, levels - 1, left)? {
                return Ok(false);
            }
            let found = look(alloc, env, p, q, levels, left)?;
            Ok(found)
        }
        (Term::Proj(r, i, t), Term::Proj(s, j, u)) => {
            if r != s || i != j {
                return Ok(false);
            }
            let found = look(alloc, env, t, u, levels, left)?;
            Ok(found)
        }
        _ => Ok(a.nodes() == 1 && a.same(b)),
    }
}

/// Whether one of the terms is a function whose body is the other applied to its variable, or a maker whose
/// fields are the projections of the other.
#[cycle(look)]
fn alike_by_eta(
    alloc: Global,
    env: &Env,
    a: &Part,
    b: &Part,
    levels: u32,
    left: &mut Allowance,
) -> Result<bool, AllocError>
    ensures { IfOk result (λ y. IsTrue y → Convertible env.now a.now b.now) }
{
    if is_eta_form(alloc, env, a, b, levels, left)? {
        return Ok(true);
    }
    let found = is_eta_form(alloc, env, b, a, levels, left)?;
    Ok(found)
}

/// The same of the first term alone.
#[cycle(look)]
fn is_eta_form(
    alloc: Global,
    env: &Env,
    a: &Part,
    b: &Part,
    levels: u32,
    left: &mut Allowance,
) -> Result<bool, AllocError>
    ensures { IfOk result (λ y. IsTrue y → Convertible env.now a.now b.now) }
{
    if let Term::Lam(_, body) = a.as_ref() {
        let applied = Part::new(
            alloc,
            Term::App(b.lift(alloc, 1, 0)?, Part::new(alloc, Term::Rel(0))?),
        )?;
        let found = look(alloc, env, body, &applied, levels, left)?;
        return Ok(found);
    }
    match full_maker(env, a) {
        Some((rec, fields)) => {
            let found = has_projections(alloc, env, a, rec, fields, b, levels, left)?;
            Ok(found)
        }
        None => Ok(false),
    }
}

/// Whether the last arguments of a maker look convertible with the first `count` projections of `of`.
#[cycle(look)]
fn has_projections(
    alloc: Global,
    env: &Env,
    made: &Part,
    rec: RecId,
    count: usize,
    of: &Part,
    levels: u32,
    left: &mut Allowance,
) -> Result<bool, AllocError>
    ensures { IfOk result (λ y. IsTrue y → AreProjections env.now rec of.now count made.now) }
{
    let mut now = made;
    let mut field = count;
    while field > 0 {
        field -= 1;
        let Term::App(f, a) = now.as_ref() else {
            return Ok(false);
        };
        let Ok(number) = u16::try_from(field) else {
            return Ok(false);
        };
        let projected = Part::new(alloc, Term::Proj(rec, number, of.share()?))?;
        if !look(alloc, env, a, &projected, levels, left)? {
            return Ok(false);
        }
        now = f;
    }
    Ok(true)
}
