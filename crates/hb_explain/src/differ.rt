//! Where two terms differ.
use crate::setting::Setting;
use hb_term::{Scoped, Term, View};
use std::alloc::{AllocError, Global};

/// The most pairs of parts that are looked at.
const MOST_LOOKS: u32 = 100_000;

/// Two parts that stand at the same place of two terms, under so many variables.
#[derive(Clone, Copy, Drop)]
struct Pair<'a> {
    left: &'a Term,
    right: &'a Term,
    depth: u32,
}

/// A sentence that names the first parts at which two terms differ, where these are smaller than both.
pub(crate) fn difference(
    setting: Setting<'_>,
    left: &Scoped,
    right: &Scoped,
) -> Result<String, AllocError> {
    match first_difference(setting.alloc, left, right)? {
        Some((one, other)) => {
            let (one, other) = (setting.term(&one)?, setting.term(&other)?);
            format!(in setting.alloc;
                " The first place where they differ has `{one}` against `{other}`."
            )
        }
        None => Ok(String::new(setting.alloc)),
    }
}

/// The first parts, from left to right, that have different roots. `None` where that are the terms
/// themselves, and where no such parts were found.
fn first_difference(
    alloc: Global,
    left: &Scoped,
    right: &Scoped,
) -> Result<Option<(Scoped, Scoped)>, AllocError> {
    let mut stack = Vec::new(alloc);
    let depth = left.depth();
    if !open(beside(left.term(), right.term(), depth), &mut stack)? {
        return Ok(None);
    }
    for _ in 0..MOST_LOOKS {
        let Some(next) = stack.pop() else {
            return Ok(None);
        };
        if !open(next, &mut stack)? {
            return scoped(next);
        }
    }
    Ok(None)
}

/// A pair.
fn beside<'a>(left: &'a Term, right: &'a Term, depth: u32) -> Pair<'a> {
    Pair { left, right, depth }
}

/// The parts with their scope.
fn scoped(found: Pair<'_>) -> Result<Option<(Scoped, Scoped)>, AllocError> {
    let left = Scoped::new(found.left.copy()?, found.depth);
    let right = Scoped::new(found.right.copy()?, found.depth);
    match (left, right) {
        (Some(left), Some(right)) => Ok(Some((left, right))),
        _ => Ok(None),
    }
}

/// Puts the parts of a pair on the stack, the first on top. `false` where the roots differ.
fn open<'a>(both: Pair<'a>, stack: &mut Vec<Pair<'a>>) -> Result<bool, AllocError> {
    let depth = both.depth;
    let inside = depth.saturating_add(1);
    match (both.left.view(), both.right.view()) {
        (View::Sort(s), View::Sort(t)) => Ok(s == t),
        (View::Rel(v), View::Rel(w)) => Ok(v == w),
        (View::Const(c), View::Const(d)) => Ok(c == d),
        (View::Hole(h), View::Hole(k)) => Ok(h == k),
        (View::Pi(a, b), View::Pi(c, d)) => {
            put(stack, beside(b, d, inside))?;
            put(stack, beside(a, c, depth))
        }
        (View::Lam(a, b), View::Lam(c, d)) => {
            put(stack, beside(b, d, inside))?;
            put(stack, beside(a, c, depth))
        }
        (View::App(f, a), View::App(g, b)) => {
            put(stack, beside(a, b, depth))?;
            put(stack, beside(f, g, depth))
        }
        (View::Proj(r, i, t), View::Proj(s, j, u)) => {
            put(stack, beside(t, u, depth))?;
            Ok(r == s && i == j)
        }
        _ => Ok(false),
    }
}

/// Puts a pair on the stack.
fn put<'a>(stack: &mut Vec<Pair<'a>>, next: Pair<'a>) -> Result<bool, AllocError> {
    stack.push(next)?;
    Ok(true)
}
