//! Heads and arguments of applications, from the last one back.
ghost use Rattle.std.specs.Prelude.{◌≡◌, ◌+◌, ◌<◌, ◌^◌, false, option_map, slice_get, IfSome};
ghost use Rattle.hb_tree.specs.Tree.{proj};
ghost use Rattle.hb_calculus.specs.Contraction.{same_tree};
ghost use Rattle.hb_calculus.specs.Declarations.{record_in};
ghost use Rattle.hb_reduce.specs.Kinds.{kind, grown, neutral, is_built};
ghost use Rattle.hb_reduce.specs.Spines.{argument, ends_with, SizesAre};

use hb_env::{Decl, Env};
use hb_term::{Part, RecId, Term};

/// How many parameters and fields the record has; `None` if it is none.
pub fn sizes(env: &Env, rec: RecId) -> Option<(usize, usize)>
    ensures sizes { SizesAre (record_in (slice_get env.now rec.0)) result }
    ensures fits { IfSome result (λ p. p.0 + p.1 < 2 ^ 64) }
{
    match env.decl(rec.0) {
        Some(Decl::Record { params, fields, .. }) => Some((params.len(), fields.len())),
        _ => None,
    }
}

/// Whether it is the record's maker with `count` arguments.
pub fn is_built(part: &Part, rec: RecId, count: usize) -> bool
    ensures { result ≡ is_built rec.0 count (kind part.now) }
{
    let mut now = part;
    let mut left = count;
    loop {
        match now.as_ref() {
            Term::App(f, _) => {
                if left == 0 {
                    return false;
                }
                left -= 1;
                now = f;
            }
            Term::Const(c) => return c.maker && c.decl == rec.0 && left == 0,
            _ => return false,
        }
    }
}

/// The argument before the last `behind`.
pub(crate) fn argument(part: &Part, behind: usize) -> Option<&Part>
    ensures { option_map (λ p. p.now) result ≡ argument part.now behind }
{
    let mut now = part;
    let mut left = behind;
    loop {
        match now.as_ref() {
            Term::App(f, a) => {
                if left == 0 {
                    return Some(a);
                }
                left -= 1;
                now = f;
            }
            _ => return None,
        }
    }
}

/// Whether the last `count` arguments are the first `count` projections of `of`.
pub(crate) fn ends_with(part: &Part, rec: RecId, count: usize, of: &Part) -> bool
    ensures { result ≡ ends_with part.now rec count of.now }
{
    let mut now = part;
    let mut left = count;
    loop {
        if left == 0 {
            return true;
        }
        match now.as_ref() {
            Term::App(f, a) => {
                left -= 1;
                if !is_projection(a, rec, left, of) {
                    return false;
                }
                now = f;
            }
            _ => return false,
        }
    }
}

/// Whether the part is the projection of `of` to the field.
fn is_projection(part: &Part, rec: RecId, field: usize, of: &Part) -> bool
    ensures { result ≡ same_tree part.now (proj rec field of.now) }
{
    let Term::Proj(r, i, t) = part.as_ref() else {
        return false;
    };
    if *r != rec || usize::from(*i) != field {
        return false;
    }
    t.same(of)
}

/// Whether a maker stands at the head.
pub(crate) fn has_maker(part: &Part) -> bool
    ensures { result ≡ false → grown (kind part.now) ≡ neutral }
{
    let mut now = part;
    loop {
        match now.as_ref() {
            Term::App(f, _) => now = f,
            Term::Const(c) => return c.maker,
            _ => return false,
        }
    }
}

/// Whether a former around the part may ask for it: a function, or a maker with arguments.
pub(crate) fn shows(part: &Part) -> bool
    ensures { result ≡ false → kind part.now ≡ neutral }
{
    match part.as_ref() {
        Term::Lam(_, _) => true,
        Term::App(f, _) => has_maker(f),
        Term::Const(c) => c.maker,
        _ => false,
    }
}
