//! Steps at the heads of sides.
ghost use Rattle.std.specs.Prelude.{◌≡◌, IfOk};
ghost use Rattle.std.specs.Option.{option_map};
ghost use Rattle.hb_term.specs.Meaning.{tree};
ghost use Rattle.hb_equations.specs.Forms as forms;

use hb_env::Env;
use hb_reduce::{beta, projection};
use hb_term::{Part, Term};
use std::alloc::{AllocError, Global};

/// The term after the step at its head: beta, or a projection of a maker. None where there is none.
pub fn weak(alloc: Global, env: &Env, t: &Term) -> Result<Option<Term>, AllocError>
    ensures { IfOk result (λ o. option_map tree o ≡ forms.weak env.now (tree t.now)) }
{
    let part = Part::new(alloc, t.copy()?)?;
    match weak_part(alloc, env, &part)? {
        None => Ok(None),
        Some(made) => Ok(Some(made.as_ref().copy()?)),
    }
}

fn weak_part(alloc: Global, env: &Env, part: &Part) -> Result<Option<Part>, AllocError>
    ensures { IfOk result (λ o. o ≡ forms.weak env.now part.now) }
{
    match part.as_ref() {
        Term::App(f, a) => {
            if let Some(made) = beta(alloc, f, a)? {
                return Ok(Some(made));
            }
            match weak_part(alloc, env, f)? {
                Some(function) => Ok(Some(Part::new(alloc, Term::App(function, a.share()?))?)),
                None => Ok(None),
            }
        }
        Term::Proj(r, i, t) => {
            if let Some(made) = projection(env, *r, *i, t)? {
                return Ok(Some(made));
            }
            match weak_part(alloc, env, t)? {
                Some(of) => Ok(Some(Part::new(alloc, Term::Proj(*r, *i, of))?)),
                None => Ok(None),
            }
        }
        _ => Ok(None),
    }
}
