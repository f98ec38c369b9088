//! Looks with all their arguments.
ghost use Rattle.std.specs.Prelude.{IfSome};
ghost use Rattle.hb_quick.specs.Looks.{IsFullMaker};

use hb_env::Env;
use hb_reduce::{is_built, sizes};
use hb_term::{ConstId, Part, RecId, Term};

/// The record whose maker the term is, applied to all parameters and fields, and how many fields these
/// are. `None` where there is no such record, or it has no field.
pub(crate) fn full_maker(env: &Env, part: &Part) -> Option<(RecId, usize)>
    ensures { IfSome result (λ p. IsFullMaker env.now part.now p.0 p.1) }
{
    let head = head_constant(part)?;
    let rec = RecId(head.decl);
    let (params, fields) = sizes(env, rec)?;
    if fields == 0 || !is_built(part, rec, params + fields) {
        return None;
    }
    Some((rec, fields))
}

/// The constant at the head of an application.
fn head_constant(part: &Part) -> Option<ConstId> {
    let mut now = part;
    loop {
        match now.as_ref() {
            Term::App(f, _) => now = f,
            Term::Const(c) => return Some(*c),
            _ => return None,
        }
    }
}
