//! Heads and arguments of applications.
ghost use Rattle.std.specs.Prelude.{◌≡◌, ◌≤◌, length, drop, IfOk};
ghost use Rattle.hb_tree.specs.Tree.{head_of, args_of};

use hb_term::{Part, Term};
use std::alloc::{AllocError, Global};

/// What an application applies to all its arguments.
pub(crate) fn head(part: &Part) -> &Part
    ensures { result.now ≡ head_of part.now }
{
    match part.as_ref() {
        Term::App(f, _) => head(f),
        _ => part,
    }
}

/// The arguments of an application, in order.
pub(crate) fn arguments(alloc: Global, part: &Part) -> Result<Vec<Part>, AllocError>
    ensures { IfOk result (λ xs. xs.items ≡ args_of part.now) }
{
    match part.as_ref() {
        Term::App(f, a) => {
            let mut found = arguments(alloc, f)?;
            found.push(a.share()?)?;
            Ok(found)
        }
        _ => Ok(Vec::new(alloc)),
    }
}

/// The parts from the one of the number `count` on.
pub(crate) fn behind(parts: &[Part], count: usize) -> &[Part]
    requires { count ≤ length parts.now }
    ensures { result.now ≡ drop count parts.now }
{
    &parts[count..]
}
