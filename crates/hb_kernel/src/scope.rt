//! Contexts: the types of the variables around a place.
ghost use Rattle.std.specs.Prelude.{◌≡◌, ◌≤◌, ◌+◌, length, slice_get, option_map, IfSome, IfOk};
ghost use Rattle.hb_tree.specs.Tree.{loose};
ghost use Rattle.hb_term.specs.Meaning.{tree};
ghost use Rattle.hb_kernel.specs.Contexts.{types, IsContext};

use hb_term::Term;
use std::alloc::AllocError;

/// Types of variables, the innermost first; each stands under those behind it.
#[derive(Drop)]
pub(crate) enum Context<'t, 'c> {
    Empty,
    Under(&'t Term, &'c Context<'t, 'c>),
}

impl<'t, 'c> Context<'t, 'c> {
    /// The type of the variable.
    pub(crate) fn get(&self, v: u32) -> Option<&Term>
        ensures { option_map (λ t. tree t.now) result ≡ slice_get (types self.now) v }
    {
        match self {
            Context::Empty => None,
            Context::Under(ty, outer) => { if v == 0 { Some(*ty) } else { outer.get(v - 1) } }
        }
    }
}

/// The depth under one binder more. More than 32 bits tell is out of memory.
pub(crate) fn deeper(depth: u32) -> Result<u32, AllocError>
    ensures { IfOk result (λ n. n ≡ depth + 1) }
{
    depth.checked_add(1).ok_or(AllocError)
}
