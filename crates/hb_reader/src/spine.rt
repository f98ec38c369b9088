//! Applications that are being read.
ghost use Rattle.std.specs.Prelude.{◌≡◌, IfOk, option_map};
ghost use Rattle.hb_grammar.specs.Grammar as grammar;
ghost use Rattle.hb_grammar.specs.Machine as spec;
ghost use Rattle.hb_reader.specs.Arguments.{is_first, takes_arrow, is_alone, making_of};
ghost use Rattle.hb_reader.specs.Views.{part, spine, before};

use super::part::{Part, joined};
use hb_base::Span;
use hb_raw::{Raw, RawKind};
use std::alloc::{AllocError, Global};

/// A function with the arguments so far, and the extent of them all.
#[derive(Drop)]
pub struct Spine {
    pub head: Part,
    pub args: Vec<Raw>,
    pub extent: Span,
}

/// What stands before the argument that is read.
pub enum Before {
    First,
    /// A function with arguments.
    Behind(Spine),
    /// Nothing that takes arguments.
    Alone,
    /// The builder of an instance.
    Making(Spine),
}

impl Drop for Before {
    fn drop(self) {
        match self {
            Before::First | Before::Alone => {}
            Before::Behind(_) | Before::Making(_) => {}
        }
    }
}

impl Spine {
    /// A head without arguments.
    pub fn head(alloc: Global, head: Part) -> Spine
        ensures { spine result ≡ grammar.head_spine (part head) }
    {
        let extent = head.extent;
        Spine {
            head,
            args: Vec::new(alloc),
            extent,
        }
    }

    /// One more argument.
    pub fn with_argument(mut self, a: Part) -> Result<Spine, AllocError>
        ensures { IfOk result (λ s. spine s ≡ grammar.with_argument (spine self) (part a)) }
    {
        self.extent = joined(self.extent, a.extent);
        self.args.push(a.raw)?;
        Ok(self)
    }

    /// The application, or the head alone.
    pub fn into_part(self, alloc: Global) -> Result<Part, AllocError>
        ensures { IfOk result (λ p. part p ≡ grammar.spine_part (spine self)) }
    {
        let Spine { head, args, extent } = self;
        if args.is_empty() {
            return Ok(head);
        }
        let function = Box::new(alloc, head.raw)?;
        let raw = Raw {
            span: extent,
            kind: RawKind::App(function, args),
        };
        Ok(Part { raw, extent })
    }
}

impl Before {
    /// The spine with the argument.
    pub fn filled(self, alloc: Global, a: Part) -> Result<Spine, AllocError>
        ensures { IfOk result (λ s. spine s ≡ spec.filled (before self) (part a)) }
    {
        match self {
            Before::First | Before::Alone => Ok(Spine::head(alloc, a)),
            Before::Behind(s) | Before::Making(s) => s.with_argument(a),
        }
    }

    /// What stands before the argument behind it.
    pub fn next(self, alloc: Global, a: Part) -> Result<Before, AllocError>
        ensures { IfOk result (λ b. before b ≡ spec.next (before self) (part a)) }
    {
        match self {
            Before::Making(s) => Ok(Before::Making(s.with_argument(a)?)),
            other => Ok(Before::Behind(other.filled(alloc, a)?)),
        }
    }

    /// The builder with its arguments, where it stands before.
    pub fn into_making(self) -> Option<Spine>
        ensures { option_map spine result ≡ making_of (before self) }
    {
        match self {
            Before::Making(s) => Some(s),
            Before::First | Before::Behind(_) | Before::Alone => None,
        }
    }

    /// Whether nothing stands before the argument.
    pub fn is_first(&self) -> bool
        ensures { result ≡ is_first (before self.now) }
    {
        match self {
            Before::First => true,
            Before::Behind(_) | Before::Alone | Before::Making(_) => false,
        }
    }

    /// Whether an arrow may come behind the argument.
    pub fn takes_arrow(&self) -> bool
        ensures { result ≡ takes_arrow (before self.now) }
    {
        match self {
            Before::First | Before::Behind(_) => true,
            Before::Alone | Before::Making(_) => false,
        }
    }

    /// Whether nothing takes arguments.
    pub fn is_alone(&self) -> bool
        ensures { result ≡ is_alone (before self.now) }
    {
        match self {
            Before::Alone => true,
            Before::First | Before::Behind(_) | Before::Making(_) => false,
        }
    }
}
