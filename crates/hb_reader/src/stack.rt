//! The frames around a term, which keep their nesting.
ghost use Rattle.std.specs.Prelude.{◌≡◌, map};
ghost use Rattle.hb_reader.specs.Frames.{base_of, frames_on, nesting_of, around_each};

use super::frame::{Base, Frame, Nesting, Opener};
use hb_base::Span;
use hb_raw::Word;
use std::alloc::{AllocError, Global};

/// A frame with the nesting around it.
#[derive(Drop)]
pub struct Kept {
    frame: Frame,
    around: Nesting,
}

/// The frames around a term, the innermost last, what the term is in its sentence, and the nesting in
/// them all.
#[derive(Drop)]
pub struct Stack {
    frames: Vec<Kept>,
    base: Base,
    nesting: Nesting,
    ghost counted: { nesting ≡ nesting_of (frames_on (base_of base) frames.items) },
    ghost kept: { map (λ f. f.around) frames.items ≡ around_each (base_of base) frames.items },
}

/// The innermost frame with the stack around it, or the base where there is none.
#[derive(Drop)]
pub enum Innermost {
    Base(Base),
    Frame(Frame, Stack),
}

/// What has binders.
#[derive(Drop)]
pub enum Binding {
    Product(Span, Stack),
    Function(Span, Stack),
    Definition(Span, Word),
}

impl Stack {
    ghost use Rattle.std.specs.Prelude.{IfOk};
    ghost use Rattle.hb_grammar.specs.Machine as plain;
    ghost use Rattle.hb_reader.specs.Frames.{frame_of};
    ghost use Rattle.hb_reader.specs.Measures.{counted};
    ghost use Rattle.hb_reader.specs.Stacks.{stack, parted, height, parted_height};

    /// No frame.
    pub fn on(alloc: Global, base: Base) -> Stack
        ensures { stack result ≡ base_of base }
    {
        let nesting = base.nesting();
        Stack {
            frames: Vec::new(alloc),
            base,
            nesting,
        }
    }

    /// One more frame.
    pub fn push(self, frame: Frame) -> Result<Stack, AllocError>
        ensures { IfOk result (λ s. stack s ≡ frame_of frame (stack self)) }
    {
        let Stack {
            mut frames,
            base,
            nesting: around,
        } = self;
        let nesting = frame.nesting(around);
        frames.push(Kept { frame, around })?;
        Ok(Stack {
            frames,
            base,
            nesting,
        })
    }

    /// The innermost frame and the stack around it.
    pub fn split(self) -> Innermost
        ensures same { parted result ≡ stack self }
        ensures height { parted_height result ≡ height self }
    {
        let Stack {
            mut frames,
            base,
            nesting: _,
        } = self;
        match frames.pop() {
            None => Innermost::Base(base),
            Some(Kept { frame, around }) => {
                let stack = Stack {
                    frames,
                    base,
                    nesting: around,
                };
                Innermost::Frame(frame, stack)
            }
        }
    }

    /// How many bound names, arrows and brackets are around the term.
    pub fn depth(&self) -> u64
        ensures { result ≡ counted (plain.depth (stack self.now)) }
    {
        self.nesting.within
    }

    /// The nesting of what closes the term.
    pub fn closing(&self) -> u64
        ensures { result ≡ counted (plain.closing (stack self.now)) }
    {
        self.nesting.closing
    }
}

impl Opener {
    ghost use Rattle.hb_reader.specs.Frames.{opener_of};
    ghost use Rattle.hb_reader.specs.Stacks.{stack, binding};

    /// The binders that it begins.
    pub fn around(self, k: Stack) -> Binding
        ensures { binding result ≡ opener_of self (stack k) }
    {
        match self {
            Opener::Forall(x) => Binding::Product(x, k),
            Opener::Fun(x) => Binding::Function(x, k),
        }
    }
}
