//! Operators with their operands, put together by their levels.
use crate::plain::Use;
use hb_base::Span;
use hb_notation::Notation;
use hb_raw::{Raw, RawKind};
use std::alloc::{AllocError, Global};

/// A term from its first to before its last byte, its parentheses included.
#[derive(Drop)]
pub(crate) struct Operand {
    pub raw: Raw,
    pub from: u32,
    pub to: u32,
}

/// Operands and operators that are being put together.
#[derive(Drop)]
pub(crate) struct Operands {
    alloc: Global,
    done: Vec<Operand>,
    pending: Vec<Use>,
}

impl Operands {
    /// None yet.
    pub fn new(alloc: Global) -> Operands {
        Operands {
            alloc,
            done: Vec::new(alloc),
            pending: Vec::new(alloc),
        }
    }

    /// Takes an operand.
    pub fn operand(&mut self, operand: Operand) -> Result<(), AllocError> {
        self.done.push(operand)?;
        Ok(())
    }

    /// Takes an operator, after the operators whose right operands end before it.
    pub fn operator(&mut self, next: Use) -> Result<(), AllocError> {
        if !next.notation.is_prefix() {
            for _ in 0..self.pending.len() {
                match self.pending.pop() {
                    Some(top) if ends_before(&top.notation, &next.notation) => self.apply(top)?,
                    Some(top) => {
                        self.pending.push(top)?;
                        break;
                    }
                    None => break,
                }
            }
        }
        self.pending.push(next)?;
        Ok(())
    }

    /// The whole term. An operator without an operand is as out of memory; none is.
    pub fn whole(mut self) -> Result<Operand, AllocError> {
        for _ in 0..self.pending.len() {
            match self.pending.pop() {
                Some(top) => self.apply(top)?,
                None => break,
            }
        }
        self.last()
    }

    /// The last operand.
    fn last(&mut self) -> Result<Operand, AllocError> {
        match self.done.pop() {
            Some(operand) => Ok(operand),
            None => Err(AllocError),
        }
    }

    /// Applies an operator to its operands, which are the last ones.
    fn apply(&mut self, top: Use) -> Result<(), AllocError> {
        let right = self.last()?;
        let mut args = Vec::new(self.alloc);
        let mut from = top.span.from;
        if !top.notation.is_prefix() {
            let left = self.last()?;
            from = left.from;
            args.push(left.raw)?;
        }
        let to = right.to;
        args.push(right.raw)?;
        let head = Raw {
            span: top.span,
            kind: RawKind::Name(top.notation.name),
        };
        let span = Span {
            file: top.span.file,
            from,
            to,
        };
        let kind = RawKind::App(Box::new(self.alloc, head)?, args);
        self.done.push(Operand {
            raw: Raw { span, kind },
            from,
            to,
        })?;
        Ok(())
    }
}

/// Whether the right operand of an operator ends before an infix operator behind it.
fn ends_before(top: &Notation, next: &Notation) -> bool {
    !top.takes(next)
}
