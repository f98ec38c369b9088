//! A source without operators: each operator is written as a projection behind its left operand, or behind
//! `_` where it is prefix, so that the grammar without notations reads the same operands at the same nesting.
use crate::runs::number_of;
use hb_base::Span;
use hb_notation::Notation;
use std::alloc::{AllocError, Global};

/// A token of the plain text, from one byte to before another, with the place of the token of the source that
/// it stands for, and its operator's number where it stands for one.
#[derive(Clone, Copy)]
struct Placed {
    from: u32,
    to: u32,
    span: Span,
    operator: Option<u32>,
}

/// An operator where it is used: its place, its notation, the end of the token before it and the beginning of
/// the one behind it.
#[derive(Clone, Copy)]
pub(crate) struct Use {
    pub span: Span,
    pub notation: Notation,
    pub before: u32,
    pub behind: u32,
}

/// The text without operators, with what its tokens stand for.
#[derive(Drop)]
pub(crate) struct Plain {
    text: Vec<u8>,
    placed: Vec<Placed>,
    uses: Vec<Use>,
    /// The file, and the length of the source.
    file: u16,
    length: u32,
}

impl Plain {
    /// A text of no token yet, of a source so long.
    pub fn new(alloc: Global, file: u16, length: u32) -> Plain {
        Plain {
            text: Vec::new(alloc),
            placed: Vec::new(alloc),
            uses: Vec::new(alloc),
            file,
            length,
        }
    }

    /// The bytes of the text.
    pub fn text(&self) -> &[u8] {
        self.text.as_slice()
    }

    /// The end of the source.
    pub fn end(&self) -> Span {
        Span {
            file: self.file,
            from: self.length,
            to: self.length,
        }
    }

    /// Adds a token of the source.
    pub fn copy(&mut self, text: &[u8], span: Span) -> Result<(), AllocError> {
        if let Some(used) = self.uses.last_mut() {
            if used.behind == u32::MAX {
                used.behind = span.from;
            }
        }
        self.put(text, span, None)
    }

    /// Adds the projection that stands for an operator. `name` is the text of its notation's name; where the
    /// operator ends an application that would be too long, an arrow follows.
    pub fn operator(
        &mut self,
        span: Span,
        notation: Notation,
        name: &[u8],
        arrow: bool,
    ) -> Result<(), AllocError> {
        let number = Some(number_of(self.uses.len()));
        let before = match self.placed.last() {
            Some(placed) => placed.span.to,
            None => span.from,
        };
        if let Some(used) = self.uses.last_mut() {
            if used.behind == u32::MAX {
                used.behind = span.from;
            }
        }
        self.uses.push(Use {
            span,
            notation,
            before,
            behind: u32::MAX,
        })?;
        if notation.is_prefix() {
            self.put(b"_", span, number)?;
        }
        self.put(b".(", span, number)?;
        self.put(name, span, number)?;
        self.put(b")", span, number)?;
        if arrow {
            self.put(b"->", span, number)?;
        }
        Ok(())
    }

    /// Adds a token to the text.
    fn put(&mut self, text: &[u8], span: Span, operator: Option<u32>) -> Result<(), AllocError> {
        let from = number_of(self.text.len());
        self.text.extend_from_slice(text)?;
        let to = number_of(self.text.len());
        self.text.push(b' ')?;
        self.placed.push(Placed {
            from,
            to,
            span,
            operator,
        })?;
        Ok(())
    }

    /// The token that begins at the byte, or has it.
    fn beginning(&self, from: u32) -> Option<&Placed> {
        let after = self.placed.partition_point(|placed| placed.from <= from);
        self.placed.get(after.checked_sub(1)?)
    }

    /// The token that ends at the byte.
    fn ending(&self, to: u32) -> Option<&Placed> {
        let at = self.placed.partition_point(|placed| placed.to < to);
        self.placed.get(at)
    }

    /// Where a place of the text begins in the source.
    pub fn from(&self, from: u32) -> u32 {
        match self.beginning(from) {
            Some(placed) => placed.span.from,
            None => self.length,
        }
    }

    /// Where a place of the text that ends so ends in the source.
    pub fn to(&self, to: u32) -> u32 {
        match self.ending(to) {
            Some(placed) => placed.span.to,
            None => self.length,
        }
    }

    /// The place in the source of a place of the text.
    pub fn span(&self, span: Span) -> Span {
        Span {
            file: self.file,
            from: self.from(span.from),
            to: self.to(span.to),
        }
    }

    /// The operator whose projection ends at the byte.
    pub fn operator_before(&self, to: u32) -> Option<&Use> {
        let number = self.ending(to)?.operator?;
        self.uses.get(number as usize)
    }
}
