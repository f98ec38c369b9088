//! The operators of a sentence that wait for the end of their right operands.
use crate::kinds::Kind;
use hb_notation::Notation;
use std::alloc::{AllocError, Global};

/// The most arguments that the plain text has in one application.
const MOST_ARGUMENTS: u32 = 255;

/// The operators and arguments of a term so far, inside its brackets.
#[derive(Drop)]
struct Chain {
    /// The operators whose right operands haven't ended.
    pending: Vec<Notation>,
    /// The arguments of the plain text's application.
    arguments: u32,
}

/// A command as far as it is read, as to its operators.
#[derive(Drop)]
pub(crate) struct Sentence {
    alloc: Global,
    operators: u32,
    chain: Chain,
    /// The chains outside of the open brackets, the innermost last.
    outer: Vec<Chain>,
    /// The token before ended an argument, or was an operator.
    after: bool,
    wanting: bool,
    /// Outside of brackets no operator may stand: the carrier of `HB.find`, and the arguments of `F.Build`.
    bare: bool,
    /// An instance whose form isn't known yet.
    instance: bool,
}

impl Sentence {
    /// A sentence of no token.
    pub fn new(alloc: Global) -> Sentence {
        Sentence {
            alloc,
            operators: 0,
            chain: no_chain(alloc),
            outer: Vec::new(alloc),
            after: false,
            wanting: false,
            bare: false,
            instance: false,
        }
    }

    /// Begins a sentence with a first word.
    pub fn begin(&mut self, first: &[u8]) {
        self.operators = 0;
        self.end_chain();
        self.outer.clear();
        self.after = false;
        self.wanting = false;
        self.bare = first == b"HB.find".as_slice();
        self.instance = first == b"HB.instance".as_slice();
    }

    /// How many operators it has.
    pub fn operators(&self) -> u32 {
        self.operators
    }

    /// Whether the token before ended an argument.
    pub fn is_after_argument(&self) -> bool {
        self.after
    }

    /// Whether the token before was an operator.
    pub fn wants_operand(&self) -> bool {
        self.wanting
    }

    /// Ends the term inside its brackets.
    fn end_chain(&mut self) {
        self.chain.pending.clear();
        self.chain.arguments = 0;
    }

    /// Takes a token that is no operator.
    pub fn follow(&mut self, kind: Kind, text: &[u8]) -> Result<(), AllocError> {
        match kind {
            Kind::Leaf => self.chain.arguments = self.chain.arguments.saturating_add(1),
            Kind::Open => {
                self.chain.arguments = self.chain.arguments.saturating_add(1);
                let inner = no_chain(self.alloc);
                let outer = std::mem::replace(&mut self.chain, inner);
                self.outer.push(outer)?;
            }
            Kind::Close => match self.outer.pop() {
                Some(outer) => self.chain = outer,
                None => self.end_chain(),
            },
            Kind::Break => {
                self.end_chain();
                self.form(text);
            }
            Kind::At | Kind::Brace | Kind::Operator | Kind::Quoted | Kind::End | Kind::Other => {}
        }
        self.after = matches!(kind, Kind::Leaf | Kind::Close | Kind::Brace);
        self.wanting = false;
        Ok(())
    }

    /// Learns the form of an instance from a symbol outside of brackets.
    fn form(&mut self, text: &[u8]) {
        if !self.instance || !self.outer.is_empty() {
            return;
        }
        self.bare = text == b":=".as_slice();
        self.instance = false;
    }

    /// Whether the operator may stand here, as to levels. The operators whose right operands end before it
    /// wait no longer.
    pub fn admits(&mut self, next: &Notation) -> bool {
        if self.bare && self.outer.is_empty() {
            return false;
        }
        for _ in 0..=self.chain.pending.len() {
            let Some(top) = self.chain.pending.last() else {
                return true;
            };
            if top.takes(next) {
                return true;
            }
            if next.is_prefix() || !top.goes_left_of(next) {
                return false;
            }
            self.chain.pending.pop();
        }
        true
    }

    /// Takes an operator with so many arguments behind it. Answers whether the plain text's application ends
    /// with it, as it would be too long.
    pub fn operator(&mut self, next: Notation, size: u32) -> Result<bool, AllocError> {
        self.chain.pending.push(next)?;
        self.operators = self.operators.saturating_add(1);
        self.after = false;
        self.wanting = true;
        if next.is_prefix() {
            self.chain.arguments = self.chain.arguments.saturating_add(1);
            return Ok(false);
        }
        let too_long = self.chain.arguments.saturating_add(size) > MOST_ARGUMENTS;
        if too_long {
            self.chain.arguments = 0;
        }
        Ok(too_long)
    }
}

/// No operator and no argument.
fn no_chain(alloc: Global) -> Chain {
    Chain {
        pending: Vec::new(alloc),
        arguments: 0,
    }
}
