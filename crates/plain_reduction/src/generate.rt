//! Terms by number: the same number gives the same term.

use crate::samples::{COUPLE, DECLARED, OTHER, constant, maker};
use hb_term::{ConstId, RecId, Sort, Term};
use std::alloc::{AllocError, Global};

/// A sequence of numbers that look drawn by lot (Vigna, "xorshift").
#[derive(Clone, Copy)]
pub struct Lots {
    state: u64,
}

impl Lots {
    /// The sequence of the number.
    pub fn new(number: u64) -> Lots {
        Lots {
            state: number.wrapping_mul(0x9E37_79B9_7F4A_7C15) | 1,
        }
    }

    /// The next number of the sequence, below `below`; 0 where that is 0.
    pub fn draw(&mut self, below: u32) -> u32 {
        let mut x = self.state;
        x ^= x.wrapping_shl(13);
        x ^= x.wrapping_shr(7);
        x ^= x.wrapping_shl(17);
        self.state = x;
        let lot = (x >> 33).checked_rem(u64::from(below)).unwrap_or(0);
        u32::try_from(lot).unwrap_or(0)
    }
}

/// A term with variables below `depth`, at most so many formers deep.
pub fn generated(
    alloc: Global,
    lots: &mut Lots,
    depth: u32,
    formers: u32,
) -> Result<Term, AllocError> {
    if formers == 0 {
        return Ok(leaf(lots, depth));
    }
    let inside = formers - 1;
    let under = depth.saturating_add(1);
    match lots.draw(12) {
        0 => Ok(leaf(lots, depth)),
        1 => {
            let domain = generated(alloc, lots, depth, inside)?;
            Term::pi(alloc, domain, generated(alloc, lots, under, inside)?)
        }
        2..=4 => {
            let domain = generated(alloc, lots, depth, inside)?;
            Term::lam(alloc, domain, generated(alloc, lots, under, inside)?)
        }
        5 => {
            let function = generated(alloc, lots, depth, inside)?;
            expanded(alloc, function)
        }
        6 => {
            let of = generated(alloc, lots, depth, inside)?;
            let rec = record(lots);
            Term::proj(alloc, rec, field(lots), of)
        }
        7 => {
            let of = generated(alloc, lots, depth, inside)?;
            remade(alloc, lots, of)
        }
        8 => {
            let first = generated(alloc, lots, depth, inside)?;
            let second = generated(alloc, lots, depth, inside)?;
            made(alloc, lots, first, second)
        }
        _ => {
            let function = generated(alloc, lots, depth, inside)?;
            Term::app(alloc, function, generated(alloc, lots, depth, inside)?)
        }
    }
}

/// A term without parts.
fn leaf(lots: &mut Lots, depth: u32) -> Term {
    match lots.draw(8) {
        0 => Term::Sort(Sort::Prop),
        1 => Term::Sort(Sort::Level(1)),
        2 => maker(lots.draw(DECLARED + 1)),
        3 | 4 => constant(lots.draw(DECLARED + 1)),
        _ => {
            if depth == 0 {
                constant(lots.draw(COUPLE))
            } else {
                Term::Rel(lots.draw(depth))
            }
        }
    }
}

/// A record, or once in a while what is none.
fn record(lots: &mut Lots) -> RecId {
    match lots.draw(8) {
        0 => RecId(lots.draw(DECLARED + 1)),
        1 => RecId(OTHER),
        _ => RecId(COUPLE),
    }
}

/// A field, or once in a while one too many.
fn field(lots: &mut Lots) -> u16 {
    match lots.draw(8) {
        0 => 2,
        1..=4 => 1,
        _ => 0,
    }
}

/// `fun Prop => t _0`, with the function lifted.
fn expanded(alloc: Global, function: Term) -> Result<Term, AllocError> {
    let lifted = function.try_lift(alloc, 1, 0)?;
    Term::lam(
        alloc,
        Term::Sort(Sort::Prop),
        Term::app(alloc, lifted, Term::Rel(0))?,
    )
}

/// A record's maker applied to a parameter and to the two projections of the term, or to one twice.
fn remade(alloc: Global, lots: &mut Lots, of: Term) -> Result<Term, AllocError> {
    let rec = record(lots);
    let first = Term::proj(alloc, rec, 0, of.copy()?)?;
    let second = Term::proj(alloc, rec, field(lots), of)?;
    made(alloc, lots, first, second)
}

/// A maker applied to a parameter and the two fields, to one argument less, or to one more.
fn made(alloc: Global, lots: &mut Lots, first: Term, second: Term) -> Result<Term, AllocError> {
    let head = Term::Const(ConstId {
        decl: record(lots).0,
        maker: true,
    });
    let extra = lots.draw(10);
    let with_parameter = if extra == 0 {
        head
    } else {
        Term::app(alloc, head, Term::Sort(Sort::Prop))?
    };
    let full = Term::app(alloc, Term::app(alloc, with_parameter, first)?, second)?;
    if extra == 1 {
        Term::app(alloc, full, Term::Sort(Sort::Prop))
    } else {
        Ok(full)
    }
}
