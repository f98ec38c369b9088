//! Terms and declarations from short texts.
//!
//! A term is written with its former first: `P` and `T3` are sorts, `v0` is a variable, `c4` the constant of
//! declaration 4 and `m4` its maker, `> A B` a product, `\ A B` a function, `@ F X` an application,
//! `p4.1 T` the projection of T to field 1 of the record of declaration 4, and `?` a hole.
use hb_base::NameId;
use hb_env::Decl;
use hb_term::{ConstId, RecId, Scoped, Sort, Term};
use std::alloc::{AllocError, Global};
use std::vec::Vec;

/// The form of a declaration, whose terms follow one another in its text. A record has so many parameters
/// before its fields.
#[derive(Clone, Copy)]
pub(crate) enum Form {
    Axiom,
    Def,
    Record { level: u8, params: usize },
}

/// A declaration as it is written.
#[derive(Clone, Copy)]
pub(crate) struct Line(pub(crate) Form, pub(crate) &'static str);

/// The term of the text.
pub(crate) fn term(alloc: Global, text: &str) -> Result<Term, AllocError> {
    let mut terms = terms(alloc, text)?;
    Ok(next(&mut terms))
}

/// The term of the text in a scope.
pub(crate) fn scoped(alloc: Global, text: &str, depth: u32) -> Result<Scoped, AllocError> {
    Scoped::new(term(alloc, text)?, depth).ok_or(AllocError)
}

/// The declaration of the line. Its own name has the number, its maker the next one, and then its fields.
pub(crate) fn declaration(alloc: Global, name: u16, line: Line) -> Result<Decl, AllocError> {
    let Line(form, text) = line;
    let mut terms = terms(alloc, text)?;
    let first = NameId(name);
    match form {
        Form::Axiom => Ok(Decl::Axiom {
            name: first,
            ty: next(&mut terms),
        }),
        Form::Def => Ok(Decl::Def {
            name: first,
            ty: next(&mut terms),
            body: next(&mut terms),
        }),
        Form::Record { level, params } => record(alloc, name, level, params, terms),
    }
}

/// The record with the terms, the last one first.
fn record(
    alloc: Global,
    name: u16,
    level: u8,
    count: usize,
    terms: Vec<Term>,
) -> Result<Decl, AllocError> {
    let mut terms = terms;
    let mut params = Vec::new(alloc);
    for _i in 0..count {
        params.push(next(&mut terms))?;
    }
    let mut fields = Vec::new(alloc);
    let mut named = name.saturating_add(2);
    for _i in 0..terms.len() {
        fields.push((NameId(named), next(&mut terms)))?;
        named = named.saturating_add(1);
    }
    Ok(Decl::Record {
        name: NameId(name),
        maker: NameId(name.saturating_add(1)),
        params,
        level,
        fields,
    })
}

/// The terms of the text, the first one last.
fn terms(alloc: Global, text: &str) -> Result<Vec<Term>, AllocError> {
    let mut terms = Vec::new(alloc);
    let mut number: u32 = 0;
    let mut place: u32 = 1;
    let mut field: u32 = 0;
    for byte in text.as_bytes().iter().rev() {
        match *byte {
            b'0'..=b'9' => {
                number = number.saturating_add(place.saturating_mul(u32::from(*byte - b'0')));
                place = place.saturating_mul(10);
            }
            b'.' => {
                field = number;
                number = 0;
                place = 1;
            }
            b' ' => {}
            former => {
                let made = made(alloc, &mut terms, former, number, field)?;
                terms.push(made)?;
                number = 0;
                place = 1;
            }
        }
    }
    Ok(terms)
}

/// The term that the former makes of the terms behind it.
fn made(
    alloc: Global,
    terms: &mut Vec<Term>,
    former: u8,
    number: u32,
    field: u32,
) -> Result<Term, AllocError> {
    match former {
        b'P' => Ok(Term::Sort(Sort::Prop)),
        b'T' => Ok(Term::Sort(Sort::Level(number.min(255) as u8))),
        b'v' => Ok(Term::Rel(number)),
        b'c' => Ok(Term::Const(ConstId {
            decl: number,
            maker: false,
        })),
        b'm' => Ok(Term::Const(ConstId {
            decl: number,
            maker: true,
        })),
        b'>' => Term::pi(alloc, next(terms), next(terms)),
        b'\\' => Term::lam(alloc, next(terms), next(terms)),
        b'@' => Term::app(alloc, next(terms), next(terms)),
        b'p' => Term::proj(alloc, RecId(number), field.min(65_535) as u16, next(terms)),
        _ => Ok(Term::Hole(0)),
    }
}

/// The next term; a hole where there is none.
fn next(terms: &mut Vec<Term>) -> Term {
    match terms.pop() {
        Some(term) => term,
        None => Term::Hole(0),
    }
}
