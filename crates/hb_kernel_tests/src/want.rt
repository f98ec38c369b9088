//! What a refusal is to be.
use crate::write::{Line, declaration, term};
use hb_base::{Count, Limits};
use hb_kernel::{KernelRefused, Theory};
use hb_term::{ConstId, Scoped};
use std::alloc::{AllocError, Global};

/// The kind of a refusal, with the name or the count that it names.
#[derive(Clone, Copy, PartialEq, Eq)]
pub(crate) enum Kind {
    Redeclared(u16),
    Unscoped,
    NotFunction,
    NotSort,
    NotRecord,
    NotConvertible,
    LevelTooHigh,
    Spent,
    TooMany(Count),
    NoMemory,
}

/// A refusal with the depth of the scope of its kept terms, and with the terms as they are written.
#[derive(Clone, Copy)]
pub(crate) struct Want(
    pub(crate) Kind,
    pub(crate) u32,
    pub(crate) &'static [&'static str],
);

/// The number of the first name of the declaration at the place.
pub(crate) fn name_at(place: usize) -> u16 {
    place.min(8_000) as u16 * 8
}

/// A theory of the lines, which all have to be accepted.
pub(crate) fn accepted(alloc: Global, lines: &[Line]) -> Result<Theory, KernelRefused> {
    let mut theory = Theory::new(alloc)?;
    add_all(alloc, &mut theory, lines)?;
    Ok(theory)
}

/// Adds the lines, which all have to be accepted.
fn add_all(alloc: Global, theory: &mut Theory, lines: &[Line]) -> Result<(), KernelRefused> {
    let mut place: usize = 0;
    for line in lines {
        theory.add(declaration(alloc, name_at(place), *line)?, &Limits::DEFAULT)?;
        place = place.saturating_add(1);
    }
    Ok(())
}

/// Whether the line, with this number of its first name, is refused as wanted, and nothing is added.
pub(crate) fn is_refused(
    alloc: Global,
    theory: &mut Theory,
    name: u16,
    line: Line,
    limits: &Limits,
    want: Want,
) -> Result<bool, AllocError> {
    let before = theory.env().len();
    let added = theory.add(declaration(alloc, name, line)?, limits);
    let right = is_outcome(alloc, &added, want)?;
    Ok(right && theory.env().len() == before)
}

/// Whether it is the wanted refusal.
pub(crate) fn is_outcome(
    alloc: Global,
    added: &Result<ConstId, KernelRefused>,
    want: Want,
) -> Result<bool, AllocError> {
    match added {
        Ok(_) => Ok(false),
        Err(refused) => is_wanted(alloc, refused, want),
    }
}

/// Whether the refusal is the wanted one.
pub(crate) fn is_wanted(
    alloc: Global,
    refused: &KernelRefused,
    want: Want,
) -> Result<bool, AllocError> {
    let Want(kind, depth, texts) = want;
    if kind_of(refused) != kind {
        return Ok(false);
    }
    if !keeps(alloc, first_of(refused), depth, texts.get(0))? {
        return Ok(false);
    }
    keeps(alloc, second_of(refused), depth, texts.get(1))
}

/// Whether the kept term is that of the text, in a scope of the depth, or there is neither.
fn keeps(
    alloc: Global,
    kept: Option<&Scoped>,
    depth: u32,
    text: Option<&&'static str>,
) -> Result<bool, AllocError> {
    match kept {
        None => Ok(text.is_none()),
        Some(kept) => match text {
            None => Ok(false),
            Some(text) => {
                let wanted = term(alloc, text)?;
                Ok(kept.depth() == depth && kept.term().same(&wanted))
            }
        },
    }
}

fn kind_of(refused: &KernelRefused) -> Kind {
    match refused {
        KernelRefused::Redeclared(name) => Kind::Redeclared(name.0),
        KernelRefused::Unscoped => Kind::Unscoped,
        KernelRefused::NotFunction(_) => Kind::NotFunction,
        KernelRefused::NotSort(_) => Kind::NotSort,
        KernelRefused::NotRecord(_) => Kind::NotRecord,
        KernelRefused::NotConvertible(_, _) => Kind::NotConvertible,
        KernelRefused::LevelTooHigh => Kind::LevelTooHigh,
        KernelRefused::Spent(_) => Kind::Spent,
        KernelRefused::TooMany(count) => Kind::TooMany(*count),
        KernelRefused::NoMemory => Kind::NoMemory,
    }
}

/// The first term that the refusal keeps.
fn first_of(refused: &KernelRefused) -> Option<&Scoped> {
    match refused {
        KernelRefused::NotFunction(w) => Some(w),
        KernelRefused::NotSort(w) => Some(w),
        KernelRefused::NotRecord(w) => Some(w),
        KernelRefused::NotConvertible(x, _) => Some(x),
        KernelRefused::Spent(t) => Some(t),
        _ => None,
    }
}

/// The second term that the refusal keeps.
fn second_of(refused: &KernelRefused) -> Option<&Scoped> {
    match refused {
        KernelRefused::NotConvertible(_, y) => Some(y),
        _ => None,
    }
}
