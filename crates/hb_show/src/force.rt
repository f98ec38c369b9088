//! Notations in force.
use hb_notation::{Notation, Side};
use hb_raw::{Raw, RawKind};

/// The notation that an application is written by: the first of its function's name that has exactly as
/// many operands as it has arguments.
pub(crate) fn notation_of(force: &[Notation], function: &Raw, args: &[Raw]) -> Option<Notation> {
    let RawKind::Name(name) = &function.kind else {
        return None;
    };
    for notation in force {
        if notation.name.0 == name.0 && operands(notation.side) == args.len() {
            return Some(*notation);
        }
    }
    None
}

/// How many operands an operator has.
fn operands(side: Side) -> usize {
    match side {
        Side::Prefix => 1,
        Side::Left | Side::Right | Side::Neither => 2,
    }
}
