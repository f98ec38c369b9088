//! Colours of a terminal.
use std::alloc::{AllocError, Global};

/// What is coloured.
#[derive(Clone, Copy)]
pub(crate) enum Colour {
    Place,
    Mark,
    Cure,
}

/// The text, in its colour where it is `coloured`.
pub(crate) fn painted(
    alloc: Global,
    coloured: bool,
    colour: Colour,
    text: &str,
) -> Result<String, AllocError> {
    if !coloured {
        return String::from_str(alloc, text);
    }
    let code = match colour {
        Colour::Place => "1",
        Colour::Mark => "1;31",
        Colour::Cure => "36",
    };
    format!(in alloc; "\u{1b}[{code}m{text}\u{1b}[0m")
}
