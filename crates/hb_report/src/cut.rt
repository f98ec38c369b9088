//! Texts of terms that are cut.
ghost use Rattle.std.specs.Prelude.{◌≡◌, ◌≤◌, IfOk, length, string_bytes, take};
ghost use Rattle.std.specs.Str.Lossy.{utf8_lossy};
ghost use Rattle.hb_term.specs.Meaning.{tree};
ghost use Rattle.hb_report.specs.Lines as spec;
ghost use Rattle.hb_writer.specs.Text.{text};

use hb_base::Names;
use hb_env::Env;
use hb_term::Scoped;
use hb_writer::term_front;
use std::alloc::{AllocError, Global};

/// The most bytes of a term's text in a line.
const MOST_TEXT: usize = 1000;

/// The text of a term, cut where it is longer than 1,000 bytes.
pub(crate) fn term_cut(
    alloc: Global,
    names: &Names,
    env: &Env,
    term: &Scoped,
) -> Result<String, AllocError>
    ensures { IfOk result (λ cut. string_bytes cut ≡ spec.cut_text (text names.now env.now term.now.depth (tree term.now.term))) }
{
    match term_front(alloc, names, env, term, MOST_TEXT + 1) {
        Ok(text) => cut(alloc, text),
        Err(error) => Err(error),
    }
}

/// A text of at most 1,000 bytes, or its front with three points.
fn cut(alloc: Global, text: String) -> Result<String, AllocError>
    ensures { IfOk result (λ cut. string_bytes cut ≡ spec.cut_text (string_bytes text)) }
{
    if text.as_bytes().len() <= MOST_TEXT {
        return Ok(text);
    }
    let front = front(alloc, text.as_bytes(), MOST_TEXT)?;
    format!(in alloc; "{front}...")
}

/// The first bytes of a longer text.
fn front(alloc: Global, bytes: &[u8], most: usize) -> Result<String, AllocError>
    requires { most ≤ length bytes.now }
    ensures { IfOk result (λ front. string_bytes front ≡ utf8_lossy (take most bytes.now)) }
{
    String::from_utf8_lossy(alloc, &bytes[..most])
}
