//! Carriers with arguments.
ghost use Rattle.std.specs.Prelude.{◌≡◌, map, IfOk};
ghost use Rattle.hb_raw.specs.Views.{term, terms};
ghost use Rattle.hb_grammar.specs.Grammar as grammar;
ghost use Rattle.hb_reader.specs.Views.{part};

use super::part::{Part, joined};
use hb_base::Span;
use hb_raw::{Raw, RawKind, Word};
use std::alloc::{AllocError, Global};

/// A word as a term.
fn word_raw(word: Word) -> Raw
    ensures { term result ≡ grammar.word_term word }
{
    Raw {
        span: word.span,
        kind: RawKind::Name(word.name),
    }
}

/// Words as terms.
fn word_raws(alloc: Global, words: &Vec<Word>) -> Result<Vec<Raw>, AllocError>
    ensures { IfOk result (λ r. terms r.items ≡ map grammar.word_term words.now.items) }
{
    let mut all = Vec::new(alloc);
    for word in words.iter() {
        all.push(word_raw(*word))?;
    }
    Ok(all)
}

/// The last of a word and words.
fn last_word(first: Word, words: &Vec<Word>) -> Word
    ensures { result ≡ grammar.last_word first words.now.items }
{
    let mut last = first;
    for word in words.iter() {
        last = *word;
    }
    last
}

/// A carrier with its arguments as a term.
pub fn carrier_part(
    alloc: Global,
    carrier: Word,
    args: &Vec<Word>,
    extent: Span,
) -> Result<Part, AllocError>
    ensures { IfOk result (λ p. part p ≡ grammar.carrier_part carrier args.now.items extent) }
{
    let raw = carrier_raw(alloc, carrier, args)?;
    Ok(Part { raw, extent })
}

/// The term of a carrier with its arguments.
#[tactic(auto, using(crate::proofs::WordLemmas::carrier_term_some))]
fn carrier_raw(alloc: Global, carrier: Word, args: &Vec<Word>) -> Result<Raw, AllocError>
    ensures { IfOk result (λ r. term r ≡ grammar.carrier_term carrier args.now.items) }
{
    if args.is_empty() {
        return Ok(word_raw(carrier));
    }
    let function = Box::new(alloc, word_raw(carrier))?;
    let raws = word_raws(alloc, args)?;
    let last = last_word(carrier, args);
    Ok(Raw {
        span: joined(carrier.span, last.span),
        kind: RawKind::App(function, raws),
    })
}
