//! The commands of a file.
ghost use Rattle.std.specs.Prelude.{◌≡◌, ◌≤◌, ◌<◌, ◌^◌, length, IfOk, IfErr, OnOk};
ghost use Rattle.hb_raw.specs.Views.{sentences};
ghost use Rattle.hb_parse.specs.Answers.{AddsOnly, AddsRead, AreHeld, AreTokens, IsFormFault, ReadsAs, ReadsNone, Refuses, file_number, place_at};
ghost use Rattle.hb_parse.specs.Numbers.{Extends};
ghost use Rattle.hb_parse.specs.Turns.{refusal};

use super::error::ParseRefused;
use super::piece::piece;
use super::turn::{Stop, turn};
use hb_base::{Count, Names, Span};
use hb_lex::Token;
use hb_raw::Command;
use hb_reader::State;
use std::alloc::Global;

/// The commands of a file by its tokens, which are those of the bytes. Of the faults of form the
/// earlier comes first; Syntax stands at the first token without a way on. The names that the
/// commands need are numbered.
pub fn parse(
    alloc: Global,
    bytes: &[u8],
    tokens: &[Token],
    names: &mut Names,
) -> Result<Vec<Command>, ParseRefused>
    requires tokens { AreTokens bytes.now tokens.now }
    ensures read { IfOk result (λ cs. ReadsAs names.new bytes.now tokens.now (sentences cs.items)) }
    ensures refused { IfErr result (λ e. Refuses names.new bytes.now tokens.now e) }
    ensures none { IfErr result (λ e. IsFormFault e → ReadsNone names.new bytes.now tokens.now) }

    // The names that were held keep their numbers; each further one is one that the tokens read so far
    // need, and after `Ok` a command's.
    ensures kept { Extends names.old names.new }
    ensures tied { AddsRead names.old names.new bytes.now tokens.now }
    ensures held { IfOk result (λ cs. AreHeld names.new (sentences cs.items)) }
    ensures alone { IfOk result (λ cs. AddsOnly names.old names.new (sentences cs.items)) }
{
    let mut commands = Vec::new(alloc);
    let mut state = State::begin();
    for (i, token) in tokens.iter().enumerate() {
        let text = piece(bytes, token.span);
        match turn(alloc, names, state, token.kind, text, token.span) {
            Ok(next) => match next.finished() {
                Ok(command) => {
                    commands.push(command)?;
                    state = State::begin();
                }
                Err(going) => state = going,
            },
            Err(stop) => return Err(refused(bytes, tokens, i, stop)),
        }
    }
    let whole = state.is_begin();
    drop(state);
    if whole {
        Ok(commands)
    } else {
        Err(ParseRefused::Syntax {
            at: place(bytes, tokens, tokens.len()),
        })
    }
}

/// The refusal at token number `i`.
fn refused(bytes: &[u8], tokens: &[Token], i: usize, stop: Stop) -> ParseRefused
    requires small { length bytes.now ≤ 2 ^ 26 }
    ensures { result ≡ refusal bytes.now tokens.now i stop }
{
    match stop {
        Stop::Stuck => ParseRefused::Syntax {
            at: place(bytes, tokens, i),
        },
        Stop::Deep { late: true } => ParseRefused::TooDeep {
            at: place(bytes, tokens, i.saturating_sub(1)),
        },
        Stop::Deep { late: false } => ParseRefused::TooDeep {
            at: place(bytes, tokens, i),
        },
        Stop::Full => ParseRefused::TooMany {
            count: Count::Names,
            at: place(bytes, tokens, i),
        },
        Stop::NoMemory => ParseRefused::NoMemory,
    }
}

/// The place of token number `i`, or the end of the file behind the last.
fn place(bytes: &[u8], tokens: &[Token], i: usize) -> Span
    requires small { length bytes.now ≤ 2 ^ 26 }
    ensures { result ≡ place_at bytes.now tokens.now i }
{
    match tokens.get(i) {
        Some(token) => token.span,
        None => {
            let end = bytes.len() as u32;
            Span {
                file: file_number(tokens),
                from: end,
                to: end,
            }
        }
    }
}

/// The number of the file, which is that of its tokens.
fn file_number(tokens: &[Token]) -> u16
    ensures { result ≡ file_number tokens.now }
{
    match tokens {
        [] => 0,
        [first, ..] => first.span.file,
    }
}
