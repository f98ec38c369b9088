//! Whole core texts.
ghost use Rattle.std.specs.Prelude.{◌≡◌, ◌≤◌, ◌^◌, ℕ, List, OnOk, IfOk, IfErr, IfSome, length};
ghost use Rattle.hb_core.specs.Names.{Extends};
ghost use Rattle.hb_core.specs.Places.{RefusedAt, StandsAt, IsToken, end_of};
ghost use Rattle.hb_lex.specs.Text.{Rules, rules, HasTokens};

use crate::draft::Draft;
use crate::error::CoreRefused;
use crate::mark::mark_of;
use crate::name::{number, piece};
use crate::reader::{Reader, Sign};
use crate::state::State;
use hb_base::{NameId, Names, Span};
use hb_env::Decl;
use hb_lex::{Token, tokens};
use std::alloc::Global;

/// The most bytes of an identifier.
const LONGEST: u32 = 600;

/// The declarations of a core text of at most 64 MiB in order, each with the place of its declared name.
/// The names that they declare are numbered. The first token without a way on is CoreSyntax, unless one
/// before it passes a limit; a name that is nothing before is refused only where the form of the whole text
/// is right.
pub fn read_core(
    alloc: Global,
    bytes: &[u8],
    file: u16,
    names: &mut Names,
) -> Result<Vec<(Decl, Span)>, CoreRefused>
    requires fits { length bytes.now ≤ 2 ^ 26 }
    ensures text { OnOk result ((ts : List Token) × HasTokens (rules file 600) bytes.now ts) }
    ensures refused { IfErr result (λ e. RefusedAt (rules file 600) bytes.now e) }
    ensures kept { Extends names.old names.new }
{
    let tokens = match tokens(alloc, bytes, file, LONGEST) {
        Ok(tokens) => tokens,
        Err(refused) => return Err(CoreRefused::from(refused)),
    };
    let end = bytes.len() as u32;
    let end = Span {
        file,
        from: end,
        to: end,
    };
    read_tokens(alloc, bytes, tokens.as_slice(), end, names)
}

/// Reads the tokens of a whole text, which ends at `end`.
fn read_tokens(
    alloc: Global,
    bytes: &[u8],
    tokens: &[Token],
    end: Span,
    names: &mut Names,
) -> Result<Vec<(Decl, Span)>, CoreRefused>
    requires { end ≡ end_of (rules end.file 600) bytes.now }
    ensures refused { IfErr result (λ e. StandsAt (rules end.file 600) bytes.now tokens.now e) }
    ensures kept { Extends names.old names.new }
{
    let mut reader = match Reader::new(alloc, Draft::new(alloc, NameId(0), end)) {
        Ok(reader) => reader,
        Err(error) => return Err(CoreRefused::from(error)),
    };
    match read_all(&mut reader, bytes, tokens, names) {
        Ok((state, unknown)) => match refused_behind(bytes, state, unknown, end, names) {
            None => Ok(reader.done),
            Some(refused) => Err(refused),
        },
        Err(refused) => Err(refused),
    }
}

/// Why a text is refused whose tokens were read, if it is: it ends within a declaration, or a name in it is
/// nothing before.
fn refused_behind(
    bytes: &[u8],
    state: State,
    unknown: Option<Span>,
    end: Span,
    names: &mut Names,
) -> Option<CoreRefused>
    ensures refused { IfSome result (λ e. (r : Rules) (ts : List Token) → end ≡ end_of r bytes.now → IfSome unknown (IsToken ts) → StandsAt r bytes.now ts e) }
    ensures kept { Extends names.old names.new }
{
    if state != State::Begin {
        return Some(CoreRefused::CoreSyntax { at: end });
    }
    match unknown {
        None => None,
        Some(at) => Some(unknown_name(bytes, at, names)),
    }
}

/// Reads the tokens one after another, and answers where the reader stands behind them and the place of the
/// first name that is nothing before.
fn read_all(
    reader: &mut Reader,
    bytes: &[u8],
    tokens: &[Token],
    names: &mut Names,
) -> Result<(State, Option<Span>), CoreRefused>
    ensures unknown { IfOk result (λ o. IfSome o.1 (IsToken tokens.now)) }
    ensures refused { IfErr result (λ e. (r : Rules) (bytes : List ℕ) → StandsAt r bytes tokens.now e) }
    ensures kept { Extends names.old names.new }
{
    let mut state = State::Begin;
    let mut unknown = None;
    for token in tokens {
        match token_step(reader, bytes, *token, state, names) {
            Ok(next) => state = next,
            Err(refused) => return Err(refused),
        }
        unknown = first_missed(reader.misses, unknown, token.span);
    }
    Ok((state, unknown))
}

/// The place of the first name that is nothing before, where one was missed up to this place.
fn first_missed(misses: bool, before: Option<Span>, here: Span) -> Option<Span>
    ensures { (ts : List Token) → IfSome before (IsToken ts) → IsToken ts here → IfSome result (IsToken ts) }
{
    match before {
        Some(at) => Some(at),
        None => { if misses { Some(here) } else { None } }
    }
}

/// Reads a token.
fn token_step(
    reader: &mut Reader,
    bytes: &[u8],
    token: Token,
    state: State,
    names: &mut Names,
) -> Result<State, CoreRefused>
    ensures refused { IfErr result (λ e. (r : Rules) (bytes : List ℕ) (ts : List Token) → IsToken ts token.span → StandsAt r bytes ts e) }
    ensures kept { Extends names.old names.new }
{
    match reader.step(names, state, sign_of(bytes, token)) {
        Ok(next) => Ok(next),
        Err(stop) => Err(stop.at(token.span)),
    }
}

/// A token with its text.
fn sign_of(bytes: &[u8], token: Token) -> Sign<'_> {
    let text = piece(bytes, token.span);
    Sign {
        mark: mark_of(token.kind, text),
        text,
        place: token.span,
    }
}

/// The refusal of a name that is nothing before.
fn unknown_name(bytes: &[u8], at: Span, names: &mut Names) -> CoreRefused
    ensures place { (r : Rules) (ts : List Token) → IsToken ts at → StandsAt r bytes.now ts result }
    ensures kept { Extends names.old names.new }
{
    match number(names, piece(bytes, at)) {
        Ok(name) => CoreRefused::UnknownName { name, at },
        Err(stop) => stop.at(at),
    }
}
