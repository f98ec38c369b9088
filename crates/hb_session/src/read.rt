//! Reading sources with a session's names.
ghost use Rattle.std.specs.Prelude.{◌≡◌, ◌≤◌, List, ℕ, IfOk, IfErr, length};
ghost use Rattle.hb_lex.specs.declared.token.Token as lex;
ghost use Rattle.hb_lex.specs.Text.{HasTokens, rules};
ghost use Rattle.hb_lex.specs.Places as places;
ghost use Rattle.hb_parse.specs.Answers as grammar;
ghost use Rattle.hb_raw.specs.Views.{sentences};
ghost use Rattle.hb_session.specs.Source.{FormCause, IsSource, NamesAreRead};
ghost use Rattle.hb_session.specs.State.{state};
ghost use Rattle.hb_session.specs.Taking.{OnlyNames};

use crate::refusing::{at, at_byte};
use crate::session::Session;
use hb_env::{Refusal, What};
use hb_lex::{LexRefused, tokens};
use hb_notation::Sentence;
use hb_parse::{ParseRefused, parse};
use hb_raw::Command;
use hb_sentences::{SentencesRefused, sentences};
use std::alloc::{AllocError, Global};

/// The most bytes of an identifier of a source.
const LONGEST: u32 = 255;

impl Session {
    /// The commands of a source of at most 1 MiB, whose form is read whole. New names are numbered.
    pub fn commands(&mut self, file: u16, bytes: &[u8]) -> Result<Vec<Command>, Refusal>
        requires { length bytes.now ≤ 1048576 }
        ensures source { IfOk result
            (λ cs. IsSource file bytes.now (state self.new).back.names (sentences cs.items)) }
        ensures malformed { IfErr result
            (λ r. FormCause file bytes.now (state self.new).back.names r.span r.what) }
        ensures only_names { OnlyNames (state self.old) (state self.new) }
        ensures tied { NamesAreRead file bytes.now (state self.old).back.names (state self.new).back.names }
        ensures lines { self.new.files.lines ≡ self.old.files.lines }
    {
        let tokens = match tokens(self.alloc, bytes, file, LONGEST) {
            Ok(tokens) => tokens,
            Err(fault) => return Err(no_tokens(file, bytes, fault)),
        };
        match parse(self.alloc, bytes, tokens.as_slice(), &mut self.world.names) {
            Ok(commands) => Ok(commands),
            Err(fault) => Err(no_sentences(file, fault)),
        }
    }

    /// The sentences of a source of at most 1 MiB, notations among them, whose form is read whole. New names
    /// are numbered. Refused as `hb_sentences` refuses tokens and sentences; a clash of notations stands at
    /// the quoted operator.
    pub fn sentences(&mut self, file: u16, bytes: &[u8]) -> Result<Vec<Sentence>, Refusal>
        ensures only_names { OnlyNames (state self.old) (state self.new) }
        ensures lines { self.new.files.lines ≡ self.old.files.lines }
    {
        let tokens = match hb_sentences::tokens(self.alloc, bytes, file, LONGEST) {
            Ok(tokens) => tokens,
            Err(fault) => return Err(no_text(file, fault)),
        };
        let names = &mut self.world.names;
        match sentences(self.alloc, bytes, file, tokens.as_slice(), names) {
            Ok(sentences) => Ok(sentences),
            Err(fault) => Err(no_noted_sentences(file, fault)),
        }
    }

    /// The commands of a source of at most 1 MiB with notations, as `sentences` reads it.
    pub fn noted_commands(&mut self, file: u16, bytes: &[u8]) -> Result<Vec<Command>, Refusal>
        ensures only_names { OnlyNames (state self.old) (state self.new) }
        ensures lines { self.new.files.lines ≡ self.old.files.lines }
    {
        match self.sentences(file, bytes) {
            Ok(sentences) => commands_of(self.alloc, file, sentences),
            Err(refusal) => Err(refusal),
        }
    }
}

/// The commands of sentences.
fn commands_of(
    alloc: Global,
    file: u16,
    sentences: Vec<Sentence>,
) -> Result<Vec<Command>, Refusal> {
    match only_commands(alloc, sentences) {
        Ok(commands) => Ok(commands),
        Err(_) => Err(at(at_byte(file, 0), What::NoMemory)),
    }
}

/// The sentences that are commands.
fn only_commands(alloc: Global, sentences: Vec<Sentence>) -> Result<Vec<Command>, AllocError> {
    let mut commands = Vec::new(alloc);
    for sentence in sentences {
        match sentence {
            Sentence::Command(command) => commands.push(command)?,
            Sentence::Notation(_) => {}
        }
    }
    Ok(commands)
}

/// The refusal of bytes that have no tokens with operators.
pub(crate) fn no_text(file: u16, fault: LexRefused) -> Refusal {
    match fault {
        LexRefused::Utf8 { at: byte } => at(at_byte(file, byte), What::Utf8),
        LexRefused::Lex { at: byte } => at(at_byte(file, byte), What::Lex),
        LexRefused::NoMemory => at(at_byte(file, 0), What::NoMemory),
    }
}

/// The refusal of tokens that have no sentences with notations.
fn no_noted_sentences(file: u16, fault: SentencesRefused) -> Refusal {
    match fault {
        SentencesRefused::Syntax { at: span } => at(span, What::Syntax),
        SentencesRefused::TooDeep { at: span } => at(span, What::TooDeep),
        SentencesRefused::TooMany { count, at: span } => at(span, What::TooMany(count)),
        SentencesRefused::Clash { at: span, op } => at(span, What::NotationClash(op)),
        SentencesRefused::NoMemory => at(at_byte(file, 0), What::NoMemory),
    }
}

/// The refusal of bytes that have no tokens.
fn no_tokens(file: u16, bytes: &[u8], fault: LexRefused) -> Refusal
    requires { places.Refuses (rules file 255) bytes.now fault }
    ensures { (N : List (List ℕ)) → FormCause file bytes.now N result.span result.what }
{
    match fault {
        LexRefused::Utf8 { at: byte } => at(at_byte(file, byte), What::Utf8),
        LexRefused::Lex { at: byte } => at(at_byte(file, byte), What::Lex),
        LexRefused::NoMemory => at(at_byte(file, 0), What::NoMemory),
    }
}

/// The refusal of tokens that have no sentences.
fn no_sentences(file: u16, fault: ParseRefused) -> Refusal
    ensures { (i : ℕ) (bytes : List ℕ) (N : List (List ℕ)) (ts : List lex.Token) → HasTokens (rules i 255) bytes ts → grammar.Refuses N bytes ts fault → FormCause i bytes N result.span result.what }
{
    match fault {
        ParseRefused::Syntax { at: span } => at(span, What::Syntax),
        ParseRefused::TooDeep { at: span } => at(span, What::TooDeep),
        ParseRefused::TooMany { count, at: span } => at(span, What::TooMany(count)),
        ParseRefused::NoMemory => at(at_byte(file, 0), What::NoMemory),
    }
}
