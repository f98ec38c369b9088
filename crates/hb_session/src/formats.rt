//! Reading libraries, core texts and generated commands with a session's names.
ghost use Rattle.std.specs.Prelude.{◌≡◌, ◌≤◌, ◌^◌, IfOk, [], length, map};
ghost use Rattle.hb_session.specs.State.{state};
ghost use Rattle.hb_session.specs.Source.{IsLibrary};
ghost use Rattle.hb_session.specs.Taking.{OnlyNames};

use crate::read::no_text;
use crate::refusing::{at, at_byte};
use crate::session::Session;
use hb_base::{Count, Span};
use hb_core::{CoreRefused, read_core};
use hb_env::{Decl, Entry, Places, Refusal, What};
use hb_gen::{SampleRefused, sample};
use hb_lex::TokenKind;
use hb_libfile::{LibRefused, decode, encode};
use hb_raw::Command;
use std::alloc::{AllocError, Global};

/// The most bytes of an identifier of a core text.
const LONGEST: u32 = 600;

impl Session {
    /// The entries of a library of at most 512 MiB, with their places. The session is empty before.
    pub fn library(&mut self, file: u16, bytes: &[u8]) -> Result<Vec<(Entry, Places)>, Refusal>
        requires fits { length bytes.now ≤ 2 ^ 29 }
        ensures read { IfOk result (λ es. (state self.old).back.names ≡ []
            → IsLibrary bytes.now (state self.new).back.names (map (λ e. e.0) es.items)) }
        ensures only_names { OnlyNames (state self.old) (state self.new) }
        ensures lines { self.new.files.lines ≡ self.old.files.lines }
    {
        match decode(self.alloc, bytes, file, &mut self.world.names) {
            Ok(entries) => Ok(entries),
            Err(LibRefused::BadLibrary { at: byte }) => {
                Err(at(at_byte(file, byte), What::BadLibrary))
            }
            Err(LibRefused::TooMany { at: byte }) => {
                Err(at(at_byte(file, byte), What::TooMany(Count::Names)))
            }
            Err(LibRefused::NoMemory) => Err(at(at_byte(file, 0), What::NoMemory)),
        }
    }

    /// The library of the session's entries. Out of memory is the one error.
    pub fn library_bytes(&self) -> Result<Vec<u8>, AllocError> {
        encode(self.alloc, &self.world.names, self.entries.as_slice())
    }

    /// The declarations of a core text of at most 64 MiB, each with the place of its name.
    pub fn core_text(&mut self, file: u16, bytes: &[u8]) -> Result<Vec<(Decl, Span)>, Refusal>
        requires fits { length bytes.now ≤ 2 ^ 26 }
        ensures only_names { OnlyNames (state self.old) (state self.new) }
        ensures lines { self.new.files.lines ≡ self.old.files.lines }
    {
        match read_core(self.alloc, bytes, file, &mut self.world.names) {
            Ok(decls) => Ok(decls),
            Err(CoreRefused::Lex { at: byte }) => Err(self.core_front(file, bytes, byte)),
            Err(refused) => Err(no_core(file, refused)),
        }
    }

    /// The refusal of a core text whose tokens end at the byte: where an operator stands there, no core text
    /// goes on with it, unless the text before it is refused, or a later byte is in no token.
    fn core_front(&mut self, file: u16, bytes: &[u8], byte: u32) -> Refusal
        requires fits { length bytes.now ≤ 2 ^ 26 }
        ensures only_names { OnlyNames (state self.old) (state self.new) }
        ensures lines { self.new.files.lines ≡ self.old.files.lines }
    {
        let operator = match first_operator(self.alloc, file, bytes) {
            Ok(Some(operator)) => operator,
            Ok(None) => return at(at_byte(file, byte), What::Lex),
            Err(refusal) => return refusal,
        };
        let end = (operator.from as usize).min(bytes.len());
        match read_core(self.alloc, &bytes[..end], file, &mut self.world.names) {
            Err(CoreRefused::TooDeep { at: span }) => at(span, What::TooDeep),
            Err(CoreRefused::TooMany { count, at: span }) => at(span, What::TooMany(count)),
            Err(CoreRefused::NoMemory) => at(at_byte(file, 0), What::NoMemory),
            Err(CoreRefused::CoreSyntax { at: span }) if span.from < operator.from => {
                at(span, What::CoreSyntax)
            }
            _ => at(operator, What::CoreSyntax),
        }
    }

    /// The commands of the sample of the number and the size.
    pub fn sample(&mut self, number: u64, size: u16) -> Result<Vec<Command>, Refusal>
        ensures only_names { OnlyNames (state self.old) (state self.new) }
        ensures lines { self.new.files.lines ≡ self.old.files.lines }
    {
        match sample(self.alloc, &mut self.world.names, number, size) {
            Ok(commands) => Ok(commands),
            Err(SampleRefused::TooMany(count)) => Err(at(at_byte(0, 0), What::TooMany(count))),
            Err(SampleRefused::NoMemory) => Err(at(at_byte(0, 0), What::NoMemory)),
        }
    }
}

/// The place of the first operator of a core text, if it has one.
fn first_operator(alloc: Global, file: u16, bytes: &[u8]) -> Result<Option<Span>, Refusal> {
    let tokens = match hb_sentences::tokens(alloc, bytes, file, LONGEST) {
        Ok(tokens) => tokens,
        Err(fault) => return Err(no_text(file, fault)),
    };
    for token in &tokens {
        if matches!(token.kind, TokenKind::Operator | TokenKind::Quoted) {
            return Ok(Some(token.span));
        }
    }
    Ok(None)
}

/// The refusal of bytes that are no core text.
fn no_core(file: u16, refused: CoreRefused) -> Refusal {
    match refused {
        CoreRefused::Utf8 { at: byte } => at(at_byte(file, byte), What::Utf8),
        CoreRefused::Lex { at: byte } => at(at_byte(file, byte), What::Lex),
        CoreRefused::CoreSyntax { at: span } => at(span, What::CoreSyntax),
        CoreRefused::TooDeep { at: span } => at(span, What::TooDeep),
        CoreRefused::UnknownName { name, at: span } => at(span, What::UnknownName(name)),
        CoreRefused::TooMany { count, at: span } => at(span, What::TooMany(count)),
        CoreRefused::NoMemory => at(at_byte(file, 0), What::NoMemory),
    }
}
