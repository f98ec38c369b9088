//! The numbers, the words and the values of refusals.
ghost use Rattle.std.specs.Prelude.{◌≡◌, IfOk, map};
ghost use Rattle.hb_report.specs.Refusals as spec;
ghost use Rattle.hb_report.specs.Lines.{printed, telling_of};

use hb_base::{Count, NameId};
use hb_env::What;
use hb_term::Scoped;
use std::alloc::{AllocError, Global};

/// A value that is printed.
#[derive(Clone, Copy, Drop)]
pub enum Value<'a> {
    Name(NameId),
    Term(&'a Scoped),
    Count(Count),
}

/// How a refusal is told.
#[derive(Clone, Copy, Drop)]
pub enum Telling {
    /// By its number and its word.
    Numbered(u8, &'static str),
    /// As a budget that is spent on a term.
    Spent,
    /// As steps that are used up.
    UsedUp,
    /// Not at all.
    Untold,
}

/// How a refusal is told.
pub(crate) fn title(what: &What) -> Telling
    ensures { telling_of result ≡ spec.title what.now }
{
    match what {
        What::NotYet => Telling::Numbered(0, "NotYet"),
        What::Utf8 => Telling::Numbered(1, "Utf8"),
        What::Lex => Telling::Numbered(2, "Lex"),
        What::Syntax => Telling::Numbered(3, "Syntax"),
        What::TooDeep => Telling::Numbered(4, "TooDeep"),
        What::TooMany(_) => Telling::Numbered(5, "TooMany"),
        What::FileTooLong => Telling::Numbered(6, "FileTooLong"),
        What::Absent => Telling::Numbered(7, "Absent"),
        What::UnknownName(_) => Telling::Numbered(8, "UnknownName"),
        What::Redeclared(_) => Telling::Numbered(9, "Redeclared"),
        What::ReservedName(_) => Telling::Numbered(10, "ReservedName"),
        What::NotFunction(_) => Telling::Numbered(11, "NotFunction"),
        What::NotType(_) => Telling::Numbered(12, "NotType"),
        What::NotRecord(_) => Telling::Numbered(13, "NotRecord"),
        What::Stuck(_, _) => Telling::Numbered(14, "Stuck"),
        What::NoInstance(_, _) => Telling::Numbered(15, "NoInstance"),
        What::Unsolved => Telling::Numbered(16, "Unsolved"),
        What::NotConvertible(_, _) => Telling::Numbered(17, "NotConvertible"),
        What::LevelTooHigh => Telling::Numbered(18, "LevelTooHigh"),
        What::UnknownFactory(_) => Telling::Numbered(19, "UnknownFactory"),
        What::Unfinished(_) => Telling::Numbered(20, "Unfinished"),
        What::MissingMixin(_) => Telling::Numbered(21, "MissingMixin"),
        What::EmptyStructure => Telling::Numbered(22, "EmptyStructure"),
        What::SameStructure(_) => Telling::Numbered(23, "SameStructure"),
        What::AboveDeclared(_) => Telling::Numbered(24, "AboveDeclared"),
        What::MissingJoin(_, _, _) => Telling::Numbered(25, "MissingJoin"),
        What::Incoherent(_, _, _, _) => Telling::Numbered(26, "Incoherent"),
        What::NotCarrier(_) => Telling::Numbered(27, "NotCarrier"),
        What::SectionOpen => Telling::Numbered(28, "SectionOpen"),
        What::NoSection => Telling::Numbered(29, "NoSection"),
        What::BadLibrary => Telling::Numbered(30, "BadLibrary"),
        What::RequireCycle(_) => Telling::Numbered(31, "RequireCycle"),
        What::Finished(_) => Telling::Numbered(32, "Finished"),
        What::LostName(_) => Telling::Numbered(33, "LostName"),
        What::NeedsMore(_, _) => Telling::Numbered(34, "NeedsMore"),
        What::GivesLess(_, _) => Telling::Numbered(35, "GivesLess"),
        What::StructureLost(_) => Telling::Numbered(36, "StructureLost"),
        What::StructureChanged(_, _) => Telling::Numbered(37, "StructureChanged"),
        What::FieldsChanged(_) => Telling::Numbered(38, "FieldsChanged"),
        What::CoreSyntax => Telling::Numbered(39, "CoreSyntax"),
        What::Unmet(_, _, _) => Telling::Numbered(40, "Unmet"),
        What::NotationClash(_) => Telling::Numbered(41, "NotationClash"),
        What::BadCertificate => Telling::Numbered(42, "BadCertificate"),
        What::Circular(_) => Telling::Numbered(43, "Circular"),
        What::Untyped(_) => Telling::Numbered(44, "Untyped"),
        What::Spent(_) => Telling::Spent,
        What::Moves => Telling::UsedUp,
        What::NoMemory => Telling::Untold,
    }
}

/// The values of a refusal, in their order. Out of memory is the one error.
pub fn values<'a>(alloc: Global, what: &'a What) -> Result<Vec<Value<'a>>, AllocError>
    ensures { IfOk result (λ v. map printed v.items ≡ spec.values what.now) }
{
    match what {
        What::NotYet
        | What::Utf8
        | What::Lex
        | What::Syntax
        | What::TooDeep
        | What::FileTooLong
        | What::Absent
        | What::Unsolved
        | What::LevelTooHigh
        | What::EmptyStructure
        | What::SectionOpen
        | What::NoSection
        | What::BadLibrary
        | What::CoreSyntax
        | What::BadCertificate
        | What::Moves
        | What::NoMemory => Ok(Vec::new(alloc)),
        What::UnknownName(m)
        | What::Redeclared(m)
        | What::ReservedName(m)
        | What::UnknownFactory(m)
        | What::Unfinished(m)
        | What::MissingMixin(m)
        | What::SameStructure(m)
        | What::AboveDeclared(m)
        | What::NotCarrier(m)
        | What::RequireCycle(m)
        | What::Finished(m)
        | What::LostName(m)
        | What::StructureLost(m)
        | What::FieldsChanged(m)
        | What::NotationClash(m) => [Value::Name(*m)].to_vec(alloc),
        What::NeedsMore(m, n) | What::GivesLess(m, n) | What::StructureChanged(m, n) => [
            Value::Name(*m),
            Value::Name(*n),
        ].to_vec(alloc),
        What::MissingJoin(m, n, k) | What::Unmet(m, n, k) => [
            Value::Name(*m),
            Value::Name(*n),
            Value::Name(*k),
        ].to_vec(alloc),
        What::NotFunction(t)
        | What::NotType(t)
        | What::NotRecord(t)
        | What::Circular(t)
        | What::Untyped(t)
        | What::Spent(t) => [Value::Term(t)].to_vec(alloc),
        What::Stuck(t, u) | What::NotConvertible(t, u) => [Value::Term(t), Value::Term(u)].to_vec(
            alloc,
        ),
        What::NoInstance(m, t) => [Value::Name(*m), Value::Term(t)].to_vec(alloc),
        What::Incoherent(m, n, t, u) => [
            Value::Name(*m),
            Value::Name(*n),
            Value::Term(t),
            Value::Term(u),
        ]
        .to_vec(alloc),
        What::TooMany(c) => [Value::Count(*c)].to_vec(alloc),
    }
}
