//! Refusals: what is reported of a command, a file or a call that isn't accepted.
ghost use Rattle.std.specs.Prelude.{◌≡◌};

use hb_base::{Count, NameId, Span};
use hb_term::Scoped;
use std::alloc::AllocError;

/// A refusal at its place.
#[derive(Drop)]
pub struct Refusal {
    pub span: Span,
    pub what: What,
}

/// What is refused, with the values that are printed, in their order. Each variant up to `Untyped` has
/// the number of its place here, from 0; `Spent`, `Moves` and `NoMemory` have none.
#[derive(Drop)]
pub enum What {
    /// The form isn't built.
    NotYet,
    /// The file is no UTF-8 from this place on.
    Utf8,
    /// No token goes on with this byte.
    Lex,
    /// No sentence goes on with this token.
    Syntax,
    /// Nesting or the arguments of an application pass their limit at this token.
    TooDeep,
    /// A count would pass its limit.
    TooMany(Count),
    /// The file has more bytes than the limit.
    FileTooLong,
    /// There is no such file.
    Absent,
    /// The name stands for nothing here.
    UnknownName(NameId),
    /// The name is declared, or this command has made it before.
    Redeclared(NameId),
    /// The name is kept for generated ones.
    ReservedName(NameId),
    /// The weak head form of the type of what is applied isn't a product.
    NotFunction(Scoped),
    /// The weak head form of the type of what stands as a type is no sort.
    NotType(Scoped),
    /// The weak head form of the type of what is projected isn't that record.
    NotRecord(Scoped),
    /// Unification ends at this pair.
    Stuck(Scoped, Scoped),
    /// No key of the term has the mixins of the structure, mixin or factory.
    NoInstance(NameId, Scoped),
    /// The hole at this place has no value when its binder or command ends.
    Unsolved,
    /// These normal forms of two types differ, or aren't in order.
    NotConvertible(Scoped, Scoped),
    /// A level above 63.
    LevelTooHigh,
    /// The name is no mixin, factory or structure, as asked here.
    UnknownFactory(NameId),
    /// The factory's section of builders isn't ended.
    Unfinished(NameId),
    /// The first required mixin that the carrier doesn't have.
    MissingMixin(NameId),
    /// The structure has no mixin.
    EmptyStructure,
    /// A declared structure has the same mixins.
    SameStructure(NameId),
    /// The first declared structure that has all its mixins and more.
    AboveDeclared(NameId),
    /// The first two structures below it whose join isn't, with that join.
    MissingJoin(NameId, NameId, NameId),
    /// The mixin's wanted type and its built type at the carrier differ.
    Incoherent(NameId, NameId, Scoped, Scoped),
    /// The name is no carrier here.
    NotCarrier(NameId),
    /// The command can't stand in a section, or the file ends in one.
    SectionOpen,
    /// There is no section to end.
    NoSection,
    /// The library isn't as its format says at this byte.
    BadLibrary,
    /// The file of this name is being read.
    RequireCycle(NameId),
    /// The factory's section of builders was ended before.
    Finished(NameId),
    /// An old mixin or ended factory is neither in the new file.
    LostName(NameId),
    /// The new factory requires this mixin besides.
    NeedsMore(NameId, NameId),
    /// The new factory doesn't provide this mixin any more.
    GivesLess(NameId, NameId),
    /// An old structure isn't declared in the new file.
    StructureLost(NameId),
    /// The first mixin that only one of the old and the new structure has.
    StructureChanged(NameId, NameId),
    /// The field names of the mixin or factory differ from the old ones.
    FieldsChanged(NameId),
    /// No core text goes on with this token.
    CoreSyntax,
    /// The mixin depends on another that the carrier's binders don't meet.
    Unmet(NameId, NameId, NameId),
    /// The operator has a notation in this file that doesn't go together with this one.
    NotationClash(NameId),
    /// The certificate isn't as its format says at this byte.
    BadCertificate,
    /// The typing of the term leads back to itself.
    Circular(Scoped),
    /// The term has no strict typing.
    Untyped(Scoped),
    /// The term passes the limits of reduction.
    Spent(Scoped),
    /// Unification takes more steps than the limit.
    Moves,
    /// Out of memory.
    NoMemory,
}

impl From<AllocError> for What {
    ghost use Rattle.hb_env.specs.declared.refusal.What.{What};

    ghost from_gives = { λ _ w. w ≡ What.NoMemory };

    fn from(_error: AllocError) -> What {
        What::NoMemory
    }
}
