//! The sentences of the refusals, with their cures.
use crate::told::Texts;
use hb_env::What;

/// The texts of a refusal.
pub(crate) fn texts_of(what: &What) -> Texts {
    of_form(what)
        .or_else(|| of_file(what))
        .or_else(|| of_names(what))
        .or_else(|| of_terms(what))
        .or_else(|| of_structures(what))
        .or_else(|| of_library(what))
        .unwrap_or(("", ""))
}

/// Faults of form.
fn of_form(what: &What) -> Option<Texts> {
    Some(match what {
        What::NotYet => ("This form isn't built yet.", "Write it in another way."),
        What::Utf8 => ("The file isn't UTF-8 from here on.", "Save it as UTF-8."),
        What::Lex => (
            "No token goes on with what stands here.",
            "Outside of comments there are names, numbers, ( ) { } : := => -> , ; & @ and .(, a point before \
             a blank, and operators, bare or in quotes.",
        ),
        What::Syntax => (
            "No sentence goes on with what stands here.",
            "Each sentence ends with a point and a blank; docs/LANGUAGE.md has the grammar.",
        ),
        What::TooDeep => (
            "More than 200 names, arrows and parentheses are open here, or there are more than 255 \
             arguments.",
            "Give an inner part a name by a Definition.",
        ),
        What::CoreSyntax => (
            "No core text goes on with what stands here.",
            "Write the core text anew, by --rocq.",
        ),
        What::LevelTooHigh => ("A level above 63 comes about here.", "Write a lower level."),
        What::NotationClash(_) => (
            "`%`, or an operator of its level, has a notation in this file that doesn't go together with this one.",
            "An operator has one notation of each kind, and a level one kind and one associativity: take \
             another operator, another level, or the associativity of the others.",
        ),
        _ => return None,
    })
}

/// Refusals of whole files.
fn of_file(what: &What) -> Option<Texts> {
    Some(match what {
        What::TooMany(_) => (
            "There are more % than there may be.",
            "Declare fewer of them in one run.",
        ),
        What::FileTooLong => ("`#` is longer than a file may be.", "Split it."),
        What::Absent => ("There is no file `#`.", "Write it, or name another."),
        What::RequireCycle(_) => (
            "The file of `%` is being read: the files require each other.",
            "Put what both need into a third file, and require that in both.",
        ),
        What::BadLibrary => (
            "`#` isn't as the format of libraries says.",
            "Save it again.",
        ),
        What::BadCertificate => (
            "`#` isn't as the format of certificates says.",
            "Certify again.",
        ),
        _ => return None,
    })
}

/// Refusals of names.
fn of_names(what: &What) -> Option<Texts> {
    Some(match what {
        What::UnknownName(_) => (
            "`%` isn't declared here, or isn't of the kind that this place asks for.",
            "Declare it before, or mend the name.",
        ),
        What::Redeclared(_) => (
            "`%` is declared already, or this command makes it twice.",
            "Take another name.",
        ),
        What::ReservedName(_) => (
            "`%` is kept for generated names.",
            "Take another name: no HB_.. and no _0, and for a mixin, factory, structure or field none of \
             type, sort, class, Pack, Class, axioms_ and Build.",
        ),
        What::UnknownFactory(_) => (
            "`%` is no mixin, factory or structure that may stand here.",
            "Declare it before, or mend the name.",
        ),
        What::NotCarrier(_) => (
            "`%` is no carrier here.",
            "A carrier is a constant that is a type, applied to its binders; for an instance in a section also \
             the section's own.",
        ),
        _ => return None,
    })
}

/// Refusals of terms.
fn of_terms(what: &What) -> Option<Texts> {
    Some(match what {
        What::NotFunction(_) => (
            "What is applied here has the type `%`, which is no product.",
            "Give fewer arguments.",
        ),
        What::NotType(_) => (
            "What stands as a type here has the type `%`, which is no sort.",
            "Write a type in its place.",
        ),
        What::NotRecord(_) => (
            "What is projected here has the type `%`, which isn't the projection's record.",
            "Project a value of that record.",
        ),
        What::Stuck(_, _) => (
            "Nothing says how `%` and `%` become equal.",
            "Write the holes out.",
        ),
        What::Unsolved => ("Nothing says what this hole stands for.", "Write it out."),
        What::NotConvertible(_, _) => (
            "The types `%` and `%` don't agree.",
            "Change the term, or the type that is written for it.",
        ),
        What::NoInstance(_, _) => (
            "There is no instance of `%` at `%`.",
            "Give one before, at this type or at the constant that makes it.",
        ),
        What::Circular(_) => (
            "The strict typing of `%` leads back to itself.",
            "No certificate can be made of it.",
        ),
        What::Untyped(_) => (
            "`%` has no strict typing.",
            "No certificate can be made of it.",
        ),
        What::Spent(_) => (
            "The reduction of `%` passes its limits of steps and size.",
            "Allow more by --steps N, or write a smaller term.",
        ),
        What::Moves => (
            "Unification takes more steps here than are allowed.",
            "Allow more by --steps N, or write holes out.",
        ),
        _ => return None,
    })
}

/// Refusals of structures, instances and sections.
fn of_structures(what: &What) -> Option<Texts> {
    Some(match what {
        What::MissingMixin(_) => (
            "The mixin `%` is required here, and the carrier doesn't have it.",
            "Give it by an instance before.",
        ),
        What::MissingJoin(_, _, _) => (
            "`%` and `%` lie inside of this structure, and their join `%` doesn't.",
            "Declare a structure of both before that join.",
        ),
        What::EmptyStructure => (
            "The list of this structure gives no mixin.",
            "Name a mixin, a factory with builders or a structure in it.",
        ),
        What::SameStructure(_) => ("`%` has the same mixins.", "Use that structure."),
        What::AboveDeclared(_) => (
            "`%` has all mixins of this structure, and more.",
            "Declare this structure before that one.",
        ),
        What::Unmet(_, _, _) => (
            "`%` depends on `%`, which `%` has for other arguments than these.",
            "Write the binders under which it has that.",
        ),
        What::Incoherent(_, _, _, _) => (
            "`%`, built anew at `%`, isn't what depends on the old mixins: `%` against `%`.",
            "Let the builders give the value that the carrier has.",
        ),
        What::Unfinished(_) => (
            "`%` is a factory whose builders aren't ended.",
            "End them by HB.end. before.",
        ),
        What::Finished(_) => (
            "`%` is a factory whose builders were ended before.",
            "Write these builders into that section.",
        ),
        What::SectionOpen => (
            "A section of builders is open, in which this can't stand.",
            "Write HB.end. before.",
        ),
        What::NoSection => (
            "There is no section of builders to end.",
            "Leave this out, or begin one by HB.builders.",
        ),
        _ => return None,
    })
}

/// What a rebuilt library lacks.
fn of_library(what: &What) -> Option<Texts> {
    Some(match what {
        What::LostName(_) => (
            "`%` of the old file is neither a mixin nor an ended factory of the new one.",
            "Keep it, as a factory at least.",
        ),
        What::StructureLost(_) => (
            "`%` of the old file is no structure of the new one.",
            "Keep it.",
        ),
        What::FieldsChanged(_) => (
            "`%` has other field names in the new file.",
            "Keep the old names, in their order.",
        ),
        What::NeedsMore(_, _) => (
            "`%` of the new file requires `%` besides.",
            "Let it require no more than the old one.",
        ),
        What::GivesLess(_, _) => (
            "`%` of the new file doesn't provide `%` any more.",
            "Let its builders give that too.",
        ),
        What::StructureChanged(_, _) => (
            "`%` isn't the old structure: only one of both has `%`.",
            "Keep the old mixins.",
        ),
        _ => return None,
    })
}
