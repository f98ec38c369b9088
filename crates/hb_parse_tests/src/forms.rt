//! Each form of a sentence, with the names that it holds.
use super::answer::{bounds, read};
use hb_base::Names;
use hb_raw::{Command, CommandKind, RawKind};
use std::alloc::{AllocError, Global};

/// A sentence, its kind, and its names in the order of their numbers.
const FORMS: [(&str, &str, &str); 23] = [
    ("Axiom a : b.", "axiom", "a b"),
    ("Definition d := t.", "definition", "d t"),
    (
        "Definition d (x y : A) z _ : T := x.",
        "definition",
        "d x y A z T",
    ),
    (
        "HB.mixin Record M A := { f : A; g : A -> A }.",
        "mixin",
        "M A f g",
    ),
    (
        "HB.mixin Record M (A : Type) of N A & P A := { }.",
        "mixin",
        "M A N P",
    ),
    (
        "HB.factory Record F A of M A := { f : A; }.",
        "factory",
        "F A M f",
    ),
    ("HB.builders Context A (f : F A).", "builders", "A f F"),
    ("HB.builders Context (A : Type) of F A.", "builders", "A F"),
    ("HB.end.", "end", ""),
    (
        "HB.structure Definition S := { A of M A }.",
        "structure",
        "S A M",
    ),
    (
        "HB.structure Definition S := { A of M A & N A & }.",
        "structure",
        "S A M N",
    ),
    (
        "HB.instance Definition i : F k := v.",
        "instance",
        "i F k v",
    ),
    (
        "HB.instance Definition _ (x : Type) (y z : S.type) : F (k x y) := v.",
        "instance",
        "x y z S F k v",
    ),
    (
        "HB.instance Definition _ := F.Build k a b.",
        "instance",
        "F F.Build k a b",
    ),
    (
        "HB.instance Definition i (x : S.type) := F.Build (k x) a.",
        "instance",
        "i x S F F.Build k a",
    ),
    ("HB.join A B.", "join", "A B"),
    ("HB.find S (T).", "find", "S T"),
    ("HB.find S f.(M.p).", "find", "S f M.p"),
    ("Require N.", "require", "N"),
    ("Require Import N.", "require", "N"),
    ("HB.howto S k.", "howto", "S k"),
    ("HB.about n.", "about", "n"),
    (
        "Axiom t : forall x y : A, fun (z : _) w => @f Prop Type@{3} (x : HB.mixin) y.(S.p) -> _.",
        "axiom",
        "t x y A z w f HB.mixin S.p",
    ),
];

fn kind(command: &Command) -> &'static str {
    match &command.kind {
        CommandKind::Axiom { .. } => "axiom",
        CommandKind::Definition { .. } => "definition",
        CommandKind::Mixin { .. } => "mixin",
        CommandKind::Factory { .. } => "factory",
        CommandKind::Builders { .. } => "builders",
        CommandKind::End => "end",
        CommandKind::Structure { .. } => "structure",
        CommandKind::Instance { .. } => "instance",
        CommandKind::Join { .. } => "join",
        CommandKind::Find { .. } => "find",
        CommandKind::Require { .. } => "require",
        CommandKind::Howto { .. } => "howto",
        CommandKind::About { .. } => "about",
    }
}

/// Whether the names that are held are these words, in this order.
fn are_named(names: &Names, words: &str) -> bool {
    let mut count: usize = 0;
    for word in words.split_ascii_whitespace() {
        match names.find(word) {
            Some(id) if id.0 as usize == count => count = count.saturating_add(1),
            _ => return false,
        }
    }
    count == names.len()
}

/// Whether the text is one sentence of the kind, with these names.
fn is_form(alloc: Global, text: &str, want: &str, words: &str) -> Result<bool, AllocError> {
    let mut names = Names::new(alloc)?;
    match read(alloc, text.as_bytes(), &mut names)? {
        Ok(commands) => match commands.as_slice() {
            [command] => Ok(kind(command) == want && are_named(&names, words)),
            _ => Ok(false),
        },
        Err(_) => Ok(false),
    }
}

#[test]
fn each_form_is_read(rt: HostRuntime) -> Result<(), AllocError> {
    for (text, kind, words) in FORMS {
        assert!(rt; is_form(rt.alloc(), text, kind, words)?, "{text}");
    }
    Ok(())
}

/// The held level of an axiom's type, if it is one.
fn level(alloc: Global, text: &str) -> Result<Option<u8>, AllocError> {
    let mut names = Names::new(alloc)?;
    let Ok(commands) = read(alloc, text.as_bytes(), &mut names)? else {
        return Ok(None);
    };
    let [command] = commands.as_slice() else {
        return Ok(None);
    };
    match &command.kind {
        CommandKind::Axiom { ty, .. } => match &ty.kind {
            RawKind::Level(level) => Ok(Some(*level)),
            _ => Ok(None),
        },
        _ => Ok(None),
    }
}

#[test]
fn levels_above_63_are_64(rt: HostRuntime) -> Result<(), AllocError> {
    for (text, want) in [
        ("Axiom a : Type.", 0),
        ("Axiom a : Type@{007}.", 7),
        ("Axiom a : Type @ { 63 }.", 63),
        ("Axiom a : Type@{64}.", 64),
        ("Axiom a : Type@{99999999999999999999}.", 64),
    ] {
        assert_eq!(rt; level(rt.alloc(), text)?, Some(want), "{text}");
    }
    Ok(())
}

/// The place of an axiom's type, and of its last argument.
fn type_places(alloc: Global, text: &str) -> Result<Option<((u32, u32), (u32, u32))>, AllocError> {
    let mut names = Names::new(alloc)?;
    let Ok(commands) = read(alloc, text.as_bytes(), &mut names)? else {
        return Ok(None);
    };
    let [command] = commands.as_slice() else {
        return Ok(None);
    };
    let CommandKind::Axiom { ty, .. } = &command.kind else {
        return Ok(None);
    };
    match &ty.kind {
        RawKind::App(_, args) => match args.as_slice() {
            [.., last] => Ok(Some((bounds(ty.span), bounds(last.span)))),
            _ => Ok(None),
        },
        _ => Ok(None),
    }
}

#[test]
fn an_argument_in_parentheses_is_the_term_inside(rt: HostRuntime) -> Result<(), AllocError> {
    for (text, whole, last) in [
        ("Axiom a : f (g x).", (10, 17), (13, 16)),
        ("Axiom a : f (g : x).", (10, 19), (12, 19)),
        ("Axiom a : f x.(p).", (10, 17), (12, 17)),
        ("Axiom a : (f) x.", (10, 15), (14, 15)),
    ] {
        assert_eq!(rt;
            type_places(rt.alloc(), text)?,
            Some((whole, last)),
            "{text}"
        );
    }
    Ok(())
}
