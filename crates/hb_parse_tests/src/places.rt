//! Places that were worked out by hand.
use super::answer::{Answer, answered, repeated};
use std::alloc::AllocError;

const PLACES: [(&str, Answer); 34] = [
    ("", Answer::Commands(0)),
    ("(* a (* b *) c *)", Answer::Commands(0)),
    ("a..", Answer::Lex(2)),
    ("a.b.c", Answer::Lex(4)),
    (".5", Answer::Lex(1)),
    ("5.x", Answer::Lex(2)),
    ("_.x", Answer::Lex(2)),
    ("Axiom a : (* x", Answer::Lex(14)),
    ("Axiom a : Type", Answer::Syntax(14, 14)),
    ("Axiom a : Type  ", Answer::Syntax(16, 16)),
    ("Axiom a.b : Type.", Answer::Syntax(6, 9)),
    ("Axiom a : .", Answer::Syntax(10, 11)),
    ("Axiom fun : Type.", Answer::Syntax(6, 9)),
    ("Axiom a : Type. b", Answer::Syntax(16, 17)),
    ("Axiom t : Type @ x.", Answer::Commands(1)),
    ("Axiom t : Type @ (", Answer::Syntax(17, 18)),
    ("Axiom t : Type @", Answer::Syntax(16, 16)),
    ("HB.find S Type @ {0}.", Answer::Commands(1)),
    ("HB.find S Type @ x.", Answer::Syntax(17, 18)),
    ("HB.find S f x.", Answer::Syntax(12, 13)),
    (
        "HB.mixin Record M A := { f : A ;; }.",
        Answer::Syntax(32, 33),
    ),
    ("HB.mixin Record M A := { ; }.", Answer::Syntax(25, 26)),
    (
        "HB.structure Definition S := { A of }.",
        Answer::Syntax(36, 37),
    ),
    (
        "HB.structure Definition S := { A of M A & & }.",
        Answer::Syntax(42, 43),
    ),
    (
        "HB.instance Definition _ := F.Bild k.",
        Answer::Syntax(28, 34),
    ),
    (
        "HB.instance Definition _ (x : T) : F k := v.",
        Answer::Syntax(30, 31),
    ),
    ("HB.other.", Answer::Syntax(0, 8)),
    ("Definition d x : T x := x.", Answer::Commands(1)),
    ("Definition d x : T, x.", Answer::Syntax(18, 19)),
    ("Axiom a : forall x : T y, z.", Answer::Commands(1)),
    ("Axiom a : forall , z.", Answer::Syntax(17, 18)),
    ("Axiom a : f -> .", Answer::Syntax(15, 16)),
    ("Axiom a : (f : ).", Answer::Syntax(15, 16)),
    ("Axiom a : x.(p", Answer::Syntax(14, 14)),
];

#[test]
fn syntax_stands_at_the_first_token_without_a_way_on(rt: HostRuntime) -> Result<(), AllocError> {
    for (text, want) in PLACES {
        assert_eq!(rt; answered(rt.alloc(), text.as_bytes())?, want, "{text}");
    }
    Ok(())
}

/// What stands before the repeated piece, the piece, what stands behind, the most pieces that fit,
/// and the place of the token that doesn't with one more.
const LIMITS: [(&str, &str, &str, u32, Answer); 9] = [
    ("Axiom a : f", " a", ".", 255, Answer::TooDeep(522, 523)),
    (
        "Axiom a : ",
        "T -> ",
        "T.",
        200,
        Answer::TooDeep(1015, 1016),
    ),
    (
        "Axiom a : forall",
        " x",
        ", T.",
        200,
        Answer::TooDeep(420, 421),
    ),
    (
        "Axiom a : forall",
        " (x : T)",
        ", T.",
        200,
        Answer::TooDeep(1622, 1623),
    ),
    (
        "Definition a := fun",
        " x",
        " => T.",
        200,
        Answer::TooDeep(425, 426),
    ),
    (
        "Definition a",
        " x",
        " : T := T.",
        200,
        Answer::TooDeep(417, 418),
    ),
    (
        "Definition a",
        " x",
        " := T.",
        200,
        Answer::TooDeep(418, 419),
    ),
    (
        "HB.instance Definition _ := F.Build k",
        " a",
        ".",
        254,
        Answer::TooDeep(546, 547),
    ),
    (
        "HB.instance Definition _ := F.Build (k",
        " a",
        ").",
        255,
        Answer::TooDeep(549, 550),
    ),
];

#[test]
fn one_more_than_a_limit_is_too_deep(rt: HostRuntime) -> Result<(), AllocError> {
    let alloc = rt.alloc();
    for (head, piece, tail, most, want) in LIMITS {
        let fits = repeated(alloc, head, piece, most, tail)?;
        assert_eq!(rt;
            answered(alloc, fits.as_slice())?,
            Answer::Commands(1),
            "{head}"
        );
        let over = repeated(alloc, head, piece, most.saturating_add(1), tail)?;
        assert_eq!(rt; answered(alloc, over.as_slice())?, want, "{head}");
    }
    Ok(())
}

#[test]
fn brackets_nest_200_times(rt: HostRuntime) -> Result<(), AllocError> {
    let alloc = rt.alloc();
    for (count, want) in [(200, Answer::Commands(1)), (201, Answer::TooDeep(210, 211))] {
        let mut text = repeated(alloc, "Axiom a : ", "(", count, "Type")?;
        let close = repeated(alloc, "", ")", count, ".")?;
        text.extend_from_slice(close.as_slice())?;
        assert_eq!(rt; answered(alloc, text.as_slice())?, want, "{count}");
    }
    Ok(())
}

#[test]
fn an_argument_behind_type_is_late(rt: HostRuntime) -> Result<(), AllocError> {
    let alloc = rt.alloc();
    for (tail, want) in [
        (" Type @ x.", Answer::TooDeep(525, 526)),
        (" Type @ {0}.", Answer::Commands(1)),
        (" Type @ .", Answer::Syntax(527, 528)),
    ] {
        let text = repeated(alloc, "Axiom a : f", " a", 254, tail)?;
        assert_eq!(rt; answered(alloc, text.as_slice())?, want, "{tail}");
    }
    Ok(())
}

#[test]
fn an_identifier_of_256_bytes_is_no_token(rt: HostRuntime) -> Result<(), AllocError> {
    let alloc = rt.alloc();
    let fits = repeated(alloc, "", "a", 255, "")?;
    assert_eq!(rt; answered(alloc, fits.as_slice())?, Answer::Syntax(0, 255));
    let over = repeated(alloc, "", "a", 256, "")?;
    assert_eq!(rt; answered(alloc, over.as_slice())?, Answer::Lex(255));
    Ok(())
}
