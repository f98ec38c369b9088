//! Each cut of a few files: the fault stands at its end, or at the token that the cut made.
use super::answer::{Answer, answered};
use std::alloc::{AllocError, Global};

const FILES: [&str; 6] = [
    "Axiom nat : Type.\nAxiom zero : nat.\nAxiom succ : nat -> nat.\n",
    "Definition eq (A : Type) (x y : A) : Prop := forall P : A -> Prop, P x -> P y.\nDefinition refl (A : Type) (x : A) : eq A x x := fun P h => h.\n",
    "HB.mixin Record IsAbelianGrp A of AddComoid A := {\n  opp : A -> A;\n  addN : forall x : A, eq A (add (opp x) x) zero\n}.\nHB.structure Definition AbelianGrp := { A of AddComoid A & IsAbelianGrp A }.\n",
    "HB.factory Record IsBoth A := { bop : A -> A -> A; bpt : A }.\nHB.builders Context A (f : IsBoth A).\nHB.instance Definition _ := IsMag.Build A bop.\nHB.end.\nHB.find Mag N.\n",
    "Axiom g : forall n : nat, F n.\n(* a (* b *) c *)\nDefinition z : nat := g _.\nAxiom a : Type@{62}.\n",
    "HB.join Mag W.\nDefinition both (s : MagPtU.type) (h : P (MagPtU_to_Mag s)) : P s.(Mag.sort) := (h : @P).\nRequire Import N.\n",
];

/// Whether the cut at `at` is read, or refused at its end, or at the name that the cut made, which a
/// point may end.
fn is_viable(alloc: Global, text: &[u8], at: usize) -> Result<bool, AllocError> {
    let cut = &text[..at.min(text.len())];
    let end = cut.len();
    match answered(alloc, cut)? {
        Answer::Commands(_) => Ok(true),
        Answer::Lex(place) => Ok(place as usize == end),
        Answer::Syntax(from, to) => Ok(to as usize + 1 >= end && from <= to),
        Answer::TooDeep(_, _) | Answer::Other => Ok(false),
    }
}

#[test]
fn each_cut_has_one_answer_at_its_end(rt: HostRuntime) -> Result<(), AllocError> {
    for file in FILES {
        let text = file.as_bytes();
        for at in 0..text.len() {
            assert!(rt; is_viable(rt.alloc(), text, at)?, "{at}");
        }
    }
    Ok(())
}
