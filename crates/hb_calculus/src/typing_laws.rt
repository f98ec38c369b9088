//! Laws of typing and of inferred types.
ghost use Rattle.hb_calculus.specs.TypingLaws.{TypedIsScoped};
ghost use Rattle.hb_calculus.specs.TypingLaws.{InferredIsTyped, SortIsTyped, CheckedIsTyped, AcceptedIsTyped, LevelIsLeast};

/// What is typed is scoped and names only what is declared.
pub fn typed_term_laws()
    ensures { TypedIsScoped }
{}

/// What the recipe for types accepts has the type by the typing rules.
pub fn inferred_type_laws()
    ensures inferred { InferredIsTyped }
    ensures sort { SortIsTyped }
    ensures checked { CheckedIsTyped }
    ensures accepted { AcceptedIsTyped }
    ensures level { LevelIsLeast }
{}
