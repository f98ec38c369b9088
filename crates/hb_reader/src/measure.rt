//! The nesting of tokens, and which arguments they begin.
ghost use Rattle.std.specs.Prelude.{◌≡◌, ◌+◌};
ghost use Rattle.hb_grammar.specs.declared.mark.Mark as marks;
ghost use Rattle.hb_grammar.specs.declared.mark.Mark.TheVariants.{At};
ghost use Rattle.hb_grammar.specs.Leaf as leaf;
ghost use Rattle.hb_grammar.specs.Part as shape;
ghost use Rattle.hb_grammar.specs.Machine as plain;
ghost use Rattle.hb_reader.specs.Measures.{counted, IsMeasure};
ghost use Rattle.hb_reader.specs.Stacks.{stack, binding};
ghost use Rattle.hb_reader.specs.Views.{before};

use super::following::begins_argument;
use super::spine::Before;
use super::stack::{Binding, Stack};
use hb_grammar::Mark;

/// The nesting of a token, and the number of the argument that it begins, 0 for none. The nesting
/// stands still at the end of its type.
#[derive(Clone, Copy)]
pub struct Measure {
    pub nested: u64,
    pub applied: u64,
}

/// How many bound names, arrows and brackets are around a list of binders.
fn binding_depth(around: &Binding) -> u64
    ensures { result ≡ counted (plain.binding_depth (binding around.now)) }
{
    match around {
        Binding::Product(_, k) => k.depth(),
        Binding::Function(_, k) => k.depth(),
        Binding::Definition(_, _) => 0,
    }
}

/// The number of the argument that comes.
fn count(b: &Before) -> u64
    ensures { result ≡ plain.count (before b.now) }
{
    match b {
        Before::First | Before::Alone => 0,
        Before::Behind(s) => s.args.len() as u64 + 1,
        Before::Making(s) => s.args.len() as u64 + 1,
    }
}

/// The number of the argument behind the one that comes.
fn count_next(b: &Before) -> u64
    ensures { (a : shape.Part) → result ≡ plain.count (plain.next (before b.now) a) }
{
    match b {
        Before::First | Before::Alone => 1,
        Before::Behind(s) => s.args.len() as u64 + 2,
        Before::Making(s) => s.args.len() as u64 + 2,
    }
}

/// The first token of an argument.
fn argument(number: u64, around: &Stack, mark: Mark) -> Measure
    ensures { (b : plain.Before) (w : leaf.Sign) → plain.count b ≡ number → IsMeasure result (plain.argument_leaf b (stack around.now) mark w) }
{
    let nested = around.depth();
    match mark {
        Mark::Open => Measure {
            nested: nested.saturating_add(1),
            applied: number,
        },
        _ => Measure {
            nested,
            applied: number,
        },
    }
}

/// The first token of an argument, or one that ends the term.
fn argument_or_close(number: u64, around: &Stack, mark: Mark) -> Measure
    ensures { (b : plain.Before) (w : leaf.Sign) → plain.count b ≡ number → IsMeasure result (plain.argument_or_close_leaf b (stack around.now) mark w) }
{
    if begins_argument(mark) {
        argument(number, around, mark)
    } else {
        Measure {
            nested: around.closing(),
            applied: 0,
        }
    }
}

/// A token in a term that begins no argument.
pub fn within(around: &Stack) -> Measure
    ensures nested { result.nested ≡ counted (plain.depth (stack around.now)) }
    ensures applied { result.applied ≡ 0 }
{
    Measure {
        nested: around.depth(),
        applied: 0,
    }
}

/// The first token of a term or an argument.
pub fn wanted(b: &Before, around: &Stack, mark: Mark) -> Measure
    ensures { (w : leaf.Sign) → IsMeasure result (plain.begun_leaf (before b.now) (stack around.now) mark w) }
{
    match mark {
        Mark::Forall => within(around),
        Mark::Fun => within(around),
        _ => argument(count(b), around, mark),
    }
}

/// The token behind an argument.
pub fn behind(b: &Before, is_universe: bool, around: &Stack, mark: Mark) -> Measure
    ensures { (a : shape.Part) (w : leaf.Sign) → IsMeasure result (plain.behind_leaf (before b.now) a is_universe (stack around.now) mark w) }
{
    match mark {
        Mark::Project => within(around),
        Mark::Arrow => within(around),
        Mark::At => behind_at(b, is_universe, around),
        _ => argument_or_close(count_next(b), around, mark),
    }
}

/// An `@` behind an argument.
fn behind_at(b: &Before, is_universe: bool, around: &Stack) -> Measure
    ensures { (a : shape.Part) (w : leaf.Sign) → IsMeasure result (plain.behind_leaf (before b.now) a is_universe (stack around.now) At w) }
{
    if is_universe {
        within(around)
    } else {
        argument_or_close(count_next(b), around, Mark::At)
    }
}

/// Behind the carrier of a builder.
pub fn making(b: &Before, around: &Stack, mark: Mark) -> Measure
    ensures { (w : leaf.Sign) → IsMeasure result (plain.argument_or_close_leaf (before b.now) (stack around.now) mark w) }
{
    argument_or_close(count(b), around, mark)
}

/// Behind `Type @`: a name begins an argument, which began at the `@`.
pub fn universe_at(b: &Before, around: &Stack, mark: Mark) -> Measure
    ensures { (a : shape.Part) (w : leaf.Sign) → IsMeasure result (plain.universe_at_leaf (before b.now) a (stack around.now) mark w) }
{
    match mark {
        Mark::Brace => within(around),
        _ => Measure {
            nested: around.depth(),
            applied: count_next(b),
        },
    }
}

/// Behind binders, or before the first.
pub fn bound(around: &Binding, mark: Mark) -> Measure
    ensures { (w : leaf.Sign) → IsMeasure result (plain.binding_leaf (binding around.now) mark w) }
{
    match mark {
        Mark::Open => bracketed(around),
        _ => Measure {
            nested: binding_depth(around),
            applied: 0,
        },
    }
}

/// In the brackets of a group.
pub fn bracketed(around: &Binding) -> Measure
    ensures nested { result.nested ≡ counted (plain.binding_depth (binding around.now) + 1) }
    ensures applied { result.applied ≡ 0 }
{
    Measure {
        nested: binding_depth(around).saturating_add(1),
        applied: 0,
    }
}
