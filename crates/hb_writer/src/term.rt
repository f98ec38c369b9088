//! Terms.
ghost use Rattle.std.specs.Prelude.{◌≡◌, ◌+◌, ◌-◌, ◌*◌, ◌<◌, ◌++◌, IfOk, OnOk, List, ℕ, Option, false, map, option_map, string_bytes, take};
ghost use Rattle.hb_calculus.specs.Declarations.{Decl};
ghost use Rattle.hb_tree.specs.Tree.{nodes, app};
ghost use Rattle.hb_term.specs.Meaning.{tree};
ghost use Rattle.hb_writer.specs.Pieces.{piece_text, stack_text, weight, weights};
ghost use Rattle.hb_writer.specs.Text as spec;
ghost use Rattle.hb_writer.specs.Text.{text, text_in, bound_names, bound_name, bound_text, sort_text, binder_text, product_text, projection_text, name_text};

use crate::names::{constant_name, field_name};
use crate::piece::Piece;
use crate::stack::put_before;
use hb_base::{NameId, Names};
use hb_env::Env;
use hb_term::{Scoped, Sort, Term, View};
use std::alloc::{AllocError, Global};

/// The text of a term: variables are `_0`, `_1`, .., the outermost first. What the environment or the
/// names don't have is written `!n`, with the number of its declaration. Out of memory is the one error.
pub fn term_text(
    alloc: Global,
    names: &Names,
    env: &Env,
    term: &Scoped,
) -> Result<String, AllocError>
    ensures { IfOk result (λ s. string_bytes s ≡ text names.now env.now term.now.depth (tree term.now.term)) }
{
    match term_front(alloc, names, env, term, usize::MAX) {
        Ok(text) => Ok(text),
        Err(error) => Err(error),
    }
}

/// A text whose first `most` bytes are those of the term's text. What is written behind them isn't
/// looked at, but for the question whether a product's variable is used, and no stack is taken for
/// the depth of the term. Out of memory is the one error.
pub fn term_front(
    alloc: Global,
    names: &Names,
    env: &Env,
    term: &Scoped,
    most: usize,
) -> Result<String, AllocError>
    ensures { IfOk result (λ s. take most (string_bytes s) ≡ take most (text names.now env.now term.now.depth (tree term.now.term))) }
{
    let piece = Piece::Part(u64::from(term.depth()), term.term());
    piece_front(alloc, names, env, &[], piece, most)
}

/// The text of a term under `depth` variables, of which the outermost have the names `bound`.
pub(crate) fn text_under(
    alloc: Global,
    names: &Names,
    env: &Env,
    bound: &[Option<NameId>],
    depth: u64,
    term: &Term,
) -> Result<String, AllocError>
    ensures { IfOk result (λ s. string_bytes s ≡ text_in names.now env.now (bound_names bound.now) depth (tree term.now)) }
{
    match piece_front(
        alloc,
        names,
        env,
        bound,
        Piece::Part(depth, term),
        usize::MAX,
    ) {
        Ok(text) => Ok(text),
        Err(error) => Err(error),
    }
}

/// A text whose first `most` bytes are those of the piece's text.
fn piece_front<'a>(
    alloc: Global,
    names: &Names,
    env: &Env,
    bound: &[Option<NameId>],
    piece: Piece<'a>,
    most: usize,
) -> Result<String, AllocError>
    ensures { IfOk result (λ s. take most (string_bytes s) ≡ take most (piece_text names.now env.now (bound_names bound.now) piece.entry)) }
{
    let mut out = String::new(alloc);
    let mut stack = Vec::new(alloc);
    stack.push(piece)?;
    'pieces: while out.as_bytes().len() < most {
        match stack.pop() {
            Some(piece) => write_piece(alloc, names, env, bound, piece, &mut stack, &mut out)?,
            None => return Ok(out),
        }
    }
    Ok(out)
}

/// Writes a piece, or takes a term apart into pieces.
fn write_piece<'a>(
    alloc: Global,
    names: &Names,
    env: &Env,
    bound: &[Option<NameId>],
    piece: Piece<'a>,
    stack: &mut Vec<Piece<'a>>,
    out: &mut String,
) -> Result<(), AllocError>
    ensures text { OnOk result (string_bytes out.new ++ stack_text names.now env.now (bound_names bound.now) stack.new.items ≡ string_bytes out.old ++ (piece_text names.now env.now (bound_names bound.now) piece.entry ++ stack_text names.now env.now (bound_names bound.now) stack.old.items)) }
    ensures falls { OnOk result (weights stack.new.items < weight piece.entry + weights stack.old.items) }
{
    match piece {
        Piece::Sign(sign) => {
            out.push_str(sign)?;
            Ok(())
        }
        Piece::Number(number) => {
            let digits = format!(in alloc; "{number}")?;
            out.push_str(digits.as_str())?;
            Ok(())
        }
        Piece::Name(Some(name), _) if (name.0 as usize) < names.len() => {
            out.push_str(names.text(name))?;
            Ok(())
        }
        Piece::Name(_, number) => put_before(
            stack,
            &[Piece::Sign("!"), Piece::Number(u64::from(number))],
        ),
        Piece::Part(depth, term) => take_apart(env, bound, depth, term, stack),
    }
}

/// Puts the pieces of a term on the stack.
fn take_apart<'a>(
    env: &Env,
    bound: &[Option<NameId>],
    depth: u64,
    term: &'a Term,
    stack: &mut Vec<Piece<'a>>,
) -> Result<(), AllocError>
    ensures text { OnOk result ((N : List (List ℕ)) → stack_text N env.now (bound_names bound.now) stack.new.items ≡ text_in N env.now (bound_names bound.now) depth (tree term.now) ++ stack_text N env.now (bound_names bound.now) stack.old.items) }
    ensures falls { OnOk result (weights stack.new.items < 8 * nodes (tree term.now) + weights stack.old.items) }
{
    match term.view() {
        View::Sort(sort) => put_sort(sort, stack),
        View::Rel(v) => {
            let level = depth.saturating_sub(1).saturating_sub(u64::from(v));
            put_variable(bound, level, stack)
        }
        View::Pi(domain, codomain) => {
            if codomain.occurs(0) {
                put_binder("forall _", ", ", depth, domain, codomain, stack)
            } else {
                put_arrow(depth, domain, codomain, stack)
            }
        }
        View::Lam(domain, body) => put_binder("fun _", " => ", depth, domain, body, stack),
        View::App(function, argument) => put_application(depth, function, argument, stack),
        View::Const(constant) => put_before(
            stack,
            &[Piece::Name(constant_name(env, constant), constant.decl)],
        ),
        View::Proj(rec, field, of) => {
            put_projection(depth, of, (field_name(env, rec, field), rec.0), stack)
        }
        View::Hole(hole) => put_before(stack, &[Piece::Sign("?"), Piece::Number(u64::from(hole))]),
    }
}

/// Puts the pieces of a variable on the stack, whose binder stands inside of `level` others.
fn put_variable<'a>(
    bound: &[Option<NameId>],
    level: u64,
    stack: &mut Vec<Piece<'a>>,
) -> Result<(), AllocError>
    ensures text { OnOk result ((N : List (List ℕ)) (E : List Decl) (B : List (Option ℕ)) → stack_text N E B stack.new.items ≡ bound_text N (bound_name (bound_names bound.now) level) level ++ stack_text N E B stack.old.items) }
    ensures falls { OnOk result (weights stack.new.items < 8 + weights stack.old.items) }
{
    match bound_at(bound, level) {
        Some(name) => put_before(stack, &[Piece::Name(Some(name), u32::from(name.0))]),
        None => put_before(stack, &[Piece::Sign("_"), Piece::Number(level)]),
    }
}

/// The name of the variable whose binder stands inside of `level` others, if it has one.
fn bound_at(bound: &[Option<NameId>], level: u64) -> Option<NameId>
    ensures { option_map (λ n. n.0) result ≡ bound_name (bound_names bound.now) level }
{
    let at = level as usize;
    if at < bound.len() { bound[at] } else { None }
}

/// Puts the pieces of a sort on the stack.
fn put_sort<'a>(sort: Sort, stack: &mut Vec<Piece<'a>>) -> Result<(), AllocError>
    ensures text { OnOk result ((N : List (List ℕ)) (E : List Decl) (B : List (Option ℕ)) → stack_text N E B stack.new.items ≡ sort_text sort ++ stack_text N E B stack.old.items) }
    ensures falls { OnOk result (weights stack.new.items < 8 + weights stack.old.items) }
{
    match sort {
        Sort::Prop => put_before(stack, &[Piece::Sign("Prop")]),
        Sort::Level(level) => put_before(
            stack,
            &[
                Piece::Sign("Type@{"),
                Piece::Number(u64::from(level)),
                Piece::Sign("}"),
            ],
        ),
    }
}

/// Puts the pieces of a binder on the stack: its word, its type, its sign and what it is over.
fn put_binder<'a>(
    word: &'a str,
    sign: &'a str,
    depth: u64,
    domain: &'a Term,
    body: &'a Term,
    stack: &mut Vec<Piece<'a>>,
) -> Result<(), AllocError>
    ensures text { OnOk result ((N : List (List ℕ)) (E : List Decl) (B : List (Option ℕ)) → stack_text N E B stack.new.items ≡ binder_text word.now sign.now depth (text_in N E B depth (tree domain.now)) (text_in N E B (depth + 1) (tree body.now)) ++ stack_text N E B stack.old.items) }
    ensures falls { OnOk result (weights stack.new.items < 8 * (1 + nodes (tree domain.now) + nodes (tree body.now)) + weights stack.old.items) }
{
    let inside = depth.checked_add(1).ok_or(AllocError)?;
    put_before(
        stack,
        &[
            Piece::Sign(word),
            Piece::Number(depth),
            Piece::Sign(" : "),
            Piece::Part(depth, domain),
            Piece::Sign(sign),
            Piece::Part(inside, body),
        ],
    )
}

/// Puts the pieces of a product whose variable isn't used on the stack.
fn put_arrow<'a>(
    depth: u64,
    domain: &'a Term,
    codomain: &'a Term,
    stack: &mut Vec<Piece<'a>>,
) -> Result<(), AllocError>
    ensures text { OnOk result ((N : List (List ℕ)) (E : List Decl) (B : List (Option ℕ)) → stack_text N E B stack.new.items ≡ product_text false (spec.is_binder (tree domain.now)) depth (text_in N E B depth (tree domain.now)) (text_in N E B (depth + 1) (tree codomain.now)) ++ stack_text N E B stack.old.items) }
    ensures falls { OnOk result (weights stack.new.items < 8 * (1 + nodes (tree domain.now) + nodes (tree codomain.now)) + weights stack.old.items) }
{
    let inside = depth.checked_add(1).ok_or(AllocError)?;
    let wrapped = is_binder(domain);
    put_before(
        stack,
        &[
            opening(wrapped),
            Piece::Part(depth, domain),
            closing(wrapped),
            Piece::Sign(" -> "),
            Piece::Part(inside, codomain),
        ],
    )
}

/// Puts the pieces of an application on the stack.
fn put_application<'a>(
    depth: u64,
    function: &'a Term,
    argument: &'a Term,
    stack: &mut Vec<Piece<'a>>,
) -> Result<(), AllocError>
    ensures text { OnOk result ((N : List (List ℕ)) (E : List Decl) (B : List (Option ℕ)) → stack_text N E B stack.new.items ≡ text_in N E B depth (app (tree function.now) (tree argument.now)) ++ stack_text N E B stack.old.items) }
    ensures falls { OnOk result (weights stack.new.items < 8 * (1 + nodes (tree function.now) + nodes (tree argument.now)) + weights stack.old.items) }
{
    let head = is_binder(function);
    let side = is_compound(argument);
    put_before(
        stack,
        &[
            opening(head),
            Piece::Part(depth, function),
            closing(head),
            Piece::Sign(" "),
            opening(side),
            Piece::Part(depth, argument),
            closing(side),
        ],
    )
}

/// Puts the pieces of a projection on the stack: the value, and the name of the field or else the
/// number of its record.
fn put_projection<'a>(
    depth: u64,
    of: &'a Term,
    field: (Option<NameId>, u32),
    stack: &mut Vec<Piece<'a>>,
) -> Result<(), AllocError>
    ensures text { OnOk result ((N : List (List ℕ)) (E : List Decl) (B : List (Option ℕ)) → stack_text N E B stack.new.items ≡ projection_text (spec.is_compound (tree of.now)) (text_in N E B depth (tree of.now)) (name_text N (option_map (λ n. n.0) field.0) field.1) ++ stack_text N E B stack.old.items) }
    ensures falls { OnOk result (weights stack.new.items < 8 * (1 + nodes (tree of.now)) + weights stack.old.items) }
{
    let wrapped = is_compound(of);
    put_before(
        stack,
        &[
            opening(wrapped),
            Piece::Part(depth, of),
            closing(wrapped),
            Piece::Sign(".("),
            Piece::Name(field.0, field.1),
            Piece::Sign(")"),
        ],
    )
}

/// A parenthesis before, where it is wanted.
fn opening<'a>(wanted: bool) -> Piece<'a>
    ensures text { (N : List (List ℕ)) (E : List Decl) (B : List (Option ℕ)) → piece_text N E B result ≡ spec.opening wanted }
    ensures weight { weight result ≡ 1 }
{
    Piece::Sign(if wanted { "(" } else { "" })
}

/// A parenthesis behind, where it is wanted.
fn closing<'a>(wanted: bool) -> Piece<'a>
    ensures text { (N : List (List ℕ)) (E : List Decl) (B : List (Option ℕ)) → piece_text N E B result ≡ spec.closing wanted }
    ensures weight { weight result ≡ 1 }
{
    Piece::Sign(if wanted { ")" } else { "" })
}

/// Whether a term is a product or a function.
fn is_binder(term: &Term) -> bool
    ensures { result ≡ spec.is_binder (tree term.now) }
{
    match term.view() {
        View::Pi(_, _) | View::Lam(_, _) => true,
        _ => false,
    }
}

/// Whether a term is a product, a function or an application.
fn is_compound(term: &Term) -> bool
    ensures { result ≡ spec.is_compound (tree term.now) }
{
    match term.view() {
        View::Pi(_, _) | View::Lam(_, _) | View::App(_, _) => true,
        _ => false,
    }
}
