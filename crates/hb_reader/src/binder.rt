//! Binders.
ghost use Rattle.std.specs.Prelude.{◌≡◌, ◌+◌, ◌++◌, ◌∷◌, [], Some, length, IfOk, option_map};
ghost use Rattle.hb_raw.specs.Preterm.{untyped};
ghost use Rattle.hb_raw.specs.Views.{groups};
ghost use Rattle.hb_grammar.specs.declared.mark.Mark.TheVariants.{Colon};
ghost use Rattle.hb_grammar.specs.Leaf as leaf;
ghost use Rattle.hb_grammar.specs.Machine as plain;
ghost use Rattle.hb_reader.specs.Measures.{IsMeasure};
ghost use Rattle.hb_reader.specs.Signs.{sign};
ghost use Rattle.hb_reader.specs.States.{kind, binder_state};
ghost use Rattle.hb_reader.specs.Stacks.{binding};
ghost use Rattle.hb_reader.specs.Views.{bound_in};

use super::frame::{Base, Bounds, Frame, Opener};
use super::groups::{bare_groups, with_name};
use super::kind::Kind;
use super::measure::{Measure, bound, bracketed};
use super::sign::Sign;
use super::stack::Binding;
use super::term::{want_in, want_on};
use hb_base::{NameId, Span};
use hb_grammar::Mark;
use hb_raw::Binder;
use std::alloc::{AllocError, Global};

/// A place in a list of binders.
#[derive(Drop)]
pub enum BinderState {
    /// None so far.
    First(Binding),
    /// Bare names alone.
    Bares(Binding, Bounds),
    Groups(Binding, Vec<Binder>),
    /// Behind `(`.
    Opened(Binding, Vec<Binder>),
    Names(Binding, Vec<Binder>, Bounds),
}

/// Bound names with one more.
fn with_bound(mut xs: Bounds, name: (Option<NameId>, Span)) -> Result<Bounds, AllocError>
    ensures { IfOk result (λ r. r.items ≡ xs.items ++ (name ∷ [])) }
{
    xs.push(name)?;
    Ok(xs)
}

/// Bare names with one more.
fn more_bares(
    b: Binding,
    xs: Bounds,
    name: (Option<NameId>, Span),
) -> Result<Option<Kind>, AllocError>
    ensures { IfOk result (λ o. option_map kind o ≡ Some (plain.bares (binding b) (xs.items ++ (name ∷ [])))) }
{
    let more = with_bound(xs, name)?;
    Ok(Some(Kind::Binder(BinderState::Bares(b, more))))
}

/// Groups with one more of a name alone.
fn more_groups(
    alloc: Global,
    b: Binding,
    gs: Vec<Binder>,
    name: (Option<NameId>, Span),
) -> Result<Option<Kind>, AllocError>
    ensures { IfOk result (λ o. option_map kind o ≡ Some (plain.groups (binding b) (groups gs.items ++ (untyped (name ∷ []) ∷ [])) (bound_in (groups gs.items) + 1))) }
{
    let more = with_name(alloc, gs, name)?;
    Ok(Some(Kind::Binder(BinderState::Groups(b, more))))
}

/// The names of a group with one more.
fn more_names(
    b: Binding,
    gs: Vec<Binder>,
    xs: Bounds,
    name: (Option<NameId>, Span),
) -> Result<Option<Kind>, AllocError>
    ensures { IfOk result (λ o. option_map kind o ≡ Some (plain.group_names (binding b) (groups gs.items) (bound_in (groups gs.items)) (xs.items ++ (name ∷ [])))) }
{
    let more = with_bound(xs, name)?;
    Ok(Some(Kind::Binder(BinderState::Names(b, gs, more))))
}

/// What ends a list of binders.
fn bound_to(
    alloc: Global,
    b: Binding,
    gs: Vec<Binder>,
    mark: Mark,
) -> Result<Option<Kind>, AllocError>
    ensures { IfOk result (λ o. option_map kind o ≡ plain.bound_to (binding b) (groups gs.items) (bound_in (groups gs.items)) mark) }
{
    match b {
        Binding::Product(x, k) => match mark {
            Mark::Comma => want_in(k, Frame::Body(Opener::Forall(x), gs)),
            _ => Ok(None),
        },
        Binding::Function(x, k) => match mark {
            Mark::Gives => want_in(k, Frame::Body(Opener::Fun(x), gs)),
            _ => Ok(None),
        },
        Binding::Definition(x, n) => match mark {
            Mark::Colon => Ok(Some(want_on(alloc, Base::DefinitionType(x, n, gs)))),
            Mark::Becomes => Ok(Some(want_on(alloc, Base::DefinitionBody(x, n, gs, None)))),
            _ => Ok(None),
        },
    }
}

/// What ends a list of bare names.
fn bares_to(alloc: Global, b: Binding, xs: Bounds, mark: Mark) -> Result<Option<Kind>, AllocError>
    ensures { IfOk result (λ o. option_map kind o ≡ plain.bound_to (binding b) (plain.bare_groups xs.items) (length xs.items) mark) }
{
    let gs = bare_groups(alloc, &xs)?;
    bound_to(alloc, b, gs, mark)
}

/// A group in parentheses behind bare names.
fn bares_opened(alloc: Global, b: Binding, xs: Bounds) -> Result<Option<Kind>, AllocError>
    ensures { IfOk result (λ o. option_map kind o ≡ Some (plain.group_opened (binding b) (plain.bare_groups xs.items) (length xs.items))) }
{
    let gs = bare_groups(alloc, &xs)?;
    Ok(Some(Kind::Binder(BinderState::Opened(b, gs))))
}

/// The `:` behind bare names.
fn bares_typed(
    alloc: Global,
    b: Binding,
    xs: Bounds,
    token: Sign,
) -> Result<Option<Kind>, AllocError>
    ensures { IfOk result (λ o. option_map kind o ≡ plain.after_bares (binding b) xs.items Colon (sign token)) }
{
    match b {
        Binding::Product(x, k) => want_in(k, Frame::Lone(Opener::Forall(x), xs)),
        Binding::Function(x, k) => want_in(k, Frame::Lone(Opener::Fun(x), xs)),
        Binding::Definition(x, n) => bares_to(alloc, Binding::Definition(x, n), xs, Mark::Colon),
    }
}

/// The first binder.
fn first_binder(
    alloc: Global,
    b: Binding,
    mark: Mark,
    token: Sign,
) -> Result<Option<Kind>, AllocError>
    ensures { IfOk result (λ o. option_map kind o ≡ plain.first_binder (binding b) mark (sign token)) }
{
    let at = token.place;
    match mark {
        Mark::Ident => more_bares(b, Vec::new(alloc), (Some(token.whole), at)),
        Mark::Hole => more_bares(b, Vec::new(alloc), (None, at)),
        Mark::Open => Ok(Some(Kind::Binder(BinderState::Opened(b, Vec::new(alloc))))),
        _ => Ok(None),
    }
}

/// Behind bare names.
fn after_bares(
    alloc: Global,
    b: Binding,
    xs: Bounds,
    mark: Mark,
    token: Sign,
) -> Result<Option<Kind>, AllocError>
    ensures { IfOk result (λ o. option_map kind o ≡ plain.after_bares (binding b) xs.items mark (sign token)) }
{
    let at = token.place;
    match mark {
        Mark::Ident => more_bares(b, xs, (Some(token.whole), at)),
        Mark::Hole => more_bares(b, xs, (None, at)),
        Mark::Open => bares_opened(alloc, b, xs),
        Mark::Colon => bares_typed(alloc, b, xs, token),
        _ => bares_to(alloc, b, xs, mark),
    }
}

/// Behind groups.
fn after_groups(
    alloc: Global,
    b: Binding,
    gs: Vec<Binder>,
    mark: Mark,
    token: Sign,
) -> Result<Option<Kind>, AllocError>
    ensures { IfOk result (λ o. option_map kind o ≡ plain.after_groups (binding b) (groups gs.items) (bound_in (groups gs.items)) mark (sign token)) }
{
    let at = token.place;
    match mark {
        Mark::Ident => more_groups(alloc, b, gs, (Some(token.whole), at)),
        Mark::Hole => more_groups(alloc, b, gs, (None, at)),
        Mark::Open => Ok(Some(Kind::Binder(BinderState::Opened(b, gs)))),
        _ => bound_to(alloc, b, gs, mark),
    }
}

/// Behind the `(` of a group.
fn after_open(
    alloc: Global,
    b: Binding,
    gs: Vec<Binder>,
    mark: Mark,
    token: Sign,
) -> Result<Option<Kind>, AllocError>
    ensures { IfOk result (λ o. option_map kind o ≡ plain.after_group_open (binding b) (groups gs.items) (bound_in (groups gs.items)) mark (sign token)) }
{
    let at = token.place;
    match mark {
        Mark::Ident => more_names(b, gs, Vec::new(alloc), (Some(token.whole), at)),
        Mark::Hole => more_names(b, gs, Vec::new(alloc), (None, at)),
        _ => Ok(None),
    }
}

/// The type of a group in its brackets.
fn group_typed(
    alloc: Global,
    b: Binding,
    gs: Vec<Binder>,
    xs: Bounds,
) -> Result<Option<Kind>, AllocError>
    ensures { IfOk result (λ o. option_map kind o ≡ Some (plain.want plain.first (plain.group_type (binding b) (groups gs.items) (bound_in (groups gs.items)) xs.items))) }
{
    match b {
        Binding::Product(x, k) => want_in(k, Frame::GroupType(Opener::Forall(x), gs, xs)),
        Binding::Function(x, k) => want_in(k, Frame::GroupType(Opener::Fun(x), gs, xs)),
        Binding::Definition(x, n) => {
            Ok(Some(want_on(alloc, Base::DefinitionGroup(x, n, gs, xs))))
        }
    }
}

/// Behind the names of a group.
fn after_names(
    alloc: Global,
    b: Binding,
    gs: Vec<Binder>,
    xs: Bounds,
    mark: Mark,
    token: Sign,
) -> Result<Option<Kind>, AllocError>
    ensures { IfOk result (λ o. option_map kind o ≡ plain.after_group_names (binding b) (groups gs.items) (bound_in (groups gs.items)) xs.items mark (sign token)) }
{
    let at = token.place;
    match mark {
        Mark::Ident => more_names(b, gs, xs, (Some(token.whole), at)),
        Mark::Hole => more_names(b, gs, xs, (None, at)),
        Mark::Colon => group_typed(alloc, b, gs, xs),
        _ => Ok(None),
    }
}

impl BinderState {
    /// What comes behind a token; `None` where there is no way on.
    pub fn after(self, alloc: Global, mark: Mark, token: Sign) -> Result<Option<Kind>, AllocError>
        ensures { IfOk result (λ o. option_map kind o ≡ plain.step (binder_state self) mark (sign token)) }
    {
        match self {
            BinderState::First(b) => first_binder(alloc, b, mark, token),
            BinderState::Bares(b, xs) => after_bares(alloc, b, xs, mark, token),
            BinderState::Groups(b, gs) => after_groups(alloc, b, gs, mark, token),
            BinderState::Opened(b, gs) => after_open(alloc, b, gs, mark, token),
            BinderState::Names(b, gs, xs) => after_names(alloc, b, gs, xs, mark, token),
        }
    }

    /// The nesting of a token, which begins no argument.
    pub fn measure(&self, mark: Mark) -> Measure
        ensures { (w : leaf.Sign) → IsMeasure result (plain.read (binder_state self.now) mark w) }
    {
        match self {
            BinderState::First(b) => bound(b, mark),
            BinderState::Bares(b, _) => bound(b, mark),
            BinderState::Groups(b, _) => bound(b, mark),
            BinderState::Opened(b, _) => bracketed(b),
            BinderState::Names(b, _, _) => bracketed(b),
        }
    }
}
