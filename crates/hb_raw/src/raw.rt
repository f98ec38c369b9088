//! Raw terms.
use hb_base::{NameId, Span};

/// A term as it is written, with the place from its first to its last token. A term in
/// parentheses without a type is the term inside.
#[derive(Drop)]
#[cycle(raw)]
pub struct Raw {
    pub span: Span,
    pub kind: RawKind,
}

/// The form of a raw term.
#[cycle(raw)]
pub enum RawKind {
    /// A name.
    Name(NameId),
    /// `@n`: a name without its implicit arguments.
    At(NameId),
    /// `_`.
    Hole,
    Prop,
    /// `Type@{k}`; a level above 63 is held as 64.
    Level(u8),
    Forall(Vec<Binder>, Box<Raw>),
    Fun(Vec<Binder>, Box<Raw>),
    /// `A -> B`.
    Arrow(Box<Raw>, Box<Raw>),
    /// A function with one argument or more.
    App(Box<Raw>, Vec<Raw>),
    /// `t.(P)`.
    Proj(Box<Raw>, NameId),
    /// `(t : T)`.
    Cast(Box<Raw>, Box<Raw>),
}

/// Bound names with their places, `None` for `_`, which share a written type.
#[derive(Drop)]
#[cycle(raw)]
pub struct Binder {
    pub names: Vec<(Option<NameId>, Span)>,
    pub ty: Option<Raw>,
}

/// Goes down chains of projections, and of binders in the types of lone binders, without recursion, as
/// nothing bounds their lengths: the rest is as deep as the nesting of its source.
impl Drop for RawKind {
    #[cycle(raw)]
    fn drop(mut self) {
        loop {
            match self {
                RawKind::Proj(inner, _) => {
                    let Raw { span: _, kind } = Box::into_inner(inner);
                    self = kind;
                }
                RawKind::Name(_)
                | RawKind::At(_)
                | RawKind::Hole
                | RawKind::Prop
                | RawKind::Level(_) => return,
                RawKind::Forall(binders, body) | RawKind::Fun(binders, body) => {
                    drop(body);
                    let mut binders = binders;
                    let Some(last) = binders.pop() else {
                        return;
                    };
                    let Binder { names: _, ty } = last;
                    let Some(inner) = ty else {
                        return;
                    };
                    let Raw { span: _, kind } = inner;
                    self = kind;
                }
                RawKind::Arrow(_, _) | RawKind::App(_, _) | RawKind::Cast(_, _) => return,
            }
        }
    }
}
