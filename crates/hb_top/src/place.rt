//! Places of declarations.
use hb_base::Span;
use hb_raw::{Command, CommandKind};

/// The place of the name that a command declares; of an instance without one its factory, else the first word.
pub(crate) fn declared_place(command: &Command) -> Span {
    match &command.kind {
        CommandKind::Axiom { name, .. } => name.span,
        CommandKind::Definition { name, .. } => name.span,
        CommandKind::Mixin { name, .. } => name.span,
        CommandKind::Factory { name, .. } => name.span,
        CommandKind::Structure { name, .. } => name.span,
        CommandKind::Instance { name, factory, .. } => match name {
            Some(name) => name.span,
            None => factory.span,
        },
        _ => command.span,
    }
}
