//! How commands are taken.
use hb_base::Limits;
use std::alloc::Global;

/// How the commands of a run are taken.
#[derive(Clone, Copy)]
pub(crate) struct Settings {
    pub(crate) alloc: Global,
    pub(crate) limits: Limits,
    /// Whether each command has its line, and its entry goes to the emitters.
    pub(crate) aloud: bool,
}

/// The limits with the steps that the words ask for.
pub(crate) fn limits_of(steps: Option<u64>) -> Limits {
    match steps {
        Some(steps) => Limits {
            steps,
            nodes: Limits::DEFAULT.nodes,
            depth: Limits::DEFAULT.depth,
        },
        None => Limits::DEFAULT,
    }
}
