//! Sessions.
ghost use Rattle.std.specs.Prelude.{◌≡◌, IfOk};
ghost use Rattle.hb_session.specs.Entries.{decls_of};

use crate::files::Files;
use hb_env::{Entry, Refusal};
use hb_kernel::Theory;
use hb_world::World;
use std::alloc::{AllocError, Global};

/// What a run has: the theory of what it has declared, the world beside it, and the entries of the
/// commands that it has accepted. The declarations of the theory are those of the entries.
#[derive(Drop)]
pub struct Session {
    pub(crate) alloc: Global,
    pub(crate) theory: Theory,
    pub(crate) world: World,
    pub(crate) entries: Vec<Entry>,
    /// The files that were begun in this run.
    pub files: Files,
    /// The refusal that ended the last run, if one did and it was kept.
    pub fault: Option<Refusal>,
    ghost agree: { theory ≡ decls_of entries.items },
}

impl Session {
    ghost use Rattle.hb_calculus.specs.Typing.{WellFormed};
    ghost use Rattle.hb_world.specs.Worlds.{background};
    ghost use Rattle.hb_session.specs.State.{nothing, state};

    /// A session in which nothing is declared. Out of memory is the one error.
    pub fn new(alloc: Global) -> Result<Session, AllocError>
        ensures empty { IfOk result (λ session. state session ≡ nothing) }
        ensures lines { IfOk result (λ session. session.files.lines ≡ 0) }
    {
        Ok(Session {
            alloc,
            theory: Theory::new(alloc)?,
            world: World::new(alloc)?,
            entries: Vec::new(alloc),
            files: Files::new(alloc),
            fault: None,
        })
    }

    /// What is declared, which is well formed.
    pub fn theory(&self) -> &Theory
        ensures same { result.now ≡ (state self.now).env }
        ensures well_formed { WellFormed (state self.now).env }
        ensures agree { (state self.now).env ≡ decls_of (state self.now).entries }
    {
        let _env = self.theory.env();
        &self.theory
    }

    /// Names, hierarchy, tables and the open section.
    pub fn world(&self) -> &World
        ensures { background result.now ≡ (state self.now).back }
    {
        &self.world
    }

    /// The entries of the accepted commands, in order.
    pub fn entries(&self) -> &[Entry]
        ensures { result.now ≡ (state self.now).entries }
    {
        self.entries.as_slice()
    }
}
