//! Marks of sessions, and the way back to them.
ghost use Rattle.std.specs.Prelude.{◌≡◌};
ghost use Rattle.hb_session.specs.State.{nothing, state};

use crate::files::FilesMark;
use crate::session::Session;
use hb_hier::HierMark;
use hb_tables::TablesMark;

/// How long a session's lists are.
#[derive(Clone, Copy)]
pub struct SessionMark {
    decls: u32,
    hier: HierMark,
    tables: TablesMark,
    made: u32,
    entries: usize,
    files: FilesMark,
}

impl Session {
    /// The lengths of the session's lists. Outside of sections of builders they say what it is.
    pub fn mark(&self) -> SessionMark {
        SessionMark {
            decls: self.theory.env().len(),
            hier: self.world.hier.mark(),
            tables: self.world.tables.mark(),
            made: self.world.made,
            entries: self.entries.len(),
            files: self.files.mark(),
        }
    }
}

impl Session {
    /// Takes back what was accepted since the mark. Names stay, and a section that is open is closed.
    pub fn undo(&mut self, mark: SessionMark) {
        for _ in mark.entries..self.entries.len() {
            self.drop_last();
        }
        self.world.hier.undo(mark.hier);
        self.world.tables.undo(mark.tables);
        self.world.section = None;
        self.world.made = mark.made;
        self.files.undo(mark.files);
        self.fault = None;
    }

    /// Drops the last entry with its declarations.
    fn drop_last(&mut self) {
        match self.entries.pop() {
            Some(entry) => {
                let declared = self.theory.env().len() as usize;
                let kept = declared.saturating_sub(entry.decls.len());
                self.theory.cut(kept as u32);
            }
            None => {}
        }
    }

    /// Empties the session: no name is held, and nothing is declared.
    pub fn clear(&mut self)
        ensures empty { state self.new ≡ nothing }
        ensures lines { self.new.files.lines ≡ 0 }
    {
        self.theory.cut(0);
        self.entries.clear();
        self.world.clear();
        self.files.undo(FilesMark::EMPTY);
        self.fault = None;
    }
}
