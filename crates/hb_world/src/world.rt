//! The world of a session.
ghost use Rattle.std.specs.Prelude.{◌≡◌, IfOk};
ghost use Rattle.hb_world.specs.Worlds.{background, blank};

use crate::section::Section;
use hb_base::Names;
use hb_hier::{Hier, HierMark};
use hb_tables::{Tables, TablesMark};
use std::alloc::{AllocError, Global};

/// What a session knows beside its declarations. Hierarchy, tables and section are those of the
/// accepted commands; names may be more than these have.
#[derive(Drop)]
pub struct World {
    pub names: Names,
    pub hier: Hier,
    pub tables: Tables,
    pub section: Option<Section>,
    /// How many constants are named `HB_inst_` and a number.
    pub made: u32,
}

impl World {
    /// The world of a session in which nothing was accepted. Out of memory is the one error.
    pub fn new(alloc: Global) -> Result<World, AllocError>
        ensures { IfOk result (λ w. background w ≡ blank) }
    {
        Ok(World {
            names: Names::new(alloc)?,
            hier: Hier::new(alloc)?,
            tables: Tables::new(alloc)?,
            section: None,
            made: 0,
        })
    }

    /// Empties the world: no name is held, and nothing is known.
    pub fn clear(&mut self)
        ensures { background self.new ≡ blank }
    {
        self.names.clear();
        self.hier.undo(NOTHING);
        self.tables.undo(NONE);
        self.section = None;
        self.made = 0;
    }
}

/// The mark of an empty hierarchy.
const NOTHING: HierMark = HierMark {
    mixins: 0,
    factories: 0,
    ended: 0,
    structures: 0,
    givings: 0,
};

/// The mark of empty tables.
const NONE: TablesMark = TablesMark {
    structures: 0,
    coercions: 0,
    entries: 0,
    mixins: 0,
    operations: 0,
    builders: 0,
};
