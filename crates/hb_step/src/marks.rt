//! The way back from a command that is refused.
ghost use Rattle.std.specs.Prelude.{◌≡◌, List, Some};
ghost use Rattle.std.specs.Option.{option_map};
ghost use Rattle.hb_calculus.specs.Declarations.{Decl};
ghost use Rattle.hb_world.specs.Worlds.{Background, IsAsBefore, background, opened};
ghost use Rattle.hb_step.specs.Marks.{IsMark, IsSectionMark, Since, SectionGrew, OpenedGrew};

use hb_hier::HierMark;
use hb_kernel::Theory;
use hb_sets::MixSet;
use hb_tables::TablesMark;
use hb_world::{Section, World};
use std::mem;

/// How much there is of a theory and a world.
#[derive(Drop)]
pub struct Mark {
    declared: u32,
    hier: HierMark,
    tables: TablesMark,
    section: Option<SectionMark>,
    made: u32,
}

/// How much there is of a section.
#[derive(Drop)]
struct SectionMark {
    given: usize,
    provided: MixSet,
    definitions: usize,
}

impl Mark {
    /// How much there is now.
    pub fn new(theory: &Theory, world: &World) -> Mark
        ensures { IsMark result theory.now (background world.now) }
    {
        Mark {
            declared: theory.env().len(),
            hier: world.hier.mark(),
            tables: world.tables.mark(),
            section: section_mark(&world.section),
            made: world.made,
        }
    }

    /// Back to the mark: what came since is taken away. Names stay.
    pub fn undo(self, theory: &mut Theory, world: &mut World)
        ensures back { (E : List Decl) (w : Background) → IsMark self E w → Since E w theory.old (background world.old) → (theory.new ≡ E) × IsAsBefore w (background world.new) }
    {
        let Mark {
            declared,
            hier,
            tables,
            section,
            made,
        } = self;
        if declared <= theory.env().len() {
            theory.cut(declared);
        }
        world.hier.undo(hier);
        world.tables.undo(tables);
        world.made = made;
        let open = mem::replace(&mut world.section, None);
        world.section = undone(open, section);
    }
}

fn section_mark(section: &Option<Section>) -> Option<SectionMark>
    ensures { IsSectionMark result (option_map opened section.now) }
{
    match section {
        None => None,
        Some(section) => Some(SectionMark {
            given: section.own.given.len(),
            provided: section.provided.copy(),
            definitions: section.definitions.len(),
        }),
    }
}

/// The section as it was at the mark.
fn undone(section: Option<Section>, mark: Option<SectionMark>) -> Option<Section>
    ensures { (s : _) → IsSectionMark mark s → SectionGrew s (option_map opened section) → option_map opened result ≡ s }
{
    let Some(section) = section else {
        return None;
    };
    let Some(mark) = mark else {
        return None;
    };
    Some(undone_section(section, mark))
}

fn undone_section(section: Section, mark: SectionMark) -> Section
    ensures { (s : _) → IsSectionMark (Some mark) (Some s) → OpenedGrew s (opened section) → opened result ≡ s }
{
    let mut section = section;
    section.own.given.truncate(mark.given);
    section.provided = mark.provided;
    section.definitions.truncate(mark.definitions);
    section
}
