//! Taking entries of libraries and core texts.
ghost use Rattle.std.specs.Prelude.{◌≡◌, ◌∷◌, [], IsTrue, OnOk, OnErr};
ghost use Rattle.hb_env.specs.Plain.{plains};
ghost use Rattle.hb_session.specs.Growing.{GrowsBy, IsRequire, LeavesBy};
ghost use Rattle.hb_session.specs.State.{state};
ghost use Rattle.hb_session.specs.Taking.{GoesOn, OnlyNames};

use crate::families::replay;
use crate::refusing::{at, at_byte};
use crate::session::Session;
use hb_base::Limits;
use hb_env::{Entry, Head, Places, Refusal, What};

impl Session {
    /// Takes an entry of a library or of a core text, and keeps it. Where it is refused, names may be
    /// more, and nothing else changes.
    pub fn replay(&mut self, entry: Entry, places: &Places, limits: &Limits) -> Result<(), Refusal>
        ensures taken { OnOk result (GoesOn (state self.old) (state self.new) (entry ∷ [])) }
        ensures grows { OnOk result (GrowsBy entry.head (plains entry.decls.items)
            (state self.old).env (state self.old).back (state self.new).back) }
        ensures leaves { OnOk result (LeavesBy entry.head (plains entry.decls.items)
            (state self.old).back.hier (state self.old).back.section (state self.new).back.section) }
        ensures refused { OnErr result (OnlyNames (state self.old) (state self.new)) }
        ensures lines { self.new.files.lines ≡ self.old.files.lines }
    {
        if is_require(&entry.head) {
            self.replay_require(entry, places)
        } else {
            self.replay_family(entry, places, limits)
        }
    }

    /// Takes the entry of a required file.
    #[tactic(auto, using(crate::proofs::GoesLemmas::required_grows, crate::proofs::GoesLemmas::required_leaves))]
    fn replay_require(&mut self, entry: Entry, places: &Places) -> Result<(), Refusal>
        requires required { IsRequire entry.head }
        ensures taken { OnOk result (GoesOn (state self.old) (state self.new) (entry ∷ [])) }
        ensures grows { OnOk result (GrowsBy entry.head (plains entry.decls.items)
            (state self.old).env (state self.old).back (state self.new).back) }
        ensures leaves { OnOk result (LeavesBy entry.head (plains entry.decls.items)
            (state self.old).back.hier (state self.old).back.section (state self.new).back.section) }
        ensures refused { OnErr result (OnlyNames (state self.old) (state self.new)) }
        ensures lines { self.new.files.lines ≡ self.old.files.lines }
    {
        match self.entries.reserve(1) {
            Ok(()) => {}
            Err(_) => return Err(at(places.span, What::NoMemory)),
        }
        match may_require(self.is_in_section(), &entry, places) {
            Ok(()) => {}
            Err(refusal) => return Err(refusal),
        }
        self.entries.push_reserved(entry);
        Ok(())
    }

    /// Takes an entry by its family.
    fn replay_family(
        &mut self,
        entry: Entry,
        places: &Places,
        limits: &Limits,
    ) -> Result<(), Refusal>
        ensures taken { OnOk result (GoesOn (state self.old) (state self.new) (entry ∷ [])) }
        ensures grows { OnOk result (GrowsBy entry.head (plains entry.decls.items)
            (state self.old).env (state self.old).back (state self.new).back) }
        ensures leaves { OnOk result (LeavesBy entry.head (plains entry.decls.items)
            (state self.old).back.hier (state self.old).back.section (state self.new).back.section) }
        ensures refused { OnErr result (OnlyNames (state self.old) (state self.new)) }
        ensures lines { self.new.files.lines ≡ self.old.files.lines }
    {
        match self.entries.reserve(1) {
            Ok(()) => {}
            Err(_) => return Err(at(places.span, What::NoMemory)),
        }
        match replay(
            self.alloc,
            &mut self.theory,
            &mut self.world,
            &entry,
            places,
            limits,
        ) {
            Ok(()) => {}
            Err(refusal) => return Err(refusal),
        }
        self.entries.push_reserved(entry);
        Ok(())
    }
}

/// Whether an entry stands for a required file.
fn is_require(head: &Head) -> bool
    ensures { IsTrue result → IsRequire head.now }
{
    match head {
        Head::Require { .. } => true,
        _ => false,
    }
}

/// Whether an entry of a required file may stand there: outside of sections, and without declarations.
fn may_require(in_section: bool, entry: &Entry, places: &Places) -> Result<(), Refusal>
    ensures { OnOk result (plains entry.now.decls.items ≡ []) }
{
    if in_section {
        return Err(at(places.span, What::SectionOpen));
    }
    if entry.decls.is_empty() {
        Ok(())
    } else {
        Err(at(at_byte(places.span.file, places.count), What::BadLibrary))
    }
}
