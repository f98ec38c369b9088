//! The search for least lists that fill a structure.
ghost use Rattle.std.specs.Prelude.{OnOk};
ghost use Rattle.hb_howto.specs.Ways.{IsWay, AreWays};
ghost use Rattle.hb_howto.specs.Tried.{IsCandidate, CanBeSearched};

use crate::candidate::Candidate;
use hb_base::NameId;
use hb_hier::Hier;
use hb_sets::MixSet;
use std::alloc::{AllocError, Global};

/// What is tried, what the carrier has, and what it is to have, which it hasn't.
#[derive(Clone, Copy)]
pub(crate) struct Search<'a> {
    pub hier: &'a Hier,
    pub all: &'a [Candidate],
    pub given: &'a MixSet,
    pub wanted: &'a MixSet,
}

impl Search<'_> {
    /// Adds the lists of one name.
    pub fn ones(&self, alloc: Global, lists: &mut Vec<Vec<NameId>>) -> Result<(), AllocError>
        requires search { CanBeSearched self.now.hier.now self.now.wanted.now self.now.given.now self.now.all.now }
        requires ways { AreWays self.now.hier.now self.now.wanted.now self.now.given.now lists.old.items }
        ensures { OnOk result
            (AreWays self.now.hier.now self.now.wanted.now self.now.given.now lists.new.items) }
    {
        for a in self.all {
            if self.is_way_of_one(a) {
                self.push(alloc, &[a.name], lists)?;
            }
        }
        Ok(())
    }

    /// Adds the lists of two names.
    pub fn twos(&self, alloc: Global, lists: &mut Vec<Vec<NameId>>) -> Result<(), AllocError>
        requires search { CanBeSearched self.now.hier.now self.now.wanted.now self.now.given.now self.now.all.now }
        requires ways { AreWays self.now.hier.now self.now.wanted.now self.now.given.now lists.old.items }
        ensures { OnOk result
            (AreWays self.now.hier.now self.now.wanted.now self.now.given.now lists.new.items) }
    {
        for a in self.all {
            if a.required.subset(self.given) {
                self.seconds(alloc, a, lists)?;
            }
        }
        Ok(())
    }

    /// Adds the lists of two names that begin with one.
    fn seconds(
        &self,
        alloc: Global,
        a: &Candidate,
        lists: &mut Vec<Vec<NameId>>,
    ) -> Result<(), AllocError>
        requires search { CanBeSearched self.now.hier.now self.now.wanted.now self.now.given.now self.now.all.now }
        requires first { IsCandidate self.now.hier.now a.now }
        requires ways { AreWays self.now.hier.now self.now.wanted.now self.now.given.now lists.old.items }
        ensures { OnOk result
            (AreWays self.now.hier.now self.now.wanted.now self.now.given.now lists.new.items) }
    {
        for b in self.all {
            if self.is_way_of_two(a, b) && self.is_first_of_two(a, b) {
                self.push(alloc, &[a.name, b.name], lists)?;
            }
        }
        Ok(())
    }

    /// Adds the lists of three names.
    pub fn threes(&self, alloc: Global, lists: &mut Vec<Vec<NameId>>) -> Result<(), AllocError>
        requires search { CanBeSearched self.now.hier.now self.now.wanted.now self.now.given.now self.now.all.now }
        requires ways { AreWays self.now.hier.now self.now.wanted.now self.now.given.now lists.old.items }
        ensures { OnOk result
            (AreWays self.now.hier.now self.now.wanted.now self.now.given.now lists.new.items) }
    {
        for a in self.all {
            if a.required.subset(self.given) {
                self.rest_of_threes(alloc, a, lists)?;
            }
        }
        Ok(())
    }

    /// Adds the lists of three names that begin with one.
    fn rest_of_threes(
        &self,
        alloc: Global,
        a: &Candidate,
        lists: &mut Vec<Vec<NameId>>,
    ) -> Result<(), AllocError>
        requires search { CanBeSearched self.now.hier.now self.now.wanted.now self.now.given.now self.now.all.now }
        requires first { IsCandidate self.now.hier.now a.now }
        requires ways { AreWays self.now.hier.now self.now.wanted.now self.now.given.now lists.old.items }
        ensures { OnOk result
            (AreWays self.now.hier.now self.now.wanted.now self.now.given.now lists.new.items) }
    {
        let held = self.given.union(&a.provided);
        for b in self.all {
            if b.required.subset(&held) {
                let missing = self.wanted.minus(&held.union(&b.provided));
                self.thirds(alloc, a, b, &missing, lists)?;
            }
        }
        Ok(())
    }

    /// Adds the lists of three names that begin with two, after which this is missing.
    fn thirds(
        &self,
        alloc: Global,
        a: &Candidate,
        b: &Candidate,
        missing: &MixSet,
        lists: &mut Vec<Vec<NameId>>,
    ) -> Result<(), AllocError>
        requires search { CanBeSearched self.now.hier.now self.now.wanted.now self.now.given.now self.now.all.now }
        requires first { IsCandidate self.now.hier.now a.now }
        requires second { IsCandidate self.now.hier.now b.now }
        requires ways { AreWays self.now.hier.now self.now.wanted.now self.now.given.now lists.old.items }
        ensures { OnOk result
            (AreWays self.now.hier.now self.now.wanted.now self.now.given.now lists.new.items) }
    {
        for c in self.all {
            if missing.subset(&c.provided)
                && self.is_way_of_three(a, b, c)
                && self.is_first_of_three(a, b, c)
            {
                self.push(alloc, &[a.name, b.name, c.name], lists)?;
            }
        }
        Ok(())
    }

    /// Adds a list that was found.
    fn push(
        &self,
        alloc: Global,
        names: &[NameId],
        lists: &mut Vec<Vec<NameId>>,
    ) -> Result<(), AllocError>
        requires way { IsWay self.now.hier.now self.now.wanted.now self.now.given.now names.now }
        requires ways { AreWays self.now.hier.now self.now.wanted.now self.now.given.now lists.old.items }
        ensures { OnOk result
            (AreWays self.now.hier.now self.now.wanted.now self.now.given.now lists.new.items) }
    {
        lists.push(Vec::from_slice(alloc, names)?)?;
        Ok(())
    }
}
