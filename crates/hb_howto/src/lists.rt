//! The least lists that fill a structure.
ghost use Rattle.std.specs.Prelude.{◌<◌, IfOk, IfErr, length};
ghost use Rattle.hb_order.specs.Heirs.{mix};
ghost use Rattle.hb_hier.specs.Hierarchy.{sets};
ghost use Rattle.hb_howto.specs.Ways.{AreWays, HowtoRefusal};

use crate::candidate::candidates;
use crate::error::HowtoRefused;
use crate::search::Search;
use hb_base::NameId;
use hb_hier::Hier;
use hb_order::StructId;
use hb_sets::MixSet;
use std::alloc::Global;

/// The least lists of one to three names that give a carrier the structure, which has the mixins `given`.
/// A list's names are different mixins or ended factories. Taken in order, each finds what it requires
/// given or provided before, and at the end the structure's mixins are there; no proper part of its names,
/// in any order, does the same. Of the orders of one set of names the first is listed. Shorter lists come
/// first, then they go by their names in the order of declaration.
pub fn howto(
    alloc: Global,
    hier: &Hier,
    s: StructId,
    given: &MixSet,
) -> Result<Vec<Vec<NameId>>, HowtoRefused>
    requires { s.0 < length hier.now.structures }
    ensures ways { IfOk result (λ lists.
        AreWays hier.now (mix (sets hier.now) s.0) given.now lists.items) }
    ensures refused { IfErr result (HowtoRefusal hier.now given.now) }
{
    let all = candidates(alloc, hier, given)?;
    let mut lists = Vec::new(alloc);
    let wanted = hier.mix(s);
    if wanted.subset(given) {
        return Ok(lists);
    }
    let search = Search {
        hier,
        all: all.as_slice(),
        given,
        wanted,
    };
    search.ones(alloc, &mut lists)?;
    search.twos(alloc, &mut lists)?;
    search.threes(alloc, &mut lists)?;
    Ok(lists)
}
