//! Generated hierarchies: both ways answer the same.
use crate::both::{Both, give, mixin, mixin_name, nothing, structure, structure_name};
use crate::ways::{compare_given, compare_joins, compare_needs};
use hb_base::NameId;
use hb_hier::{HierRefused, StructId};
use hb_sets::MixSet;
use hb_tree::ConstId;
use std::alloc::Global;
use std::vec::Vec;

/// Numbers that look drawn by lot (Knuth, "The Art of Computer Programming", 3.3.4, a linear congruential
/// sequence).
#[derive(Clone, Copy)]
struct Lots {
    state: u64,
}

impl Lots {
    /// The next number, below `below`; 0 where that is 0.
    fn draw(&mut self, below: u16) -> u16 {
        let next = self.state.wrapping_mul(6364136223846793005);
        self.state = next.wrapping_add(1442695040888963407);
        let lot = (self.state >> 33).checked_rem(u64::from(below));
        u16::try_from(lot.unwrap_or(0)).unwrap_or(0)
    }
}

/// Names of mixins and of structures, at most three.
fn items(both: &Both, lots: &mut Lots) -> Result<Vec<NameId>, HierRefused> {
    let mut names = Vec::new(both.alloc);
    for _name in 0..lots.draw(3).saturating_add(1) {
        names.push(item(both, lots))?;
    }
    Ok(names)
}

/// A name of a mixin or of a structure, once in a while of nothing.
fn item(both: &Both, lots: &mut Lots) -> NameId {
    if lots.draw(40) == 0 {
        return NameId(1999);
    }
    if lots.draw(3) == 0 {
        structure_name(lots.draw(both.hier.structures()))
    } else {
        mixin_name(lots.draw(both.hier.mixins()))
    }
}

/// Declares a mixin that requires at most one other.
fn some_mixin(both: &mut Both, lots: &mut Lots) -> Result<(), HierRefused> {
    if lots.draw(2) == 0 && both.hier.mixins() > 0 {
        let before = mixin_name(lots.draw(both.hier.mixins()));
        mixin(both, &[before])
    } else {
        mixin(both, &[])
    }
}

/// What a carrier is asked at a place: a structure or nothing.
fn asked(both: &Both, lots: &mut Lots) -> Option<StructId> {
    let count = both.hier.structures();
    let s = lots.draw(count);
    if count == 0 || lots.draw(4) == 0 {
        None
    } else {
        Some(StructId(s))
    }
}

/// One of four carriers: two constants, each with a maker of the same number.
fn carrier(number: u16) -> ConstId {
    ConstId {
        decl: u32::from(number / 2),
        maker: number.is_multiple_of(2),
    }
}

/// What was refused of a generated hierarchy.
#[derive(Clone, Copy)]
struct Refused {
    structures: u32,
    givings: u32,
}

/// Declares mixins and structures, and gives mixins to carriers.
fn generate(both: &mut Both, lots: &mut Lots) -> Result<Refused, HierRefused> {
    let mut refused = Refused {
        structures: 0,
        givings: 0,
    };
    for _m in 0..10 {
        some_mixin(both, lots)?;
    }
    for _s in 0..24 {
        if some_structure(both, lots)? {
            refused.structures = refused.structures.saturating_add(1);
        }
    }
    for _g in 0..30 {
        if some_giving(both, lots)? {
            refused.givings = refused.givings.saturating_add(1);
        }
    }
    Ok(refused)
}

/// Declares a structure; says whether it was refused.
fn some_structure(both: &mut Both, lots: &mut Lots) -> Result<bool, HierRefused> {
    let names = items(both, lots)?;
    Ok(structure(both, &names)?.is_some())
}

/// Gives a mixin to a carrier with two binders; says whether it was refused.
fn some_giving(both: &mut Both, lots: &mut Lots) -> Result<bool, HierRefused> {
    let at = carrier(lots.draw(4));
    let first = asked(both, lots);
    let second = asked(both, lots);
    let m = lots.draw(both.hier.mixins());
    Ok(give(both, at, &[first, second], m)?.is_some())
}

/// Compares all that both ways answer.
fn compare(both: &mut Both) {
    compare_joins(both);
    for number in 0..4 {
        compare_carrier(both, carrier(number));
    }
}

/// Compares what a carrier was given, and what it needs for each structure and for each mixin.
fn compare_carrier(both: &mut Both, at: ConstId) {
    compare_given(both, at);
    for s in 0..both.structures.len() {
        if let Some(set) = both.structures.get(s) {
            let set = set.copy();
            compare_needs(both, at, &set);
        }
    }
    for m in 0..both.hier.mixins() {
        if m < 1024 {
            compare_needs(both, at, &MixSet::empty().with(m));
        }
    }
    let all = both.hier.given(at).copy();
    compare_needs(both, at, &all);
}

/// Whether both ways answer the same of the hierarchy of the number, and refuse something.
fn agrees(alloc: Global, number: u64) -> Result<bool, HierRefused> {
    let mut lots = Lots { state: number };
    let mut pair = nothing(alloc)?;
    let refused = generate(&mut pair, &mut lots)?;
    compare(&mut pair);
    Ok(pair.different == 0 && refused.structures > 0 && refused.givings > 0)
}

/// How many of the first hierarchies do.
fn agreeing(alloc: Global, count: u64) -> Result<u32, HierRefused> {
    let mut agreeing: u32 = 0;
    for number in 0..count {
        if agrees(alloc, number)? {
            agreeing = agreeing.saturating_add(1);
        }
    }
    Ok(agreeing)
}

#[test]
fn both_ways_answer_the_same(rt: HostRuntime) -> Result<(), HierRefused> {
    assert!(rt; agreeing(rt.alloc(), 24)? == 24);
    Ok(())
}
