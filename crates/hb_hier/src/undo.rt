//! Marks, and the way back to them.
ghost use Rattle.std.specs.Prelude.{◌≡◌, ℕ, ◌<◌, ◌↔◌, Some, IsTrue, length, filter};
ghost use Rattle.std.specs.Option.{option_map};
ghost use Rattle.hb_hier.specs.Hierarchy.{Hierarchy};
ghost use Rattle.hb_hier.specs.Giving.{BindersBelow};
ghost use Rattle.hb_hier.specs.Undoing.{is_kept, cut, mark_of, CanStand, IsWhole, Grew};

use crate::hier::Hier;
use crate::known::{HierMark, Known};
use crate::need::binder_of;
use crate::records::Ending;
use hb_order::StructId;

impl Hier {
    /// The lengths of the lists.
    pub fn mark(&self) -> HierMark
        ensures lengths { result ≡ mark_of self.now }
        ensures whole { IsWhole self.now }
    {
        HierMark {
            mixins: self.mixins.len() as u16,
            factories: self.factories.len() as u16,
            ended: ending_count(&self.endings) as u16,
            structures: self.structures.len() as u16,
            givings: self.givings.len(),
        }
    }

    /// Goes back to the state of the mark, after calls that added to it. Nothing changes where what the
    /// mark keeps names what it cuts: a structure that a kept instance asks.
    pub fn undo(&mut self, mark: HierMark)
        ensures back { (old : Hierarchy) → IsWhole old → mark ≡ mark_of old → Grew old self.old
            → self.new ≡ old }
    {
        if self.can_stand(mark) {
            self.cut(mark);
        }
    }

    /// Whether each structure that a kept instance asks is kept.
    fn can_stand(&self, mark: HierMark) -> bool
        ensures { IsTrue result ↔ CanStand self.now mark }
    {
        if self.givings.len() < mark.givings {
            return false;
        }
        for at in 0..mark.givings {
            if !are_below(self.givings.asked(at), mark.structures) {
                return false;
            }
        }
        true
    }

    /// Cuts the lists back to the lengths of the mark.
    fn cut(&mut self, mark: HierMark)
        requires { CanStand self.old mark }
        ensures { self.new ≡ cut self.old mark }
    {
        keep_order(&mut self.order, mark);
        self.mixins.truncate(mark.mixins as usize);
        self.factories.truncate(mark.factories as usize);
        self.endings.truncate(mark.ended as usize);
        self.structures.truncate(mark.structures as usize);
        self.joins.cut(mark.structures);
        self.givings.cut(mark.givings);
    }
}

/// Keeps what was declared of the mixins and factories that the mark keeps.
fn keep_order(order: &mut Vec<Known>, mark: HierMark)
    ensures { order.new.items ≡ filter (is_kept mark) order.old.items }
{
    order.retain(|k| stays(mark, *k));
}

/// Whether what was declared is kept.
fn stays(mark: HierMark, k: Known) -> bool
    ensures { result ≡ is_kept mark k }
{
    match k {
        Known::Mixin(m) => m.0 < mark.mixins,
        Known::Factory(f) => f.0 < mark.factories,
        Known::Structure(s) => s.0 < mark.structures,
    }
}

/// How many sections were ended.
fn ending_count(endings: &Vec<Ending>) -> usize
    ensures { result ≡ length endings.now.items }
{
    endings.len()
}

/// Whether each structure of the binders is before the number.
fn are_below(binders: &[Option<StructId>], structures: u16) -> bool
    ensures { IsTrue result ↔ BindersBelow structures binders.now }
{
    for at in 0..binders.len() {
        if !is_below(binder_of(binders, at), structures) {
            return false;
        }
    }
    true
}

/// Whether the structure, if there is one, is before the number.
fn is_below(asked: Option<StructId>, structures: u16) -> bool
    ensures { IsTrue result ↔ ((t : ℕ) → option_map (λ s. s.0) asked ≡ Some t → t < structures) }
{
    match asked {
        Some(s) => s.0 < structures,
        None => true,
    }
}
