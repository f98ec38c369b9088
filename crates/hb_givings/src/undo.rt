//! The way back to fewer instances.
ghost use Rattle.std.specs.Prelude.{◌≡◌, ◌-◌, ◌<◌, length, take, IsSome};
ghost use Rattle.hb_givings.specs.Lookups.{summary_in, Puts, without_new};

use crate::givings::Givings;
use crate::push::put_summary;
use crate::records::Summary;
use hb_tree::ConstId;
use indexmap::IndexMap;

impl Givings {
    /// Keeps the first `n` instances, or all where there are fewer.
    pub fn cut(&mut self, n: u32)
        ensures { self.new ≡ take n self.old }
    {
        while self.len() > n {
            self.pop();
        }
    }

    /// Takes the last instance away.
    fn pop(&mut self)
        requires { 0 < length self.old }
        ensures { self.new ≡ take (length self.old - 1) self.old }
    {
        if let (Some(instance), Some(tally)) = (self.instances.pop(), self.tallies.pop()) {
            self.sources.truncate(tally.sources);
            remove_carrier(&mut self.carriers, &tally.before);
            restore_summary(&mut self.summaries, instance.carrier, tally.before);
        }
    }
}

/// Removes the last carrier, where it had nothing before.
fn remove_carrier(carriers: &mut Vec<ConstId>, before: &Option<Summary>)
    ensures { carriers.new.items ≡ without_new carriers.old.items before.now }
{
    if before.is_none() {
        carriers.pop();
    }
}

/// Gives the carrier what it had before.
fn restore_summary(
    summaries: &mut IndexMap<ConstId, Summary>,
    carrier: ConstId,
    before: Option<Summary>,
)
    requires { IsSome (summary_in summaries.old.entries carrier) }
    ensures { Puts summaries.old.entries carrier before summaries.new.entries }
{
    match before {
        Some(summary) => {
            // The carrier has an entry, so no memory is needed.
            let _ = put_summary(summaries, carrier, summary);
        }
        None => {
            summaries.swap_remove(&carrier);
        }
    }
}
