//! A new instance, with what is looked up after it.
ghost use Rattle.std.specs.Prelude.{◌≡◌, ◌<◌, ◌-◌, ◌^◌, ◌++◌, ◌∷◌, [], Some, length, IsNone, OnOk, OnErr, IfOk};
ghost use Rattle.std.specs.Vec.{vec_len, vec_capacity};
ghost use Rattle.hb_givings.specs.Givings.{givings_at};
ghost use Rattle.hb_givings.specs.Lookups.{summary, summary_in, Puts, with_new};

use crate::givings::Givings;
use crate::records::{Instance, Summary, Tally};
use crate::sources::add_sources;
use hb_order::StructId;
use hb_sets::MixSet;
use hb_tree::ConstId;
use indexmap::IndexMap;
use std::alloc::AllocError;

impl Givings {
    /// Adds an instance after all others. On failure nothing is added.
    pub fn push(
        &mut self,
        carrier: ConstId,
        binders: &[Option<StructId>],
        gives: MixSet,
    ) -> Result<(), AllocError>
        requires room { length self.old < 2 ^ 32 - 1 }
        requires few { length binders.now < 2 ^ 16 }
        ensures added { OnOk result (self.new
            ≡ self.old ++ record { carrier = carrier; giving = record { binders = binders.now; gives = gives } } ∷ []) }
        ensures unchanged { OnErr result (self.new ≡ self.old) }
    {
        let at = self.len();
        let sources = self.sources.len();
        let summary = self.summary_with(carrier, binders, &gives);
        let binders = Vec::from_slice(self.alloc, binders)?;
        self.instances.reserve(1)?;
        self.tallies.reserve(1)?;
        self.carriers.reserve(1)?;
        add_sources(&mut self.sources, carrier, &gives, at)?;
        match put_summary(&mut self.summaries, carrier, summary) {
            Ok(before) => {
                add_carrier(&mut self.carriers, carrier, &before);
                self.tallies.push_reserved(Tally { before, sources });
                self.instances.push_reserved(Instance {
                    carrier,
                    binders,
                    gives,
                });
                Ok(())
            }
            Err(refused) => {
                self.sources.truncate(sources);
                Err(refused)
            }
        }
    }

    /// What the carrier has, where it is given the set too.
    fn summary_with(
        &self,
        carrier: ConstId,
        binders: &[Option<StructId>],
        gives: &MixSet,
    ) -> Summary
        requires few { length binders.now < 2 ^ 16 }
        ensures { Some result
            ≡ summary (givings_at self.now carrier ++ record { binders = binders.now; gives = gives.now } ∷ []) }
    {
        let first = self.binders(carrier);
        Summary {
            binders: first.unwrap_or(binders.len() as u16),
            given: self.given(carrier).union(gives),
        }
    }
}

/// Keeps what the carrier has, and answers what it had.
pub(crate) fn put_summary(
    summaries: &mut IndexMap<ConstId, Summary>,
    carrier: ConstId,
    summary: Summary,
) -> Result<Option<Summary>, AllocError>
    ensures before { IfOk result (λ before. before ≡ summary_in summaries.old.entries carrier) }
    ensures put { OnOk result (Puts summaries.old.entries carrier (Some summary) summaries.new.entries) }
    ensures new { OnErr result (IsNone (summary_in summaries.old.entries carrier)) }
    ensures unchanged { OnErr result (summaries.new.entries ≡ summaries.old.entries) }
{
    match summaries.insert(carrier, summary) {
        Ok(before) => Ok(before),
        Err(refused) => Err(AllocError::from(refused)),
    }
}

/// Adds the carrier, where it had nothing before.
fn add_carrier(carriers: &mut Vec<ConstId>, carrier: ConstId, before: &Option<Summary>)
    requires { vec_len carriers.old < vec_capacity carriers.old }
    ensures { carriers.new.items ≡ with_new carriers.old.items carrier before.now }
{
    if before.is_none() {
        carriers.push_reserved(carrier);
    }
}
