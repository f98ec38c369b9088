//! Names of what is declared, in lists.
ghost use Rattle.std.specs.Prelude.{◌≡◌, IfOk, map, string_bytes};
ghost use Rattle.hb_hier.specs.Hierarchy.{name_of};
ghost use Rattle.hb_report.specs.Lines.{listed, names_text};
ghost use Rattle.hb_events.specs.Listing.{mixin_names, with_name};

use hb_base::{NameId, Names};
use hb_hier::{Hier, Known};
use hb_order::MixinId;
use hb_report::name_text;
use hb_sets::MixSet;
use std::alloc::{AllocError, Global};

/// The names of the mixins of a set, in declared order.
pub(crate) fn mixin_names(
    alloc: Global,
    hier: &Hier,
    set: &MixSet,
) -> Result<Vec<NameId>, AllocError>
    ensures { IfOk result (λ list. list.items ≡ mixin_names hier.now set.now) }
{
    let mut list = Vec::new(alloc);
    for m in 0..hier.mixins() {
        if set.has(m) {
            push_name(hier, Known::Mixin(MixinId(m)), &mut list)?;
        }
    }
    Ok(list)
}

/// Adds the name of what is declared.
pub(crate) fn push_name(hier: &Hier, known: Known, list: &mut Vec<NameId>) -> Result<(), AllocError>
    ensures { IfOk result (λ _. list.new.items ≡ with_name list.old.items (name_of hier.now known)) }
{
    match hier.name(known) {
        Some(name) => {
            list.push(name)?;
            Ok(())
        }
        None => Ok(()),
    }
}

/// Names, each behind a space, or ` none` where there are none.
pub(crate) fn listed(alloc: Global, names: &Names, list: &[NameId]) -> Result<String, AllocError>
    ensures { IfOk result (λ s. string_bytes s ≡ listed names.now (map (λ n. n.0) list.now)) }
{
    if list.is_empty() {
        String::from_str(alloc, " none")
    } else {
        names_text(alloc, names, list)
    }
}

/// The names one after another, each behind a space.
fn names_text(alloc: Global, names: &Names, list: &[NameId]) -> Result<String, AllocError>
    ensures { IfOk result (λ s. string_bytes s ≡ names_text names.now (map (λ n. n.0) list.now)) }
{
    match list {
        [] => Ok(String::new(alloc)),
        [first, rest @ ..] => {
            let text = name_text(alloc, names, *first)?;
            let more = names_text(alloc, names, rest)?;
            format!(in alloc; " {text}{more}")
        }
    }
}
