//! The items of a list: each a mixin, a factory or a structure at the command's carrier.
ghost use Rattle.std.specs.Prelude.{◌≡◌, length, map, None, IfOk, IfErr, OnOk};
ghost use Rattle.hb_hier.specs.Declaring.{fault, NoFault};
ghost use Rattle.hb_items.specs.Items.{IsFault, IsItem, AreItems, ItemCause, ItemsCause, IsFirstFault};

use crate::hierarchy::of_hierarchy;
use hb_base::{NameId, Span};
use hb_env::{Refusal, What};
use hb_hier::Hier;
use hb_raw::{Item, Word};
use std::alloc::{AllocError, Global};
use std::vec::Vec;

/// Each item may stand in a list, and stands at the carrier. The first that doesn't is refused: as
/// `UnknownFactory` or `Unfinished` at its name, else as `NotCarrier` at its carrier.
pub fn check_items(hier: &Hier, items: &[Item], carrier: Word) -> Result<(), Refusal>
    ensures items { OnOk result (AreItems hier.now carrier.name items.now) }
    ensures refused { IfErr result (ItemsCause hier.now carrier.name items.now) }
{
    for item in items {
        check_item(hier, *item, carrier.name)?;
    }
    Ok(())
}

/// One item.
fn check_item(hier: &Hier, item: Item, carrier: NameId) -> Result<(), Refusal>
    ensures item { OnOk result (IsItem hier.now carrier item) }
    ensures refused { IfErr result (ItemCause hier.now carrier item) }
{
    check_name(hier, item.factory.name, item.factory.span)?;
    if item.carrier.name.0 != carrier.0 {
        return Err(Refusal {
            span: item.carrier.span,
            what: What::NotCarrier(item.carrier.name),
        });
    }
    Ok(())
}

/// The name may stand in a list.
fn check_name(hier: &Hier, name: NameId, span: Span) -> Result<(), Refusal>
    ensures usable { OnOk result (fault hier.now name ≡ None) }
    ensures refused { IfErr result (IsFault hier.now name span) }
{
    match hier.check_item(name) {
        Ok(()) => Ok(()),
        Err(fault) => {
            let what = of_hierarchy(hier, name, fault);
            Err(Refusal { span, what })
        }
    }
}

/// Each name of a library's list may stand there; the first that may not is refused at the entry's place.
pub fn check_names(hier: &Hier, items: &[NameId], span: Span) -> Result<(), Refusal>
    ensures usable { OnOk result (NoFault hier.now items.now (length items.now)) }
    ensures refused { IfErr result (IsFirstFault hier.now items.now span) }
{
    for name in items {
        check_name(hier, *name, span)?;
    }
    Ok(())
}

/// The names of the items.
pub fn item_names(alloc: Global, items: &[Item]) -> Result<Vec<NameId>, AllocError>
    ensures { IfOk result (λ ns. ns.items ≡ map (λ i. i.factory.name) items.now) }
{
    let mut names = Vec::new(alloc);
    for item in items {
        names.push(item.factory.name)?;
    }
    Ok(names)
}
