//! The first instance that gave a mixin to a carrier.
ghost use Rattle.std.specs.Prelude.{◌≡◌, ◌&&◌, ◌==◌, length, take, OnOk, OnErr};
ghost use Rattle.std.specs.Option.{is_none};
ghost use Rattle.hb_sets.specs.Set.{contains};
ghost use Rattle.hb_givings.specs.Lookups.{source_in, Adds};

use hb_order::MixinId;
use hb_sets::MixSet;
use hb_tree::ConstId;
use indexmap::IndexMap;
use std::alloc::AllocError;

/// Notes the place for each mixin of the set that the carrier wasn't given before.
pub(crate) fn add_sources(
    sources: &mut IndexMap<(ConstId, MixinId), u32>,
    carrier: ConstId,
    gives: &MixSet,
    at: u32,
) -> Result<(), AllocError>
    ensures kept { take (length sources.old.entries) sources.new.entries ≡ sources.old.entries }
    ensures added { OnOk result (Adds sources.old.entries carrier (contains gives.now) at sources.new.entries) }
    ensures unchanged { OnErr result (sources.new.entries ≡ sources.old.entries) }
{
    let before = sources.len();
    match add_each(sources, carrier, gives, at) {
        Ok(()) => Ok(()),
        Err(refused) => {
            sources.truncate(before);
            Err(refused)
        }
    }
}

/// The same, where a failure may leave some of them.
fn add_each(
    sources: &mut IndexMap<(ConstId, MixinId), u32>,
    carrier: ConstId,
    gives: &MixSet,
    at: u32,
) -> Result<(), AllocError>
    ensures kept { take (length sources.old.entries) sources.new.entries ≡ sources.old.entries }
    ensures added { OnOk result (Adds sources.old.entries carrier (contains gives.now) at sources.new.entries) }
{
    gives.members_are_small();
    for m in 0..1024u16 {
        add_source(sources, carrier, gives, MixinId(m), at)?;
    }
    Ok(())
}

/// Notes the place for the mixin, where the set has it and the carrier wasn't given it before.
fn add_source(
    sources: &mut IndexMap<(ConstId, MixinId), u32>,
    carrier: ConstId,
    gives: &MixSet,
    m: MixinId,
    at: u32,
) -> Result<(), AllocError>
    ensures kept { take (length sources.old.entries) sources.new.entries ≡ sources.old.entries }
    ensures added { OnOk result
        (Adds sources.old.entries carrier (λ n. m.0 == n && contains gives.now m.0) at sources.new.entries) }
{
    if gives.has(m.0) && is_new(sources, carrier, m) {
        sources.insert((carrier, m), at)?;
    }
    Ok(())
}

/// Whether the carrier wasn't given the mixin before.
fn is_new(sources: &IndexMap<(ConstId, MixinId), u32>, carrier: ConstId, m: MixinId) -> bool
    ensures { result ≡ is_none (source_in sources.now.entries carrier m.0) }
{
    sources.get(&(carrier, m)).is_none()
}
