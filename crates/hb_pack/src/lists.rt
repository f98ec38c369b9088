//! The members of a set in order, and places in lists of them.
ghost use Rattle.std.specs.Prelude.{◌≡◌, ◌≤◌, ◌++◌, ◌-◌, filter, vec_items, length, IfOk};
ghost use Rattle.hb_sets.specs.Set.{contains};
ghost use Rattle.hb_paths.specs.Packs.{index_in};
ghost use Rattle.hb_generated.specs.Reading.{listed, below_from};

use hb_sets::MixSet;
use std::alloc::{AllocError, Global};
use std::vec::Vec;

/// The members of the set, in order.
#[tactic(auto, using(crate::proofs::ListedLemmas::rest_begin, crate::proofs::ListedLemmas::rest_turn, crate::proofs::ListedLemmas::rest_end))]
pub fn listed(alloc: Global, set: &MixSet) -> Result<Vec<u16>, AllocError>
    ensures members { IfOk result (λ ms. ms.items ≡ listed set.now) }
    ensures few { IfOk result (λ ms. length ms.items ≤ 1024) }
{
    let mut members = Vec::new(alloc);
    for m in 0..1024u16 {
        if set.has(m) {
            members.push(m)?;
        }
    }
    Ok(members)
}

/// The place of `m` in the list, or the list's length where it isn't there.
pub(crate) fn index_in(list: &[u16], m: u16) -> u16
    requires { length list.now ≤ 1024 }
    ensures value { result ≡ index_in list.now m }
    ensures within { result ≤ length list.now }
{
    for at in 0..list.len() {
        if list[at] == m {
            return at as u16;
        }
    }
    list.len() as u16
}

/// The length, where it fits.
pub(crate) fn count_of(len: usize) -> Result<u32, AllocError>
    ensures { IfOk result (λ n. n ≡ len) }
{
    if len > 4_294_967_295 {
        return Err(AllocError);
    }
    Ok(len as u32)
}
