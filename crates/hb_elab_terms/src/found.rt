//! The key of a type.

use crate::carried::cause;
use crate::desk::Work;
use crate::equating::of_cause;
use crate::fault::ElabFault;
use crate::local::Local;
use crate::terms::scoped;
use hb_base::Limits;
use hb_env::Env;
use hb_found::{End, Reads, walk};
use hb_order::StructId;
use hb_term::{Scoped, Term};
use hb_world::World;
use std::alloc::Global;

/// The first key of a closed-up type that has the structure, as a term; none where there is none.
pub fn find_key(
    alloc: Global,
    env: &Env,
    world: &World,
    local: &Local<'_>,
    structure: StructId,
    carrier: &Term,
    work: &mut Work,
    limits: &Limits,
) -> Result<Option<Scoped>, ElabFault> {
    if structure.0 >= world.hier.structures() {
        return Ok(None);
    }
    let reads = Reads {
        env,
        hier: &world.hier,
        tables: &world.tables,
        local: local.carrier,
        limits,
    };
    let Ok(depth) = u32::try_from(local.scopes.len()) else {
        return Err(ElabFault::NoMemory);
    };
    let set = world.hier.mix(structure);
    match walk(alloc, reads, depth, set, work.moves, carrier) {
        Ok(End::Found(_, key, moves)) => {
            work.moves = moves;
            Ok(Some(scoped(key, depth)?))
        }
        Ok(End::Missing(moves)) => {
            work.moves = moves;
            Ok(None)
        }
        Err(stop) => Err(of_cause(cause(depth, stop))?),
    }
}
