//! What elaboration reads.
use hb_base::Limits;
use hb_env::Env;
use hb_found::Reads;
use hb_hier::Hier;
use hb_tables::{Carrier, Tables};
use hb_world::Section;

/// The environment, the hierarchy, the tables, the open section, a local carrier, and the limits.
#[derive(Clone, Copy)]
pub struct Scene<'a> {
    pub env: &'a Env,
    pub hier: &'a Hier,
    pub tables: &'a Tables,
    pub section: Option<&'a Section>,
    pub local: Option<&'a Carrier>,
    pub limits: &'a Limits,
}

/// What equations read of it.
pub(crate) fn reads(scene: Scene<'_>) -> Reads<'_> {
    Reads {
        env: scene.env,
        hier: scene.hier,
        tables: scene.tables,
        local: scene.local,
        limits: scene.limits,
    }
}
