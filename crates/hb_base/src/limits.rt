//! The budget of one reduction.
ghost use Rattle.std.specs.Prelude.{◌<◌, ◌-◌, ◌^◌};

/// What one reduction may use: at most `steps` steps, and no term on its way of more than `nodes`
/// nodes or more than `depth` depth. Counts that stand still at the end of their type pass both.
#[derive(Clone, Copy)]
pub struct Limits {
    pub steps: u64,
    pub nodes: u64,
    pub depth: u32,
    pub ghost nodes_fit: { nodes < 2 ^ 64 - 1 },
    pub ghost depth_fit: { depth < 2 ^ 32 - 1 },
}

impl Limits {
    /// The limits of a run without options.
    pub const DEFAULT: Limits = Limits {
        steps: 200_000,
        nodes: 1_000_000,
        depth: 2_000,
    };
}
