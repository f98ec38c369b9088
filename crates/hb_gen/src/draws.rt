//! Numbers that look drawn, from a first one.

const FACTOR: u64 = 6_364_136_223_846_793_005;

const SUMMAND: u64 = 1_442_695_040_888_963_407;

/// How many of the lowest bits are left out.
const LEFT_OUT: u32 = 33;

/// What the next numbers depend on.
#[derive(Drop)]
pub(crate) struct Draws {
    state: u64,
}

impl Draws {
    /// The numbers after the first one.
    pub fn new(number: u64) -> Draws {
        Draws { state: number }
    }

    /// The next number below `below`, or 0 where none is.
    pub fn draw(&mut self, below: u64) -> u64 {
        self.state = self.state.wrapping_mul(FACTOR).wrapping_add(SUMMAND);
        (self.state >> LEFT_OUT).checked_rem(below).unwrap_or(0)
    }
}
