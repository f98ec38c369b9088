//! Which calls of a device in memory fail.
ghost use Rattle.std.specs.Prelude.{◌≡◌, ◌≤◌, ℕ, true};
ghost use Rattle.hb_io.specs.Causes.{Rose};

/// Counts the calls of a device from 1, and fails those whose numbers are in a list, or none.
#[derive(Drop)]
pub struct Calls {
    fails: Vec<u64>,
    nothing_fails: bool,
    made: u64,
    pub faults: u64,
    ghost calm: { nothing_fails ≡ true → faults ≡ 0 },
}

impl Calls {
    /// No call so far. Where `nothing_fails` is set the list is passed over.
    pub fn new(fails: Vec<u64>, nothing_fails: bool) -> Calls
        ensures { result.faults ≡ 0 }
    {
        Calls {
            fails,
            nothing_fails,
            made: 0,
            faults: 0,
        }
    }

    /// Counts a call, and answers whether it is to fail: then the count of faults rises.
    pub fn fails_now(&mut self) -> bool
        ensures rose { result ≡ true → Rose self.old.faults self.new.faults }
        ensures later { self.old.faults ≤ self.new.faults }
    {
        self.made = self.made.saturating_add(1);
        let fails = !self.nothing_fails && self.fails.contains(&self.made);
        if fails {
            self.faults = self.faults.saturating_add(1);
        }
        fails
    }
}
