// Which calls of an object in memory are to fail.
ghost use Rattle.std.specs.Prelude.{◌≡◌};
ghost use Rattle.outside.specs.Calls.{Calls, calls_from, after_call, fails_next};

use std::marker::Model;

/// How many calls were made, and the numbers of those that fail, counted from 1.
#[derive(Drop)]
pub struct Schedule {
    made: u64,
    failing: Vec<u64>,
}

impl Model for Schedule {
    ghost Value = { Calls };

    ghost view = { λ s. record { made = s.made; failing = s.failing.items } };
}

impl Schedule {
    /// No call was made yet.
    pub fn of(failing: Vec<u64>) -> Self
        ensures { result ≡ calls_from failing.items }
    {
        Schedule { made: 0, failing }
    }

    /// Counts a call, and says whether it is to fail.
    pub fn next_fails(&mut self) -> bool
        ensures answer { result ≡ fails_next self.old }
        ensures counted { self.new ≡ after_call self.old }
    {
        self.made = self.made.saturating_add(1);
        self.failing.contains(&self.made)
    }
}
