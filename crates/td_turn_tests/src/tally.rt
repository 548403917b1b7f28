//! A value that counts.
ghost use Rattle.std.specs.Prelude.{◌≡◌, ◌+◌, ◌≤◌};

use td_turn::Turned;

/// The highest count.
const LAST: u64 = 1_000_000;

/// A count. It stands for the numbers from 1 on, as many as it has counted.
#[derive(Drop)]
pub struct Tally {
    pub count: u64,
    ghost within: { count ≤ 1000000 },
}

impl Turned for Tally {
    ghost use Rattle.td_turn.specs.Passes.{versions_after};

    type Base = ();

    type Entry = u64;

    ghost base = { λ _. tt };

    ghost first = { λ _. 0 };

    ghost list = { λ tally. versions_after 0 tally.count };
}

impl Tally {
    /// It has counted nothing.
    pub fn new() -> Tally
        ensures { result.count ≡ 0 }
    {
        Tally { count: 0 }
    }

    /// Counts one more, or none at the highest count, and answers how many it was.
    pub fn raise(&mut self) -> u64
        ensures { self.new.count ≡ self.old.count + result }
    {
        if self.count >= LAST {
            return 0;
        }
        self.count += 1;
        1
    }
}
