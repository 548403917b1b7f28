//! A clock in memory.
ghost use Rattle.std.specs.Prelude.{◌≡◌, ◌<◌, ◌≤◌, Some, length, All};

use std::marker::Model;
use td_layer::Seq;
use td_limits::LAST_TIMESTAMP;
use td_outside::Clock;

/// A clock that gives readings from a list, and repeats the last. Contracts see it as the readings that are left.
#[derive(Drop)]
pub struct Ticks {
    readings: Seq<u64>,
    at: usize,
}

impl Model for Ticks {
    ghost use Rattle.std.specs.Prelude.{◌<◌, ◌≤◌, ℕ, List, length, drop, All};
    ghost use Rattle.td_limits.specs.declared.limits.TheConstants.{LAST_TIMESTAMP};

    ghost Value = { List ℕ };

    ghost view = { λ c. drop c.at c.readings };

    ghost invariant = { λ c. (c.at < length c.readings) × All (λ t. t ≤ LAST_TIMESTAMP) c.readings };
}

impl Ticks {
    /// A clock of these readings, in milliseconds since 1970.
    pub fn new(readings: Seq<u64>) -> Ticks
        requires some { 0 < length readings }
        requires most { All (λ t. t ≤ LAST_TIMESTAMP) readings }
        ensures { result ≡ readings }
    {
        Ticks { readings, at: 0 }
    }
}

impl Clock for Ticks {
    ghost readings = { λ c. Some c };

    fn now(&mut self) -> u64 {
        let now = self.readings.as_slice()[self.at];
        if self.at + 1 < self.readings.len() {
            self.at += 1;
        }
        now
    }
}
