//! The system's clock.
ghost use Rattle.std.specs.Prelude.{◌≡◌, ◌≤◌, None};
ghost use Rattle.td_outside.specs.Causes.{Reads};

use std::marker::Model;
use std::time::SystemTime;
use td_limits::LAST_TIMESTAMP;
use td_outside::Clock;

/// The system's clock in milliseconds since 1970, up to the end of year 9999. Where the system gives no reading it
/// answers what it answered last, and 0 before the first. Contracts see it as what it answered last.
#[derive(Drop)]
pub struct SystemClock {
    rt: HostRuntime,
    last: u64,
}

impl Model for SystemClock {
    ghost use Rattle.std.specs.Prelude.{ℕ, ◌≤◌};
    ghost use Rattle.td_limits.specs.declared.limits.TheConstants.{LAST_TIMESTAMP};

    ghost Value = { ℕ };

    ghost view = { λ c. c.last };

    ghost invariant = { λ c. c.last ≤ LAST_TIMESTAMP };
}

impl SystemClock {
    /// The clock of the system.
    pub fn new(rt: HostRuntime) -> SystemClock
        ensures { result ≡ 0 }
    {
        SystemClock { rt, last: 0 }
    }
}

impl Clock for SystemClock {
    ghost readings = { λ c. None };

    fn now(&mut self) -> u64
        ensures most { result ≤ LAST_TIMESTAMP }
        ensures reading { Reads None None result }
        ensures last { self.new ≡ result }
    {
        if let Ok(now) = SystemTime::now(&self.rt) {
            if let Ok(since) = now.duration_since(SystemTime::UNIX_EPOCH) {
                self.last = since.as_millis().min(LAST_TIMESTAMP as u128) as u64;
            }
        }
        self.last
    }
}
