//! The range of timestamps.
ghost use Rattle.std.specs.Prelude.{◌≡◌};
ghost use Rattle.td_verdict.specs.Writes.{time_from};

use td_limits::LAST_TIMESTAMP;

/// A number of milliseconds since 1970, brought into the range of timestamps.
pub fn time_from(n: i128) -> u64
    ensures { result ≡ time_from n }
{
    if n < 0 {
        0
    } else if n > i128::from(LAST_TIMESTAMP) {
        LAST_TIMESTAMP
    } else {
        n as u64
    }
}
