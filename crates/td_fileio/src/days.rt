//! Day ranges.
ghost use Rattle.std.specs.Prelude.{◌≡◌};
ghost use Rattle.td_fileio.specs.Days.{day_start, day_end, is_in_day};

use td_limits::DAY_RANGE;

/// The first timestamp of a day range.
pub fn day_start(range: u32) -> u64
    ensures { result ≡ day_start range }
{
    u64::from(range) * DAY_RANGE
}

/// The last timestamp of a day range.
pub fn day_end(range: u32) -> u64
    ensures { result ≡ day_end range }
{
    u64::from(range) * DAY_RANGE + (DAY_RANGE - 1)
}

/// Whether a timestamp lies in a day range.
pub fn is_in_day(range: u32, ts: u64) -> bool
    ensures { result ≡ is_in_day range ts }
{
    day_start(range) <= ts && ts <= day_end(range)
}
