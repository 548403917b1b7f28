//! The range of timestamps that comparisons leave.
ghost use Rattle.std.specs.Prelude.{◌≡◌};
ghost use Rattle.td_verdict.specs.Plans.{time_above, time_below, low_of, high_of, low, high, lowest, highest};

use td_cells::number_of;
use td_fields::time_from;
use td_limits::LAST_TIMESTAMP;
use td_model::Op;
use td_verdict::Comparison;

// The timestamp above a number, brought into the range of timestamps.
fn time_above(n: i128) -> u64
    ensures { result ≡ time_above n }
{
    if n < 0 {
        0
    } else if n < i128::from(LAST_TIMESTAMP) {
        n as u64 + 1
    } else {
        LAST_TIMESTAMP
    }
}

// The timestamp below a number, brought into the range of timestamps.
fn time_below(n: i128) -> u64
    ensures { result ≡ time_below n }
{
    if n < 1 {
        0
    } else if n <= i128::from(LAST_TIMESTAMP) {
        n as u64 - 1
    } else {
        LAST_TIMESTAMP
    }
}

// The least timestamp that a comparison with a number leaves.
fn low_of(op: Op, n: i128) -> u64
    ensures { result ≡ low_of op n }
{
    match op {
        Op::Gt => time_above(n),
        Op::Ge | Op::Eq => time_from(n),
        Op::Lt | Op::Le | Op::Ne | Op::IsNull | Op::NotNull => 0,
    }
}

// The greatest timestamp that a comparison with a number leaves.
fn high_of(op: Op, n: i128) -> u64
    ensures { result ≡ high_of op n }
{
    match op {
        Op::Lt => time_below(n),
        Op::Le | Op::Eq => time_from(n),
        Op::Gt | Op::Ge | Op::Ne | Op::IsNull | Op::NotNull => LAST_TIMESTAMP,
    }
}

// The least timestamp that a comparison leaves: of the first column, which is at place 1, or else of another place.
fn low(comparison: &Comparison) -> u64
    ensures { result ≡ low comparison.now }
{
    if comparison.place != 1 {
        return 0;
    }
    match number_of(&comparison.operand) {
        Some(n) => low_of(comparison.op, n),
        None => 0,
    }
}

// The greatest timestamp that a comparison leaves.
fn high(comparison: &Comparison) -> u64
    ensures { result ≡ high comparison.now }
{
    if comparison.place != 1 {
        return LAST_TIMESTAMP;
    }
    match number_of(&comparison.operand) {
        Some(n) => high_of(comparison.op, n),
        None => LAST_TIMESTAMP,
    }
}

// The least and the greatest timestamp that comparisons leave.
pub(crate) fn range_of(comparisons: &[Comparison]) -> (u64, u64)
    ensures low { result.0 ≡ lowest comparisons.now }
    ensures high { result.1 ≡ highest comparisons.now }
{
    let (mut lo, mut hi) = (0, LAST_TIMESTAMP);
    for comparison in comparisons {
        lo = lo.max(low(comparison));
        hi = hi.min(high(comparison));
    }
    (lo, hi)
}
