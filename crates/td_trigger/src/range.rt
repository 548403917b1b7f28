//! Ranges of timestamps.
ghost use Rattle.std.specs.Prelude.{◌≡◌};
ghost use Rattle.td_trigger.specs.Ranges.{hull};

/// The timestamps from `lo` to `hi`, both included, in milliseconds since 1970. Ranges are ordered by `lo`, then by
/// `hi`.
#[derive(Clone, Copy, Debug, PartialEq, Eq, PartialOrd, Ord)]
pub struct Range {
    pub lo: u64,
    pub hi: u64,
}

impl Range {
    /// The two ranges, and all between them.
    pub(crate) fn hull(self, other: Range) -> Range
        ensures { result ≡ hull self other }
    {
        Range {
            lo: self.lo.min(other.lo),
            hi: self.hi.max(other.hi),
        }
    }
}
