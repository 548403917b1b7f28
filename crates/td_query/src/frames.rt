//! The windows of one length that a timestamp lies in.
ghost use Rattle.std.specs.Prelude.{◌≡◌, ◌<◌, ◌≤◌, ◌+◌, true};
ghost use Rattle.td_limits.specs.declared.limits.TheConstants.{LAST_TIMESTAMP, LONGEST_DURATION};
ghost use Rattle.td_query.specs.Frames.{IsEnd, is_in_pane};

/// Windows of one length, in milliseconds: they end at `phase` and each `slide` later.
#[derive(Clone, Copy)]
pub(crate) struct Frame {
    pub(crate) len: u64,
    pub(crate) phase: u64,
    pub(crate) slide: u64,
    ghost in_bounds: { len ≤ LONGEST_DURATION },
    ghost some: { 0 < slide },
    ghost without_gaps: { slide ≤ len },
    ghost phased: { phase < slide },
}

/// Windows of a frame that follow one another, by the ends of the first and the last.
#[derive(Clone, Copy)]
pub(crate) struct Pane {
    pub(crate) first: u64,
    pub(crate) last: u64,
}

impl Frame {
    // The last end at or before a timestamp.
    fn end_upto(self, t: u64) -> u64
        requires from { self.phase ≤ t }
        ensures end { IsEnd self.phase self.slide result }
        ensures upto { result ≤ t }
        ensures near { t < result + self.slide }
    {
        t - (t - self.phase) % self.slide
    }

    /// The windows that a timestamp lies in.
    pub(crate) fn pane_at(self, t: u64) -> Pane
        requires in_range { t ≤ LAST_TIMESTAMP }
        ensures first { IsEnd self.phase self.slide result.first }
        ensures last { IsEnd self.phase self.slide result.last }
        ensures in_range { result.last ≤ LAST_TIMESTAMP + LONGEST_DURATION }
        ensures pane { is_in_pane self.len self.slide result.first result.last t ≡ true }
    {
        Pane {
            first: self.end_upto(t + self.slide),
            last: self.end_upto(t + self.len),
        }
    }

    /// Whether a timestamp lies in just the windows of a pane.
    pub(crate) fn is_in_pane(self, pane: Pane, t: u64) -> bool
        requires in_range { t ≤ LAST_TIMESTAMP }
        ensures { result ≡ is_in_pane self.len self.slide pane.first pane.last t }
    {
        t < pane.first
            && pane.first <= t + self.slide
            && pane.last <= t + self.len
            && t + self.len - pane.last < self.slide
    }
}
