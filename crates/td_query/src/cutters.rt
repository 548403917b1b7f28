//! The ways to cut the rows of a group into windows.
ghost use Rattle.std.specs.Prelude.{◌≡◌, ◌<◌, ◌≤◌, [], ◌∷◌, IfOk, All, List, length, map};
ghost use Rattle.std.specs.List.{AllByRecursion};
ghost use Rattle.std.specs.List.Sorted.{IsNonDecreasing};
ghost use Rattle.td_limits.specs.declared.limits.TheConstants.{LAST_TIMESTAMP, LONGEST_DURATION};
ghost use Rattle.td_query.specs.Cuts.{window_of_span, IsAmong};
ghost use Rattle.td_query.specs.Read.{IsGood};
ghost use Rattle.td_query.specs.declared.columns.Kept.{Kept as AKept};
ghost use Rattle.td_query.specs.declared.columns.Kept.TheVariants as kept;
ghost use Rattle.td_verdict.specs.Windowed.{Keyed, Windows, value_at, whole_window, interval_windows};
ghost use Rattle.td_window.specs.Spans.{time_of};
ghost use Rattle.td_window.specs.Windows.{session_windows, state_windows};

use crate::columns::Kept;
use crate::spans::{intervals_of, sessions_of, state_spans, whole_span};
use std::alloc::Global;
use td_layer::{Key, NoMem, Row, Seq};
use td_window::Span;

/// A way to cut the rows of a group, by timestamp, into windows. A further kind of window is a further implementation.
///
/// Its meanings are the windows of rows, and which of the rows that a span covers belong to its window.
pub(crate) trait Cutter {
    ghost windows: { Self → List Keyed → Windows };

    ghost keeps: { Self → AKept };

    /// Which of the rows that a span covers belong to its window.
    fn kept(&self) -> Kept
        ensures { result ≡ keeps self.now };

    /// The windows of rows as spans, by their starts.
    fn cut(&self, alloc: Global, rows: &[(Key, Row)]) -> Result<Seq<Span>, NoMem>
        requires in_order { IsNonDecreasing (map time_of rows.now) }
        requires good { AllByRecursion (IsGood LAST_TIMESTAMP) rows.now }
        ensures among { IfOk result (All (IsAmong (length rows.now))) }
        ensures windows { IfOk result (λ spans. map (window_of_span (keeps self.now) rows.now) spans
            ≡ windows self.now rows.now) };
}

/// All rows in one window, from 0 to 0, also where there is no row.
#[derive(Clone, Copy)]
pub(crate) struct Whole;

/// The intervals that hold a row, of a length, an offset and a slide in milliseconds.
#[derive(Clone, Copy)]
pub(crate) struct Intervals {
    pub(crate) len: u64,
    pub(crate) offset: u64,
    pub(crate) slide: u64,
    ghost in_bounds: { len ≤ LONGEST_DURATION },
    ghost within: { offset < len },
    ghost some: { 0 < slide },
    ghost without_gaps: { slide ≤ len },
}

/// Sessions of a tolerance in milliseconds.
#[derive(Clone, Copy)]
pub(crate) struct Sessions {
    pub(crate) tol: u64,
}

/// State windows, by the state in the column at a place.
#[derive(Clone, Copy)]
pub(crate) struct States {
    pub(crate) place: Option<usize>,
}

impl Cutter for Whole {
    ghost windows = { λ _ rows. whole_window rows ∷ [] };

    ghost keeps = { λ _. kept.All };

    fn kept(&self) -> Kept {
        Kept::All
    }

    fn cut(&self, alloc: Global, rows: &[(Key, Row)]) -> Result<Seq<Span>, NoMem> {
        let spans = whole_span(alloc, rows)?;
        Ok(spans)
    }
}

impl Cutter for Intervals {
    ghost windows = { λ c rows. interval_windows c.len c.offset c.slide rows };

    ghost keeps = { λ _. kept.All };

    fn kept(&self) -> Kept {
        Kept::All
    }

    fn cut(&self, alloc: Global, rows: &[(Key, Row)]) -> Result<Seq<Span>, NoMem> {
        let spans = intervals_of(alloc, self.len, self.offset, self.slide, rows)?;
        Ok(spans)
    }
}

impl Cutter for Sessions {
    ghost windows = { λ c rows. session_windows time_of c.tol rows };

    ghost keeps = { λ _. kept.All };

    fn kept(&self) -> Kept {
        Kept::All
    }

    fn cut(&self, alloc: Global, rows: &[(Key, Row)]) -> Result<Seq<Span>, NoMem> {
        let spans = sessions_of(alloc, self.tol, rows)?;
        Ok(spans)
    }
}

impl Cutter for States {
    ghost windows = { λ c rows. state_windows time_of (value_at c.place) rows };

    ghost keeps = { λ c. kept.WithState c.place };

    fn kept(&self) -> Kept {
        Kept::WithState(self.place)
    }

    fn cut(&self, alloc: Global, rows: &[(Key, Row)]) -> Result<Seq<Span>, NoMem> {
        let spans = state_spans(alloc, self.place, rows)?;
        Ok(spans)
    }
}
