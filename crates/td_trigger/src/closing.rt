//! When a window is closed, and when it is due.
ghost use Rattle.std.specs.Prelude.{◌≡◌, pos, ◌+ℤ◌};
ghost use Rattle.td_trigger.specs.Closing.{horizon, is_closed, is_due};

use td_model::WindowDef;
use td_window::Span;

/// Whether a window is closed, which it is where no row can be in it that the watermark still lets come. `next` is the
/// start of the next window of its group, where there is one; `latest` is the greatest timestamp ever put to its
/// source. All times are in milliseconds. A partition without windows is never closed.
pub fn closed(w: Span, next: Option<i64>, latest: u64, window: &WindowDef, watermark: u64) -> bool
    ensures { result ≡ is_closed window.now w.end next latest watermark }
{
    let horizon = horizon(latest, watermark);
    match window {
        WindowDef::Whole => false,
        WindowDef::Interval { .. } => w.end as i128 <= horizon,
        WindowDef::Session { tol, .. } => end_of_gap(w.end, *tol) < horizon,
        WindowDef::State { .. } => match next {
            Some(start) => start as i128 <= horizon,
            None => false,
        },
    }
}

/// What the watermark leaves of the latest timestamp; it may lie below 0.
fn horizon(latest: u64, watermark: u64) -> i128
    ensures { result ≡ horizon latest watermark }
{
    latest as i128 - watermark as i128
}

/// The last timestamp that still joins a session with this end.
fn end_of_gap(end: i64, tol: u64) -> i128
    ensures { result ≡ end +ℤ pos tol }
{
    end as i128 + tol as i128
}

/// Whether a window is due: its first row was born at `earliest`, and the delay has passed at the moment. All three are
/// in milliseconds.
pub fn due(earliest: u64, moment: u64, delay: u64) -> bool
    ensures { result ≡ is_due earliest moment delay }
{
    earliest <= moment && delay <= moment - earliest
}
