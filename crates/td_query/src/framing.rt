//! The frame of the windows of a query.
ghost use Rattle.std.specs.Prelude.{◌≡◌, false};
ghost use Rattle.std.specs.Option.{option_map};
ghost use Rattle.td_query.specs.Frames.{frame_of};
ghost use Rattle.td_query.specs.Framed.{frame_numbers};
ghost use Rattle.td_verdict.specs.Refusals.{has_bad_bounds};

use crate::frames::Frame;
use td_limits::LAST_TIMESTAMP;
use td_model::WindowDef;

// So long that all timestamps lie in one window.
const ALL_TIME: u64 = LAST_TIMESTAMP + 1;

/// The frame of a query's windows. Without a window clause all timestamps lie in one window; sessions and state windows
/// have none.
pub(crate) fn frame_of(window: &WindowDef) -> Option<Frame>
    requires bounds { has_bad_bounds window.now ≡ false }
    ensures { option_map frame_numbers result ≡ frame_of window.now }
{
    match window {
        WindowDef::Whole => Some(Frame {
            len: ALL_TIME,
            phase: 0,
            slide: ALL_TIME,
        }),
        WindowDef::Interval { len, offset, slide } => Some(Frame {
            len: *len,
            phase: (*offset + *len) % *slide,
            slide: *slide,
        }),
        WindowDef::Session { .. } | WindowDef::State { .. } => None,
    }
}
