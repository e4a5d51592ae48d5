// The lines of a tick's verdict.
ghost use Rattle.std.specs.Prelude.{◌≡◌, [], get_or};
ghost use Rattle.text.specs.Line.{line_of};
ghost use Rattle.trace_text.specs.Trace.{verdict_lines};

use crate::rows::{list_row, row};
use lictor_core::verdict::SafetyVerdict;
use text::Line;

// Line `at` of the verdict; from the last on it is empty.
pub(crate) fn verdict_line(at: usize, v: SafetyVerdict) -> Line
    ensures { result ≡ line_of (get_or (verdict_lines v) at []) }
{
    match at {
        0 => row(b"v.seq=", v.seq),
        1 => row(b"v.t=", v.t),
        2 => row(b"v.status=", v.status as u8),
        3 => row(b"v.state=", v.state as u8),
        4 => row(b"v.prev_state=", v.prev_state as u8),
        5 => row(b"v.trips=", v.trips),
        6 => list_row(b"v.action=", &v.action),
        7 => row(b"v.action_dim=", v.action_dim),
        8 => row(b"v.action_src=", v.action_src as u8),
        9 => row(b"v.substituted=", v.substituted),
        10 => row(b"v.clamped_dims=", v.clamped_dims),
        11 => list_row(b"v.z=", &v.scores.z),
        12 => row(b"v.s=", v.scores.s),
        13 => row(b"v.valid=", v.scores.valid),
        14 => row(b"v.fired=", v.scores.fired),
        15 => row(b"v.tau=", v.tau),
        16 => row(b"v.window=", v.window),
        17 => row(b"v.window_hits=", v.window_hits),
        18 => row(b"v.brake_margin=", v.brake_margin),
        19 => row(b"v.reason=", v.reason as u8),
        20 => row(b"v.handoff_seq=", v.handoff_seq),
        21 => row(b"v.ack_consumed=", v.ack_consumed),
        22 => row(b"v.violation_reached_env=", v.violation_reached_env),
        _ => Line::new(),
    }
}
