// The lines of the tally.
ghost use Rattle.std.specs.Prelude.{◌≡◌, [], get_or};
ghost use Rattle.text.specs.Line.{line_of};
ghost use Rattle.trace_text.specs.Trace.{tally_lines};

use crate::rows::{list_row, row};
use lictor_core::tally::Tally;
use text::Line;

// Line `at` of the tally; from the last on it is empty.
pub(crate) fn tally_line(at: usize, t: Tally) -> Line
    ensures { result ≡ line_of (get_or (tally_lines t) at []) }
{
    match at {
        0 => row(b"tally.ticks=", t.ticks),
        1 => row(b"tally.nominal=", t.nominal),
        2 => row(b"tally.watching=", t.watching),
        3 => row(b"tally.clamped=", t.clamped),
        4 => row(b"tally.braking=", t.braking),
        5 => row(b"tally.held=", t.held),
        6 => row(b"tally.escalated=", t.escalated),
        7 => row(b"tally.fault=", t.fault),
        8 => row(b"tally.terminated=", t.terminated),
        9 => row(b"tally.substituted=", t.substituted),
        10 => row(b"tally.chunks_seen=", t.chunks_seen),
        11 => row(b"tally.chunks_rejected=", t.chunks_rejected),
        12 => row(b"tally.clamps=", t.clamps),
        13 => row(b"tally.holds=", t.holds),
        14 => row(b"tally.rearms=", t.rearms),
        15 => row(b"tally.escalations=", t.escalations),
        16 => list_row(b"tally.trips_by_bit=", &t.trips_by_bit),
        17 => list_row(b"tally.fired_by_feat=", &t.fired_by_feat),
        18 => row(b"tally.first_trip_tick=", t.first_trip_tick),
        19 => row(
            b"tally.first_trip_reason=",
            t.first_trip_reason.map(|w| w as u8),
        ),
        20 => row(b"tally.first_stop_tick=", t.first_stop_tick),
        21 => row(b"tally.handoff_tick=", t.handoff_tick),
        22 => row(b"tally.violations_reached_env=", t.violations_reached_env),
        23 => row(b"tally.max_s=", t.max_s),
        24 => list_row(b"tally.max_z=", &t.max_z),
        25 => row(b"tally.terminal_state=", t.terminal_state as u8),
        _ => Line::new(),
    }
}
