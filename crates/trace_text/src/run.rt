// The lines of the run state.
ghost use Rattle.std.specs.Prelude.{◌≡◌, [], get_or};
ghost use Rattle.text.specs.Line.{line_of};
ghost use Rattle.trace_text.specs.Trace.{run_lines};

use crate::rows::{list_row, row};
use lictor_core::fuse::{Clock, Control, Motion};
use text::Line;

// Line `at` of the run state; from the last on it is empty.
pub(crate) fn run_line(at: usize, control: Control, motion: Motion, clock: Clock) -> Line
    ensures { result ≡ line_of (get_or (run_lines control motion clock) at []) }
{
    match at {
        0 => row(b"rt.filled=", clock.filled),
        1 => row(b"rt.window=", control.window.bits),
        2 => row(b"rt.state=", control.state as u8),
        3 => row(b"rt.seq=", clock.seq),
        4 => row(b"rt.last_t=", clock.last_t),
        5 => row(b"rt.next_chunk_seq=", clock.next_chunk_seq),
        6 => list_row(b"rt.pos=", &motion.pos),
        7 => list_row(b"rt.prev_pos=", &motion.prev_pos),
        8 => list_row(b"rt.vel=", &motion.vel),
        9 => row(b"rt.have_prev_pos=", motion.have_prev_pos),
        10 => list_row(b"rt.last_cmd=", &motion.last_cmd),
        11 => list_row(b"rt.hold=", &control.hold),
        12 => row(b"rt.clean_run=", control.clean_run),
        13 => row(b"rt.clamp_streak=", control.clamp_streak),
        14 => row(b"rt.clamps=", control.clamps),
        15 => row(b"rt.brake_ticks=", control.brake_ticks),
        16 => row(b"rt.stopped_ticks=", control.stopped_ticks),
        17 => row(b"rt.held_ticks=", control.held_ticks),
        18 => row(b"rt.held_clean=", control.held_clean),
        19 => row(b"rt.escalated_ticks=", control.escalated_ticks),
        20 => row(b"rt.rearms=", control.rearms),
        21 => row(b"rt.handoff_seq=", control.handoff_seq),
        22 => row(b"rt.handoff_pending=", control.handoff_pending),
        23 => row(b"rt.chunk_ok_this_tick=", clock.chunk_ok_this_tick),
        24 => list_row(b"rt.last_nonce=", &control.last_nonce),
        _ => Line::new(),
    }
}
