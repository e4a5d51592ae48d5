// The lines of the trace after a tick: every field of the verdict, the run state and the tally
// that the Rust has.
#![tactic(auto)]

mod rows; // a line: its name and its value
mod run; // the lines of the run state
mod tally; // the lines of the tally
mod verdict; // the lines of the verdict

ghost use Rattle.std.specs.Prelude.{◌≡◌};
ghost use Rattle.text.specs.Line.{line_of};
ghost use Rattle.trace_text.specs.Trace.{trace_text};

use crate::run::run_line;
use crate::tally::tally_line;
use crate::verdict::verdict_line;
use lictor_core::fuse::FuseRt;
use lictor_core::verdict::SafetyVerdict;
use text::Line;

// How many lines there are of the verdict, of the run state and of the tally.
const VERDICT_LINES: usize = 23;

const RUN_LINES: usize = 25;

const TALLY_LINES: usize = 26;

pub const TRACE_LINES: usize = VERDICT_LINES + RUN_LINES + TALLY_LINES;

// Line `at` of the trace after a tick; from TRACE_LINES on it is empty. (Each group is a `match` on
// the number: an array of its lines would build them all for one.)
pub fn trace_line(at: usize, verdict: SafetyVerdict, rt: FuseRt) -> Line
    ensures { result ≡ line_of (trace_text at verdict rt) }
{
    if at < VERDICT_LINES {
        return verdict_line(at, verdict);
    }
    if at < VERDICT_LINES + RUN_LINES {
        return run_line(at - VERDICT_LINES, rt.control, rt.motion, rt.clock);
    }
    tally_line(at - (VERDICT_LINES + RUN_LINES), rt.tally)
}
