// The line of a tick and the lines of its trace, put into lent memory.
ghost use Rattle.std.specs.Prelude.{◌≡◌, ◌+◌, ◌≤◌, length};
ghost use Rattle.text.specs.Line.{line_room};
ghost use Rattle.text.specs.Memory.{Put, place_with, memory_with};
ghost use Rattle.trace_text.specs.Trace.{trace_count};
ghost use Rattle.report.specs.Lines.{tick_text};
ghost use Rattle.report.specs.Text.{trace_room, trace_up_to};

use crate::push_tick;
use lictor_core::fuse::FuseRt;
use lictor_core::verdict::SafetyVerdict;
use text::memory::{has_room, put_line, show_line};
use text::{LINE, Line};
use trace_text::{TRACE_LINES, trace_line};

// The bytes that the lines of the trace can have at most.
pub const TRACE_ROOM: usize = TRACE_LINES * LINE;

// Puts the line of a tick after the first n bytes, and answers where it ends.
// Where fewer than LINE bytes are left after n, it puts nothing, and builds no line.
pub fn show_tick(v: SafetyVerdict, out: &mut [u8], n: usize) -> usize
    ensures { (result ≡ place_with line_room (length out.old) n (tick_text v)) × (out.new ≡ memory_with line_room out.old n (tick_text v)) }
{
    if !has_room(LINE, n, out.len()) {
        return n;
    }
    let mut l = Line::new();
    push_tick(&mut l, v);
    show_line(out, n, &l)
}

// All lines of the trace.
fn put_trace(v: SafetyVerdict, rt: FuseRt, out: &mut [u8], n: usize) -> usize
    requires { n + trace_room ≤ length out.old }
    ensures { Put out.old n (trace_up_to trace_count v rt) result out.new }
{
    let mut at = n;
    for k in 0..TRACE_LINES {
        at = put_line(out, at, trace_line(k, v, rt));
    }
    at
}

// Puts the lines of the trace after the first n bytes, and answers where they end.
// Where fewer than TRACE_ROOM bytes are left after n, it puts nothing.
pub fn show_trace(v: SafetyVerdict, rt: FuseRt, out: &mut [u8], n: usize) -> usize
    ensures { (result ≡ place_with trace_room (length out.old) n (trace_up_to trace_count v rt)) × (out.new ≡ memory_with trace_room out.old n (trace_up_to trace_count v rt)) }
{
    if has_room(TRACE_ROOM, n, out.len()) {
        return put_trace(v, rt, out, n);
    }
    n
}
