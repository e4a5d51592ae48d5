// The line of each tick, and the trace: after the line every field of the verdict, the run state and
// the tally that the Rust has. Nothing is remembered from event to event, which each says for itself:
// a body in the trait would have to keep the promise of every printer.
ghost use Rattle.printer.specs.Printer.{lines, trace};

use crate::{Notes, Printer};
use journal::tick::Run;
use lictor_core::envelope::FuseConfig;
use lictor_core::verdict::SafetyVerdict;
use report::end_line;
use report::render::{show_tick, show_trace};
use text::memory::put_line;

// The printer of `fuse`.
pub struct Lines;

impl Printer for Lines {
    ghost shows = { lines };

    fn put_tick(
        _notes: Notes,
        _pos: &[f64],
        _guard: u32,
        verdict: SafetyVerdict,
        _run: Run,
        out: &mut [u8],
        n: usize,
    ) -> usize {
        show_tick(verdict, out, n)
    }

    fn after_tick(notes: Notes, _pos: &[f64], _guard: u32, _config: FuseConfig) -> Notes {
        notes
    }

    fn after_reset(notes: Notes) -> Notes {
        notes
    }

    fn after_width(notes: Notes, _width: f64) -> Notes {
        notes
    }

    fn put_closing(_notes: Notes, _out: &mut [u8]) -> usize {
        0
    }

    fn put_end(run: Run, out: &mut [u8], n: usize) -> usize {
        put_line(out, n, end_line(run.rt.tally))
    }
}

// The printer of `trace`.
pub struct Trace;

impl Printer for Trace {
    ghost shows = { trace };

    fn put_tick(
        _notes: Notes,
        _pos: &[f64],
        _guard: u32,
        verdict: SafetyVerdict,
        run: Run,
        out: &mut [u8],
        n: usize,
    ) -> usize {
        let end = show_tick(verdict, out, n);
        show_trace(verdict, run.rt, out, end)
    }

    fn after_tick(notes: Notes, _pos: &[f64], _guard: u32, _config: FuseConfig) -> Notes {
        notes
    }

    fn after_reset(notes: Notes) -> Notes {
        notes
    }

    fn after_width(notes: Notes, _width: f64) -> Notes {
        notes
    }

    fn put_closing(_notes: Notes, _out: &mut [u8]) -> usize {
        0
    }

    fn put_end(run: Run, out: &mut [u8], n: usize) -> usize {
        Lines::put_end(run, out, n)
    }
}
