// Proximity: the lines of a clean tick, and what is remembered of it for the next.
ghost use Rattle.std.specs.Prelude.{◌≡◌};
ghost use Rattle.printer.specs.Printer.{proximity, is_clean, with_inside, measure_after};

use crate::{Measure, Notes, Printer};
use journal::tick::Run;
use lictor_core::chunk::MAX_POS;
use lictor_core::envelope::FuseConfig;
use lictor_core::verdict::SafetyVerdict;
use proximity_text::{Before, inside_of, show_lines};

// Whether the guard found nothing. No verdict tells it: a clean tick may look like a fault tick.
fn is_clean(guard: u32) -> bool
    ensures { result ≡ is_clean guard }
{
    guard == 0
}

// The same with these flags.
fn with_inside(measure: Measure, inside: [bool; MAX_POS]) -> Measure
    ensures { result ≡ with_inside measure inside }
{
    Measure { inside, ..measure }
}

fn measure_after(measure: Measure, pos: &[f64], guard: u32, config: FuseConfig) -> Measure
    ensures { result ≡ measure_after measure pos.now guard config }
{
    if is_clean(guard) {
        return with_inside(measure, inside_of(config, pos));
    }
    measure
}

// The printer of `proximity`.
pub struct Proximity;

impl Printer for Proximity {
    ghost shows = { proximity };

    // The lines of a clean tick, once a width was given.
    fn put_tick(
        notes: Notes,
        pos: &[f64],
        guard: u32,
        verdict: SafetyVerdict,
        run: Run,
        out: &mut [u8],
        n: usize,
    ) -> usize {
        match notes.measure.width {
            Some(width) if is_clean(guard) => {
                let inside = notes.measure.inside;
                let before = Before { width, inside };
                show_lines(run.config, before, verdict.t as u64, pos, out, n)
            }
            _ => n,
        }
    }

    // Of a clean tick which components are inside.
    fn after_tick(notes: Notes, pos: &[f64], guard: u32, config: FuseConfig) -> Notes {
        Notes {
            measure: measure_after(notes.measure, pos, guard, config),
            ..notes
        }
    }

    // There is no clean tick before.
    fn after_reset(notes: Notes) -> Notes {
        Notes {
            measure: with_inside(notes.measure, [false; MAX_POS]),
            ..notes
        }
    }

    // It is kept.
    fn after_width(notes: Notes, width: f64) -> Notes {
        Notes {
            measure: Measure {
                width: Some(width),
                ..notes.measure
            },
            ..notes
        }
    }

    fn put_closing(_notes: Notes, _out: &mut [u8]) -> usize {
        0
    }

    // There is none.
    fn put_end(_run: Run, _out: &mut [u8], n: usize) -> usize {
        n
    }
}
