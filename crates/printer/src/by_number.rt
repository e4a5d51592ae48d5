// What a program prints for a journal, where its printer is told by the number of what is shown (LINES,
// TRACE, PAGES, PROXIMITY). Any number that is not listed means lines.
ghost use Rattle.std.specs.Prelude.{◌≡◌};
ghost use Rattle.journal.specs.Events as E;
ghost use Rattle.printer.specs.Printer.{kinds_taken, ShownIn, ending_by, channel_by, EndedIn};
ghost use Rattle.printer.specs.Numbers.{shows_by, printer_by};

use crate::lines::{Lines, Trace};
use crate::pages::Pages;
use crate::proximity::Proximity;
use crate::{Channel, Notes, PAGES, PROXIMITY, Shown, TRACE};
use journal::tick::Run;
use journal_records::KINDS;
use lictor_core::fuse::TickInput;
use lictor_core::verdict::SafetyVerdict;

// Calls a function of a printer with that of the number $shows.
macro_rules! with_printer {
    ($shows:expr, $($f:ident)::+($($given:expr),*)) => {
        if $shows == TRACE {
            $($f)::+::<Trace>($($given),*)
        } else if $shows == PAGES {
            $($f)::+::<Pages>($($given),*)
        } else if $shows == PROXIMITY {
            $($f)::+::<Proximity>($($given),*)
        } else {
            $($f)::+::<Lines>($($given),*)
        }
    };
}

// The kinds of records that the program of this printer takes.
pub fn kinds_taken(shows: u8) -> [u16; KINDS]
    ensures { result ≡ kinds_taken (shows_by shows) }
{
    with_printer!(shows, crate::kinds_taken())
}

// Settings.
pub fn began(shows: u8, notes: Notes, run: Run, out: &mut [u8], n: usize) -> Shown
    ensures { ShownIn (printer_by shows notes) (E.began run) out.old n result out.new }
{
    with_printer!(shows, crate::began(notes, run, out, n))
}

// A reset.
pub fn restarted(shows: u8, notes: Notes, run: Run, out: &mut [u8], n: usize) -> Shown
    ensures { ShownIn (printer_by shows notes) (E.restarted run) out.old n result out.new }
{
    with_printer!(shows, crate::restarted(notes, run, out, n))
}

// A tick: its input and its positions as they came, the guard's bits, the verdict, the fuse after
// it.
pub fn ticked(
    shows: u8,
    notes: Notes,
    input: TickInput,
    pos: &[f64],
    guard: u32,
    verdict: SafetyVerdict,
    run: Run,
    out: &mut [u8],
    n: usize,
) -> Shown
    ensures { ShownIn (printer_by shows notes) (E.ticked (record { input = input; pos = pos.now; guard = guard; verdict = verdict; run = run })) out.old n result out.new }
{
    with_printer!(
        shows,
        crate::ticked(notes, input, pos, guard, verdict, run, out, n)
    )
}

// A width.
pub fn width_given(shows: u8, notes: Notes, run: Run, width: f64, out: &mut [u8], n: usize) -> Shown
    ensures { ShownIn (printer_by shows notes) (E.width_given run width) out.old n result out.new }
{
    with_printer!(shows, crate::width_given(notes, run, width, out, n))
}

// The channel that the text of an ending goes to.
pub fn ending_on(shows: u8, refused: Option<u8>) -> Channel
    ensures { result ≡ channel_by (shows_by shows) refused }
{
    with_printer!(shows, crate::ending_on(refused))
}

// Puts the text of a journal's ending, `refused` the number of its refusal, to the front of memory, and
// answers how many bytes it has. Where there are fewer than ENDING_ROOM bytes, it puts nothing.
pub fn ended(
    shows: u8,
    notes: Notes,
    run: Run,
    refused: Option<u8>,
    place: u64,
    out: &mut [u8],
) -> usize
    ensures { EndedIn (ending_by (printer_by shows notes) run refused place) out.old result out.new }
{
    with_printer!(shows, crate::ended(notes, run, refused, place, out))
}
