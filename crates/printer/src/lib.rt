// What a program prints for a journal, put into lent memory. A printer is a type, which says what is
// shown, and the notes that it takes from event to event. An event comes in its parts, by a function
// for each kind.
#![tactic(auto)]

pub mod by_number; // the same for a printer that is told by number
pub mod lines; // a line for each tick, and the trace
pub mod pages; // ticks on pages
pub mod proximity; // components close to a face, and those that have left the box

ghost use Rattle.std.specs.Prelude.{◌≡◌, ◌+◌, ◌≤◌, length};
ghost use Rattle.journal.specs.Events as E;
ghost use Rattle.text.specs.Line.{line_room};
ghost use Rattle.text.specs.Memory.{Put};
ghost use Rattle.printer.specs.Printer.{Shows, showing, kinds_taken, at_start, tick_shown, tick_remembered, reset_remembered, width_remembered, event_room, silent_shown, ShownIn, closing_text, end_shown, ending_by, channel_by, ending_room, EndedIn};

use journal::tick::Run;
use journal_records::KINDS;
use lictor_core::chunk::MAX_POS;
use lictor_core::envelope::FuseConfig;
use lictor_core::fuse::TickInput;
use lictor_core::verdict::SafetyVerdict;
use report::render::TRACE_ROOM;
use text::LINE;
use text::memory::{has_room, put_line};

// What is shown, by a number: each names a printer, a type of its own. A program has its number as a
// constant, and so the code of its own printer alone.

// Of a tick its line, as `fuse` prints it. Any number that is not listed means the same.
pub const LINES: u8 = 0;

// Its line, and then every field of the verdict, the run state and the tally that the Rust has.
pub const TRACE: u8 = 1;

// Pages: rows of ticks, and after each page a line with its number.
pub const PAGES: u8 = 2;

// Proximity: the components that are close to a face of the box, or have left it.
pub const PROXIMITY: u8 = 3;

// Where text goes: to standard output, or beside it to standard error.
#[derive(Clone, Copy)]
pub enum Channel {
    Output,
    Errors,
}

// What proximity remembers.
#[derive(Clone, Copy)]
pub struct Measure {
    // the width that was given
    pub width: Option<f64>,
    // which components were inside at the last clean tick since a reset
    pub inside: [bool; MAX_POS],
}

// What a printer remembers from event to event. Lines and the trace leave it as it is.
#[derive(Clone, Copy)]
pub struct Notes {
    // of pages: the rows on the page so far, and the page's number
    pub rows: u8,
    pub page: u64,
    // of proximity
    pub measure: Measure,
}

// What it remembers after an event, and where the event's text ends.
#[derive(Clone, Copy)]
pub struct Shown {
    pub notes: Notes,
    pub n: usize,
}

// The bytes that the text of an event can have at most: the line of a tick, and the trace.
pub const EVENT_ROOM: usize = LINE + TRACE_ROOM;

// Those of the text of an ending.
pub const ENDING_ROOM: usize = 2 * LINE;

// Before the first event.
pub fn start() -> Notes
    ensures { result ≡ at_start }
{
    Notes {
        rows: 0,
        page: 1,
        measure: Measure {
            width: None,
            inside: [false; MAX_POS],
        },
    }
}

// ---- what is shown

// What a program shows, and what differs by it. Each program says the number of its own printer, a
// constant, so that it has the code of that one alone.
pub trait Printer {
    ghost shows: { Shows };

    // Puts the text of a tick, where there is room for that of an event: its positions as they came,
    // the guard's bits, the verdict, the fuse after it.
    fn put_tick(
        notes: Notes,
        pos: &[f64],
        guard: u32,
        verdict: SafetyVerdict,
        run: Run,
        out: &mut [u8],
        n: usize,
    ) -> usize
        ensures { n + event_room ≤ length out.old → Put out.old n (tick_shown shows notes pos.now guard verdict run) result out.new };

    // What is remembered after a tick.
    fn after_tick(notes: Notes, pos: &[f64], guard: u32, config: FuseConfig) -> Notes
        ensures { result ≡ tick_remembered shows notes pos.now guard config };

    // After a reset.
    fn after_reset(notes: Notes) -> Notes
        ensures { result ≡ reset_remembered shows notes };

    // After a width.
    fn after_width(notes: Notes, width: f64) -> Notes
        ensures { result ≡ width_remembered shows notes width };

    // Closes what is open at the end of a journal, at the front of memory, where there is room for
    // the text of an ending.
    fn put_closing(notes: Notes, out: &mut [u8]) -> usize
        ensures { ending_room ≤ length out.old → Put out.old 0 (closing_text shows notes) result out.new };

    // Puts the text of an end without a refusal, where there is room for a line.
    fn put_end(run: Run, out: &mut [u8], n: usize) -> usize
        ensures { n + line_room ≤ length out.old → Put out.old n (end_shown shows run.rt.tally) result out.new };
}

// The kinds of records that the program of this printer takes.
pub fn kinds_taken<P: Printer>() -> [u16; KINDS]
    ensures { result ≡ kinds_taken P.shows }
{
    journal_records::journal_kinds()
}

// ---- an event, whose text is put after the first n bytes; where fewer than EVENT_ROOM bytes are
// left after n, nothing is put and the notes stay

// Settings.
pub fn began<P: Printer>(notes: Notes, run: Run, out: &mut [u8], n: usize) -> Shown
    ensures { ShownIn (showing P.shows notes) (E.began run) out.old n result out.new }
{
    Shown { notes, n }
}

// An event that prints nothing, `after` what is remembered after it.
fn silent(notes: Notes, after: Notes, room: usize, n: usize) -> Shown
    ensures { result ≡ silent_shown room n notes after }
{
    if has_room(EVENT_ROOM, n, room) {
        return Shown { notes: after, n };
    }
    Shown { notes, n }
}

// A reset.
pub fn restarted<P: Printer>(notes: Notes, run: Run, out: &mut [u8], n: usize) -> Shown
    ensures { ShownIn (showing P.shows notes) (E.restarted run) out.old n result out.new }
{
    silent(notes, P::after_reset(notes), out.len(), n)
}

// A tick: its input and its positions as they came, the guard's bits, the verdict, the fuse after
// it.
pub fn ticked<P: Printer>(
    notes: Notes,
    input: TickInput,
    pos: &[f64],
    guard: u32,
    verdict: SafetyVerdict,
    run: Run,
    out: &mut [u8],
    n: usize,
) -> Shown
    ensures { ShownIn (showing P.shows notes) (E.ticked (record { input = input; pos = pos.now; guard = guard; verdict = verdict; run = run })) out.old n result out.new }
{
    if has_room(EVENT_ROOM, n, out.len()) {
        let end = P::put_tick(notes, pos, guard, verdict, run, out, n);
        let after = P::after_tick(notes, pos, guard, run.config);
        return Shown {
            notes: after,
            n: end,
        };
    }
    Shown { notes, n }
}

// A width.
pub fn width_given<P: Printer>(
    notes: Notes,
    run: Run,
    width: f64,
    out: &mut [u8],
    n: usize,
) -> Shown
    ensures { ShownIn (showing P.shows notes) (E.width_given run width) out.old n result out.new }
{
    silent(notes, P::after_width(notes, width), out.len(), n)
}

// ---- the ending

// The channel that the text of an ending goes to; that of events goes to standard output.
pub fn ending_on<P: Printer>(refused: Option<u8>) -> Channel
    ensures { result ≡ channel_by P.shows refused }
{
    Channel::Output
}

// Puts the text of a journal's ending, `refused` the number of its refusal, to the front of memory, and
// answers how many bytes it has. Where there are fewer than ENDING_ROOM bytes, it puts nothing.
pub fn ended<P: Printer>(
    notes: Notes,
    run: Run,
    refused: Option<u8>,
    place: u64,
    out: &mut [u8],
) -> usize
    ensures { EndedIn (ending_by (showing P.shows notes) run refused place) out.old result out.new }
{
    if out.len() < ENDING_ROOM {
        return 0;
    }
    let closed = P::put_closing(notes, out);
    match refused {
        Some(number) => put_line(out, closed, report::refused_line(number, place)),
        None => P::put_end(run, out, closed),
    }
}
