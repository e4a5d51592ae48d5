// Plays the bytes of a journal that are at hand: its instructions are obeyed one after the other,
// and the text of their events is put into lent memory. Nothing here reads or writes a file.
#![tactic(auto)]

ghost use Rattle.std.specs.Prelude.{◌≡◌, false, ◌+◌, ◌≤◌, length};
ghost use Rattle.journal_records.specs.Long.{settings_of};
ghost use Rattle.journal_reader.specs.State.{settings_came, width_came, emptied};
ghost use Rattle.journal_reader.specs.Reading as R;
ghost use Rattle.printer.specs.Numbers.{printer_by};
ghost use Rattle.printer.specs.Printer.{showing, event_room};
ghost use Rattle.player.specs.Play.{Obeys, PlayedOn, goes_on_of, playing_from, Fed};

use journal::tick::Run;
use journal_reader::What;
use journal_reader::waiting::{PLACES, Reader};
use journal_refusals::Refusal;
use lictor_core::fuse::TickInput;
use printer::lines::{Lines, Trace};
use printer::pages::Pages;
use printer::proximity::Proximity;
use printer::{EVENT_ROOM, Notes, PAGES, PROXIMITY, Printer, TRACE};
use text::memory::has_room;

// A journal that is being played.
#[derive(Clone, Copy)]
pub struct Played {
    pub reader: Reader,
    pub run: Run,
    // what the printer remembers
    pub notes: Notes,
    // the bytes that were taken, and those of text
    pub at: usize,
    pub n: usize,
    // there may be more to be had of these bytes
    pub more: bool,
    // the refusal
    pub refused: Option<Refusal>,
}

// ---- one instruction; `at` is the place where its record ends

// Settings with this body.
fn begin<P: Printer>(p: Played, body: &[u8], out: &mut [u8]) -> Played
    requires { p.n + event_room ≤ length out.old }
    ensures { Obeys P.shows p (settings_came p.reader) (R.begin (settings_of body.now)) out.old result out.new }
{
    let reader = p.reader.begun();
    let run = Run::begin(body);
    let shown = printer::began::<P>(p.notes, run, out, p.n);
    Played {
        reader,
        run,
        notes: shown.notes,
        n: shown.n,
        ..p
    }
}

// A reset.
fn restart<P: Printer>(p: Played, out: &mut [u8]) -> Played
    requires { p.n + event_room ≤ length out.old }
    ensures { Obeys P.shows p (emptied p.reader) R.restart out.old result out.new }
{
    let reader = p.reader.emptied();
    let run = p.run.restart();
    let shown = printer::restarted::<P>(p.notes, run, out, p.n);
    Played {
        reader,
        run,
        notes: shown.notes,
        n: shown.n,
        ..p
    }
}

// A tick, on all that was collected.
fn tick<P: Printer>(p: Played, lists: &[f64; PLACES], input: TickInput, out: &mut [u8]) -> Played
    requires { p.n + event_room ≤ length out.old }
    ensures { Obeys P.shows p (emptied p.reader) (R.tick (R.brought_of (record { reader = p.reader; lists = lists.now }) input)) out.old result out.new }
{
    let reported = p.run.tick(p.reader, lists, input);
    let pos = journal::tick::lent_positions(p.reader.waiting.seen, lists);
    let shown = printer::ticked::<P>(
        p.notes,
        input,
        pos,
        reported.guard,
        reported.verdict,
        reported.run,
        out,
        p.n,
    );
    let reader = p.reader.emptied();
    Played {
        reader,
        run: reported.run,
        notes: shown.notes,
        n: shown.n,
        ..p
    }
}

// A width, of which the fuse takes nothing.
fn give_width<P: Printer>(p: Played, width: f64, out: &mut [u8]) -> Played
    requires { p.n + event_room ≤ length out.old }
    ensures { Obeys P.shows p (width_came p.reader) (R.width width) out.old result out.new }
{
    let reader = p.reader.with_width();
    let shown = printer::width_given::<P>(p.notes, p.run, width, out, p.n);
    Played {
        reader,
        notes: shown.notes,
        n: shown.n,
        ..p
    }
}

// ---- from instruction to instruction

// No more is to be had.
fn stopped(p: Played, refused: Option<Refusal>) -> Played
    ensures { result ≡ record { reader = p.reader; run = p.run; notes = p.notes; at = p.at; n = p.n; more = false; refused = refused } }
{
    Played {
        more: false,
        refused,
        ..p
    }
}

// All records from a place on up to the next instruction, and that one.
fn play_on<P: Printer>(
    kinds: &[u16],
    p: Played,
    lists: &mut [f64; PLACES],
    s: &[u8],
    out: &mut [u8],
) -> Played
    requires { (p.at ≤ length s.now) × (p.n + event_room ≤ length out.old) }
    ensures { PlayedOn kinds.now P.shows p lists.old s.now out.old result lists.new out.new }
{
    let at = p.at;
    let progress = journal_reader::read(kinds, p.reader, lists, &s[at..]);
    let end = at + progress.end;
    let here = Played {
        reader: progress.reader,
        at: end,
        more: true,
        refused: None,
        ..p
    };
    match progress.what {
        What::Waits => stopped(here, None),
        What::Refuses(r) => stopped(here, Some(r)),
        What::Begins => {
            let body = at + progress.used + 1;
            begin::<P>(here, &s[body..end], out)
        }
        What::Resets => restart::<P>(here, out),
        What::Ticks(input) => tick::<P>(here, lists, input, out),
        What::GivesWidth(w) => give_width::<P>(here, w, out),
    }
}

// Whether there is more to do, and room for its text.
fn goes_on(more: bool, n: usize, room: usize) -> bool
    ensures { result ≡ goes_on_of more n room }
{
    has_room(EVENT_ROOM, n, room) && more
}

// Plays the records at the front of s as long as there is room for the text of one more event, and
// puts the text of their events to the front of `out`. Where `out` has no room, it does nothing.
// Which pattern a NaN has is the program's choice.
pub fn feed<P: Printer>(
    kinds: &[u16],
    notes: Notes,
    rd: Reader,
    run: Run,
    lists: &mut [f64; PLACES],
    s: &[u8],
    out: &mut [u8],
) -> Played
    ensures { Fed kinds.now (playing_from (showing P.shows notes) rd run lists.old) s.now out.old result lists.new out.new }
{
    let mut played = Played {
        reader: rd,
        run,
        notes,
        at: 0,
        n: 0,
        more: true,
        refused: None,
    };
    while goes_on(played.more, played.n, out.len()) {
        played = play_on::<P>(kinds, played, lists, s, out);
    }
    played
}

// The same by the number of what is shown (LINES, TRACE, PAGES, PROXIMITY of `printer`).
pub fn feed_by(
    kinds: &[u16],
    shows: u8,
    notes: Notes,
    rd: Reader,
    run: Run,
    lists: &mut [f64; PLACES],
    s: &[u8],
    out: &mut [u8],
) -> Played
    ensures { Fed kinds.now (playing_from (printer_by shows notes) rd run lists.old) s.now out.old result lists.new out.new }
{
    if shows == TRACE {
        feed::<Trace>(kinds, notes, rd, run, lists, s, out)
    } else if shows == PAGES {
        feed::<Pages>(kinds, notes, rd, run, lists, s, out)
    } else if shows == PROXIMITY {
        feed::<Proximity>(kinds, notes, rd, run, lists, s, out)
    } else {
        feed::<Lines>(kinds, notes, rd, run, lists, s, out)
    }
}
