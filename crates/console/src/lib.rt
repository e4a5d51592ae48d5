// Plays a journal from standard input to its end or its first refusal, in constant memory, and
// writes the text of its events and of its ending, each on its channel.
#![tactic(auto)]

pub mod phases; // whether a program goes on, or why not
pub mod rounds; // bytes that come in parts, and a machine that takes them

ghost use Rattle.std.specs.Prelude.{◌≡◌};
ghost use Rattle.lictor_core.specs.Initial.{zeros};
ghost use Rattle.journal_reader.specs.State.{places};
ghost use Rattle.journal.specs.Journal.{start_state, start_run};
ghost use Rattle.printer.specs.Numbers.{printer_by};
ghost use Rattle.printer.specs.Printer.{showing, at_start, kinds_taken, ending_by, channel_by};
ghost use Rattle.console.specs.Console.{state_of, printer_of, JournalGoes, JournalRests, Ran};
ghost use Rattle.console.specs.Journals.{taken_short, journal_laws};

use crate::rounds::{Ended, Machine, Stepped};
use journal::tick::Run;
use journal_reader::waiting::{PLACES, Reader};
use printer::lines::{Lines, Trace};
use printer::pages::Pages;
use printer::proximity::Proximity;
use printer::{Channel, Notes, PAGES, PROXIMITY, Printer, TRACE};
use std::marker::PhantomData;
use std::rt::HostRuntime;

// A journal that is played.
#[derive(Drop)]
pub struct Journal<P> {
    reader: Reader,
    run: Run,
    // what the printer remembers
    notes: Notes,
    lists: [f64; PLACES],
    printer: PhantomData<P>,
}

impl<P: Printer> Machine for Journal<P> {
    ghost goes = { JournalGoes (kinds_taken P.shows) P.shows };

    ghost rests = { JournalRests (kinds_taken P.shows) };

    ghost ending = { λ j refused place. ending_by (showing P.shows j.notes) j.run refused place };

    ghost channel = { λ j refused. channel_by P.shows refused };

    ghost laws = { journal_laws (kinds_taken P.shows) P.shows (taken_short P.shows) };

    fn step(&mut self, s: &[u8], out: &mut [u8]) -> Stepped {
        let kinds = printer::kinds_taken::<P>();
        let played = player::feed::<P>(
            &kinds,
            self.notes,
            self.reader,
            self.run,
            &mut self.lists,
            s,
            out,
        );
        self.reader = played.reader;
        self.run = played.run;
        self.notes = played.notes;
        Stepped {
            at: played.at,
            n: played.n,
            more: played.more,
            refused: played.refused.map(journal_refusals::number),
        }
    }

    fn put_ending(&self, refused: Option<u8>, place: u64, out: &mut [u8]) -> usize {
        printer::ended::<P>(self.notes, self.run, refused, place, out)
    }

    fn ending_on(&self, refused: Option<u8>) -> Channel {
        printer::ending_on::<P>(refused)
    }
}

fn no_lists() -> [f64; PLACES]
    ensures { result ≡ zeros places }
{
    [0.0; PLACES]
}

// Before the first byte.
fn start<P: Printer>() -> Journal<P>
    ensures state { state_of result ≡ start_state }
    ensures run { result.run ≡ start_run }
    ensures printer { printer_of P.shows result ≡ showing P.shows at_start }
{
    let lists = no_lists();
    Journal {
        reader: Reader::start(),
        run: Run::start(),
        notes: printer::start(),
        lists,
        printer: PhantomData,
    }
}

// How a journal ended.
#[derive(Clone, Copy)]
pub struct Played {
    pub run: Run,
    pub ended: Ended,
}

// Plays the journal on standard input with this printer. `name` is that of the program, for what it
// says of input and output that fail.
pub fn play<P: Printer>(rt: &HostRuntime, name: &[u8]) -> Played
    ensures { Ran (showing P.shows at_start) result }
{
    let mut journal: Journal<P> = start();
    let ended = rounds::run_keeping(rt, name, &mut journal);
    Played {
        run: journal.run,
        ended,
    }
}

// Plays it with the printer of a number: LINES, TRACE, PAGES or PROXIMITY of `printer` says what is
// shown.
pub fn play_by(rt: &HostRuntime, name: &[u8], shows: u8) -> Played
    ensures { Ran (printer_by shows at_start) result }
{
    if shows == TRACE {
        play::<Trace>(rt, name)
    } else if shows == PAGES {
        play::<Pages>(rt, name)
    } else if shows == PROXIMITY {
        play::<Proximity>(rt, name)
    } else {
        play::<Lines>(rt, name)
    }
}

#[cfg(test)]
mod tests;
