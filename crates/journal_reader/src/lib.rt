// Reads a journal, in parts of any sizes: from bytes to records to instructions for the fuse.
#![tactic(auto)]

pub mod waiting; // what waits for a tick

ghost use Rattle.std.specs.Prelude.{◌≡◌, ◌<◌, ◌≤◌, length, drop, get_or};
ghost use Rattle.journal_refusals.specs.Causes.{capacities, count_of};
ghost use Rattle.journal_refusals.specs.Table.{whole_of};
ghost use Rattle.journal_reader.specs.State.{stored};
ghost use Rattle.journal_reader.specs.Reading.{read_of, lists_read};
ghost use Rattle.journal_reader.specs.Steps.{look_as, look_of, Room, Added, Collected, instructs_as};

use crate::waiting::{PLACES, Reader, Waiting, base};
use journal_frames::Frame;
use journal_records::Record;
use journal_records::long::read_outcome;
use journal_refusals::{Refusal, Seen};
use lictor_core::fuse::TickInput;

// The record at the front of some bytes. One that is not there yet is no error, and one that is
// refused ends the journal: three cases, as the frames have.
#[derive(Clone, Copy)]
pub enum Look {
    // There is none, or it is not there whole.
    Waits,
    Refuses(Refusal),
    // The record, and the length of its body.
    Found(Record, usize),
}

// What a reader comes to: the end of the bytes, a refusal, or an instruction for the fuse. One match of
// the player's takes all six.
#[derive(Clone, Copy)]
pub enum What {
    Waits,
    Refuses(Refusal),
    Begins,
    Resets,
    Ticks(TickInput),
    GivesWidth(f64),
}

#[derive(Clone, Copy)]
pub struct Progress {
    pub reader: Reader,
    // the bytes up to there
    pub used: usize,
    // where the record ends that instructs; the same as `used`, where none does
    pub end: usize,
    pub what: What,
}

// A whole record of a listed kind, with its body.
fn look_in(seen: Seen, k: u8, b: &[u8]) -> Look
    ensures { result ≡ look_as k b.now (length b.now) (whole_of seen k b.now) }
{
    match journal_refusals::judge(seen, k, b) {
        Err(r) => Look::Refuses(r),
        Ok(()) => Look::Found(journal_records::decode(k, b), b.len()),
    }
}

// The record at a place.
fn look_at(kinds: &[u16], seen: Seen, s: &[u8], at: usize) -> Look
    ensures { result ≡ look_of kinds.now seen (drop at s.now) }
{
    match journal_frames::frame_at(kinds, s, at) {
        Frame::Waits => Look::Waits,
        Frame::Unknown => Look::Refuses(Refusal::UnknownKind),
        Frame::Whole(kind, len) => {
            let from = at + 1;
            let end = from + len;
            look_in(seen, kind, &s[from..end])
        }
    }
}

// ---- records that only wait

// Puts a value after those that its list has. The list is the number that came, as in `stored`.
#[tactic(auto, unfolding(crate::specs::State::stored))]
fn store(lists: &mut [f64; PLACES], seen: Seen, c: u8, x: f64)
    requires { (c < length capacities) × (count_of seen c < get_or capacities c 0) }
    ensures { lists.new ≡ stored lists.old seen c x }
{
    let i = c as usize;
    lists[base(i) + seen.counts[i]] = x;
}

// Adds a record to what waits, if it is small: an acknowledgement, a head or a value.
#[tactic(auto, unfolding(crate::specs::Reading::on_record))]
fn add(w: Waiting, lists: &mut [f64; PLACES], x: Record) -> Option<Waiting>
    requires { Room w.seen x }
    ensures { Added w lists.old x result lists.new }
{
    match x {
        Record::Ack(a) => Some(w.with_ack(a)),
        Record::Head(h) => Some(w.with_head(h)),
        Record::Value(c, v) => {
            store(lists, w.seen, c, v);
            Some(w.with_value(c))
        }
        Record::Settings | Record::Reset | Record::Outcome | Record::Tick(_) | Record::Width(_) => {
            None
        }
    }
}

// What waits after some small records, and the look at the place after them, where there is none.
#[derive(Clone, Copy)]
struct Took {
    waiting: Waiting,
    at: usize,
    look: Look,
}

// Takes all small records from a place on. The lists are lent beside what waits: their memory is fixed,
// and what waits goes by value.
fn collect(kinds: &[u16], w: Waiting, lists: &mut [f64; PLACES], s: &[u8], from: usize) -> Took
    requires { from ≤ length s.now }
    ensures { Collected kinds.now w lists.old s.now from result lists.new }
{
    let mut waiting = w;
    let mut at = from;
    'records: loop {
        let look = look_at(kinds, waiting.seen, s, at);
        let Look::Found(x, n) = look else {
            return Took { waiting, at, look };
        };
        let Some(more) = add(waiting, lists, x) else {
            return Took { waiting, at, look };
        };
        waiting = more;
        at += n + 1;
    }
}

// ---- records that instruct

// What a record that is not small comes to, but for an outcome, which waits.
fn instruct(w: Waiting, x: Record) -> What
    ensures { result ≡ instructs_as w x }
{
    match x {
        Record::Settings => What::Begins,
        Record::Reset => What::Resets,
        Record::Tick(t) => What::Ticks(w.input_of(t)),
        Record::Width(w) => What::GivesWidth(w),
        Record::Ack(_) | Record::Head(_) | Record::Value(_, _) | Record::Outcome => What::Waits,
    }
}

// Takes all records up to the next that instructs the fuse, that is refused or that is not
// there whole, and says what comes there. Which kinds there are is lent.
// Which pattern a NaN has is the program's choice.
pub fn read(kinds: &[u16], rd: Reader, lists: &mut [f64; PLACES], s: &[u8]) -> Progress
    ensures { (result ≡ read_of kinds.now (record { reader = rd; lists = lists.old }) s.now) × (lists.new ≡ lists_read kinds.now (record { reader = rd; lists = lists.old }) s.now) }
{
    let mut reader = rd;
    let mut at = 0;
    'stretches: loop {
        let took = collect(kinds, reader.waiting, lists, s, at);
        reader.waiting = took.waiting;
        at = took.at;
        let (x, n) = match took.look {
            Look::Found(x, n) => (x, n),
            Look::Waits => {
                return Progress {
                    reader,
                    used: at,
                    end: at,
                    what: What::Waits,
                };
            }
            Look::Refuses(r) => {
                return Progress {
                    reader,
                    used: at,
                    end: at,
                    what: What::Refuses(r),
                };
            }
        };
        let from = at + 1;
        let end = from + n;
        let Record::Outcome = x else {
            return Progress {
                reader,
                used: at,
                end,
                what: instruct(reader.waiting, x),
            };
        };
        reader = reader.with_outcome(read_outcome(&s[from..end]));
        at = end;
    }
}
