// Takes bytes from standard input in parts, in constant memory, to their end or the first refusal, and
// writes what a machine makes of them, each text on its channel.
ghost use Rattle.std.specs.Prelude.{true, ◌≡◌, ◌^◌, ◌<◌, ◌≤◌, ℕ, List, Option, length};
ghost use Rattle.text.specs.Memory.{Put};
ghost use Rattle.printer.specs.declared.Channel.{Channel};
ghost use Rattle.printer.specs.Printer.{ending_room};
ghost use Rattle.console.specs.Phases as S;
ghost use Rattle.console.specs.Rounds.{buffer_room, HandedOn, MachineLaws, Steps, Fits, Sound, SteppedRound, ReadRound, Rounded, Through, EndingPut, RanBy, ClosedKeeping, RanKeeping};

use crate::phases::Phase;
use channels::intake::{Reads, move_down, read_more};
use channels::outlet::{Written, say, say_failed};
use channels::streams::Streams;
use printer::Channel;
use std::rt::HostRuntime;

// What a machine made of some bytes.
#[derive(Clone, Copy)]
pub struct Stepped {
    // the bytes that were taken, and those that were put
    pub at: usize,
    pub n: usize,
    // there may be more to be had of these bytes
    pub more: bool,
    // the number of a refusal
    pub refused: Option<u8>,
}

// What takes bytes and puts bytes, part by part.
pub trait Machine {
    // It takes bytes and puts a text, and these bytes are left, before which it is in this state.
    ghost goes: { Self → List ℕ → List ℕ → Self → List ℕ → Type 0 };

    // Of these bytes it can take none: more have to come, or a record is refused by this number.
    ghost rests: { Self → List ℕ → Option ℕ → Type 0 };

    // The text of an ending by the number of its refusal and by its place, and its channel.
    ghost ending: { Self → Option ℕ → ℕ → List ℕ };

    ghost channel: { Self → Option ℕ → Channel };

    // Takes what is to be had of the bytes s, and puts its text to the front of memory, where that has
    // room for a record.
    fn step(&mut self, s: &[u8], out: &mut [u8]) -> Stepped
        ensures { buffer_room ≤ length out.old → Steps goes rests self.old s.now result self.new out.new };

    // Puts the text of an ending to the front of memory, where that has room for one, and answers how
    // many bytes it has.
    fn put_ending(&self, refused: Option<u8>, place: u64, out: &mut [u8]) -> usize
        ensures { ending_room ≤ length out.old → Put out.old 0 (ending self.now refused place) result out.new };

    fn ending_on(&self, refused: Option<u8>) -> Channel
        ensures { result ≡ channel self.now refused };

    ghost laws: { MachineLaws goes rests };
}

// ---- round by round

#[derive(Clone, Copy)]
pub struct Round {
    // the bytes that were taken, and those that wait at the front of memory
    pub place: u64,
    pub have: usize,
    // the number of a refusal
    pub refused: Option<u8>,
    pub reads: Reads,
    pub written: Written,
    pub phase: Phase,
}

// Hands over the first n bytes on a channel.
fn put_on(streams: &mut Streams, channel: Channel, w: Written, out: &[u8], n: usize) -> Written
    requires { n ≤ length out.now }
    ensures { HandedOn channel w n result }
{
    match channel {
        Channel::Output => channels::outlet::put(streams, w, &out[..n]),
        Channel::Errors => channels::outlet::put_beside(streams, w, &out[..n]),
    }
}

// Takes what is to be had of the bytes at hand, writes its text, and moves the rest to the front.
fn step_round<M: Machine>(
    streams: &mut Streams,
    machine: &mut M,
    r: Round,
    buf: &mut [u8],
    out: &mut [u8],
) -> Round
    requires { Fits r buf.old × (buffer_room ≤ length out.old) }
    ensures { SteppedRound M.goes M.rests machine.old r buf.old result machine.new buf.new out.new }
{
    let stepped = machine.step(&buf[..r.have], out);
    let written = put_on(streams, Channel::Output, r.written, out, stepped.n);
    move_down(buf, stepped.at, r.have);
    Round {
        place: r.place + stepped.at as u64,
        have: r.have - stepped.at,
        refused: stepped.refused,
        reads: r.reads,
        written,
        phase: Phase::after_step(written.has_failed(), stepped.more, stepped.refused),
    }
}

// Reads once after the bytes that wait.
fn read_round(streams: &mut Streams, r: Round, buf: &mut [u8]) -> Round
    requires { r.have < length buf.old }
    ensures { ReadRound r buf.old result buf.new }
{
    let got = read_more(streams, buf, r.have, r.reads);
    Round {
        have: got.have,
        reads: got.reads,
        phase: Phase::after_read(got.reads.last()),
        ..r
    }
}

// Takes a step, or reads where nothing more is to be had of the bytes at hand.
fn go_on<M: Machine>(
    streams: &mut Streams,
    machine: &mut M,
    r: Round,
    buf: &mut [u8],
    out: &mut [u8],
) -> Round
    requires { Sound M.rests machine.old r buf.old × (S.is_going r.phase ≡ true) × (buffer_room ≡ length buf.old) × (buffer_room ≤ length out.old) }
    ensures { Rounded M.goes M.rests machine.old r buf.old machine.new result buf.new }
{
    if r.phase.is_waiting() {
        return read_round(streams, r, buf);
    }
    step_round(streams, machine, r, buf, out)
}

// Round by round to the end of the input, to the first refusal, or to a failure.
fn run_rounds<M: Machine>(
    streams: &mut Streams,
    machine: &mut M,
    buf: &mut [u8],
    out: &mut [u8],
) -> Round
    requires { (buffer_room ≡ length buf.old) × (buffer_room ≤ length out.old) }
    ensures { Through M.goes M.rests machine.old machine.new result buf.new }
{
    let mut round = Round {
        place: 0,
        have: 0,
        refused: None,
        reads: Reads::none(),
        written: Written::nothing(),
        phase: Phase::Plays,
    };
    while round.phase.is_going() {
        round = go_on(streams, machine, round, buf, out);
    }
    round
}

// ---- the ending

// How it ended.
#[derive(Clone, Copy)]
pub struct Ended {
    // the place of the record that was refused; elsewhere the bytes that were taken
    pub place: u64,
    // the number of its refusal
    pub refused: Option<u8>,
    // the reads that were made, and what was handed over to be written
    pub reads: Reads,
    pub written: Written,
    pub phase: Phase,
}

// Hands over the text of the ending, if there is one, on its channel.
fn put_ending<M: Machine>(
    streams: &mut Streams,
    machine: &M,
    r: Round,
    refused: Option<u8>,
    out: &mut [u8],
) -> Written
    requires { (ending_room ≤ length out.old) × (r.written.bytes < 2 ^ 64) × (r.written.beside < 2 ^ 64) }
    ensures { EndingPut M.ending M.channel machine.now r refused result out.new }
{
    if r.phase.has_ending() {
        let n = machine.put_ending(refused, r.place, out);
        let channel = machine.ending_on(refused);
        return put_on(streams, channel, r.written, out, n);
    }
    r.written
}

// Says on standard error what failed outside the journal; that is in no count.
pub fn say_why(streams: &mut Streams, name: &[u8], phase: Phase, w: Written) -> Written
    ensures { result ≡ w }
{
    match phase {
        Phase::ReadFailed => say_failed(streams, w, name, b": reading failed"),
        Phase::ReadsOver => say(streams, w, name, b": too many reads\n"),
        Phase::WriteFailed => say_failed(streams, w, name, b": writing failed"),
        Phase::Plays | Phase::Waits | Phase::Refused(_) | Phase::InputOver => w,
    }
}

fn close<M: Machine>(
    streams: &mut Streams,
    name: &[u8],
    machine: &M,
    r: Round,
    out: &mut [u8],
) -> Ended
    requires { (ending_room ≤ length out.old) × (r.written.bytes < 2 ^ 64) × (r.written.beside < 2 ^ 64) }
    ensures { ClosedKeeping M.ending M.channel machine.now r result out.new }
{
    let refused = r.phase.refused(r.refused, r.have);
    let handed = put_ending(streams, machine, r, refused, out);
    let phase = r.phase.after_ending(handed.has_failed());
    let written = say_why(streams, name, phase, handed);
    Ended {
        place: r.place,
        refused,
        reads: r.reads,
        written,
        phase,
    }
}

// Has a machine take standard input. `name` is that of the program, for what it says of input and
// output that fail. Where a write failed in a round, no number is answered.
pub fn run<M: Machine>(rt: &HostRuntime, name: &[u8], machine: &mut M) -> Ended
    ensures { RanBy M.goes M.rests M.ending M.channel machine.old machine.new result }
{
    let mut streams = Streams::new(rt);
    let mut buf = io::large_buffer();
    let mut out = io::large_buffer();
    let last = run_rounds(&mut streams, machine, &mut buf, &mut out);
    let ended = close(&mut streams, name, machine, last, &mut out);
    Ended {
        refused: last.phase.refused(None, last.have),
        ..ended
    }
}

// The same, but where a write failed in a round, the number of its step is answered; of that nothing
// is promised.
pub fn run_keeping<M: Machine>(rt: &HostRuntime, name: &[u8], machine: &mut M) -> Ended
    ensures { RanKeeping M.goes M.rests M.ending M.channel machine.old machine.new result }
{
    let mut streams = Streams::new(rt);
    let mut buf = io::large_buffer();
    let mut out = io::large_buffer();
    let round = run_rounds(&mut streams, machine, &mut buf, &mut out);
    close(&mut streams, name, machine, round, &mut out)
}
