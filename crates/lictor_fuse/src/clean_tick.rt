// A clean tick: what it brings to the machine, and what it comes to (fuse.rs, decide).
ghost use Rattle.std.specs.Prelude.{◌≡◌};
ghost use Rattle.lictor_fuse.specs.CleanTick.{next_chunk, clean_clock, chunk_tally};
ghost use Rattle.lictor_fuse.specs.OneWay.{clean_asked, clean_verdict, clean_closing};

use crate::decide::{Asked, Closing};
use lictor_core::envelope::FuseConfig;
use lictor_core::fuse::{Clock, FuseRt, Motion, TickInput, Window};
use lictor_core::outcome::Outcome;
use lictor_core::tally::Tally;
use lictor_core::verdict::SafetyVerdict;
use lictor_stages::act::act;
use lictor_stages::findings::{find, machine_input};
use lictor_stages::ingest::ingest;
use lictor_stages::verdict::{Stepped, events_of, rejected, verdict_of};
use lictor_tally::record_chunk;

// Stages 1 to 6, up to the machine.
#[tactic(auto, unfolding(crate::specs::OneWay::clean_asked, lictor_guard::specs::Delivery::delivered_of))]
pub fn clean_asked(
    cfg: FuseConfig,
    before: Motion,
    window: Window,
    inp: TickInput,
    out: Outcome,
    pos: &[f64],
    vel: &[f64],
) -> Asked
    ensures { result ≡ clean_asked cfg before window inp out pos.now vel.now }
{
    let motion = ingest(cfg, before, inp.has_vel, pos, vel);
    let findings = find(cfg, inp.chunk.is_some(), out, window, motion.vel);
    Asked {
        motion,
        findings,
        machine: machine_input(cfg, inp, findings),
    }
}

// The action of the state that the tick ends in, and the verdict with it.
#[tactic(auto, unfolding(crate::specs::OneWay::clean_verdict))]
fn clean_verdict(
    cfg: FuseConfig,
    rt: FuseRt,
    inp: TickInput,
    out: Outcome,
    done: Stepped,
) -> SafetyVerdict
    ensures { result ≡ clean_verdict cfg rt inp out done }
{
    let turn = done.turn;
    let acted = act(cfg, turn.state, done.motion, turn.rt.hold, out);
    verdict_of(cfg, rt, inp, out, done, acted)
}

// A chunk moves the next chunk number, which wraps.
#[tactic(auto, unfolding(crate::specs::CleanTick::next_chunk))]
fn next_chunk(boundary: bool, n: u32) -> u32
    ensures { result ≡ next_chunk boundary n }
{
    if boundary { n.wrapping_add(1) } else { n }
}

#[tactic(auto, unfolding(crate::specs::CleanTick::clean_clock, lictor_guard::specs::Delivery::delivered_of))]
fn clean_clock(clock: Clock, inp: TickInput, ok: bool) -> Clock
    ensures { result ≡ clean_clock clock inp ok }
{
    let boundary = inp.chunk.is_some();
    Clock {
        filled: clock.filled || boundary,
        seq: clock.seq,
        last_t: inp.t,
        next_chunk_seq: next_chunk(boundary, clock.next_chunk_seq),
        chunk_ok_this_tick: ok,
    }
}

#[tactic(auto, unfolding(crate::specs::CleanTick::chunk_tally))]
fn chunk_tally(boundary: bool, tally: Tally, trips: u32) -> Tally
    ensures { result ≡ chunk_tally boundary tally trips }
{
    if boundary {
        record_chunk(tally, rejected(trips))
    } else {
        tally
    }
}

#[tactic(auto, unfolding(crate::specs::OneWay::clean_closing, lictor_guard::specs::Delivery::delivered_of))]
pub fn clean_closing(
    cfg: FuseConfig,
    rt: FuseRt,
    inp: TickInput,
    out: Outcome,
    done: Stepped,
) -> Closing
    ensures { result ≡ clean_closing cfg rt inp out done }
{
    let found = done.findings;
    let verdict = clean_verdict(cfg, rt, inp, out, done);
    let tally = chunk_tally(inp.chunk.is_some(), rt.tally, found.trips);
    Closing {
        verdict,
        clock: clean_clock(rt.clock, inp, found.chunk_ok),
        tally,
        events: events_of(cfg.calib, out.scores, rt.control, done.turn),
    }
}
