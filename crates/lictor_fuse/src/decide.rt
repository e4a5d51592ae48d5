// One tick by value: the guard, what the tick brings to the machine, the machine's turn,
// and what the tick comes to (fuse.rs, decide). Both kinds of tick come to one call of the machine,
// which the compiler then puts in its place.
ghost use Rattle.std.specs.Prelude.{◌≡◌};
ghost use Rattle.lictor_fuse.specs.CleanTick.{ready_of};
ghost use Rattle.lictor_fuse.specs.Closed.{closed_of};
ghost use Rattle.lictor_fuse.specs.Decide.{decide_by, decide_of};
ghost use Rattle.lictor_fuse.specs.OneWay.{asked_of, stepped_of, closing_of};

use crate::clean_tick::{clean_asked, clean_closing};
use crate::fault_tick::{fault_asked, fault_closing};
use lictor_core::envelope::FuseConfig;
use lictor_core::fuse::{Clock, Control, FuseRt, Lists, Motion, TickInput, Window};
use lictor_core::outcome::Outcome;
use lictor_core::tally::Tally;
use lictor_core::verdict::SafetyVerdict;
use lictor_guard::guard;
use lictor_stages::findings::Findings;
use lictor_stages::verdict::Stepped;
use lictor_table::FsmInput;
use lictor_tally::TickEvents;

// Where the arm is, what was found, and what the machine is asked.
#[derive(Clone, Copy)]
pub struct Asked {
    pub motion: Motion,
    pub findings: Findings,
    pub machine: FsmInput,
}

// The verdict, the clock but for the tick's own count, the tally but for this verdict,
// and what goes with the verdict to the tally.
#[derive(Clone, Copy)]
pub struct Closing {
    pub verdict: SafetyVerdict,
    pub clock: Clock,
    pub tally: Tally,
    pub events: TickEvents,
}

// The run state after a tick, and its verdict.
#[derive(Clone, Copy)]
pub struct Decided {
    pub rt: FuseRt,
    pub verdict: SafetyVerdict,
}

// ---- the machine's turn

// What a tick brings to the machine: a clean one where the guard found no bit.
#[tactic(auto, unfolding(crate::specs::OneWay::asked_of))]
fn ask(
    cfg: FuseConfig,
    before: Motion,
    window: Window,
    inp: TickInput,
    out: Outcome,
    bits: u32,
    pos: &[f64],
    vel: &[f64],
) -> Asked
    ensures { result ≡ asked_of cfg before window inp out bits pos.now vel.now }
{
    if bits == 0 {
        clean_asked(cfg, before, window, inp, out, pos, vel)
    } else {
        fault_asked(cfg, before, window, inp, bits, pos)
    }
}

// The machine starts from the window that has this tick's hit.
#[tactic(auto, unfolding(crate::specs::CleanTick::ready_of))]
fn ready(control: Control, found: Findings) -> Control
    ensures { result ≡ ready_of control found }
{
    Control {
        window: found.scored.window,
        ..control
    }
}

// The machine's turn on what the tick brings.
#[tactic(auto, unfolding(crate::specs::OneWay::stepped_of))]
fn stepped(cfg: FuseConfig, control: Control, asked: Asked) -> Stepped
    ensures { result ≡ stepped_of cfg control asked }
{
    let start = ready(control, asked.findings);
    Stepped {
        motion: asked.motion,
        findings: asked.findings,
        turn: lictor_fsm::next(cfg, start, asked.motion.pos, asked.machine),
    }
}

// ---- the end of a tick

// What a tick comes to: a clean one where the guard found no bit.
#[tactic(auto, unfolding(crate::specs::OneWay::closing_of))]
fn close(
    cfg: FuseConfig,
    rt: FuseRt,
    inp: TickInput,
    out: Outcome,
    bits: u32,
    done: Stepped,
) -> Closing
    ensures { result ≡ closing_of cfg rt inp out bits done }
{
    if bits == 0 {
        clean_closing(cfg, rt, inp, out, done)
    } else {
        fault_closing(cfg, rt, inp, bits, done.turn)
    }
}

// The verdict is recorded, its action kept as the last command, and the tick counted.
#[tactic(auto, unfolding(crate::specs::Closed::closed_of))]
fn closed(control: Control, before: Motion, end: Closing) -> Decided
    ensures { result ≡ closed_of control before end.clock end.tally end.verdict end.events }
{
    let last_cmd = end.verdict.action;
    let motion = Motion { last_cmd, ..before };
    let clock = Clock {
        seq: end.clock.seq.saturating_add(1),
        ..end.clock
    };
    let tally = lictor_tally::record(end.tally, end.verdict, end.events);
    Decided {
        rt: FuseRt {
            control,
            motion,
            clock,
            tally,
        },
        verdict: end.verdict,
    }
}

// ---- one tick

// A tick for which the guard found these bits.
pub fn decide_by(
    cfg: FuseConfig,
    rt: FuseRt,
    inp: TickInput,
    out: Outcome,
    bits: u32,
    pos: &[f64],
    vel: &[f64],
) -> Decided
    ensures { result ≡ decide_by cfg rt inp out bits pos.now vel.now }
{
    let asked = ask(cfg, rt.motion, rt.control.window, inp, out, bits, pos, vel);
    let done = stepped(cfg, rt.control, asked);
    let end = close(cfg, rt, inp, out, bits, done);
    closed(done.turn.rt, done.motion, end)
}

// One tick under a configuration: the state goes in, and comes back with the verdict.
// All NaNs are one value in this promise: which pattern a NaN has is left open,
// and nothing else depends on it.
#[tactic(auto, unfolding(crate::specs::Decide::decide_of))]
pub fn decide(cfg: FuseConfig, rt: FuseRt, inp: TickInput, out: Outcome, lists: Lists) -> Decided
    ensures { result ≡ decide_of cfg rt inp out lists.entry.pos.now lists.entry.vel.now lists.entry.aux.now lists.entry.ext.now lists.entry.chunk.now }
{
    let bits = guard(cfg, rt.clock, inp, lists);
    decide_by(cfg, rt, inp, out, bits, lists.pos, lists.vel)
}
