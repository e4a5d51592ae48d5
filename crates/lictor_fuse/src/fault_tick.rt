// A fault tick, in the order of fuse.rs, fault_tick: what it takes, what the machine is asked,
// the verdict, the clock, and what the tick comes to. The machine's turn is in `decide`.
ghost use Rattle.std.specs.Prelude.{◌≡◌};
ghost use Rattle.lictor_fuse.specs.FaultTick.{is_fit, with_pos, fault_motion, fault_input, fault_verdict, fault_clock};
ghost use Rattle.lictor_fuse.specs.OneWay.{fault_findings, fault_asked, fault_closing};

use crate::decide::{Asked, Closing};
use lictor_core::chunk::MAX_D;
use lictor_core::envelope::{ClampMode, FuseConfig};
use lictor_core::fuse::{Clock, FuseRt, Motion, TickInput, Window};
use lictor_core::rows::taken;
use lictor_core::state::Time;
use lictor_core::verdict::{ActionSource, SafetyVerdict};
use lictor_detect::brake::hold_action;
use lictor_detect::window::hits;
use lictor_stages::act::status_of;
use lictor_stages::findings::{Findings, Scored};
use lictor_stages::verdict::{action_dim, disarmed_scores};
use lictor_table::{FsmInput, Turn};
use lictor_tally::TickEvents;

// ---- what it takes

// Whether the position's length is right and each value is finite.
#[tactic(auto, unfolding(crate::specs::FaultTick::is_fit))]
fn is_fit(cfg: FuseConfig, pos: &[f64]) -> bool
    ensures { result ≡ is_fit cfg pos.now }
{
    pos.len() == cfg.pos_dim && fmath::all_finite(pos)
}

#[tactic(auto, unfolding(crate::specs::FaultTick::with_pos))]
fn with_pos(cfg: FuseConfig, before: Motion, pos: &[f64]) -> Motion
    ensures { result ≡ with_pos cfg before pos.now }
{
    let mut motion = before;
    motion.pos = taken(pos, before.pos, cfg.pos_dim);
    motion
}

// The position if it is fit, and nothing else: the last finite one is what the hold latches onto.
#[tactic(auto, unfolding(crate::specs::FaultTick::fault_motion))]
fn fault_motion(cfg: FuseConfig, before: Motion, pos: &[f64]) -> Motion
    ensures { result ≡ fault_motion cfg before pos.now }
{
    if is_fit(cfg, pos) {
        with_pos(cfg, before, pos)
    } else {
        before
    }
}

// ---- what the machine is asked

// A fault tick finds the guard's bits, and leaves the window as it is.
#[tactic(auto, unfolding(crate::specs::OneWay::fault_findings))]
fn fault_findings(bits: u32, window: Window) -> Findings
    ensures { result ≡ fault_findings bits window }
{
    Findings {
        trips: bits,
        scored: Scored {
            warn: false,
            window,
            hits: 0,
            predictive: false,
        },
        stopped: false,
        chunk_ok: false,
    }
}

// The guard's bits, and no acknowledgement.
#[tactic(auto, unfolding(crate::specs::FaultTick::fault_input, lictor_guard::specs::Delivery::delivered_of))]
fn fault_input(cfg: FuseConfig, inp: TickInput, bits: u32) -> FsmInput
    ensures { result ≡ fault_input cfg inp bits }
{
    FsmInput {
        trips: bits,
        predictive: false,
        warn: false,
        soft_clampable: cfg.clamp == ClampMode::Project,
        stopped: false,
        chunk_boundary: inp.chunk.is_some(),
        chunk_ok: false,
        ack: None,
    }
}

#[tactic(auto, unfolding(crate::specs::OneWay::fault_asked))]
pub fn fault_asked(
    cfg: FuseConfig,
    before: Motion,
    window: Window,
    inp: TickInput,
    bits: u32,
    pos: &[f64],
) -> Asked
    ensures { result ≡ fault_asked cfg before window inp bits pos.now }
{
    Asked {
        motion: fault_motion(cfg, before, pos),
        findings: fault_findings(bits, window),
        machine: fault_input(cfg, inp, bits),
    }
}

// ---- the verdict

// The guard's bits, the hold action in both modes, no scores, no margin.
fn fault_verdict(
    cfg: FuseConfig,
    rt: FuseRt,
    inp: TickInput,
    bits: u32,
    turn: Turn,
    action: [f64; MAX_D],
) -> SafetyVerdict
    ensures { result ≡ fault_verdict cfg rt.clock.seq rt.control.state inp bits turn action }
{
    let window = turn.rt.window;
    let scores = disarmed_scores();
    SafetyVerdict {
        seq: rt.clock.seq,
        t: inp.t,
        status: status_of(turn.state),
        state: turn.state,
        prev_state: rt.control.state,
        trips: bits | turn.extra,
        action,
        action_dim: action_dim(cfg),
        action_src: ActionSource::Hold,
        substituted: true,
        clamped_dims: 0,
        scores,
        tau: cfg.calib.tau,
        window: window.bits,
        window_hits: hits(window),
        brake_margin: fmath::nan(),
        reason: turn.reason,
        handoff_seq: None,
        ack_consumed: false,
        violation_reached_env: false,
    }
}

// ---- the clock

// t alone is taken: the chunk number and the tick's own count stay.
#[tactic(auto, unfolding(crate::specs::FaultTick::fault_clock))]
fn fault_clock(before: Clock, t: Time) -> Clock
    ensures { result ≡ fault_clock before t }
{
    Clock {
        last_t: t,
        ..before
    }
}

// ---- what it comes to

#[tactic(auto, unfolding(crate::specs::OneWay::fault_closing, crate::specs::FaultTick::no_events))]
pub fn fault_closing(cfg: FuseConfig, rt: FuseRt, inp: TickInput, bits: u32, turn: Turn) -> Closing
    ensures { result ≡ fault_closing cfg rt inp bits turn }
{
    let action = hold_action(cfg, turn.rt.hold);
    let verdict = fault_verdict(cfg, rt, inp, bits, turn, action);
    Closing {
        verdict,
        clock: fault_clock(rt.clock, inp.t),
        tally: rt.tally,
        events: TickEvents::default(),
    }
}
