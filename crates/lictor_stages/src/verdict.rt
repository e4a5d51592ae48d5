// The verdict of a clean tick, and what the tally is told beside it.
ghost use Rattle.std.specs.Prelude.{◌≡◌};
ghost use Rattle.lictor_core.specs.Initial.{zeros};
ghost use Rattle.lictor_core.specs.Sizes.{features};
ghost use Rattle.lictor_stages.specs.Verdict.{live_valid, scores_of, disarmed_scores, action_dim, entered_of, consumed_flag, verdict_of, events_of, rejected_of};

use crate::act::{Acted, status_of};
use crate::findings::Findings;
use lictor_core::ack::VerifiedAck;
use lictor_core::chunk::MAX_D;
use lictor_core::envelope::{Calibration, FuseConfig};
use lictor_core::fuse::{Control, FuseRt, Motion, TickInput};
use lictor_core::outcome::Outcome;
use lictor_core::reason::ReasonCode;
use lictor_core::scores::{NFEAT, Scores};
use lictor_core::state::FuseState;
use lictor_core::verdict::{SafetyVerdict, TIER0_HARD, any};
use lictor_table::Turn;
use lictor_tally::TickEvents;

// What a tick has come to after the machine: where the arm is, what was found, and the turn.
#[derive(Clone, Copy)]
pub struct Stepped {
    pub motion: Motion,
    pub findings: Findings,
    pub turn: Turn,
}

// Without a calibration no feature is computed.
#[tactic(auto, unfolding(crate::specs::Verdict::live_valid))]
fn live_valid(mask: u32, valid: u32) -> u32
    ensures { result ≡ live_valid mask valid }
{
    if mask == 0 { 0 } else { valid }
}

#[tactic(auto, unfolding(crate::specs::Verdict::scores_of))]
fn scores_of(cal: Calibration, sc: Scores) -> Scores
    ensures { result ≡ scores_of cal sc }
{
    Scores {
        valid: live_valid(cal.mask, sc.valid),
        ..sc
    }
}

fn no_z() -> [f64; NFEAT]
    ensures { result ≡ zeros features }
{
    [0.0; NFEAT]
}

// Scores where none was made.
#[tactic(auto, unfolding(crate::specs::Verdict::disarmed_scores))]
pub fn disarmed_scores() -> Scores
    ensures { result ≡ disarmed_scores }
{
    Scores {
        z: no_z(),
        s: fmath::minus_infinity(),
        valid: 0,
        fired: 0,
    }
}

// The components that an action can have.
#[tactic(auto, unfolding(crate::specs::Verdict::action_dim))]
pub fn action_dim(cfg: FuseConfig) -> u16
    ensures { result ≡ action_dim cfg }
{
    cfg.dim.min(MAX_D) as u16
}

// Whether state q was entered in this tick.
#[tactic(auto, unfolding(crate::specs::Verdict::entered_of))]
fn entered(q: FuseState, from: FuseState, s: FuseState) -> bool
    ensures { result ≡ entered_of q from s }
{
    from != q && s == q
}

// An acknowledgement came, and the reason is RearmedAck, TerminatedAbort or TerminatedRetune.
#[tactic(auto, unfolding(crate::specs::Verdict::consumed_flag, crate::specs::Verdict::has_ack))]
fn consumed(ack: Option<VerifiedAck>, reason: ReasonCode) -> bool
    ensures { result ≡ consumed_flag ack reason }
{
    ack.is_some()
        && (reason == ReasonCode::RearmedAck
            || reason == ReasonCode::TerminatedAbort
            || reason == ReasonCode::TerminatedRetune)
}

// The verdict of a clean tick that started from the run state `rt`.
// Which pattern a NaN has is the program's choice.
#[tactic(auto, unfolding(crate::specs::Verdict::verdict_of, crate::specs::Verdict::handoff_of))]
pub fn verdict_of(
    cfg: FuseConfig,
    rt: FuseRt,
    inp: TickInput,
    out: Outcome,
    done: Stepped,
    acted: Acted,
) -> SafetyVerdict
    ensures { result ≡ verdict_of cfg rt.clock.seq rt.control.state inp out done.findings done.turn acted }
{
    let from = rt.control.state;
    let found = done.findings;
    let turn = done.turn;
    let action = acted.action;
    let scores = scores_of(cfg.calib, out.scores);
    let begun = entered(FuseState::Escalated, from, turn.state);
    SafetyVerdict {
        seq: rt.clock.seq,
        t: inp.t,
        status: status_of(turn.state),
        state: turn.state,
        prev_state: from,
        trips: found.trips | turn.extra,
        action,
        action_dim: action_dim(cfg),
        action_src: acted.src,
        substituted: acted.substituted,
        clamped_dims: out.clamped_dims,
        scores,
        tau: cfg.calib.tau,
        window: turn.rt.window.bits,
        window_hits: found.scored.hits,
        brake_margin: out.margin,
        reason: turn.reason,
        handoff_seq: begun.then_some(turn.rt.handoff_seq),
        ack_consumed: consumed(inp.ack, turn.reason),
        violation_reached_env: acted.violation,
    }
}

// What the machine did beyond the verdict, from the control group before and after.
#[tactic(auto, unfolding(crate::specs::Verdict::events_of))]
pub fn events_of(cal: Calibration, sc: Scores, before: Control, turn: Turn) -> TickEvents
    ensures { result ≡ events_of cal sc before turn }
{
    TickEvents {
        entered_hold: entered(FuseState::Held, before.state, turn.state),
        entered_escalated: entered(FuseState::Escalated, before.state, turn.state),
        rearmed: turn.rt.rearms != before.rearms,
        clamped: turn.rt.clamps != before.clamps,
        live_z: cal.mask & live_valid(cal.mask, sc.valid),
    }
}

// Whether a chunk counts as rejected: a hard trip is left.
#[tactic(auto, unfolding(crate::specs::Verdict::rejected_of))]
pub fn rejected(trips: u32) -> bool
    ensures { result ≡ rejected_of trips }
{
    any(trips, TIER0_HARD)
}
