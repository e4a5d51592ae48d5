// Held (fsm.rs, rows 9 to 13): the arm is held still. An accepted acknowledgement (rows 9 and 10,
// in `acks`), the automatic rearm or the limit of the hold ends it.
ghost use Rattle.std.specs.Prelude.{◌≡◌};
ghost use Rattle.lictor_table.specs.Rows.{may_rearm, rearm_row, escalate_row, hold_row, holding_of, held_of};

use crate::acks::{resume_row, terminate_row};
use lictor_core::ack::{AckDecision, VerifiedAck};
use lictor_core::envelope::{FuseConfig, RearmPolicy};
use lictor_core::fuse::Control;
use lictor_core::reason::ReasonCode;
use lictor_core::state::FuseState;
use lictor_core::verdict;
use lictor_table::{FsmInput, Turn};

// Rows 9 to 13.
#[tactic(auto, unfolding(lictor_table::specs::Rows::held_of))]
pub fn held(
    cfg: FuseConfig,
    rt: Control,
    clean: bool,
    ack: Option<VerifiedAck>,
    inp: FsmInput,
) -> Turn
    ensures { result ≡ held_of cfg rt clean ack inp }
{
    match ack {
        Some(given) => match given.decision {
            AckDecision::Resume => resume_row(rt, given),
            AckDecision::Abort => terminate_row(
                rt,
                given,
                verdict::OPERATOR_ABORT,
                ReasonCode::TerminatedAbort,
            ),
            // Not a row in Held: ignored.
            AckDecision::Retune => holding(cfg, rt, clean, inp),
        },
        None => holding(cfg, rt, clean, inp),
    }
}

// Rows 11 to 13: where the limit of the hold is not reached, row 13; else row 12, by its reason.
#[tactic(auto, unfolding(lictor_table::specs::Rows::holding_of, lictor_table::specs::Rows::may_rearm))]
fn holding(cfg: FuseConfig, rt: Control, clean: bool, inp: FsmInput) -> Turn
    ensures { result ≡ holding_of cfg rt clean inp }
{
    let hyst = cfg.hyst;
    if cfg.rearm == RearmPolicy::Auto
        && rt.held_clean >= hyst.rearm_hold
        && inp.chunk_ok
        && rt.rearms < hyst.max_rearms
    {
        rearm_row(rt)
    } else if rt.held_ticks < hyst.escalate_after_hold_ticks {
        hold_row(rt, clean)
    } else if rt.rearms >= hyst.max_rearms {
        escalate_row(rt, verdict::REARM_BUDGET, ReasonCode::EscalateRearmBudget)
    } else if inp.predictive {
        escalate_row(rt, 0, ReasonCode::EscalateTier1Persistent)
    } else {
        escalate_row(rt, 0, ReasonCode::EscalateHoldTimeout)
    }
}

// Row 11: automatic rearm. It clears the window and nothing else.
#[tactic(auto, unfolding(lictor_table::specs::Rows::rearm_row))]
fn rearm_row(mut rt: Control) -> Turn
    ensures { result ≡ rearm_row rt }
{
    rt.rearms = rt.rearms.saturating_add(1);
    rt.window.bits = 0;
    Turn::to(FuseState::Armed, 0, ReasonCode::RearmedAuto, rt)
}

// Row 12: a handoff begins.
#[tactic(auto, unfolding(lictor_table::specs::Rows::escalate_row))]
fn escalate_row(mut rt: Control, extra: u32, reason: ReasonCode) -> Turn
    ensures { result ≡ escalate_row rt extra reason }
{
    rt.handoff_seq = rt.handoff_seq.wrapping_add(1);
    rt.handoff_pending = true;
    rt.escalated_ticks = 0;
    Turn::to(FuseState::Escalated, extra, reason, rt)
}

// Row 13.
#[tactic(auto, unfolding(lictor_table::specs::Helpers::count_if, lictor_table::specs::Rows::hold_row))]
fn hold_row(mut rt: Control, clean: bool) -> Turn
    ensures { result ≡ hold_row rt clean }
{
    rt.held_ticks = rt.held_ticks.saturating_add(1);
    rt.held_clean = if clean {
        rt.held_clean.saturating_add(1)
    } else {
        0
    };
    Turn::to(FuseState::Held, 0, ReasonCode::HeldStandstill, rt)
}
