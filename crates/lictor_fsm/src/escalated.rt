// Escalated (fsm.rs, rows 4 to 8): the arm is held still and an operator has been asked. An
// accepted acknowledgement (rows 4 to 6, in `acks`) or the handoff limit ends it.
ghost use Rattle.std.specs.Prelude.{◌≡◌};
ghost use Rattle.lictor_table.specs.Rows.{timeout_row, wait_row, unanswered_of, escalated_of};

use crate::acks::{resume_row, terminate_row};
use lictor_core::ack::{AckDecision, VerifiedAck};
use lictor_core::fuse::Control;
use lictor_core::reason::ReasonCode;
use lictor_core::state::FuseState;
use lictor_core::verdict;
use lictor_table::Turn;

// Rows 4 to 8; `limit` is the handoff limit E.
#[tactic(auto, unfolding(lictor_table::specs::Rows::escalated_of))]
pub fn escalated(limit: u32, rt: Control, ack: Option<VerifiedAck>) -> Turn
    ensures { result ≡ escalated_of limit rt ack }
{
    match ack {
        Some(given) => match given.decision {
            AckDecision::Abort => terminate_row(
                rt,
                given,
                verdict::OPERATOR_ABORT,
                ReasonCode::TerminatedAbort,
            ),
            AckDecision::Retune => terminate_row(rt, given, 0, ReasonCode::TerminatedRetune),
            AckDecision::Resume => resume_row(rt, given),
        },
        None => unanswered(limit, rt),
    }
}

// Rows 7 and 8: nothing was accepted.
#[tactic(auto, unfolding(lictor_table::specs::Rows::unanswered_of))]
fn unanswered(limit: u32, rt: Control) -> Turn
    ensures { result ≡ unanswered_of limit rt }
{
    if rt.escalated_ticks >= limit {
        timeout_row(rt)
    } else {
        wait_row(rt)
    }
}

// Row 7.
#[tactic(auto, unfolding(lictor_table::specs::Rows::timeout_row))]
fn timeout_row(mut rt: Control) -> Turn
    ensures { result ≡ timeout_row rt }
{
    rt.handoff_pending = false;
    Turn::to(
        FuseState::Terminated,
        verdict::HANDOFF_TIMEOUT,
        ReasonCode::TerminatedTimeout,
        rt,
    )
}

// Row 8.
#[tactic(auto, unfolding(lictor_table::specs::Rows::wait_row))]
fn wait_row(mut rt: Control) -> Turn
    ensures { result ≡ wait_row rt }
{
    rt.escalated_ticks = rt.escalated_ticks.saturating_add(1);
    Turn::to(FuseState::Escalated, 0, ReasonCode::HeldStandstill, rt)
}
