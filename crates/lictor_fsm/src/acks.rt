// Acknowledgements (fsm.rs, `accepted_ack`, `consume_nonce`, `rearm_ack`; rows 4 to 6, 9 and 10):
// which is accepted, and what an accepted one changes in Escalated and in Held.
ghost use Rattle.std.specs.Prelude.{◌≡◌};
ghost use Rattle.lictor_table.specs.Helpers.{accepted_by, accepted_ack, consume_nonce};
ghost use Rattle.lictor_table.specs.Rows.{rearm_ack, resume_row, terminate_row};

use lictor_core::ack::VerifiedAck;
use lictor_core::envelope::MAX_OPERATORS;
use lictor_core::fuse::Control;
use lictor_core::reason::ReasonCode;
use lictor_core::state::FuseState;
use lictor_table::Turn;

// The acknowledgement, if it is accepted.
#[tactic(auto, unfolding(lictor_table::specs::Helpers::accepted_ack))]
pub fn accepted_ack(rt: Control, ack: Option<VerifiedAck>) -> Option<VerifiedAck>
    ensures { result ≡ accepted_ack rt.handoff_seq rt.last_nonce ack }
{
    ack.filter(|given| accepted_by(rt, *given))
}

// The three checks of an acknowledgement: its slot, its handoff number and its nonce.
#[tactic(auto, unfolding(lictor_table::specs::Helpers::accepted_by))]
fn accepted_by(rt: Control, ack: VerifiedAck) -> bool
    ensures { result ≡ accepted_by rt.handoff_seq rt.last_nonce ack }
{
    ack.handoff_seq == rt.handoff_seq
        && rt
            .last_nonce
            .get(ack.operator_slot as usize)
            .is_some_and(|&last| ack.nonce > last)
}

// The nonce is spent: one place of eight changes.
#[tactic(auto, unfolding(lictor_table::specs::Helpers::consume_nonce))]
fn consume_nonce(mut rt: Control, ack: VerifiedAck) -> Control
    ensures { result ≡ consume_nonce ack rt }
{
    let slot = ack.operator_slot as usize;
    if slot < MAX_OPERATORS {
        rt.last_nonce[slot] = ack.nonce;
    }
    rt
}

// What a Resume changes. (The clamps of the episode, the brake counts and the hold stay.)
#[tactic(auto, unfolding(lictor_table::specs::Rows::rearm_ack))]
fn rearm_ack(rt: Control, ack: VerifiedAck) -> Control
    ensures { result ≡ rearm_ack ack rt }
{
    let mut rt = consume_nonce(rt, ack);
    rt.rearms = rt.rearms.saturating_add(1);
    rt.window.bits = 0;
    rt.clean_run = 0;
    rt.clamp_streak = 0;
    rt.held_ticks = 0;
    rt.held_clean = 0;
    rt.escalated_ticks = 0;
    rt.handoff_pending = false;
    rt
}

// Rows 6 and 9: an accepted Resume arms the fuse again.
#[tactic(auto, unfolding(lictor_table::specs::Rows::resume_row))]
pub fn resume_row(rt: Control, ack: VerifiedAck) -> Turn
    ensures { result ≡ resume_row rt ack }
{
    Turn::to(
        FuseState::Armed,
        0,
        ReasonCode::RearmedAck,
        rearm_ack(rt, ack),
    )
}

// Rows 4, 5 and 10: an accepted Abort or Retune ends the episode.
#[tactic(auto, unfolding(lictor_table::specs::Rows::terminate_row))]
pub fn terminate_row(rt: Control, ack: VerifiedAck, extra: u32, reason: ReasonCode) -> Turn
    ensures { result ≡ terminate_row rt ack extra reason }
{
    let mut rt = consume_nonce(rt, ack);
    rt.handoff_pending = false;
    Turn::to(FuseState::Terminated, extra, reason, rt)
}
