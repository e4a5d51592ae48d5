// The escalation state machine (fsm.rs). `next` does what the table of lictor_table says: here
// `next`, `transition`, row 1 (a fault bit), rows 2 and 3 (Terminated and Fault stay), rows 14 to
// 16 (Braking) and the Idle arm; the other rows are in the modules, each under its own number.
// The run state goes in by value and comes back.
//
// Two kinds of function: rows, which change the run state, and choices, which test and then hand on
// to a row. Settings, run state and position stay three parameters: a row changes the run state
// alone and hands it back, and a struct of the three would have to be taken apart for that.
#![tactic(auto)]

mod acks; // which acknowledgement is accepted, and what it changes
mod escalated; // rows 4 to 8
mod held; // rows 9 to 13
mod hold; // the latched hold
mod running; // rows 17 to 23 and the stay rows

ghost use Rattle.std.specs.Prelude.{◌≡◌};
ghost use Rattle.lictor_core.specs.declared.state.FuseState.TheVariants.{Fault};
ghost use Rattle.lictor_table.specs.Helpers.{fault_reason, latch_hold, clean_of, count_run, to, settled_of};
ghost use Rattle.lictor_table.specs.Rows.{fault_row, standstill_row, stopping_row, braking_of, transition_of};
ghost use Rattle.lictor_table.specs.Table.{next_of};

use crate::acks::accepted_ack;
use crate::escalated::escalated;
use crate::held::held;
use crate::hold::latched;
use crate::running::running;
use lictor_core::ack::VerifiedAck;
use lictor_core::chunk::MAX_POS;
use lictor_core::envelope::FuseConfig;
use lictor_core::fuse::Control;
use lictor_core::reason::ReasonCode;
use lictor_core::state::FuseState;
use lictor_core::verdict::{self, any};
use lictor_table::{FsmInput, Turn};

// One tick of the machine: the new run state, the state, the extra bits and the reason. `pos` is
// the last finite position.
// Which pattern a NaN has is the program's choice.
#[tactic(auto, using(lictor_table::proofs::ByTable::tells), unfolding(lictor_table::specs::Rows::next_by_rows, lictor_table::specs::Helpers::count_run))]
pub fn next(cfg: FuseConfig, rt: Control, pos: [f64; MAX_POS], inp: FsmInput) -> Turn
    ensures { result ≡ next_of cfg rt pos inp }
{
    let clean = is_clean(inp);
    let ack = accepted_ack(rt, inp.ack);
    settled(transition(cfg, count_run(rt, clean), pos, clean, ack, inp))
}

// A clean tick in the machine's sense; clean_run runs in every state.
#[tactic(auto, unfolding(lictor_table::specs::Helpers::is_clean))]
fn is_clean(inp: FsmInput) -> bool
    ensures { result ≡ clean_of inp }
{
    inp.trips == 0 && !inp.warn && !inp.predictive
}

#[tactic(auto, unfolding(lictor_table::specs::Helpers::count_run, lictor_table::specs::Helpers::count_if))]
fn count_run(mut rt: Control, clean: bool) -> Control
    ensures { result ≡ count_run clean rt }
{
    rt.clean_run = if clean {
        rt.clean_run.saturating_add(1)
    } else {
        0
    };
    rt
}

// The state that the tick ends in is stored. (As a store to the field it takes a fifth more
// instructions: the run state is then moved as one piece.)
#[tactic(auto, unfolding(lictor_table::specs::Helpers::settled_of))]
fn settled(turn: Turn) -> Turn
    ensures { result ≡ settled_of turn }
{
    Turn {
        rt: Control {
            state: turn.state,
            ..turn.rt
        },
        ..turn
    }
}

// Row 1, and then the rows of the state that the tick starts from.
#[tactic(auto, unfolding(lictor_table::specs::Rows::transition_of, lictor_table::specs::Rows::by_from))]
fn transition(
    cfg: FuseConfig,
    rt: Control,
    pos: [f64; MAX_POS],
    clean: bool,
    ack: Option<VerifiedAck>,
    inp: FsmInput,
) -> Turn
    ensures { result ≡ transition_of cfg rt pos rt.state clean ack inp }
{
    if any(inp.trips, verdict::FAULT_BITS) {
        return fault_row(cfg, rt, pos, inp.trips);
    }
    match rt.state {
        // Row 2.
        FuseState::Terminated => {
            Turn::to(FuseState::Terminated, 0, ReasonCode::HeldStandstill, rt)
        }
        // Row 3.
        FuseState::Fault => Turn::to(FuseState::Fault, 0, ReasonCode::HeldStandstill, rt),
        FuseState::Escalated => escalated(cfg.hyst.handoff_timeout_ticks, rt, ack),
        FuseState::Held => held(cfg, rt, clean, ack, inp),
        FuseState::Braking => braking(cfg, rt, pos, inp),
        // No episode: a host error, fail closed.
        FuseState::Idle => fault(cfg, rt, pos, 0, ReasonCode::FaultInternal),
        FuseState::Armed | FuseState::Watching | FuseState::Clamped => running(cfg, rt, inp),
    }
}

// ---- Fault

// Fault with the hold latched: row 14, the Idle arm, and row 1 on entry.
#[tactic(auto, unfolding(lictor_table::specs::Helpers::latch_hold))]
fn fault(
    cfg: FuseConfig,
    mut rt: Control,
    pos: [f64; MAX_POS],
    extra: u32,
    reason: ReasonCode,
) -> Turn
    ensures { result ≡ to Fault extra reason (latch_hold cfg pos rt) }
{
    rt.hold = latched(pos, cfg.box_lo, cfg.box_hi, rt.hold, cfg.pos_dim);
    Turn::to(FuseState::Fault, extra, reason, rt)
}

#[tactic(auto, unfolding(lictor_table::specs::Helpers::fault_reason))]
fn fault_reason(trips: u32) -> ReasonCode
    ensures { result ≡ fault_reason trips }
{
    if any(trips, verdict::NONFINITE) {
        ReasonCode::FaultNonFinite
    } else if any(trips, verdict::SCHEMA) {
        ReasonCode::FaultSchema
    } else {
        ReasonCode::FaultWatchdog
    }
}

// Row 1: a Fault that keeps faulting does not chase a drifting position.
#[tactic(auto, unfolding(lictor_table::specs::Rows::fault_row))]
fn fault_row(cfg: FuseConfig, rt: Control, pos: [f64; MAX_POS], trips: u32) -> Turn
    ensures { result ≡ fault_row cfg rt pos rt.state trips }
{
    let reason = fault_reason(trips);
    if rt.state == FuseState::Fault {
        return Turn::to(FuseState::Fault, 0, reason, rt);
    }
    fault(cfg, rt, pos, 0, reason)
}

// ---- Braking

#[tactic(auto, unfolding(lictor_table::specs::Rows::braking_of, lictor_table::specs::Rows::confirmed_of))]
fn braking(cfg: FuseConfig, rt: Control, pos: [f64; MAX_POS], inp: FsmInput) -> Turn
    ensures { result ≡ braking_of cfg rt pos inp }
{
    if rt.brake_ticks >= cfg.hyst.brake_timeout_ticks {
        // Row 14: a stop that never confirms.
        fault(
            cfg,
            rt,
            pos,
            verdict::BRAKE_TIMEOUT,
            ReasonCode::FaultBrakeTimeout,
        )
    } else if inp.stopped && rt.stopped_ticks as u16 + 1 >= cfg.hyst.stop_confirm_ticks as u16 {
        // (In 16 bits the sum has room.)
        standstill_row(cfg, rt, pos)
    } else {
        stopping_row(rt, inp.stopped)
    }
}

// Row 15.
#[tactic(auto, unfolding(lictor_table::specs::Rows::standstill_row, lictor_table::specs::Helpers::latch_hold))]
fn standstill_row(cfg: FuseConfig, mut rt: Control, pos: [f64; MAX_POS]) -> Turn
    ensures { result ≡ standstill_row cfg rt pos }
{
    rt.hold = latched(pos, cfg.box_lo, cfg.box_hi, rt.hold, cfg.pos_dim);
    rt.held_ticks = 0;
    rt.held_clean = 0;
    Turn::to(FuseState::Held, 0, ReasonCode::HeldStandstill, rt)
}

// Row 16.
#[tactic(auto, unfolding(lictor_table::specs::Helpers::count_if, lictor_table::specs::Rows::stopping_row))]
fn stopping_row(mut rt: Control, stopped: bool) -> Turn
    ensures { result ≡ stopping_row rt stopped }
{
    rt.brake_ticks = rt.brake_ticks.saturating_add(1);
    rt.stopped_ticks = if stopped {
        rt.stopped_ticks.saturating_add(1)
    } else {
        0
    };
    Turn::to(FuseState::Braking, 0, ReasonCode::Stopping, rt)
}
