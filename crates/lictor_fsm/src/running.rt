// Armed, Watching and Clamped (fsm.rs, rows 17 to 23 and the stay rows): the policy runs.
ghost use Rattle.std.specs.Prelude.{◌≡◌};
ghost use Rattle.lictor_table.specs.Helpers.{clamp_reason, armed_reason};
ghost use Rattle.lictor_table.specs.Rows.{brake_row, clamp_row, clear_row, quiet_of, running_of};

use lictor_core::envelope::FuseConfig;
use lictor_core::fuse::Control;
use lictor_core::reason::ReasonCode;
use lictor_core::state::{FuseMode, FuseState};
use lictor_core::verdict::{self, any};
use lictor_table::{FsmInput, Turn};

// ---- what brakes and what clamps

// One tick of a running state.
#[tactic(auto, unfolding(lictor_table::specs::Rows::running_of, lictor_table::specs::Rows::unclampable_of, lictor_table::specs::Rows::over_budget))]
pub fn running(cfg: FuseConfig, rt: Control, inp: FsmInput) -> Turn
    ensures { result ≡ running_of cfg rt rt.state inp }
{
    let hyst = cfg.hyst;
    let soft = inp.trips & verdict::TIER0_SOFT;
    if any(inp.trips, verdict::BRAKE) {
        // Row 17.
        brake_row(rt, 0, ReasonCode::BrakeInfeasible)
    } else if soft != 0 && !inp.soft_clampable {
        // Row 17b: a soft trip that cannot be clamped brakes with the clamp cause.
        brake_row(rt, 0, clamp_reason(soft))
    } else if inp.predictive {
        // Row 18.
        brake_row(rt, verdict::TIER1_CP, ReasonCode::BrakeTier1Cp)
    } else if rt.clamp_streak >= hyst.clamp_streak_to_brake
        || rt.clamps > hyst.max_clamps_per_episode
    {
        // Row 19.
        brake_row(rt, verdict::CLAMP_BUDGET, ReasonCode::BrakeClampBudget)
    } else if soft != 0 {
        clamp_row(rt, inp.chunk_boundary, soft)
    } else {
        quiet(cfg, rt, inp.warn)
    }
}

// Rows 17, 17b, 18 and 19.
#[tactic(auto, unfolding(lictor_table::specs::Rows::brake_row, lictor_table::specs::Rows::enter_braking))]
fn brake_row(mut rt: Control, extra: u32, reason: ReasonCode) -> Turn
    ensures { result ≡ brake_row rt extra reason }
{
    rt.brake_ticks = 0;
    rt.stopped_ticks = 0;
    Turn::to(FuseState::Braking, extra, reason, rt)
}

// Row 20. The streak counts where a chunk is delivered.
#[tactic(auto, unfolding(lictor_table::specs::Helpers::up_if, lictor_table::specs::Rows::clamp_row))]
fn clamp_row(mut rt: Control, boundary: bool, soft: u32) -> Turn
    ensures { result ≡ clamp_row rt boundary soft }
{
    rt.clamps = rt.clamps.saturating_add(1);
    if boundary {
        rt.clamp_streak = rt.clamp_streak.saturating_add(1);
    }
    Turn::to(FuseState::Clamped, 0, clamp_reason(soft), rt)
}

// The clamp cause: the lowest soft bit names it. How many zeros are below it tells which it is,
// without a test of each bit.
#[tactic(auto, using(lictor_table::proofs::ClampCause::cause_of_zeros, lictor_table::proofs::ClampCause::cause_of_none, lictor_table::proofs::ClampCause::zeros_of_soft))]
fn clamp_reason(soft: u32) -> ReasonCode
    ensures { result ≡ clamp_reason soft }
{
    let bits = soft & verdict::TIER0_SOFT;
    if bits == 0 {
        return ReasonCode::ClampContact;
    }
    match bits.trailing_zeros() {
        0 => ReasonCode::ClampWorkspace,
        1 => ReasonCode::ClampSpeed,
        2 => ReasonCode::ClampAccel,
        3 => ReasonCode::ClampJerk,
        4 => ReasonCode::ClampReach,
        5 => ReasonCode::ClampContact,
        // There are six soft bits.
        _ => unreachable!(),
    }
}

// ---- nothing brakes or clamps

// Rows 21 to 23 and the stay rows: nothing brakes or clamps.
#[tactic(auto, unfolding(lictor_table::specs::Rows::quiet_of, lictor_table::specs::Rows::cleared_of, lictor_table::specs::Rows::watched_of))]
fn quiet(cfg: FuseConfig, rt: Control, warn: bool) -> Turn
    ensures { result ≡ quiet_of cfg rt rt.state warn }
{
    if rt.state != FuseState::Armed && rt.clean_run >= cfg.hyst.clear_ticks as u16 {
        clear_row(rt)
    } else if warn || rt.window.bits.count_ones() >= 1 {
        // Row 22.
        Turn::to(FuseState::Watching, 0, ReasonCode::WatchBand, rt)
    } else if rt.state == FuseState::Armed {
        // Row 23.
        Turn::to(FuseState::Armed, 0, armed_reason(cfg.mode), rt)
    } else if rt.state == FuseState::Watching {
        Turn::to(FuseState::Watching, 0, ReasonCode::WatchBand, rt)
    } else {
        Turn::to(FuseState::Clamped, 0, ReasonCode::Ok, rt)
    }
}

// Row 21.
#[tactic(auto, unfolding(lictor_table::specs::Rows::clear_row))]
fn clear_row(mut rt: Control) -> Turn
    ensures { result ≡ clear_row rt }
{
    rt.window.bits = 0;
    rt.clamp_streak = 0;
    Turn::to(FuseState::Armed, 0, ReasonCode::Ok, rt)
}

#[tactic(auto, unfolding(lictor_table::specs::Helpers::armed_reason))]
fn armed_reason(mode: FuseMode) -> ReasonCode
    ensures { result ≡ armed_reason mode }
{
    match mode {
        FuseMode::Observe => ReasonCode::ObserveOnly,
        FuseMode::Enforce => ReasonCode::Ok,
    }
}
