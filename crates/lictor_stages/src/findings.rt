// Stages 2 to 6, up to the state machine: what the outcome and the motion mean under the settings.
ghost use Rattle.std.specs.Prelude.{◌≡◌};
ghost use Rattle.lictor_stages.specs.Findings.{with_brake, masked_of, warn_of, slow_of, standstill_of, scored_of, findings_of, machine_input};

use lictor_core::chunk::MAX_POS;
use lictor_core::envelope::{ClampMode, FuseConfig};
use lictor_core::fuse::{TickInput, Window};
use lictor_core::outcome::Outcome;
use lictor_core::scores::Scores;
use lictor_core::state::FuseMode;
use lictor_core::verdict::{BRAKE, TIER0_HARD};
use lictor_detect::conformal::trip;
use lictor_detect::window::{hits, push};
use lictor_table::FsmInput;

// What the scores say.
#[derive(Clone, Copy)]
pub struct Scored {
    pub warn: bool,
    // the window with this tick's hit
    pub window: Window,
    pub hits: u8,
    pub predictive: bool,
}

// What is found before the state machine runs.
#[derive(Clone, Copy)]
pub struct Findings {
    // the outcome's trips, with BRAKE and the mask
    pub trips: u32,
    pub scored: Scored,
    pub stopped: bool,
    pub chunk_ok: bool,
}

#[tactic(auto, unfolding(crate::specs::Findings::with_brake))]
fn with_brake(trips: u32, feasible: bool) -> u32
    ensures { result ≡ with_brake trips feasible }
{
    if feasible { trips } else { trips | BRAKE }
}

#[tactic(auto, unfolding(crate::specs::Findings::masked_of))]
fn masked(trips: u32, feasible: bool, enabled: u32) -> u32
    ensures { result ≡ masked_of trips feasible enabled }
{
    with_brake(trips, feasible) & (enabled | TIER0_HARD)
}

#[tactic(auto, unfolding(crate::specs::Findings::warn_of))]
fn is_warn(hit: bool, s: f64, tau: f64, warn_margin: f64) -> bool
    ensures { result ≡ warn_of hit s tau warn_margin }
{
    !hit && s > tau - warn_margin
}

// Whether the norm of the velocity is at most v_stop_eps.
#[tactic(auto, unfolding(crate::specs::Findings::slow_of))]
fn is_slow(cfg: FuseConfig, vel: [f64; MAX_POS]) -> bool
    ensures { result ≡ slow_of cfg vel }
{
    fmath::norm(&vel, cfg.pos_dim) <= cfg.hyst.v_stop_eps
}

// Standing still: always in Observe, else by the norm.
#[tactic(auto, unfolding(crate::specs::Findings::standstill_of))]
fn standstill(cfg: FuseConfig, vel: [f64; MAX_POS]) -> bool
    ensures { result ≡ standstill_of cfg vel }
{
    cfg.mode == FuseMode::Observe || is_slow(cfg, vel)
}

// The scores' part: warn, the window with this tick's hit, its hits, whether they are enough.
#[tactic(auto, unfolding(crate::specs::Findings::scored_of))]
fn score(cfg: FuseConfig, sc: Scores, before: Window) -> Scored
    ensures { result ≡ scored_of cfg sc before }
{
    let hit = trip(cfg.calib, sc);
    let window = push(before, hit, cfg.window_mask);
    let count = hits(window);
    Scored {
        warn: is_warn(hit, sc.s, cfg.calib.tau, cfg.hyst.warn_margin),
        window,
        hits: count,
        predictive: cfg.hyst.k <= count,
    }
}

// All that is found before the state machine runs.
#[tactic(auto, unfolding(crate::specs::Findings::findings_of, crate::specs::Findings::chunk_passes))]
pub fn find(
    cfg: FuseConfig,
    boundary: bool,
    out: Outcome,
    w: Window,
    vel: [f64; MAX_POS],
) -> Findings
    ensures { result ≡ findings_of cfg boundary out w vel }
{
    let trips = masked(out.trips, out.feasible, cfg.tier0_enabled);
    Findings {
        trips,
        scored: score(cfg, out.scores, w),
        stopped: standstill(cfg, vel),
        chunk_ok: boundary && trips == 0,
    }
}

// What the state machine is asked in a clean tick.
#[tactic(auto, unfolding(crate::specs::Findings::machine_input, lictor_guard::specs::Delivery::delivered_of))]
pub fn machine_input(cfg: FuseConfig, inp: TickInput, found: Findings) -> FsmInput
    ensures { result ≡ machine_input cfg inp found }
{
    FsmInput {
        trips: found.trips,
        predictive: found.scored.predictive,
        warn: found.scored.warn,
        soft_clampable: cfg.clamp == ClampMode::Project,
        stopped: found.stopped,
        chunk_boundary: inp.chunk.is_some(),
        chunk_ok: found.chunk_ok,
        ack: inp.ack,
    }
}
