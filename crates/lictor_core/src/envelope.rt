// The settings of a fuse, as a journal or a host hands them over, and the configuration that the
// core works on (envelope.rs).
ghost use Rattle.std.specs.Prelude.{◌≡◌};
ghost use Rattle.lictor_core.specs.Codes.{clamp_mode_of, clamp_modes, listed, rearm_of, rearm_policies};

use crate::chunk::{ActionKind, MAX_POS};
use crate::code::Unlisted;
use crate::state::FuseMode;

// Operator slots.
pub const MAX_OPERATORS: usize = 8;

#[derive(Clone, Copy, Debug, PartialEq, Eq)]
pub enum ClampMode {
    Off,
    Project,
}

#[derive(Clone, Copy, Debug, PartialEq, Eq)]
pub enum RearmPolicy {
    Auto,
    AckOnly,
}

#[tactic(auto, unfolding(crate::specs::Codes::clamp_mode_of))]
impl TryFrom<u8> for ClampMode {
    type Error = Unlisted;

    ghost try_from_gives = { λ n r. r ≡ listed clamp_modes clamp_mode_of n };

    fn try_from(code: u8) -> Result<Self, Unlisted> {
        match code {
            0 => Ok(ClampMode::Off),
            1 => Ok(ClampMode::Project),
            _ => Err(Unlisted(code)),
        }
    }
}

#[tactic(auto, unfolding(crate::specs::Codes::rearm_of))]
impl TryFrom<u8> for RearmPolicy {
    type Error = Unlisted;

    ghost try_from_gives = { λ n r. r ≡ listed rearm_policies rearm_of n };

    fn try_from(code: u8) -> Result<Self, Unlisted> {
        match code {
            0 => Ok(RearmPolicy::Auto),
            1 => Ok(RearmPolicy::AckOnly),
            _ => Err(Unlisted(code)),
        }
    }
}

// The clamp mode of a code; the check of the settings refuses a code that is not listed.
#[tactic(auto, unfolding(crate::specs::Codes::clamp_mode_of))]
pub fn clamp_mode_of(n: u8) -> ClampMode
    ensures { result ≡ clamp_mode_of n }
{
    ClampMode::try_from(n).unwrap_or(ClampMode::Project)
}

// The rearm policy of a code, likewise.
#[tactic(auto, unfolding(crate::specs::Codes::rearm_of))]
pub fn rearm_of(n: u8) -> RearmPolicy
    ensures { result ≡ rearm_of n }
{
    RearmPolicy::try_from(n).unwrap_or(RearmPolicy::AckOnly)
}

// The limits of the state machine. (The Rust keeps the rearm policy here too; it is beside, since
// its code is checked.)
#[derive(Clone, Copy)]
pub struct Hysteresis {
    pub k: u8,
    pub warn_margin: f64,
    pub clear_ticks: u8,
    pub clamp_streak_to_brake: u8,
    pub max_clamps_per_episode: u16,
    pub stop_confirm_ticks: u8,
    pub v_stop_eps: f64,
    pub brake_timeout_ticks: u16,
    pub rearm_hold: u16,
    pub max_rearms: u8,
    pub escalate_after_hold_ticks: u16,
    pub handoff_timeout_ticks: u32,
    pub watchdog_ticks: u8,
}

// Of the calibration the tick reads the mask and the threshold.
#[derive(Clone, Copy)]
pub struct Calibration {
    pub mask: u32,
    pub tau: f64,
}

// Settings as they come: codes and sizes are plain numbers, not yet checked.
#[derive(Clone, Copy)]
pub struct Settings {
    pub mode: u8,
    pub kind: u8,
    pub clamp: u8,
    pub rearm: u8,
    pub dim: u8,
    pub pos_dim: u8,
    pub horizon: u16,
    pub exec: u16,
    pub dt: f64,
    pub inv_dt: f64,
    pub a_max: f64,
    pub box_lo: [f64; MAX_POS],
    pub box_hi: [f64; MAX_POS],
    pub hyst: Hysteresis,
    pub window_mask: u64,
    pub tier0_enabled: u32,
    pub calib: Calibration,
}

// Settings that passed the check, the codes as enums.
#[derive(Clone, Copy)]
pub struct FuseConfig {
    pub mode: FuseMode,
    pub kind: ActionKind,
    pub clamp: ClampMode,
    pub rearm: RearmPolicy,
    pub dim: usize,
    pub pos_dim: usize,
    pub horizon: usize,
    pub exec: usize,
    pub dt: f64,
    pub inv_dt: f64,
    pub a_max: f64,
    pub box_lo: [f64; MAX_POS],
    pub box_hi: [f64; MAX_POS],
    pub hyst: Hysteresis,
    pub window_mask: u64,
    pub tier0_enabled: u32,
    pub calib: Calibration,
}
