// The verdict of a tick and the trip bits (verdict.rs).
ghost use Rattle.std.specs.Prelude.{◌≡◌};
ghost use Rattle.lictor_core.specs.Codes.{is_stop_action};
ghost use Rattle.lictor_core.specs.Masks.{any_of};

use crate::chunk::MAX_D;
use crate::reason::ReasonCode;
use crate::scores::Scores;
use crate::state::{FuseState, Time};

#[derive(Clone, Copy, Debug, PartialEq, Eq)]
pub enum Status {
    Nominal,
    Watching,
    Clamped,
    Braking,
    Held,
    Escalated,
    Fault,
    Terminated,
}

// Trip bits.
pub const WORKSPACE: u32 = 1 << 0;

pub const SPEED: u32 = 1 << 1;

pub const ACCEL: u32 = 1 << 2;

pub const JERK: u32 = 1 << 3;

pub const REACH: u32 = 1 << 4;

pub const CONTACT: u32 = 1 << 5;

pub const BRAKE: u32 = 1 << 6;

pub const NONFINITE: u32 = 1 << 7;

pub const SCHEMA: u32 = 1 << 8;

pub const WATCHDOG: u32 = 1 << 9;

pub const TIER1_CP: u32 = 1 << 10;

pub const CLAMP_BUDGET: u32 = 1 << 11;

pub const HANDOFF_TIMEOUT: u32 = 1 << 12;

pub const OPERATOR_ABORT: u32 = 1 << 13;

pub const BRAKE_TIMEOUT: u32 = 1 << 14;

pub const REARM_BUDGET: u32 = 1 << 15;

// How many trip bits there are.
pub const TRIP_BITS: usize = 16;

pub const TIER0_SOFT: u32 = WORKSPACE | SPEED | ACCEL | JERK | REACH | CONTACT;

pub const TIER0_HARD: u32 = BRAKE | NONFINITE | SCHEMA | WATCHDOG;
// The bits that lead to Fault from any state (fsm.rs).
pub const FAULT_BITS: u32 = NONFINITE | SCHEMA | WATCHDOG;

#[derive(Clone, Copy, Debug, PartialEq, Eq)]
pub enum ActionSource {
    Policy,
    Clamped,
    Brake,
    Hold,
}

#[derive(Clone, Copy)]
pub struct SafetyVerdict {
    pub seq: u32,
    pub t: Time,
    pub status: Status,
    pub state: FuseState,
    pub prev_state: FuseState,
    pub trips: u32,
    pub action: [f64; MAX_D],
    pub action_dim: u16,
    pub action_src: ActionSource,
    pub substituted: bool,
    pub clamped_dims: u32,
    pub scores: Scores,
    pub tau: f64,
    pub window: u64,
    pub window_hits: u8,
    pub brake_margin: f64,
    pub reason: ReasonCode,
    // the number of the handoff that the tick begins
    pub handoff_seq: Option<u32>,
    pub ack_consumed: bool,
    pub violation_reached_env: bool,
}

// Whether `trips` holds a bit of `mask`.
#[tactic(auto, unfolding(crate::specs::Masks::any_of))]
pub fn any(trips: u32, mask: u32) -> bool
    ensures { result ≡ any_of trips mask }
{
    trips & mask != 0
}

// Whether the action is the fuse's own, which stops the arm: the others are rows of the outcome.
pub fn is_stop_action(s: ActionSource) -> bool
    ensures { result ≡ is_stop_action s }
{
    match s {
        ActionSource::Policy | ActionSource::Clamped => false,
        ActionSource::Brake => true,
        ActionSource::Hold => true,
    }
}
