// The counts of an episode (tally.rs). Its functions are in the crate lictor_tally.
use crate::reason::ReasonCode;
use crate::scores::NFEAT;
use crate::state::{FuseState, Time};
use crate::verdict::TRIP_BITS;

#[derive(Clone, Copy)]
pub struct Tally {
    pub ticks: u32,
    pub nominal: u32,
    pub watching: u32,
    pub clamped: u32,
    pub braking: u32,
    pub held: u32,
    pub escalated: u32,
    pub fault: u32,
    pub terminated: u32,
    pub substituted: u32,
    pub chunks_seen: u32,
    pub chunks_rejected: u32,
    pub clamps: u32,
    pub holds: u32,
    pub rearms: u32,
    pub escalations: u32,
    pub trips_by_bit: [u32; TRIP_BITS],
    pub fired_by_feat: [u32; NFEAT],
    pub first_trip_tick: Option<Time>,
    pub first_trip_reason: Option<ReasonCode>,
    pub first_stop_tick: Option<Time>,
    pub handoff_tick: Option<Time>,
    pub violations_reached_env: u32,
    pub max_s: f64,
    pub max_z: [f64; NFEAT],
    pub terminal_state: FuseState,
    // Ticks of a stop state whose action is the brake or the hold one, no row of the outcome
    // (request 8). The Rust does not have it.
    pub stop_actions: u32,
}
