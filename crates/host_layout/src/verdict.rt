// What a tick gives, as numbers in the layout of C.
// Codes are those of lictor_core, specs/Codes, and a flag is 0 or 1: they are the C interface.
ghost use Rattle.std.specs.Prelude.{◌≡◌};
ghost use Rattle.host_layout.specs.Verdict.{verdict_out};

use lictor_core::chunk::MAX_D;
use lictor_core::scores::NFEAT;
use lictor_core::state::Time;
use lictor_core::verdict::SafetyVerdict;

#[repr(C)]
#[derive(Clone, Copy)]
pub struct Verdict {
    pub seq: u32,
    pub t: Time,
    pub status: u8,
    pub state: u8,
    pub prev_state: u8,
    pub trips: u32,
    pub action: [f64; MAX_D],
    pub action_dim: u16,
    pub action_src: u8,
    pub substituted: u8,
    pub clamped_dims: u32,
    pub z: [f64; NFEAT],
    pub s: f64,
    pub valid: u32,
    pub fired: u32,
    pub tau: f64,
    pub window: u64,
    pub window_hits: u8,
    pub brake_margin: f64,
    pub reason: u8,
    pub handoff_set: u8,
    pub handoff_seq: u32,
    pub ack_consumed: u8,
    pub violation_reached_env: u8,
}

// Which pattern a NaN has is the program's choice.

impl From<SafetyVerdict> for Verdict {
    ghost from_gives = { λ v r. r ≡ verdict_out v };

    fn from(verdict: SafetyVerdict) -> Self {
        let action = verdict.action;
        let scores = verdict.scores;
        let z = scores.z;
        Verdict {
            seq: verdict.seq,
            t: verdict.t,
            status: verdict.status as u8,
            state: verdict.state as u8,
            prev_state: verdict.prev_state as u8,
            trips: verdict.trips,
            action,
            action_dim: verdict.action_dim,
            action_src: verdict.action_src as u8,
            substituted: u8::from(verdict.substituted),
            clamped_dims: verdict.clamped_dims,
            z,
            s: scores.s,
            valid: scores.valid,
            fired: scores.fired,
            tau: verdict.tau,
            window: verdict.window,
            window_hits: verdict.window_hits,
            brake_margin: verdict.brake_margin,
            reason: verdict.reason as u8,
            handoff_set: u8::from(verdict.handoff_seq.is_some()),
            handoff_seq: verdict.handoff_seq.unwrap_or(0),
            ack_consumed: u8::from(verdict.ack_consumed),
            violation_reached_env: u8::from(verdict.violation_reached_env),
        }
    }
}
