// What a tick is given, as numbers in the layout of C, and what it means.
// Numbers for codes and flags, and a flag beside what it is of: they are the C interface.
// A flag is 0 or 1, and where it is 0, what is beside it is not looked at.
// Any other value is taken as the safe choice: no for `feasible` and `has_ack`, yes for the others.
ghost use Rattle.std.specs.Prelude.{◌≡◌};
ghost use Rattle.host_layout.specs.Input.{settings_in, chunk_in, ack_by, ack_in, input_in, outcome_in};

use lictor_core::ack::{AckDecision, VerifiedAck};
use lictor_core::chunk::{ChunkHead, MAX_D, MAX_POS};
use lictor_core::envelope::{Calibration, Hysteresis};
use lictor_core::fuse::TickInput;
use lictor_core::scores::{NFEAT, Scores};
use lictor_core::state::Time;

// The fields of a journal's settings, in its order. The codes are those of the journal.
#[repr(C)]
#[derive(Clone, Copy)]
pub struct Settings {
    pub mode: u8,
    pub kind: u8,
    pub clamp: u8,
    pub rearm: u8,
    pub dim: u8,
    pub pos_dim: u8,
    pub k: u8,
    pub clear_ticks: u8,
    pub clamp_streak_to_brake: u8,
    pub stop_confirm_ticks: u8,
    pub watchdog_ticks: u8,
    pub max_rearms: u8,
    pub horizon: u16,
    pub exec: u16,
    pub max_clamps_per_episode: u16,
    pub brake_timeout_ticks: u16,
    pub rearm_hold: u16,
    pub escalate_after_hold_ticks: u16,
    pub handoff_timeout_ticks: u32,
    pub tier0_enabled: u32,
    pub calib_mask: u32,
    pub window_mask: u64,
    pub dt: f64,
    pub inv_dt: f64,
    pub a_max: f64,
    pub v_stop_eps: f64,
    pub warn_margin: f64,
    pub tau: f64,
    pub box_lo: [f64; MAX_POS],
    pub box_hi: [f64; MAX_POS],
}

#[repr(C)]
#[derive(Clone, Copy)]
pub struct Chunk {
    pub seq: u32,
    pub t_emit: Time,
    pub horizon: u16,
    pub dim: u16,
    pub exec_steps: u16,
}

// The decision is 0 Resume, 1 Abort, 2 Retune; with any other value there is no acknowledgement.
#[repr(C)]
#[derive(Clone, Copy)]
pub struct Ack {
    pub nonce: u64,
    pub handoff_seq: u32,
    pub decision: u8,
    pub operator_slot: u8,
}

#[repr(C)]
#[derive(Clone, Copy)]
pub struct Input {
    pub t: Time,
    pub idx: u16,
    pub missed_ticks: u8,
    pub schema_fault: u8,
    pub has_vel: u8,
    pub has_chunk: u8,
    pub has_ack: u8,
    pub chunk: Chunk,
    pub ack: Ack,
}

#[repr(C)]
#[derive(Clone, Copy)]
pub struct Outcome {
    pub trips: u32,
    pub clamped_dims: u32,
    pub feasible: u8,
    pub margin: f64,
    pub s: f64,
    pub valid: u32,
    pub fired: u32,
    pub z: [f64; NFEAT],
    pub policy: [f64; MAX_D],
    pub clamped: [f64; MAX_D],
}

// Which pattern a NaN has is the program's choice.
#[tactic(auto, unfolding(crate::specs::Input::settings_in))]
impl From<Settings> for lictor_core::envelope::Settings {
    ghost from_gives = { λ s r. r ≡ settings_in s };

    fn from(given: Settings) -> Self {
        let box_lo = given.box_lo;
        let box_hi = given.box_hi;
        lictor_core::envelope::Settings {
            mode: given.mode,
            kind: given.kind,
            clamp: given.clamp,
            rearm: given.rearm,
            dim: given.dim,
            pos_dim: given.pos_dim,
            horizon: given.horizon,
            exec: given.exec,
            dt: given.dt,
            inv_dt: given.inv_dt,
            a_max: given.a_max,
            box_lo,
            box_hi,
            hyst: Hysteresis {
                k: given.k,
                warn_margin: given.warn_margin,
                clear_ticks: given.clear_ticks,
                clamp_streak_to_brake: given.clamp_streak_to_brake,
                max_clamps_per_episode: given.max_clamps_per_episode,
                stop_confirm_ticks: given.stop_confirm_ticks,
                v_stop_eps: given.v_stop_eps,
                brake_timeout_ticks: given.brake_timeout_ticks,
                rearm_hold: given.rearm_hold,
                max_rearms: given.max_rearms,
                escalate_after_hold_ticks: given.escalate_after_hold_ticks,
                handoff_timeout_ticks: given.handoff_timeout_ticks,
                watchdog_ticks: given.watchdog_ticks,
            },
            window_mask: given.window_mask,
            tier0_enabled: given.tier0_enabled,
            calib: Calibration {
                mask: given.calib_mask,
                tau: given.tau,
            },
        }
    }
}

#[tactic(auto, unfolding(crate::specs::Input::chunk_in))]
fn chunk_in(has: u8, given: Chunk) -> Option<ChunkHead>
    ensures { result ≡ chunk_in has given }
{
    if has == 0 {
        return None;
    }
    Some(ChunkHead {
        seq: given.seq,
        t_emit: given.t_emit,
        horizon: given.horizon,
        dim: given.dim,
        exec_steps: given.exec_steps,
    })
}

#[tactic(auto, unfolding(crate::specs::Input::ack_by, crate::specs::Input::ack_given, lictor_core::specs::Codes::listed))]
impl From<Ack> for Option<VerifiedAck> {
    ghost from_gives = { λ a r. r ≡ ack_by a };

    fn from(ack: Ack) -> Self {
        match AckDecision::try_from(ack.decision) {
            Ok(decision) => Some(VerifiedAck {
                decision,
                operator_slot: ack.operator_slot,
                nonce: ack.nonce,
                handoff_seq: ack.handoff_seq,
            }),
            Err(_) => None,
        }
    }
}

// 1 alone says that an acknowledgement is there.
#[tactic(auto, unfolding(crate::specs::Input::ack_in, crate::specs::Flags::sure_of))]
fn ack_in(has: u8, ack: Ack) -> Option<VerifiedAck>
    ensures { result ≡ ack_in has ack }
{
    if has == 1 { ack.into() } else { None }
}

#[tactic(auto, unfolding(crate::specs::Input::input_in, crate::specs::Flags::flag_of))]
impl From<Input> for TickInput {
    ghost from_gives = { λ i r. r ≡ input_in i };

    fn from(given: Input) -> Self {
        TickInput {
            t: given.t,
            idx: given.idx,
            missed_ticks: given.missed_ticks,
            schema_fault: given.schema_fault != 0,
            has_vel: given.has_vel != 0,
            chunk: chunk_in(given.has_chunk, given.chunk),
            ack: ack_in(given.has_ack, given.ack),
        }
    }
}

// Which pattern a NaN has is the program's choice.
#[tactic(auto, unfolding(crate::specs::Input::outcome_in, crate::specs::Flags::sure_of))]
impl From<Outcome> for lictor_core::outcome::Outcome {
    ghost from_gives = { λ o r. r ≡ outcome_in o };

    fn from(given: Outcome) -> Self {
        let z = given.z;
        let policy = given.policy;
        let clamped = given.clamped;
        lictor_core::outcome::Outcome {
            trips: given.trips,
            clamped_dims: given.clamped_dims,
            feasible: given.feasible == 1,
            margin: given.margin,
            scores: Scores {
                z,
                s: given.s,
                valid: given.valid,
                fired: given.fired,
            },
            policy,
            clamped,
        }
    }
}
