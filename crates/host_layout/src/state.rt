// The run state as numbers in the layout of C, to and from the fuse's.
// Field names are the fuse's, and their order is that of fuse.rs in each group.
// Numbers for codes, marks and flags: they are the C interface.
// A host has no need to look inside: it lends what `disklorva_new` gave it.
// Any bytes are a run state: an unlisted code of a state is Fault, one of a reason EpisodeEnd.
ghost use Rattle.std.specs.Prelude.{◌≡◌};
ghost use Rattle.host_layout.specs.State.{state_of, reason_of, mark_in, mark_out, reason_mark_in, reason_mark_out, control_in, control_out, motion_in, motion_out, clock_in, clock_out, tally_in, tally_out, state_in, state_out};

use lictor_core::chunk::{MAX_D, MAX_POS};
use lictor_core::envelope::MAX_OPERATORS;
use lictor_core::fuse::{FuseRt, Window};
use lictor_core::reason::ReasonCode;
use lictor_core::scores::NFEAT;
use lictor_core::state::{FuseState, Time};
use lictor_core::verdict::TRIP_BITS;

// The rows are before the small fields, as in lictor_core: with a gap in front of a row a copy of it
// is slow.
#[repr(C)]
#[derive(Clone, Copy)]
pub struct Control {
    pub window: u64,
    pub last_nonce: [u64; MAX_OPERATORS],
    pub hold: [f64; MAX_POS],
    pub state: u8,
    pub clean_run: u16,
    pub clamp_streak: u8,
    pub clamps: u16,
    pub brake_ticks: u16,
    pub stopped_ticks: u8,
    pub held_ticks: u16,
    pub held_clean: u16,
    pub escalated_ticks: u32,
    pub rearms: u8,
    pub handoff_seq: u32,
    pub handoff_pending: u8,
}

#[repr(C)]
#[derive(Clone, Copy)]
pub struct Motion {
    pub pos: [f64; MAX_POS],
    pub prev_pos: [f64; MAX_POS],
    pub vel: [f64; MAX_POS],
    pub last_cmd: [f64; MAX_D],
    pub have_prev_pos: u8,
}

#[repr(C)]
#[derive(Clone, Copy)]
pub struct Clock {
    pub filled: u8,
    pub seq: u32,
    pub last_t: Time,
    pub next_chunk_seq: u32,
    pub chunk_ok_this_tick: u8,
}

// A time, where `set` is not 0.
#[repr(C)]
#[derive(Clone, Copy)]
pub struct Mark {
    pub set: u8,
    pub at: Time,
}

// A reason, where `set` is not 0.
#[repr(C)]
#[derive(Clone, Copy)]
pub struct ReasonMark {
    pub set: u8,
    pub reason: u8,
}

#[repr(C)]
#[derive(Clone, Copy)]
pub struct Tally {
    pub ticks: u32,
    pub nominal: u32,
    pub watching: u32,
    pub clamped: u32,
    pub braking: u32,
    pub held: u32,
    pub escalated: u32,
    pub fault: u32,
    pub terminated: u32,
    pub substituted: u32,
    pub chunks_seen: u32,
    pub chunks_rejected: u32,
    pub clamps: u32,
    pub holds: u32,
    pub rearms: u32,
    pub escalations: u32,
    pub trips_by_bit: [u32; TRIP_BITS],
    pub fired_by_feat: [u32; NFEAT],
    pub first_trip_tick: Mark,
    pub first_trip_reason: ReasonMark,
    pub first_stop_tick: Mark,
    pub handoff_tick: Mark,
    pub violations_reached_env: u32,
    pub max_s: f64,
    pub max_z: [f64; NFEAT],
    pub terminal_state: u8,
    pub stop_actions: u32,
}

#[repr(C)]
#[derive(Clone, Copy)]
pub struct RunState {
    pub control: Control,
    pub motion: Motion,
    pub clock: Clock,
    pub tally: Tally,
}

// A function and no TryFrom: every number has a meaning here (`state_of`, specs/State).
#[tactic(auto, unfolding(crate::specs::State::states))]
fn state_of(n: u8) -> FuseState
    ensures { result ≡ state_of n }
{
    match n {
        0 => FuseState::Idle,
        1 => FuseState::Armed,
        2 => FuseState::Watching,
        3 => FuseState::Clamped,
        4 => FuseState::Braking,
        5 => FuseState::Held,
        6 => FuseState::Escalated,
        7 => FuseState::Fault,
        8 => FuseState::Terminated,
        _ => FuseState::Fault,
    }
}

#[tactic(auto, unfolding(crate::specs::State::reasons))]
fn reason_of(n: u8) -> ReasonCode
    ensures { result ≡ reason_of n }
{
    match n {
        0 => ReasonCode::Ok,
        1 => ReasonCode::ObserveOnly,
        2 => ReasonCode::WatchBand,
        3 => ReasonCode::ClampWorkspace,
        4 => ReasonCode::ClampSpeed,
        5 => ReasonCode::ClampAccel,
        6 => ReasonCode::ClampJerk,
        7 => ReasonCode::ClampReach,
        8 => ReasonCode::ClampContact,
        9 => ReasonCode::BrakeInfeasible,
        10 => ReasonCode::BrakeTier1Cp,
        11 => ReasonCode::BrakeClampBudget,
        12 => ReasonCode::Stopping,
        13 => ReasonCode::HeldStandstill,
        14 => ReasonCode::EscalateHoldTimeout,
        15 => ReasonCode::EscalateRearmBudget,
        16 => ReasonCode::EscalateTier1Persistent,
        17 => ReasonCode::FaultNonFinite,
        18 => ReasonCode::FaultSchema,
        19 => ReasonCode::FaultWatchdog,
        20 => ReasonCode::FaultBrakeTimeout,
        21 => ReasonCode::FaultInternal,
        22 => ReasonCode::RearmedAuto,
        23 => ReasonCode::RearmedAck,
        24 => ReasonCode::TerminatedAbort,
        25 => ReasonCode::TerminatedTimeout,
        26 => ReasonCode::TerminatedRetune,
        27 => ReasonCode::EpisodeEnd,
        _ => ReasonCode::EpisodeEnd,
    }
}

#[tactic(auto, unfolding(crate::specs::State::mark_in))]
impl From<Mark> for Option<Time> {
    ghost from_gives = { λ m r. r ≡ mark_in m };

    fn from(m: Mark) -> Self {
        if m.set == 0 { None } else { Some(m.at) }
    }
}

#[tactic(auto, unfolding(crate::specs::State::mark_out))]
impl From<Option<Time>> for Mark {
    ghost from_gives = { λ m r. r ≡ mark_out m };

    fn from(m: Option<Time>) -> Self {
        match m {
            None => Mark { set: 0, at: 0 },
            Some(at) => Mark { set: 1, at },
        }
    }
}

#[tactic(auto, unfolding(crate::specs::State::reason_mark_in))]
impl From<ReasonMark> for Option<ReasonCode> {
    ghost from_gives = { λ m r. r ≡ reason_mark_in m };

    fn from(m: ReasonMark) -> Self {
        if m.set == 0 {
            None
        } else {
            Some(reason_of(m.reason))
        }
    }
}

#[tactic(auto, unfolding(crate::specs::State::reason_mark_out, crate::specs::State::reason_set))]
impl From<Option<ReasonCode>> for ReasonMark {
    ghost from_gives = { λ m r. r ≡ reason_mark_out m };

    fn from(m: Option<ReasonCode>) -> Self {
        match m {
            None => ReasonMark { set: 0, reason: 0 },
            Some(why) => ReasonMark {
                set: 1,
                reason: why as u8,
            },
        }
    }
}

#[tactic(auto, unfolding(crate::specs::State::control_in, crate::specs::Flags::flag_of))]
impl From<Control> for lictor_core::fuse::Control {
    ghost from_gives = { λ c r. r ≡ control_in c };

    fn from(given: Control) -> Self {
        let hold = given.hold;
        let last_nonce = given.last_nonce;
        lictor_core::fuse::Control {
            window: Window { bits: given.window },
            state: state_of(given.state),
            hold,
            clean_run: given.clean_run,
            clamp_streak: given.clamp_streak,
            clamps: given.clamps,
            brake_ticks: given.brake_ticks,
            stopped_ticks: given.stopped_ticks,
            held_ticks: given.held_ticks,
            held_clean: given.held_clean,
            escalated_ticks: given.escalated_ticks,
            rearms: given.rearms,
            handoff_seq: given.handoff_seq,
            handoff_pending: given.handoff_pending != 0,
            last_nonce,
        }
    }
}

#[tactic(auto, unfolding(crate::specs::State::motion_in, crate::specs::Flags::flag_of))]
impl From<Motion> for lictor_core::fuse::Motion {
    ghost from_gives = { λ c r. r ≡ motion_in c };

    fn from(given: Motion) -> Self {
        let pos = given.pos;
        let prev_pos = given.prev_pos;
        let vel = given.vel;
        let last_cmd = given.last_cmd;
        lictor_core::fuse::Motion {
            pos,
            prev_pos,
            vel,
            have_prev_pos: given.have_prev_pos != 0,
            last_cmd,
        }
    }
}

#[tactic(auto, unfolding(crate::specs::State::clock_in, crate::specs::Flags::flag_of))]
impl From<Clock> for lictor_core::fuse::Clock {
    ghost from_gives = { λ c r. r ≡ clock_in c };

    fn from(given: Clock) -> Self {
        lictor_core::fuse::Clock {
            filled: given.filled != 0,
            seq: given.seq,
            last_t: given.last_t,
            next_chunk_seq: given.next_chunk_seq,
            chunk_ok_this_tick: given.chunk_ok_this_tick != 0,
        }
    }
}

// Which pattern a NaN has is the program's choice.
#[tactic(auto, unfolding(crate::specs::State::tally_in))]
impl From<Tally> for lictor_core::tally::Tally {
    ghost from_gives = { λ c r. r ≡ tally_in c };

    fn from(given: Tally) -> Self {
        let trips_by_bit = given.trips_by_bit;
        let fired_by_feat = given.fired_by_feat;
        let max_z = given.max_z;
        lictor_core::tally::Tally {
            ticks: given.ticks,
            nominal: given.nominal,
            watching: given.watching,
            clamped: given.clamped,
            braking: given.braking,
            held: given.held,
            escalated: given.escalated,
            fault: given.fault,
            terminated: given.terminated,
            substituted: given.substituted,
            chunks_seen: given.chunks_seen,
            chunks_rejected: given.chunks_rejected,
            clamps: given.clamps,
            holds: given.holds,
            rearms: given.rearms,
            escalations: given.escalations,
            trips_by_bit,
            fired_by_feat,
            first_trip_tick: given.first_trip_tick.into(),
            first_trip_reason: given.first_trip_reason.into(),
            first_stop_tick: given.first_stop_tick.into(),
            handoff_tick: given.handoff_tick.into(),
            violations_reached_env: given.violations_reached_env,
            max_s: given.max_s,
            max_z,
            terminal_state: state_of(given.terminal_state),
            stop_actions: given.stop_actions,
        }
    }
}

#[tactic(auto, unfolding(crate::specs::State::control_out, crate::specs::Flags::flag_code))]
impl From<lictor_core::fuse::Control> for Control {
    ghost from_gives = { λ c r. r ≡ control_out c };

    fn from(control: lictor_core::fuse::Control) -> Self {
        let hold = control.hold;
        let last_nonce = control.last_nonce;
        Control {
            window: control.window.bits,
            state: control.state as u8,
            hold,
            clean_run: control.clean_run,
            clamp_streak: control.clamp_streak,
            clamps: control.clamps,
            brake_ticks: control.brake_ticks,
            stopped_ticks: control.stopped_ticks,
            held_ticks: control.held_ticks,
            held_clean: control.held_clean,
            escalated_ticks: control.escalated_ticks,
            rearms: control.rearms,
            handoff_seq: control.handoff_seq,
            handoff_pending: u8::from(control.handoff_pending),
            last_nonce,
        }
    }
}

#[tactic(auto, unfolding(crate::specs::State::motion_out, crate::specs::Flags::flag_code))]
impl From<lictor_core::fuse::Motion> for Motion {
    ghost from_gives = { λ c r. r ≡ motion_out c };

    fn from(motion: lictor_core::fuse::Motion) -> Self {
        let pos = motion.pos;
        let prev_pos = motion.prev_pos;
        let vel = motion.vel;
        let last_cmd = motion.last_cmd;
        Motion {
            pos,
            prev_pos,
            vel,
            have_prev_pos: u8::from(motion.have_prev_pos),
            last_cmd,
        }
    }
}

#[tactic(auto, unfolding(crate::specs::State::clock_out, crate::specs::Flags::flag_code))]
impl From<lictor_core::fuse::Clock> for Clock {
    ghost from_gives = { λ c r. r ≡ clock_out c };

    fn from(clock: lictor_core::fuse::Clock) -> Self {
        Clock {
            filled: u8::from(clock.filled),
            seq: clock.seq,
            last_t: clock.last_t,
            next_chunk_seq: clock.next_chunk_seq,
            chunk_ok_this_tick: u8::from(clock.chunk_ok_this_tick),
        }
    }
}

// Which pattern a NaN has is the program's choice.
#[tactic(auto, unfolding(crate::specs::State::tally_out))]
impl From<lictor_core::tally::Tally> for Tally {
    ghost from_gives = { λ c r. r ≡ tally_out c };

    fn from(tally: lictor_core::tally::Tally) -> Self {
        let trips_by_bit = tally.trips_by_bit;
        let fired_by_feat = tally.fired_by_feat;
        let max_z = tally.max_z;
        Tally {
            ticks: tally.ticks,
            nominal: tally.nominal,
            watching: tally.watching,
            clamped: tally.clamped,
            braking: tally.braking,
            held: tally.held,
            escalated: tally.escalated,
            fault: tally.fault,
            terminated: tally.terminated,
            substituted: tally.substituted,
            chunks_seen: tally.chunks_seen,
            chunks_rejected: tally.chunks_rejected,
            clamps: tally.clamps,
            holds: tally.holds,
            rearms: tally.rearms,
            escalations: tally.escalations,
            trips_by_bit,
            fired_by_feat,
            first_trip_tick: tally.first_trip_tick.into(),
            first_trip_reason: tally.first_trip_reason.into(),
            first_stop_tick: tally.first_stop_tick.into(),
            handoff_tick: tally.handoff_tick.into(),
            violations_reached_env: tally.violations_reached_env,
            max_s: tally.max_s,
            max_z,
            terminal_state: tally.terminal_state as u8,
            stop_actions: tally.stop_actions,
        }
    }
}

// Which pattern a NaN has is the program's choice.
#[tactic(auto, unfolding(crate::specs::State::state_in))]
impl From<RunState> for FuseRt {
    ghost from_gives = { λ s r. r ≡ state_in s };

    fn from(rt: RunState) -> Self {
        FuseRt {
            control: rt.control.into(),
            motion: rt.motion.into(),
            clock: rt.clock.into(),
            tally: rt.tally.into(),
        }
    }
}

// Which pattern a NaN has is the program's choice.
#[tactic(auto, unfolding(crate::specs::State::state_out))]
impl From<FuseRt> for RunState {
    ghost from_gives = { λ s r. r ≡ state_out s };

    fn from(rt: FuseRt) -> Self {
        RunState {
            control: rt.control.into(),
            motion: rt.motion.into(),
            clock: rt.clock.into(),
            tally: rt.tally.into(),
        }
    }
}
