// The run state of the fuse and the numbers of a tick (fuse.rs). Field names are the Rust's; the
// fields are in groups, so that a function takes the group it works on.
use crate::ack::VerifiedAck;
use crate::chunk::{ChunkHead, MAX_D, MAX_POS};
use crate::envelope::MAX_OPERATORS;
use crate::state::{FuseState, Time};
use crate::tally::Tally;

// K-of-N hit window (window.rs).
#[derive(Clone, Copy)]
pub struct Window {
    pub bits: u64,
}

// What the state machine works on. The rows are before the small fields, here and in Motion: with a
// gap in front of a row a copy of it is slow.
#[derive(Clone, Copy)]
pub struct Control {
    pub window: Window,
    // the highest nonce consumed from each operator slot
    pub last_nonce: [u64; MAX_OPERATORS],
    // the latched hold setpoint
    pub hold: [f64; MAX_POS],
    pub state: FuseState,
    pub clean_run: u16,
    pub clamp_streak: u8,
    pub clamps: u16,
    pub brake_ticks: u16,
    pub stopped_ticks: u8,
    pub held_ticks: u16,
    pub held_clean: u16,
    pub escalated_ticks: u32,
    pub rearms: u8,
    pub handoff_seq: u32,
    pub handoff_pending: bool,
}

// Where the arm is and how it moves.
#[derive(Clone, Copy)]
pub struct Motion {
    pub pos: [f64; MAX_POS],
    pub prev_pos: [f64; MAX_POS],
    pub vel: [f64; MAX_POS],
    // the last action that was given out
    pub last_cmd: [f64; MAX_D],
    pub have_prev_pos: bool,
}

// What the guard checks continuity against.
#[derive(Clone, Copy)]
pub struct Clock {
    // a chunk was taken since the reset; in place of the chunk buffers
    pub filled: bool,
    pub seq: u32,
    pub last_t: Time,
    pub next_chunk_seq: u32,
    pub chunk_ok_this_tick: bool,
}

#[derive(Clone, Copy)]
pub struct FuseRt {
    pub control: Control,
    pub motion: Motion,
    pub clock: Clock,
    pub tally: Tally,
}

// The five lists of a tick's input. Each call lends them anew.
#[derive(Clone, Copy)]
pub struct Lists<'a> {
    pub pos: &'a [f64],
    pub vel: &'a [f64],
    pub aux: &'a [f64],
    pub ext: &'a [f64],
    pub chunk: &'a [f64],
}

// The numbers of a tick's input. Its lists come beside it.
#[derive(Clone, Copy)]
pub struct TickInput {
    pub t: Time,
    pub idx: u16,
    pub missed_ticks: u8,
    pub schema_fault: bool,
    // whether the velocity slice is supplied
    pub has_vel: bool,
    pub chunk: Option<ChunkHead>,
    pub ack: Option<VerifiedAck>,
}
