// The run state before and at the start of an episode (fuse.rs, FuseRt::new and reset),
// but that a reset keeps the stored nonces, which are then spent for good.
ghost use Rattle.std.specs.Prelude.{◌≡◌};
ghost use Rattle.lictor_core.specs.Initial.{empty_tally, fresh_control, fresh_motion, fresh_clock, new_of, reset_of};

use lictor_core::envelope::MAX_OPERATORS;
use lictor_core::fuse::{Clock, Control, FuseRt, Motion, Window};
use lictor_core::rows::no_row;
use lictor_core::state::FuseState;

#[tactic(auto, unfolding(lictor_core::specs::Initial::fresh_control))]
fn fresh_control(state: FuseState, nonces: [u64; MAX_OPERATORS]) -> Control
    ensures { result ≡ fresh_control state nonces }
{
    let hold = no_row();
    Control {
        window: Window { bits: 0 },
        state,
        hold,
        clean_run: 0,
        clamp_streak: 0,
        clamps: 0,
        brake_ticks: 0,
        stopped_ticks: 0,
        held_ticks: 0,
        held_clean: 0,
        escalated_ticks: 0,
        rearms: 0,
        handoff_seq: 0,
        handoff_pending: false,
        last_nonce: nonces,
    }
}

#[tactic(auto, unfolding(lictor_core::specs::Initial::fresh_motion))]
fn fresh_motion() -> Motion
    ensures { result ≡ fresh_motion }
{
    let zeros = no_row();
    Motion {
        pos: zeros,
        prev_pos: zeros,
        vel: zeros,
        have_prev_pos: false,
        last_cmd: zeros,
    }
}

#[tactic(auto, unfolding(lictor_core::specs::Initial::fresh_clock))]
fn fresh_clock() -> Clock
    ensures { result ≡ fresh_clock }
{
    Clock {
        filled: false,
        seq: 0,
        last_t: 0,
        next_chunk_seq: 0,
        chunk_ok_this_tick: false,
    }
}

// Everything zero, no chunk, in state s, with these nonces stored.
#[tactic(auto, unfolding(lictor_core::specs::Initial::fresh_control, lictor_core::specs::Initial::fresh_motion, lictor_core::specs::Initial::fresh_clock, lictor_core::specs::Initial::empty_tally))]
fn fresh(s: FuseState, nonces: [u64; MAX_OPERATORS]) -> FuseRt
    ensures { result ≡ record { control = fresh_control s nonces; motion = fresh_motion; clock = fresh_clock; tally = empty_tally } }
{
    FuseRt {
        control: fresh_control(s, nonces),
        motion: fresh_motion(),
        clock: fresh_clock(),
        tally: lictor_tally::empty(),
    }
}

// No episode yet, and no nonce stored.
#[tactic(auto, unfolding(lictor_core::specs::Initial::new_of, lictor_core::specs::Initial::no_nonces))]
pub fn new() -> FuseRt
    ensures { result ≡ new_of }
{
    fresh(FuseState::Idle, [0; MAX_OPERATORS])
}

// Clears everything but the stored nonces, and arms the fuse.
#[tactic(auto, unfolding(lictor_core::specs::Initial::reset_of))]
pub fn reset(rt: FuseRt) -> FuseRt
    ensures { result ≡ reset_of rt }
{
    fresh(FuseState::Armed, rt.control.last_nonce)
}
