// What the state machine takes in and what it answers (fsm.rs). What it does is written down as a
// table over these types, in specs/Table.antt; the code that follows the table is in the crate
// lictor_fsm.
#![tactic(auto)]

ghost use Rattle.std.specs.Prelude.{◌≡◌};
ghost use Rattle.lictor_table.specs.Helpers.{to};

use lictor_core::ack::VerifiedAck;
use lictor_core::fuse::Control;
use lictor_core::reason::ReasonCode;
use lictor_core::state::FuseState;

// What a tick brings to the state machine.
#[derive(Clone, Copy)]
pub struct FsmInput {
    pub trips: u32,
    pub predictive: bool,
    pub warn: bool,
    pub soft_clampable: bool,
    pub stopped: bool,
    pub chunk_boundary: bool,
    pub chunk_ok: bool,
    pub ack: Option<VerifiedAck>,
}

// What a tick ends in: the machine's part of the run state, and beside it the triple that the
// Rust's `next` answers.
#[derive(Clone, Copy)]
pub struct Turn {
    pub rt: Control,
    pub state: FuseState,
    pub extra: u32,
    pub reason: ReasonCode,
}

impl Turn {
    // The state that a row goes to, the trip bits that it adds, its reason, and what it leaves of
    // the run state.
    pub fn to(state: FuseState, extra: u32, reason: ReasonCode, rt: Control) -> Turn
        ensures { result ≡ to state extra reason rt }
    {
        Turn {
            rt,
            state,
            extra,
            reason,
        }
    }
}
