// Fuse states and modes (state.rs).
ghost use Rattle.std.specs.Prelude.{◌≡◌};
ghost use Rattle.lictor_core.specs.Codes.{is_stop, listed, mode_of, modes};

use crate::code::Unlisted;

// The order is the source's, and so are the numbers, from 0.
#[derive(Clone, Copy, Debug, PartialEq, Eq, PartialOrd, Ord)]
pub enum FuseState {
    Idle,
    Armed,
    Watching,
    Clamped,
    Braking,
    Held,
    Escalated,
    Fault,
    Terminated,
}

// Absolute env step: the one clock that ticks, chunks and marks share.
pub type Time = u32;

#[derive(Clone, Copy, Debug, PartialEq, Eq)]
pub enum FuseMode {
    Observe,
    Enforce,
}

// Whether the fuse stops the robot in this state: in Braking and the states after it.
pub fn is_stop(s: FuseState) -> bool
    ensures { result ≡ is_stop s }
{
    s >= FuseState::Braking
}

#[tactic(auto, unfolding(crate::specs::Codes::mode_of))]
impl TryFrom<u8> for FuseMode {
    type Error = Unlisted;

    ghost try_from_gives = { λ n r. r ≡ listed modes mode_of n };

    fn try_from(code: u8) -> Result<Self, Unlisted> {
        match code {
            0 => Ok(FuseMode::Observe),
            1 => Ok(FuseMode::Enforce),
            _ => Err(Unlisted(code)),
        }
    }
}

// The mode of a code; the check of the settings refuses a code that is not listed.
#[tactic(auto, unfolding(crate::specs::Codes::mode_of))]
pub fn mode_of(n: u8) -> FuseMode
    ensures { result ≡ mode_of n }
{
    FuseMode::try_from(n).unwrap_or(FuseMode::Enforce)
}
