// Sizes, action kinds and a chunk's head (chunk.rs).
ghost use Rattle.std.specs.Prelude.{◌≡◌};
ghost use Rattle.lictor_core.specs.Codes.{kind_of, kinds, listed};

use crate::code::Unlisted;
use crate::state::Time;

// Most components of an action.
pub const MAX_D: usize = 8;
// Most components of a position: as many, so that a row of either has one type.
pub const MAX_POS: usize = MAX_D;
// Most rows of a chunk.
pub const MAX_H: usize = 64;
// Most auxiliary values.
pub const MAX_AUX: usize = 8;
// Most external values.
pub const MAX_EXT: usize = 4;

#[derive(Clone, Copy, Debug, PartialEq, Eq)]
pub enum ActionKind {
    EePosition,
    EeDelta,
    JointPosition,
    JointVelocity,
    Other,
}

// What a delivered chunk says of itself. Its values come beside it, as a slice.
#[derive(Clone, Copy, Debug, PartialEq, Eq)]
pub struct ChunkHead {
    pub seq: u32,
    pub t_emit: Time,
    pub horizon: u16,
    pub dim: u16,
    pub exec_steps: u16,
}

#[tactic(auto, unfolding(crate::specs::Codes::kind_of))]
impl TryFrom<u8> for ActionKind {
    type Error = Unlisted;

    ghost try_from_gives = { λ n r. r ≡ listed kinds kind_of n };

    fn try_from(code: u8) -> Result<Self, Unlisted> {
        match code {
            0 => Ok(ActionKind::EePosition),
            1 => Ok(ActionKind::EeDelta),
            2 => Ok(ActionKind::JointPosition),
            3 => Ok(ActionKind::JointVelocity),
            4 => Ok(ActionKind::Other),
            _ => Err(Unlisted(code)),
        }
    }
}

// The kind of a code; the check of the settings refuses a code that is not listed.
#[tactic(auto, unfolding(crate::specs::Codes::kind_of))]
pub fn kind_of(n: u8) -> ActionKind
    ensures { result ≡ kind_of n }
{
    ActionKind::try_from(n).unwrap_or(ActionKind::Other)
}
