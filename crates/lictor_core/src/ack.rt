// Acknowledgements of an operator (ack.rs), verified by the runtime before they come here.
ghost use Rattle.std.specs.Prelude.{◌≡◌};
ghost use Rattle.lictor_core.specs.Codes.{decision_of, decisions, listed};

use crate::code::Unlisted;

#[derive(Clone, Copy, Debug, PartialEq, Eq)]
pub enum AckDecision {
    Resume,
    Abort,
    Retune,
}

#[derive(Clone, Copy, Debug, PartialEq, Eq)]
pub struct VerifiedAck {
    pub decision: AckDecision,
    pub operator_slot: u8,
    pub nonce: u64,
    pub handoff_seq: u32,
}

#[tactic(auto, unfolding(crate::specs::Codes::decision_of))]
impl TryFrom<u8> for AckDecision {
    type Error = Unlisted;

    ghost try_from_gives = { λ n r. r ≡ listed decisions decision_of n };

    fn try_from(code: u8) -> Result<Self, Unlisted> {
        match code {
            0 => Ok(AckDecision::Resume),
            1 => Ok(AckDecision::Abort),
            2 => Ok(AckDecision::Retune),
            _ => Err(Unlisted(code)),
        }
    }
}

// The decision of a code; the journal's reader refuses a code that is not listed.
#[tactic(auto, unfolding(crate::specs::Codes::decision_of))]
pub fn decision_of(n: u8) -> AckDecision
    ensures { result ≡ decision_of n }
{
    AckDecision::try_from(n).unwrap_or(AckDecision::Retune)
}
