// Whether a program goes on with its input, or why not.
ghost use Rattle.std.specs.Prelude.{◌≡◌};
ghost use Rattle.console.specs.Phases as S;

use channels::intake::Supply;
use journal_refusals::Refusal;

#[derive(Clone, Copy)]
pub enum Phase {
    // there may be records to take
    Plays,
    // bytes have to come first
    Waits,
    // a record was refused, by this number
    Refused(u8),
    // the last read said that the input is over
    InputOver,
    // the last read failed
    ReadFailed,
    // no read is left
    ReadsOver,
    // a write failed
    WriteFailed,
}

impl Phase {
    // After records were taken: whether a write failed, the room for text is full, one was refused.
    pub fn after_step(failed: bool, full: bool, refused: Option<u8>) -> Phase
        ensures { result ≡ S.phase_played failed full refused }
    {
        if failed {
            return Phase::WriteFailed;
        }
        if full {
            return Phase::Plays;
        }
        match refused {
            Some(number) => Phase::Refused(number),
            None => Phase::Waits,
        }
    }

    // After a read.
    pub fn after_read(last: Supply) -> Phase
        ensures { result ≡ S.phase_read last }
    {
        match last {
            Supply::More => Phase::Plays,
            Supply::Over => Phase::InputOver,
            Supply::Failed => Phase::ReadFailed,
            Supply::Spent => Phase::ReadsOver,
        }
    }

    // After the text of the ending, if there is one.
    pub fn after_ending(self, failed: bool) -> Phase
        ensures { result ≡ S.phase_ended self failed }
    {
        if failed { Phase::WriteFailed } else { self }
    }

    pub fn is_going(self) -> bool
        ensures { result ≡ S.is_going self }
    {
        matches!(self, Phase::Plays | Phase::Waits)
    }

    // Bytes have to come before records can be taken.
    pub fn is_waiting(self) -> bool
        ensures { result ≡ S.is_waiting self }
    {
        matches!(self, Phase::Waits)
    }

    // The text of an ending is written at a refusal and at the end of the input.
    pub fn has_ending(self) -> bool
        ensures { result ≡ S.has_ending self }
    {
        matches!(self, Phase::Refused(_) | Phase::InputOver)
    }

    // The number of the refusal, where the last step had this one, and `have` bytes are left over: at
    // the end of the input they are a record that it cut.
    pub fn refused(self, last: Option<u8>, have: usize) -> Option<u8>
        ensures { result ≡ S.number_ended self last have }
    {
        match self {
            Phase::Refused(number) => Some(number),
            Phase::InputOver => left_over(have),
            Phase::Plays
            | Phase::Waits
            | Phase::ReadFailed
            | Phase::ReadsOver
            | Phase::WriteFailed => last,
        }
    }
}

fn left_over(have: usize) -> Option<u8>
    ensures { result ≡ S.number_left have }
{
    if have == 0 {
        return None;
    }
    Some(journal_refusals::number(Refusal::CutBody))
}
